// The 256 registers. Every word that reaches a register is stored here.
ghost use Rattle.std.specs.Prelude.{◌≡◌};
ghost use Rattle.machine.specs.Registers.{cleared, read, put};

#[derive(Drop)]
pub struct Registers {
    words: [u32; 256],
}

impl Registers {
    // All registers zero.
    pub fn new() -> Registers
        ensures { result.words ≡ cleared }
    {
        Registers { words: [0; 256] }
    }

    pub fn get(&self, register: u8) -> u32
        ensures { result ≡ read self.now.words register }
    {
        self.words[usize::from(register)]
    }

    // A register as it is once the word is stored in the register `into`.
    pub fn get_after_store(&self, into: u8, word: u32, register: u8) -> u32
        ensures { result ≡ read (put self.now.words into word) register }
    {
        let held = self.get(register);
        if into == register { word } else { held }
    }

    // Stores a word in a register, and leaves all others.
    pub fn store(&mut self, register: u8, word: u32)
        ensures { self.new.words ≡ put self.old.words register word }
    {
        let index = usize::from(register);
        self.words[index] = word;
    }
}
