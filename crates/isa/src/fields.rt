// The fields of an instruction word.
ghost use Rattle.std.specs.Prelude.{◌≡◌};
ghost use Rattle.isa.specs.Fields.{instruction_of, immediate_of, mask_of};

// What a branch asks of the flags that are named here: that some of them is set, or with i clear that none is.
#[derive(Clone, Copy, PartialEq, Eq, Debug)]
pub struct Mask {
    pub i: bool,
    pub v: bool,
    pub n: bool,
    pub z: bool,
}

// Every field that some instruction reads; which of them count is the opcode's.
#[derive(Clone, Copy, PartialEq, Eq, Debug)]
pub struct Instruction {
    pub opcode: u8,
    pub r3: u8,
    pub r1: u8,
    // a register, or the signed number i8
    pub r2: u8,
    pub mask: Mask,
}

// The instruction in a word.
impl From<u32> for Instruction {
    ghost from_gives = { λ word instruction. instruction ≡ instruction_of word };

    fn from(word: u32) -> Instruction {
        let [opcode, r3, r1, r2] = word.to_be_bytes();
        Instruction {
            opcode,
            r3,
            r1,
            r2,
            mask: Mask::from(word),
        }
    }
}

// The branch mask in an instruction's word, in bits 19 to 16.
impl From<u32> for Mask {
    ghost from_gives = { λ word mask. mask ≡ mask_of word };

    fn from(word: u32) -> Mask {
        let bit = |n: u32| (word >> n) % 2 == 1;
        Mask {
            i: bit(19),
            v: bit(18),
            n: bit(17),
            z: bit(16),
        }
    }
}

impl Instruction {
    // The signed number i8 as a word.
    pub fn immediate(self) -> u32
        ensures { result ≡ immediate_of self }
    {
        i32::from(self.r2.cast_signed()).cast_unsigned()
    }
}
