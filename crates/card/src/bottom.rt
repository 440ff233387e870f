// Cards over lent words, whose transfers never wait. What the words are lent for makes the difference: words lent for writing
// are open cells, words lent for reading are fixed ones.
// Beside the interface's own clause, each call says what the memory is then: so the lent words hold what was stored in them.
ghost use Rattle.std.specs.Prelude.{◌≡◌, ℕ, List, None, Ok};
ghost use Rattle.std.proofs.Common.{zero-le};
ghost use Rattle.card.specs.Cells.{Map};
ghost use Rattle.card.specs.Meaning.{Placed, Begun, Polled, idle};
ghost use Rattle.card.specs.Bottom.{addressed, word_at, open_cells, fixed_cells, bottom, waits_left, After, Keeps, Written, Loan, loan_of};

use super::card::{Card, Cells};
use super::cell::{Cell, Origin};
use super::port::Port;
use super::transfer::{Direction, End, Request, Transfer};
use refusal::Refusal;

// Whether a card over so many words has one at the address.
fn has_word(count: usize, address: u32) -> bool
    ensures { result ≡ addressed count address }
{
    (address as usize) < count && address < 65_536
}

// The word that a card over these words has at the address.
fn word_at(words: &[u32], address: u32) -> Option<u32>
    ensures { result ≡ word_at words.now address }
{
    has_word(words.len(), address).then(|| words[address as usize])
}

// Lent words as the cells of a card.
pub trait Memory {
    // The cell at each address.
    ghost cells: { Self → Map };

    // What is left of a memory after a word was stored at an address.
    ghost Rewritten: { Self → ℕ → ℕ → Self → Type 0 };

    // What no store changes, beside the cells.
    ghost Frame: { Type 0 };

    ghost frame: { Self → Frame };

    fn cell(&self, address: u32) -> Cell
        ensures { result ≡ cells self.now address };

    // Stores a word in an open cell; refused elsewhere.
    fn store(&mut self, address: u32, word: u32) -> Result<(), Refusal>
        ensures cells { Placed (bottom (cells self.old) None) address word
            result (bottom (cells self.new) None) }
        ensures rewritten { Rewritten self.old address word self.new }
        ensures frame { frame self.new ≡ frame self.old };
}

impl<'a> Memory for &'a mut [u32] {
    ghost cells = { λ m. open_cells m.now };

    ghost Rewritten = { Written };

    ghost Frame = { Loan };

    ghost frame = { loan_of };

    fn cell(&self, address: u32) -> Cell {
        match word_at(self, address) {
            Some(word) => Cell::Open(word),
            None => Cell::Absent(Origin { address, layer: 0 }),
        }
    }

    #[tactic(auto, using(crate::proofs::Loans::beyond_kept))]
    fn store(&mut self, address: u32, word: u32) -> Result<(), Refusal> {
        if !has_word(self.len(), address) {
            return Err(Refusal::NotOpen);
        }
        self[address as usize] = word;
        Ok(())
    }
}

impl<'a> Memory for &'a [u32] {
    ghost cells = { λ m. fixed_cells m.now };

    ghost Rewritten = { λ before address word after. after ≡ before };

    ghost Frame = { List ℕ };

    ghost frame = { λ m. m.now };

    fn cell(&self, address: u32) -> Cell {
        let origin = Origin { address, layer: 0 };
        match word_at(self, address) {
            Some(word) => Cell::Fixed(word, origin),
            None => Cell::Absent(origin),
        }
    }

    fn store(&mut self, _address: u32, _word: u32) -> Result<(), Refusal> {
        Err(Refusal::NotOpen)
    }
}

#[derive(Drop)]
pub struct BottomCard<M> {
    memory: M,
    port: Port,
    ghost unwaited: { waits_left port.transfer ≡ 0 },
}

// Open cells over words that are lent for writing.
pub type WordCard<'a> = BottomCard<&'a mut [u32]>;

// Fixed cells over words that are lent for reading.
pub type BootCard<'a> = BottomCard<&'a [u32]>;

impl<M> BottomCard<M> {
    fn over(memory: M) -> BottomCard<M>
        ensures memory { result.memory ≡ memory }
        ensures idle { result.port.transfer ≡ None }
    {
        BottomCard {
            memory,
            port: Port::idle(),
        }
    }
}

// Each card is made by a function of its own: an array or a `Vec` is lent as a slice only where the parameter is a slice, and what a
// caller knows afterwards of words lent for writing is more than of words lent for reading.
impl<'a> BottomCard<&'a mut [u32]> {
    // A card over the words, without a transfer. Words past the first 65,536 have no address.
    pub fn new(words: &'a mut [u32]) -> WordCard<'a>
        ensures words { Keeps words.entry result.memory words.old }
        ensures idle { result.port.transfer ≡ None }
    {
        WordCard::over(words)
    }
}

impl<'a> BottomCard<&'a [u32]> {
    // A card over the words, without a transfer. Words past the first 65,536 have no address.
    pub fn new(words: &'a [u32]) -> BootCard<'a>
        ensures words { result.memory.now ≡ words.now }
        ensures idle { result.port.transfer ≡ None }
    {
        BootCard::over(words)
    }
}

impl<M: Memory> Cells for BottomCard<M> {
    ghost meaning = { λ c. bottom (M.cells c.memory) c.port.transfer };

    ghost bounded = { λ _. zero-le };

    ghost Frame = { M.Frame };

    ghost frame = { λ c. M.frame c.memory };

    fn look(&self, address: u32) -> Cell {
        self.memory.cell(address)
    }

    fn patience(&self) -> u16 {
        0
    }

    fn place(&mut self, address: u32, word: u32) -> Result<(), Refusal>
        ensures placed { Placed (bottom (M.cells self.old.memory) self.old.port.transfer) address word
            result (bottom (M.cells self.new.memory) self.new.port.transfer) }
        ensures frame { M.frame self.new.memory ≡ M.frame self.old.memory }
        ensures memory { M.Rewritten self.old.memory address word self.new.memory }
    {
        self.memory.store(address, word)
    }
}

// Begin, poll and cancel are its port's. Each says besides what the memory is afterwards.
impl<M: Memory> Card for BottomCard<M> {
    ghost choice = { λ _ _. 0 };

    fn transfer(&self) -> Option<Transfer> {
        self.port.transfer()
    }

    fn begin(&mut self, request: Request) -> Result<u16, Refusal>
        ensures begun { Begun 0 (bottom (M.cells self.old.memory) self.old.port.transfer) request
            result (bottom (M.cells self.new.memory) self.new.port.transfer) }
        ensures frame { M.frame self.new.memory ≡ M.frame self.old.memory }
        ensures memory { self.new.memory ≡ self.old.memory }
    {
        self.port.begin(request, 0)
    }

    fn poll(&mut self) -> Result<Option<End>, Refusal>
        ensures polled { Polled (bottom (M.cells self.old.memory) self.old.port.transfer)
            result (bottom (M.cells self.new.memory) self.new.port.transfer) }
        ensures frame { M.frame self.new.memory ≡ M.frame self.old.memory }
        ensures ends { result ≡ Ok None → ⊥ }
        ensures memory { After M.Rewritten self.old.port.transfer self.old.memory self.new.memory }
    {
        let Some(request) = self.port.poll()? else {
            return Ok(None);
        };
        // as `finish` does, which would say nothing of the memory
        let end = request.direction.end(self.memory.cell(request.address));
        if let Direction::Write(word) = request.direction {
            // refused where the cell is not open, and then nothing changes
            let _ = self.memory.store(request.address, word);
        }
        Ok(Some(end))
    }

    fn cancel(&mut self)
        ensures cancelled { bottom (M.cells self.new.memory) self.new.port.transfer
            ≡ idle (bottom (M.cells self.old.memory) self.old.port.transfer) }
        ensures frame { M.frame self.new.memory ≡ M.frame self.old.memory }
        ensures memory { self.new.memory ≡ self.old.memory }
    {
        self.port.cancel();
    }
}
