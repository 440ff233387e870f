// The interface of a card. What an implementation means is one ghost member, and each call is a relation on it.
ghost use Rattle.std.specs.Prelude.{◌≡◌, ◌≤◌, ℕ};
ghost use Rattle.card.specs.Meaning.{Meaning, Placed, Begun, Polled, idle};
ghost use Rattle.card.specs.declared.transfer.Request.{Request};

use super::cell::Cell;
use super::transfer::{End, Request, Transfer};
use refusal::Refusal;

// The cells of a card, which can be looked at and placed at any time, a transfer in being or not.
pub trait Cells {
    ghost meaning: { Self → Meaning };

    // No transfer of any card takes more than 4,096 waits.
    ghost bounded: { (x : Self) → (meaning x).patience ≤ 4096 };

    // What no call changes, beside the meaning: which memory the card lies over, and how it is put together.
    ghost Frame: { Type 0 };

    ghost frame: { Self → Frame };

    // The cell at an address.
    fn look(&self, address: u32) -> Cell
        ensures { result ≡ (meaning self.now).map address };

    // The most waits that a transfer can have.
    fn patience(&self) -> u16
        ensures { result ≡ (meaning self.now).patience };

    // Stores a word in an open cell; refused elsewhere.
    fn place(&mut self, address: u32, word: u32) -> Result<(), Refusal>
        ensures placed { Placed (meaning self.old) address word result (meaning self.new) }
        ensures frame { frame self.new ≡ frame self.old };
}

// Cells that can be reached by transfers, one at a time.
pub trait Card: Cells {
    // The waits that the card chooses for a transfer, if a request is begun next.
    ghost choice: { Self → Request → ℕ };

    // The transfer in being, or none.
    fn transfer(&self) -> Option<Transfer>
        ensures { result ≡ (Self.Cells.meaning self.now).transfer };

    // Makes a transfer and answers its waits; refused while one is in being.
    fn begin(&mut self, request: Request) -> Result<u16, Refusal>
        ensures begun { Begun (choice self.old request) (Self.Cells.meaning self.old) request
            result (Self.Cells.meaning self.new) }
        ensures frame { Self.Cells.frame self.new ≡ Self.Cells.frame self.old };

    // Takes one wait off the transfer and answers none, or ends it; refused without one.
    fn poll(&mut self) -> Result<Option<End>, Refusal>
        ensures polled { Polled (Self.Cells.meaning self.old) result (Self.Cells.meaning self.new) }
        ensures frame { Self.Cells.frame self.new ≡ Self.Cells.frame self.old };

    // Makes the transfer none.
    fn cancel(&mut self)
        ensures cancelled { Self.Cells.meaning self.new ≡ idle (Self.Cells.meaning self.old) }
        ensures frame { Self.Cells.frame self.new ≡ Self.Cells.frame self.old };
}
