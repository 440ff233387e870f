// One transfer between a machine and its card: what is asked, how long it takes, how it ends.
ghost use Rattle.std.specs.Prelude.{◌≡◌};
ghost use Rattle.card.specs.Ends.{end_of};
ghost use Rattle.card.specs.Ports.{after_wait};

use super::cell::{AccessFault, Cause, Cell};

// Not an `Option` of the word to write: `None` would not say that it is a read.
#[derive(Clone, Copy, PartialEq, Eq, Debug)]
pub enum Direction {
    Read,
    // the word to write
    Write(u32),
}

// What a machine asks of a card.
#[derive(Clone, Copy, PartialEq, Eq, Debug)]
pub struct Request {
    pub direction: Direction,
    pub address: u32,
}

// A transfer in being: the request, and how many more polls answer that it waits.
#[derive(Clone, Copy, PartialEq, Eq, Debug)]
pub struct Transfer {
    pub request: Request,
    pub waits: u16,
}

// How a transfer ends: with the word read or written, or in a fault.
pub type End = Result<u32, AccessFault>;

impl Direction {
    // How a transfer in this direction ends at a cell.
    pub fn end(self, cell: Cell) -> End
        ensures { result ≡ end_of self cell }
    {
        match (self, cell) {
            (_, Cell::Absent(origin)) => Err(AccessFault {
                cause: Cause::Absent,
                origin,
            }),
            (Direction::Write(_), Cell::Fixed(_, origin)) => Err(AccessFault {
                cause: Cause::Fixed,
                origin,
            }),
            (Direction::Write(word), Cell::Open(_)) => Ok(word),
            (Direction::Read, Cell::Fixed(word, _) | Cell::Open(word)) => Ok(word),
        }
    }
}

impl Transfer {
    // The transfer with one wait less; none where it has no waits left, so that it ends now.
    pub fn after_wait(self) -> Option<Transfer>
        ensures { result ≡ after_wait self }
    {
        let waits = self.waits.checked_sub(1)?;
        Some(Transfer { waits, ..self })
    }
}
