// The end of a transfer, at its cell.
ghost use Rattle.std.specs.Prelude.{◌≡◌};
ghost use Rattle.card.specs.Ends.{end_of, leaves};
ghost use Rattle.card.specs.Meaning.{mapped};

use super::card::Cells;
use super::cell::Cell;
use super::transfer::{Direction, End, Request};

// Carries a request out on the cells.
#[inline(always)]
pub fn finish<C: Cells>(cells: &mut C, request: Request) -> End
    ensures answer { result ≡ end_of request.direction ((C.Cells.meaning cells.old).map request.address) }
    ensures after { C.Cells.meaning cells.new
        ≡ mapped (leaves request (C.Cells.meaning cells.old).map) (C.Cells.meaning cells.old) }
    ensures frame { C.Cells.frame cells.new ≡ C.Cells.frame cells.old }
{
    let cell = cells.look(request.address);
    if let (Direction::Write(word), Cell::Open(_)) = (request.direction, cell) {
        let _ = cells.place(request.address, word);
    }
    request.direction.end(cell)
}
