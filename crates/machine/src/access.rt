// Whole transfers of a card.
ghost use Rattle.std.specs.Prelude.{◌≡◌, None};
ghost use Rattle.card.specs.declared.transfer.Direction.TheVariants.{Write};
ghost use Rattle.machine.specs.Access.{Completed, Accesses, Reads};

use card::{Card, Direction, End, Request};
use refusal::Refusal;

// Runs a transfer to its end, however long it waits; refused while another is in being.
// Inlined with the card's begin and poll, so that a transfer that waits stays in registers.
#[inline(always)]
pub fn complete<C: Card>(card: &mut C, request: Request) -> Result<End, Refusal>
    ensures completed { Completed (C.Cells.meaning card.old) request
        result (C.Cells.meaning card.new) }
    ensures frame { C.Cells.frame card.new ≡ C.Cells.frame card.old }
{
    card.begin(request)?;
    loop {
        if let Some(end) = card.poll()? {
            return Ok(end);
        }
    }
}

// A card that has no transfer in being: so no access to it is refused.
#[derive(Drop)]
pub(crate) struct IdleCard<'c, C: Card> {
    pub(crate) card: &'c mut C,
    ghost idle: { (C.Cells.meaning card.now).transfer ≡ None },
}

impl<'c, C: Card> IdleCard<'c, C> {
    fn access(&mut self, request: Request) -> End
        ensures ended { Accesses C.Cells.meaning request self.old.card result self.new.card }
        ensures frame { C.Cells.frame self.new.card.now ≡ C.Cells.frame self.old.card.now }
    {
        complete(self.card, request).unwrap()
    }

    pub(crate) fn read(&mut self, address: u32) -> End
        ensures ended { Reads C.Cells.meaning address self.old.card result self.new.card }
        ensures frame { C.Cells.frame self.new.card.now ≡ C.Cells.frame self.old.card.now }
    {
        self.access(Request {
            direction: Direction::Read,
            address,
        })
    }

    pub(crate) fn write(&mut self, address: u32, word: u32) -> End
        ensures ended { Accesses C.Cells.meaning (record { direction = Write word; address = address })
            self.old.card result self.new.card }
        ensures frame { C.Cells.frame self.new.card.now ≡ C.Cells.frame self.old.card.now }
    {
        self.access(Request {
            direction: Direction::Write(word),
            address,
        })
    }
}
