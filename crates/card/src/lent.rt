// A card that is lent is a card. So a layer can lie over a card that its owner gets back.
ghost use Rattle.std.specs.Prelude.{◌≡◌};
ghost use Rattle.std.specs.Borrow.{GName};

use super::card::{Card, Cells};
use super::cell::Cell;
use super::transfer::{End, Request, Transfer};
use refusal::Refusal;

impl<'c, C: Card> Cells for &'c mut C {
    ghost meaning = { λ c. C.Cells.meaning c.now };

    ghost bounded = { λ c. C.Cells.bounded c.now };

    ghost Frame = { GName × C.Cells.Frame };

    ghost frame = { λ c. (c.ghost_name, C.Cells.frame c.now) };

    fn look(&self, address: u32) -> Cell {
        (**self).look(address)
    }

    fn patience(&self) -> u16 {
        (**self).patience()
    }

    fn place(&mut self, address: u32, word: u32) -> Result<(), Refusal> {
        (**self).place(address, word)
    }
}

impl<'c, C: Card> Card for &'c mut C {
    ghost choice = { λ c. C.choice c.now };

    fn transfer(&self) -> Option<Transfer> {
        (**self).transfer()
    }

    fn begin(&mut self, request: Request) -> Result<u16, Refusal> {
        (**self).begin(request)
    }

    fn poll(&mut self) -> Result<Option<End>, Refusal> {
        (**self).poll()
    }

    fn cancel(&mut self) {
        (**self).cancel();
    }
}
