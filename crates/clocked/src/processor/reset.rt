// The reset, which is accepted in every control state while the key is in.
ghost use Rattle.std.specs.Prelude.{◌≡◌, OnErr};
ghost use Rattle.clocked.specs.Runs.{config, reset, MadeBy};

use super::Processor;
use crate::control::Control;
use card::Card;
use refusal::Refusal;

impl Processor {
    // Stores a pending result, cancels the transfer, sets PC to 0, ends a halt and goes to the boundary. Refused while the
    // key is out.
    pub fn reset<C: Card>(&mut self, card: &mut C) -> Result<(), Refusal>
        ensures made { MadeBy (reset result) (config self.old (C.Cells.meaning card.old))
            (config self.new (C.Cells.meaning card.new)) }
        ensures frame { C.Cells.frame card.new ≡ C.Cells.frame card.old }
        ensures untouched { OnErr result (card.new ≡ card.old) }
    {
        if self.locked {
            return Err(Refusal::KeyOut);
        }
        self.write_back();
        card.cancel();
        self.pc = 0;
        self.fault = None;
        self.control = Control::Fetch0;
        Ok(())
    }
}
