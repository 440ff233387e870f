// The service key: drawing it locks the processor, a register can be set with it, and giving it back ends the lock.
ghost use Rattle.std.specs.Prelude.{◌≡◌};
ghost use Rattle.clocked.specs.Refusals.{is_at_rest, fits};
ghost use Rattle.clocked.specs.Runs.{drawn, set, given, MadeWithoutCard};

use super::Processor;
use crate::control::Control;
use crate::key::{Key, NotTaken};
use refusal::Refusal;

impl Processor {
    // Stores a pending result and answers the key, which locks the processor until it is given back. Refused if the key is
    // out, or at neither a boundary nor a halt.
    pub fn draw(&mut self) -> Result<Key, Refusal>
        ensures { MadeWithoutCard (drawn result) self.old self.new }
    {
        if self.locked {
            return Err(Refusal::KeyOut);
        }
        if !self.at_rest() {
            return Err(Refusal::NoBoundary);
        }
        self.write_back();
        self.locked = true;
        Ok(Key {
            axis: u32::from(self.axis),
        })
    }

    // Whether it stands at the boundary or has halted.
    fn at_rest(&self) -> bool
        ensures { result ≡ is_at_rest self.now }
    {
        self.fault.is_some() || matches!(self.control, Control::Fetch0)
    }

    // Whether a key is of this axis and the processor's own key is out.
    fn fits(&self, key: &Key) -> bool
        ensures { result ≡ fits key.now self.now }
    {
        key.axis == u32::from(self.axis) && self.locked
    }

    // Stores a word in a register. Refused unless the key fits.
    pub fn set(&mut self, key: &Key, register: u8, word: u32) -> Result<(), Refusal>
        ensures { MadeWithoutCard (set key.now register word result) self.old self.new }
    {
        if !self.fits(key) {
            return Err(Refusal::Misfit);
        }
        self.registers.store(register, word);
        Ok(())
    }

    // Takes the key and ends the lock. Refused, with the key handed back, unless it fits.
    pub fn give_back(&mut self, key: Key) -> Result<(), NotTaken>
        ensures { MadeWithoutCard (given key result) self.old self.new }
    {
        if !self.fits(&key) {
            return Err(NotTaken {
                key,
                refusal: Refusal::Misfit,
            });
        }
        let Key { axis: _ } = key;
        self.locked = false;
        Ok(())
    }
}
