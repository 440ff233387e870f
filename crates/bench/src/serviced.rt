// The processor by clock with its service key, which is in hand while it is out.
ghost use Rattle.std.specs.Prelude.{◌≡◌, true};
ghost use Rattle.bench.specs.Keys.{key_fits};

use card::Card;
use clocked::{Key, NotTaken, Processor, Tick};
use refusal::Refusal;

// Letting it go gives the key back, so that a key in hand has to fit.
pub struct Serviced {
    processor: Processor,
    key: Option<Key>,
    ghost fitting: { key_fits key processor ≡ true },
}

impl Drop for Serviced {
    fn drop(self) {
        let Serviced { mut processor, key } = self;
        if let Some(key) = key {
            match processor.give_back(key) {
                Ok(()) => {}
                Err(_refused) => unreachable!(),
            }
        }
    }
}

impl Serviced {
    pub fn power_up<C: Card>(axis: u32, card: &mut C) -> Result<Serviced, Refusal> {
        Ok(Serviced {
            processor: Processor::power_up(axis, card)?,
            key: None,
        })
    }

    pub fn processor(&self) -> &Processor {
        &self.processor
    }

    pub fn clock<C: Card>(&mut self, card: &mut C) -> Result<Tick, Refusal> {
        self.processor.clock(card)
    }

    pub fn reset<C: Card>(&mut self, card: &mut C) -> Result<(), Refusal> {
        self.processor.reset(card)
    }

    // Draws the key into the hand.
    pub fn draw(&mut self) -> Result<(), Refusal> {
        let key = self.processor.draw()?;
        match self.key.replace(key) {
            None => Ok(()),
            Some(_old) => unreachable!(),
        }
    }

    // Sets a register with the key; None if there is no key in hand.
    pub fn set(&mut self, register: u8, word: u32) -> Option<Result<(), Refusal>> {
        let key = self.key.as_ref()?;
        Some(self.processor.set(key, register, word))
    }

    // Gives the key back; None if there is no key in hand. A key that is refused stays in it.
    pub fn give(&mut self) -> Option<Result<(), Refusal>> {
        let key = self.key.take()?;
        match self.processor.give_back(key) {
            Ok(()) => Some(Ok(())),
            Err(NotTaken { key, refusal }) => {
                match self.key.replace(key) {
                    None => Some(Err(refusal)),
                    Some(_old) => unreachable!(),
                }
            }
        }
    }
}
