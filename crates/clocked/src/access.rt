// The load or store of an instruction, once its address is known.
ghost use Rattle.std.specs.Prelude.{◌≡◌};
ghost use Rattle.clocked.specs.Control.{request_of, stage_of};

use card::{Direction, Request};
use machine::Stage;

#[derive(Clone, Copy)]
pub enum Access {
    // the address, and the register that is loaded
    Load(u32, u8),
    // the address, and the word that is stored
    Store(u32, u32),
}

impl Access {
    // What is asked of the card.
    pub(crate) fn request(self) -> Request
        ensures { result ≡ request_of self }
    {
        match self {
            Access::Load(address, _) => Request {
                direction: Direction::Read,
                address,
            },
            Access::Store(address, word) => Request {
                direction: Direction::Write(word),
                address,
            },
        }
    }

    // The stage of a fault that it meets.
    pub(crate) fn stage(self) -> Stage
        ensures { result ≡ stage_of self }
    {
        match self {
            Access::Load(_, _) => Stage::Load,
            Access::Store(_, _) => Stage::Store,
        }
    }
}
