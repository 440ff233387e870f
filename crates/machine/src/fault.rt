// The record of a fault, which halts a machine until its next reset.
ghost use Rattle.std.specs.Prelude.{◌≡◌};
ghost use Rattle.machine.specs.Faults.{stage_number};

use super::axis::Axis;
use card::{Cause, Origin};

// What the machine was doing when the card refused.
#[derive(Clone, Copy, PartialEq, Eq, Debug)]
pub enum Stage {
    Fetch = 1,
    Displacement = 2,
    Load = 3,
    Store = 4,
}

#[derive(Clone, Copy, PartialEq, Eq, Debug)]
pub struct Fault {
    pub axis: Axis,
    pub stage: Stage,
    // the address of the instruction
    pub instruction: u32,
    // the address that it accessed, as the machine sees it
    pub access: u32,
    pub cause: Cause,
    pub origin: Origin,
}

// The number that the stage has in a fault line's fields.
impl From<Stage> for u32 {
    ghost from_gives = { λ stage n. n ≡ stage_number stage };

    fn from(stage: Stage) -> u32 {
        stage as u32
    }
}
