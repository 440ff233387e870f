// The fault line: what a panel shows of a halted axis, as one line of text, and how that is read again.
#![tactic(auto)]

ghost use Rattle.std.specs.Prelude.{Decides};
ghost use Rattle.fault_line.specs.Line.{InRange};

mod numeral;
mod read;
mod write;

pub use read::read_line;
pub use write::write_line;

// What a fault line tells. It is seven numbers since the interface to C passes seven numbers, any of which may be out of its
// range.
#[derive(Clone, Copy, PartialEq, Eq, Debug)]
pub struct Fields {
    // the axis that halted, 1 to 3
    pub axis: u32,
    // what the access was for: 1 fetch, 2 displ, 3 load, 4 store
    pub stage: u32,
    // the instruction's address
    pub instruction: u32,
    // the address that was accessed
    pub access: u32,
    // why that was refused: 1 absent, 2 fixed
    pub cause: u32,
    // the address at the card or layer that refused it
    pub origin: u32,
    // how many layers lie above that one, 0 to 255
    pub layer: u32,
}

// The names that stand in the line, in the order of their numbers, which count from 1: fixed byte strings, by a rule of the
// project.
const STAGES: [&[u8]; 4] = [b"fetch", b"displ", b"load", b"store"];

const CAUSES: [&[u8]; 2] = [b"absent", b"fixed"];

impl Fields {
    // Whether a fault can have these numbers. Its addresses can be any.
    fn in_range(self) -> bool
        ensures { Decides result (InRange self) }
    {
        (1..=3).contains(&self.axis)
            && (1..=4).contains(&self.stage)
            && (1..=2).contains(&self.cause)
            && self.layer <= 255
    }
}
