// The control states, and what is latched in each.
ghost use Rattle.std.specs.Prelude.{◌≡◌};
ghost use Rattle.clocked.specs.Control.{named};

use super::access::Access;
use isa::Instruction;

// The ten control states by name.
#[derive(Clone, Copy, PartialEq, Eq, Debug)]
pub enum ControlState {
    Fetch0,
    Fetch1,
    Fetch2,
    Decode,
    DispFetch0,
    DispFetch1,
    DispFetch2,
    Execute0,
    Execute1,
    Execute2,
}

// A control state with what earlier ones have latched: the instruction, its displacement, the load or store.
#[derive(Clone, Copy)]
pub enum Control {
    Fetch0,
    Fetch1,
    Fetch2,
    Decode(Instruction),
    DispFetch0(Instruction),
    DispFetch1(Instruction),
    DispFetch2(Instruction),
    // the displacement is i8 where none is read
    Execute0(Instruction, u32),
    Execute1(Access),
    Execute2(Access),
}

impl Control {
    // The state's name.
    pub(crate) fn state(self) -> ControlState
        ensures { result ≡ named self }
    {
        match self {
            Control::Fetch0 => ControlState::Fetch0,
            Control::Fetch1 => ControlState::Fetch1,
            Control::Fetch2 => ControlState::Fetch2,
            Control::Decode(_) => ControlState::Decode,
            Control::DispFetch0(_) => ControlState::DispFetch0,
            Control::DispFetch1(_) => ControlState::DispFetch1,
            Control::DispFetch2(_) => ControlState::DispFetch2,
            Control::Execute0(_, _) => ControlState::Execute0,
            Control::Execute1(_) => ControlState::Execute1,
            Control::Execute2(_) => ControlState::Execute2,
        }
    }
}
