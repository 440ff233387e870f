// The condition flags, and the branch condition over them.
ghost use Rattle.std.specs.Prelude.{◌≡◌};
ghost use Rattle.isa.specs.Branch.{taken_by};

use crate::fields::Mask;

// Overflow, negative, zero.
#[derive(Clone, Copy, PartialEq, Eq, Debug, Default)]
pub struct Flags {
    pub v: bool,
    pub n: bool,
    pub z: bool,
}

impl Mask {
    // Whether a branch with this mask is taken.
    pub fn taken(self, flags: Flags) -> bool
        ensures { result ≡ taken_by self flags }
    {
        ((flags.v && self.v) || (flags.n && self.n) || (flags.z && self.z)) == self.i
    }
}
