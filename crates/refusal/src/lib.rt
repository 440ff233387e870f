// Every refusal of the model. A refused call answers one of these and changes nothing.
#![tactic(auto)]

ghost use Rattle.std.specs.Prelude.{◌≡◌, Some};
ghost use Rattle.refusal.specs.Numbers.{number_of, text_of};

use std::fmt;

#[derive(Clone, Copy, PartialEq, Eq, Debug)]
pub enum Refusal {
    // power-up of an axis other than 1, 2 or 3
    Axis = 30,
    // an instruction or a clock of a machine that has halted
    Halted = 31,
    // a transfer in being where one begins, or none where one is polled
    Transfer = 32,
    // a draw of the key at neither a boundary nor a halt
    NoBoundary = 34,
    // a key that does not fit
    Misfit = 35,
    // a call of a processor whose key is out
    KeyOut = 36,
    // an image that is too short, or not as long as its directory says
    Length = 41,
    // an image of more than 64 segments
    Count = 42,
    // a pair of an image's directory that is wrong
    Pair = 43,
    // a place for a word that is not open
    NotOpen = 44,
    // a buffer too short for every fault line
    Buffer = 45,
    // a field of a fault out of its range
    Field = 46,
}

// The number that a refusal is known by.
impl From<Refusal> for u32 {
    ghost from_gives = { λ refusal n. n ≡ number_of refusal };

    fn from(refusal: Refusal) -> u32 {
        refusal as u32
    }
}

// A refusal is printed as its number.
impl fmt::Display for Refusal {
    ghost output = { λ refusal. Some (text_of refusal) };

    fn fmt<W: fmt::Write>(&self, f: &mut fmt::Formatter<W>) -> fmt::Result {
        write!(f, "{}", u32::from(*self))
    }
}
