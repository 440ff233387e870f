// What stands at an address of a card, and why an access to it is refused.
ghost use Rattle.std.specs.Prelude.{◌≡◌};
ghost use Rattle.card.specs.Causes.{cause_number};

// Who refuses an access: the address at the card or layer that refuses, and the number of layers above that one.
#[derive(Clone, Copy, PartialEq, Eq, Debug)]
pub struct Origin {
    pub address: u32,
    pub layer: u8,
}

// A cell has no word, a word that cannot be written, or a word that can.
#[derive(Clone, Copy, PartialEq, Eq, Debug)]
pub enum Cell {
    Absent(Origin),
    Fixed(u32, Origin),
    Open(u32),
}

// What a cell lacks for an access.
#[derive(Clone, Copy, PartialEq, Eq, Debug)]
pub enum Cause {
    Absent = 1,
    Fixed = 2,
}

// The number that the cause has in a fault line's fields.
impl From<Cause> for u32 {
    ghost from_gives = { λ cause n. n ≡ cause_number cause };

    fn from(cause: Cause) -> u32 {
        cause as u32
    }
}

// Why a transfer ended without a word, and who refused it.
#[derive(Clone, Copy, PartialEq, Eq, Debug)]
pub struct AccessFault {
    pub cause: Cause,
    pub origin: Origin,
}
