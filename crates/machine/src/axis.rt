// The three pitch axes of a hub.
ghost use Rattle.std.specs.Prelude.{◌≡◌};
ghost use Rattle.machine.specs.Axes.{axis_of, axis_number};

use refusal::Refusal;

#[derive(Clone, Copy, PartialEq, Eq, Debug)]
pub enum Axis {
    One = 1,
    Two = 2,
    Three = 3,
}

// The axis of a number, which has to be 1, 2 or 3.
impl TryFrom<u32> for Axis {
    type Error = Refusal;

    ghost try_from_gives = { λ number axis. axis ≡ axis_of number };

    fn try_from(number: u32) -> Result<Axis, Refusal> {
        match number {
            1 => Ok(Axis::One),
            2 => Ok(Axis::Two),
            3 => Ok(Axis::Three),
            _ => Err(Refusal::Axis),
        }
    }
}

impl From<Axis> for u32 {
    ghost from_gives = { λ axis n. n ≡ axis_number axis };

    fn from(axis: Axis) -> u32 {
        axis as u32
    }
}
