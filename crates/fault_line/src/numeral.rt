// The bases that a line writes its numbers in.
ghost use Rattle.std.specs.Prelude.{◌≡◌};
ghost use Rattle.fault_line.specs.Numeral.{radix};

#[derive(Clone, Copy)]
pub(crate) enum Base {
    Decimal = 10,
    Hexadecimal = 16,
}

impl From<Base> for u32 {
    ghost from_gives = { λ base n. n ≡ radix base };

    fn from(base: Base) -> u32 {
        base as u32
    }
}
