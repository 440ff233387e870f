// The number that a word stands for.
ghost use Rattle.std.specs.Prelude.{◌≡◌, ◌≤◌, map};
ghost use Rattle.std.specs.Char.{digit_value};
ghost use Rattle.std.specs.List.{range_with_len};
ghost use Rattle.command.specs.Numbers.{number_of, number_in_base};

use crate::Wrong;

// The value of each byte as a digit, 36 where it is none: a table, since a branch on random digits is often guessed wrong.
const DIGIT_VALUES: [u8; 256] = [
    36, 36, 36, 36, 36, 36, 36, 36, 36, 36, 36, 36, 36, 36, 36, 36, 36, 36, 36, 36, 36, 36, 36, 36,
    36, 36, 36, 36, 36, 36, 36, 36, 36, 36, 36, 36, 36, 36, 36, 36, 36, 36, 36, 36, 36, 36, 36, 36,
    0, 1, 2, 3, 4, 5, 6, 7, 8, 9, 36, 36, 36, 36, 36, 36, 36, 10, 11, 12, 13, 14, 15, 16, 17, 18,
    19, 20, 21, 22, 23, 24, 25, 26, 27, 28, 29, 30, 31, 32, 33, 34, 35, 36, 36, 36, 36, 36, 36, 10,
    11, 12, 13, 14, 15, 16, 17, 18, 19, 20, 21, 22, 23, 24, 25, 26, 27, 28, 29, 30, 31, 32, 33, 34,
    35, 36, 36, 36, 36, 36, 36, 36, 36, 36, 36, 36, 36, 36, 36, 36, 36, 36, 36, 36, 36, 36, 36, 36,
    36, 36, 36, 36, 36, 36, 36, 36, 36, 36, 36, 36, 36, 36, 36, 36, 36, 36, 36, 36, 36, 36, 36, 36,
    36, 36, 36, 36, 36, 36, 36, 36, 36, 36, 36, 36, 36, 36, 36, 36, 36, 36, 36, 36, 36, 36, 36, 36,
    36, 36, 36, 36, 36, 36, 36, 36, 36, 36, 36, 36, 36, 36, 36, 36, 36, 36, 36, 36, 36, 36, 36, 36,
    36, 36, 36, 36, 36, 36, 36, 36, 36, 36, 36, 36, 36, 36, 36, 36, 36, 36, 36, 36, 36, 36, 36, 36,
    36, 36, 36, 36, 36, 36, 36, 36, 36, 36, 36, 36, 36, 36,
];

fn digit_values() -> &'static [u8; 256]
    ensures { result.now ≡ map digit_value (range_with_len 0 256) }
{
    &DIGIT_VALUES
}

// The value that a byte has as a digit; 36 where it has none.
fn digit(byte: u8) -> u32
    ensures { result ≡ digit_value byte }
{
    u32::from(digit_values()[usize::from(byte)])
}

// The first number past a `u32`.
const PAST_LARGEST: u64 = 1 << 32;

// One pass over the digits, where `from_str_radix` and the tests that it needs before take three.
fn in_base(word: &[u8], radix: u32) -> Result<u32, Wrong>
    requires { (2 ≤ radix) × (radix ≤ 36) }
    ensures { result ≡ number_in_base radix word.now }
{
    if word.is_empty() {
        return Err(Wrong::NotANumber);
    }
    let mut n = 0u64;
    for b in word {
        let digit = digit(*b);
        if digit >= radix {
            return Err(Wrong::NotANumber);
        }
        n = (n * u64::from(radix) + u64::from(digit)).min(PAST_LARGEST);
    }
    u32::try_from(n).map_err(|_| Wrong::NumberTooLarge)
}

pub fn number(word: &[u8]) -> Result<u32, Wrong>
    ensures { result ≡ number_of word.now }
{
    match word.strip_prefix(b"0x") {
        Some(digits) => in_base(digits, 16),
        None => in_base(word, 10),
    }
}
