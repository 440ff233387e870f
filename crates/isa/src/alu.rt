// Arithmetic and logic.
ghost use Rattle.std.specs.Prelude.{◌≡◌, not, pos, ◌*ℤ◌, ◌≢◌, int_div};
ghost use Rattle.isa.specs.Words.{word_of, in_range};
ghost use Rattle.isa.specs.Alu.{answer, wrapping, clamping, dividing, alu_of, logic_of};

use crate::flags::Flags;

// The word and the flags V, N, Z. It is a tuple by a rule of the project.
pub type Answer = (u32, bool, bool, bool);

#[derive(Clone, Copy, PartialEq, Eq, Debug)]
pub enum Arithmetic {
    Add,
    Sub,
    Mul,
    Div,
}

#[derive(Clone, Copy, PartialEq, Eq, Debug)]
pub enum Logical {
    And,
    Or,
    Xor,
    // the first operand and not the second
    Mask,
}

impl Arithmetic {
    pub fn apply(self, a: u32, b: u32) -> Answer
        ensures { result ≡ alu_of self a b }
    {
        let (a, b) = (a.cast_signed(), b.cast_signed());
        match self {
            Arithmetic::Add => wrapping(i64::from(a) + i64::from(b)),
            Arithmetic::Sub => wrapping(i64::from(a) - i64::from(b)),
            Arithmetic::Mul => clamping(product(a, b)),
            Arithmetic::Div => dividing(a, b),
        }
    }
}

impl Logical {
    // V and N stay as they were, and Z is by the word.
    pub fn apply(self, a: u32, b: u32, flags: Flags) -> Answer
        ensures { result ≡ logic_of self a b flags }
    {
        let word = match self {
            Logical::And => a & b,
            Logical::Or => a | b,
            Logical::Xor => a ^ b,
            Logical::Mask => a & !b,
        };
        (word, flags.v, flags.n, word == 0)
    }
}

// The range of a signed word.
const LEAST: i64 = i32::MIN as i64;

const GREATEST: i64 = i32::MAX as i64;

// The low 32 bits of an exact result; V if it is out of range.
fn wrapping(exact: i64) -> Answer
    ensures { result ≡ wrapping exact }
{
    flagged(low_word(exact), overflows(exact))
}

// An exact result, or the nearer end of the range with V set.
fn clamping(exact: i64) -> Answer
    ensures { result ≡ clamping exact }
{
    flagged(low_word(exact.clamp(LEAST, GREATEST)), overflows(exact))
}

// The quotient rounded toward zero, its low 32 bits; by zero the end of the range on the dividend's side, with V set.
fn dividing(a: i32, b: i32) -> Answer
    ensures { result ≡ dividing a b }
{
    if b != 0 {
        flagged(low_word(quotient(a, b)), false)
    } else {
        let end = if a < 0 { i32::MIN } else { i32::MAX };
        flagged(end.cast_unsigned(), true)
    }
}

// The exact product, which always fits. It and the quotient are functions of their own, since within their callers the
// proof does not close.
fn product(a: i32, b: i32) -> i64
    ensures { result ≡ a *ℤ b }
{
    i64::from(a) * i64::from(b)
}

// The quotient rounded toward zero. Of the least number by −1 it is one past the greatest.
fn quotient(a: i32, b: i32) -> i64
    requires { b ≢ pos 0 }
    ensures { result ≡ int_div a b }
{
    i64::from(a) / i64::from(b)
}

// The low 32 bits, as a remainder, since a cast is proved to lose none.
fn low_word(exact: i64) -> u32
    ensures { result ≡ word_of exact }
{
    exact.rem_euclid(0x1_0000_0000) as u32
}

// Whether it is out of the range of a signed word.
fn overflows(exact: i64) -> bool
    ensures { result ≡ not (in_range exact) }
{
    i32::try_from(exact).is_err()
}

// A word with its V, and the N and Z that it has.
fn flagged(word: u32, v: bool) -> Answer
    ensures { result ≡ answer word v }
{
    (word, v, word >= 0x8000_0000, word == 0)
}
