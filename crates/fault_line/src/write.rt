// Writing the line.
ghost use Rattle.std.specs.Prelude.{◌≡◌, ◌≤◌, length};
ghost use Rattle.fault_line.specs.Answer.{LineAnswered};
ghost use Rattle.fault_line.specs.Buffer.{Begins, joined};
ghost use Rattle.fault_line.specs.Line.{Counts, name, texts};
ghost use Rattle.fault_line.specs.Numeral.{digits, radix};

use super::numeral::Base::{self, Decimal, Hexadecimal};
use super::{CAUSES, Fields, STAGES};
use refusal::Refusal;

// No line is longer.
const LONGEST: usize = 48;

impl Base {
    // The last digits of a number, as many as the array has places. No `write!`, since the line is put together of byte strings.
    fn digits<const N: usize>(self, n: u32) -> [u8; N]
        ensures { result ≡ digits (radix self) N n }
    {
        let radix = u32::from(self);
        let mut text = [b'0'; N];
        let mut left = n;
        // by index, since a proof can say nothing of an array that `iter_mut().rev()` goes through
        for place in (0..N).rev() {
            text[place] = b"0123456789abcdef"[(left % radix) as usize];
            left /= radix;
        }
        text
    }
}

// The name with a number.
fn name_of(n: u32, names: &[&'static [u8]]) -> &'static [u8]
    requires { Counts (length names.now) n }
    ensures { result.now ≡ name (texts names.now) n }
{
    names[n as usize - 1]
}

// Writes texts one after the other over the front of a buffer, and answers their length.
#[tactic(auto, using(crate::proofs::Filling::joined_fits))]
fn put(parts: &[&[u8]], line: &mut [u8]) -> usize
    requires { length (joined parts.now) ≤ length line.old }
    ensures end { result ≡ length (joined parts.now) }
    ensures puts { Begins (joined parts.now) line.old line.new }
{
    // the position is the answer too
    let mut at = 0;
    for part in parts {
        let end = at + part.len();
        line[at..end].copy_from_slice(part);
        at = end;
    }
    at
}

// Writes the line of a fault over the front of a buffer, and answers its length. It is refused, with the buffer as it was,
// where a field is out of its range, and then where the buffer does not do for every line.
#[tactic(auto, using(crate::proofs::Writing::fits, crate::proofs::Writing::wrote))]
pub fn write_line(fields: Fields, line: &mut [u8]) -> Result<usize, Refusal>
    ensures { LineAnswered fields line.old result line.new }
{
    if !fields.in_range() {
        return Err(Refusal::Field);
    }
    if line.len() < LONGEST {
        return Err(Refusal::Buffer);
    }
    let parts: [&[u8]; 15] = [
        b"A",
        &Decimal.digits::<1>(fields.axis),
        b" ",
        name_of(fields.stage, &STAGES),
        b" ",
        &Hexadecimal.digits::<8>(fields.instruction),
        b" ",
        &Hexadecimal.digits::<8>(fields.access),
        b" ",
        name_of(fields.cause, &CAUSES),
        b" ",
        &Hexadecimal.digits::<8>(fields.origin),
        b" L",
        &Decimal.digits::<3>(fields.layer),
        b"\n",
    ];
    Ok(put(&parts, line))
}
