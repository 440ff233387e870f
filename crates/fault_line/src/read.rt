// Reading a line again, one field after the other.
ghost use Rattle.std.specs.Prelude.{◌≡◌, ◌^◌, ◌<◌, ◌≤◌, [], ◌∷◌, length, Decides};
ghost use Rattle.fault_line.specs.Line.{Counts, address_text, axis_text, cause_text, layer_text, stage_text};
ghost use Rattle.fault_line.specs.Numeral.{radix};
ghost use Rattle.fault_line.specs.Reading.{DigitRead, FieldRead, MarkRead, NameRead, NumberRead, NumeralRead, OneFault, Read};

use super::numeral::Base;
use super::{CAUSES, Fields, STAGES};

// The number that a character is the hexadecimal digit of. By hand, as what follows, since the library's digits may be capitals and
// its numbers have a sign.
fn hexadecimal(character: u8) -> Option<u32>
    ensures { DigitRead 16 character result }
{
    match character {
        b'0'..=b'9' => Some(u32::from(character - b'0')),
        b'a'..=b'f' => Some(u32::from(character - b'a') + 10),
        _ => None,
    }
}

impl Base {
    // The number that a character is the digit of.
    fn digit(self, character: u8) -> Option<u32>
        ensures { DigitRead (radix self) character result }
    {
        let d = hexadecimal(character)?;
        (d < u32::from(self)).then_some(d)
    }

    // The number that a text of digits writes.
    fn value(self, text: &[u8]) -> Option<u32>
        requires { radix self ^ length text.now ≤ 2 ^ 32 }
        ensures { NumberRead (radix self) text.now result }
    {
        let mut n = 0;
        for character in text {
            n = n * u32::from(self) + self.digit(*character)?;
        }
        Some(n)
    }
}

// What is left of a line.
#[derive(Drop)]
struct Reader<'a> {
    left: &'a [u8],
}

impl Reader<'_> {
    // Passes over a mark, where it stands next.
    fn mark(&mut self, mark: &[u8]) -> Option<()>
        ensures { MarkRead mark.now self.old.left.now result self.new.left.now }
    {
        self.left = self.left.strip_prefix(mark)?;
        Some(())
    }

    // A number of some digits after a mark.
    #[tactic(auto, using(crate::proofs::Parting::after_mark, crate::proofs::Parting::too_short))]
    fn number(&mut self, mark: &[u8], base: Base, places: usize) -> Option<u32>
        requires { radix base ^ places ≤ 2 ^ 32 }
        ensures { NumeralRead mark.now (radix base) places self.old.left.now result self.new.left.now }
    {
        self.mark(mark)?;
        base.value(self.left.split_off(..places)?)
    }

    // A name after a space, by its number.
    fn name(&mut self, names: &[&'static [u8]]) -> Option<u32>
        requires { length names.now < 2 ^ 32 }
        ensures { NameRead names.now self.old.left.now result self.new.left.now }
    {
        self.mark(b" ")?;
        // not by `position`, whose closure would change the reader
        for (i, name) in names.iter().enumerate() {
            if self.mark(name).is_some() {
                return Some(i as u32 + 1);
            }
        }
        None
    }

    // The fields of a line, one function each: what they differ in is what the line says.
    fn axis(&mut self) -> Option<u32>
        ensures { FieldRead (λ n. n < 10) axis_text self.old.left.now result self.new.left.now }
    {
        self.number(b"A", Base::Decimal, 1)
    }

    fn stage(&mut self) -> Option<u32>
        ensures { FieldRead (Counts 4) stage_text self.old.left.now result self.new.left.now }
    {
        self.name(&STAGES)
    }

    fn address(&mut self) -> Option<u32>
        ensures { FieldRead (λ n. n < 2 ^ 32) address_text self.old.left.now result self.new.left.now }
    {
        self.number(b" ", Base::Hexadecimal, 8)
    }

    fn cause(&mut self) -> Option<u32>
        ensures { FieldRead (Counts 2) cause_text self.old.left.now result self.new.left.now }
    {
        self.name(&CAUSES)
    }

    fn layer(&mut self) -> Option<u32>
        ensures { FieldRead (λ n. n < 1000) layer_text self.old.left.now result self.new.left.now }
    {
        self.number(b" L", Base::Decimal, 3)
    }

    fn ends(&self) -> bool
        ensures { Decides result (self.now.left.now ≡ 10 ∷ []) }
    {
        matches!(self.left, b"\n")
    }
}

// Takes a line apart into the numbers of its fault. Anything that is no fault's line gives none.
#[tactic(auto, using(crate::proofs::Lines::one_fault))]
pub fn read_line(line: &[u8]) -> Option<Fields>
    ensures read { Read line.now result }
    ensures one_fault { OneFault }
{
    let mut reader = Reader { left: line };
    let fields = Fields {
        axis: reader.axis()?,
        stage: reader.stage()?,
        instruction: reader.address()?,
        access: reader.address()?,
        cause: reader.cause()?,
        origin: reader.address()?,
        layer: reader.layer()?,
    };
    (reader.ends() && fields.in_range()).then_some(fields)
}
