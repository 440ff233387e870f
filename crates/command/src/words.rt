// The words of a line, taken from the left, and the numbers and the name that a command borrows of them.
ghost use Rattle.std.specs.Prelude.{◌≡◌, ℕ, ◌<◌, List, [], length, ◌↔◌, IsTrue, MatchResult, OnOk};
ghost use Rattle.std.specs.Iterator.{YieldsFirst, YieldsFirstRef, item_count};
ghost use Rattle.command.specs.Numbers.{numbers_of};
ghost use Rattle.command.specs.Words.{words_of, blank};
ghost use Rattle.command.specs.Operands.{operand_of, count_of, Takes, TakesWord};
ghost use Rattle.command.specs.declared.Wrong.TheVariants.{ExtraOperand};

use crate::Wrong;
use crate::number::number;
use std::fmt;
use std::marker::Model;

// What is left of a line. A contract sees its words.
#[derive(Drop)]
pub struct Words<'a> {
    left: &'a [u8],
}

impl<'a> Model for Words<'a> {
    ghost Value = { List (List ℕ) };

    ghost view = { λ s. words_of s.left.now };
}

fn is_blank(b: u8) -> bool
    ensures { result ≡ blank b }
{
    b == b' ' || b == b'\t'
}

impl<'a> Iterator for Words<'a> {
    type Item = &'a [u8];

    ghost next_gives = { YieldsFirstRef (λ words. words) };

    ghost remaining = { item_count (λ words. words) };

    fn next(&mut self) -> Option<&'a [u8]> {
        let start = self.left.iter().position(|b| !is_blank(*b))?;
        let text = &self.left[start..];
        let end = text.iter().position(|b| is_blank(*b)).unwrap_or(text.len());
        let (word, left) = text.split_at(end);
        self.left = left;
        Some(word)
    }
}

impl<'a> Words<'a> {
    pub fn new(text: &'a [u8]) -> Self
        ensures { result ≡ words_of text.now }
    {
        Words { left: text }
    }

    // The same words once more; a type with a `Model` and a lifetime cannot be `Copy`.
    fn again(&self) -> Words<'a>
        ensures { result ≡ self.now }
    {
        Words { left: self.left }
    }

    // The next word, where there has to be one.
    pub fn operand(&mut self) -> Result<&'a [u8], Wrong>
        ensures { TakesWord result self.new self.old }
    {
        self.next().ok_or(Wrong::MissingOperand)
    }

    pub fn number(&mut self) -> Result<u32, Wrong>
        ensures { Takes result self.new (operand_of self.old) }
    {
        number(self.operand()?)
    }

    // How often, which is once where no word is left.
    pub fn count(&mut self) -> Result<u32, Wrong>
        ensures { Takes result self.new (count_of self.old) }
    {
        self.next().map_or(Ok(1), number)
    }

    // The numbers of all words that are left.
    #[tactic(auto, using(crate::proofs::Counts::few_words))]
    pub fn numbers(&mut self) -> Result<Numbers<'a>, Wrong>
        ensures listed { result ≡ numbers_of self.old }
        ensures all { OnOk result (self.new ≡ []) }
    {
        let words = self.again();
        let mut count = 0;
        // a `for` over `self.by_ref()` leaves `all` open: what it leaves of `self` is not known
        while let Some(word) = self.next() {
            number(word)?;
            count += 1;
        }
        Ok(Numbers { words, count })
    }

    // That no word is left.
    pub fn end(&mut self) -> Result<(), Wrong>
        ensures { MatchResult result (λ _. self.old ≡ []) (λ e. (e ≡ ExtraOperand) × (0 < length self.old)) }
    {
        match self.next() {
            None => Ok(()),
            Some(_) => Err(Wrong::ExtraOperand),
        }
    }
}

// Words of a line that are all numbers, each read once more when it is asked for. A contract sees the numbers.
#[derive(Drop)]
pub struct Numbers<'a> {
    words: Words<'a>,
    count: usize,
}

impl<'a> Model for Numbers<'a> {
    ghost use Rattle.std.specs.Prelude.{◌≡◌, ℕ, List, [], length, IsOk};
    ghost use Rattle.std.specs.Result.{result_unwrap_or};
    ghost use Rattle.command.specs.Numbers.{numbers_of};

    ghost Value = { List ℕ };

    ghost view = { λ s. result_unwrap_or (numbers_of s.words) [] };

    ghost invariant = { λ s. IsOk (numbers_of s.words) × (s.count ≡ length s.words) };
}

impl Iterator for Numbers<'_> {
    type Item = u32;

    ghost next_gives = { YieldsFirst (λ numbers. numbers) };

    ghost remaining = { item_count (λ numbers. numbers) };

    // Inlined into the loop that stores the numbers, of which it is most.
    #[inline(always)]
    fn next(&mut self) -> Option<u32> {
        self.count = self.count.saturating_sub(1);
        number(self.words.next()?).ok()
    }
}

impl<'a> Numbers<'a> {
    // The same numbers, which stay here too.
    pub fn iter(&self) -> Numbers<'a>
        ensures { result ≡ self.now }
    {
        Numbers {
            words: self.words.again(),
            count: self.count,
        }
    }

    // How many numbers there are.
    #[tactic(auto, using(crate::proofs::Counts::numbers_count))]
    pub fn len(&self) -> usize
        ensures { result ≡ length self.now }
    {
        self.count
    }

    pub fn is_empty(&self) -> bool
        ensures { IsTrue result ↔ (self.now ≡ []) }
    {
        self.iter().next().is_none()
    }
}

impl fmt::Debug for Numbers<'_> {
    fn fmt<W: fmt::Write>(&self, f: &mut fmt::Formatter<W>) -> fmt::Result {
        f.debug_list().entries(self.iter()).finish()
    }
}

// The name of a file, as the bytes of the line. A contract sees these.
#[derive(Drop)]
pub struct Name<'a> {
    bytes: &'a [u8],
}

impl<'a> Model for Name<'a> {
    ghost Value = { List ℕ };

    ghost view = { λ s. s.bytes.now };
}

impl<'a> Name<'a> {
    pub(crate) fn new(bytes: &'a [u8]) -> Self
        ensures { result ≡ bytes.now }
    {
        Name { bytes }
    }

    pub fn bytes(&self) -> &'a [u8]
        ensures { result.now ≡ self.now }
    {
        self.bytes
    }
}

impl fmt::Debug for Name<'_> {
    fn fmt<W: fmt::Write>(&self, f: &mut fmt::Formatter<W>) -> fmt::Result {
        fmt::Debug::fmt(self.bytes, f)
    }
}
