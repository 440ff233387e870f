// A checked image: its bytes are right by its type. Its directory is a count, and a pair of an offset and a length for each
// segment.
ghost use Rattle.std.specs.Prelude.{◌≡◌, ◌+◌, ◌^◌, ◌<◌, ◌≤◌, length, MatchBool, [], ◌∷◌, Some};
ghost use Rattle.image.specs.Directory.{number, pair_count, offset_of, length_of, pairs_of, Listed};
ghost use Rattle.image.specs.Directory.{words_before, start_of, RightPairs, Right};

use crate::segment::Segment;
use refusal::Refusal;

mod check;
mod place;
mod show;

#[derive(Clone, Copy)]
pub struct Image<'a> {
    directory: Directory<'a>,
    ghost right: { Right directory.bytes.now },
}

// Four bytes of the offset and four of the length, highest first.
#[derive(Clone, Copy)]
struct Pair {
    offset: u32,
    length: u32,
}

impl From<[u8; 8]> for Pair {
    ghost from_gives = { λ bytes pair. (pair.offset ≡ number bytes 0) × (pair.length ≡ number bytes 4) };

    fn from(bytes: [u8; 8]) -> Pair {
        let [a, b, c, d, e, f, g, h] = bytes;
        Pair {
            offset: u32::from_be_bytes([a, b, c, d]),
            length: u32::from_be_bytes([e, f, g, h]),
        }
    }
}

// The addresses that a card has.
const ADDRESSES: u64 = 0x1_0000_0000;

impl Pair {
    // The address after the segment's last one, which may be past all addresses.
    fn end(self) -> u64
        ensures { result ≡ self.offset + self.length }
    {
        u64::from(self.offset) + u64::from(self.length)
    }
}

// Bytes that have a count of at most 64 and all of its pairs.
#[derive(Clone, Copy)]
struct Directory<'a> {
    bytes: &'a [u8],
    pairs: &'a [[u8; 8]],
    ghost listed: { Listed bytes.now },
    ghost paired: { pairs.now ≡ pairs_of bytes.now },
    ghost counted: { length pairs.now ≡ pair_count bytes.now },
}

impl<'a> Directory<'a> {
    // The directory of the image of no segment.
    fn empty() -> Directory<'a>
        ensures { result.bytes.now ≡ 0 ∷ 0 ∷ 0 ∷ 0 ∷ [] }
    {
        Directory {
            bytes: &[0, 0, 0, 0],
            pairs: &[],
        }
    }

    fn count(&self) -> usize
        ensures { result ≡ pair_count self.now.bytes.now }
    {
        self.pairs.len()
    }

    // that there is a pair n is a fact about the argument, so no type has it
    fn pair(&self, n: usize) -> Pair
        requires { n < pair_count self.now.bytes.now }
        ensures offset { result.offset ≡ offset_of self.now.bytes.now n }
        ensures length { result.length ≡ length_of self.now.bytes.now n }
    {
        Pair::from(self.pairs[n])
    }

    // Whether each pair has a word, begins at or after the end of the one before it, and stays within the addresses.
    fn pairs_right(&self) -> bool
        ensures { MatchBool result (RightPairs self.now.bytes.now (pair_count self.now.bytes.now))
            (RightPairs self.now.bytes.now (pair_count self.now.bytes.now) → ⊥) }
    {
        let mut floor = 0;
        for bytes in self.pairs {
            let pair = Pair::from(*bytes);
            if pair.length == 0 || u64::from(pair.offset) < floor || pair.end() > ADDRESSES {
                return false;
            }
            floor = pair.end();
        }
        true
    }

    // How many words the segments before n have together.
    fn words_before(&self, n: usize) -> usize
        requires { n ≤ pair_count self.now.bytes.now }
        ensures value { result ≡ words_before self.now.bytes.now n }
        ensures bound { result ≤ 2 ^ 38 }
    {
        // a loop, since `sum` has to fit a `usize`, and of a chain's items no bound is known
        let mut words = 0;
        for bytes in &self.pairs[..n] {
            words += Pair::from(*bytes).length as usize;
        }
        words
    }

    // The position of the first byte of segment n; past the last, the position after all segments.
    fn start(&self, n: usize) -> usize
        requires { n ≤ pair_count self.now.bytes.now }
        ensures { result ≡ start_of self.now.bytes.now n }
    {
        4 + 8 * self.count() + 4 * self.words_before(n)
    }
}

impl<'a> TryFrom<&'a [u8]> for Directory<'a> {
    ghost use Rattle.image.specs.Check.{Read};

    type Error = Refusal;

    ghost try_from_gives = { λ bytes answer. Read bytes.now answer };

    #[tactic(auto, using(crate::specs::Check::no_count, crate::specs::Check::too_many, crate::specs::Check::cut_short), unfolding(crate::specs::Directory::number))]
    fn try_from(bytes: &'a [u8]) -> Result<Directory<'a>, Refusal> {
        let (count, rest) = bytes.split_first_chunk::<4>().ok_or(Refusal::Length)?;
        let count = u32::from_be_bytes(*count) as usize;
        if count > 64 {
            return Err(Refusal::Count);
        }
        let (pairs, _) = rest.as_chunks::<8>();
        let pairs = pairs.get(..count).ok_or(Refusal::Length)?;
        Ok(Directory { bytes, pairs })
    }
}

impl<'a> Image<'a> {
    ghost use Rattle.image.specs.Check.{bytes_of};
    ghost use Rattle.image.specs.Segments.{Shown};

    fn segment_at(&self, n: usize) -> Segment<'a>
        requires { n < pair_count (bytes_of self.now) }
        ensures { Shown (bytes_of self.now) n (Some result) }
    {
        let bytes = self.directory.bytes;
        let pair = self.directory.pair(n);
        let start = self.directory.start(n);
        let end = start + 4 * pair.length as usize;
        Segment {
            offset: pair.offset,
            words: &bytes[start..end],
        }
    }
}
