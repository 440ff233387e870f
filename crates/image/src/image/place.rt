// Placing an image on a card.
ghost use Rattle.std.specs.Prelude.{◌≡◌, OnErr, ◌+◌, ◌^◌, ◌≤◌};
ghost use Rattle.card.specs.Meaning.{mapped};
ghost use Rattle.image.specs.Check.{bytes_of};
ghost use Rattle.image.specs.Directory.{pair_count};
ghost use Rattle.image.specs.Placing.{AllOpen, Looked, Laid, PlacedImage};
ghost use Rattle.card.specs.Cells.{cell_is_open};
ghost use Rattle.image.specs.Words.{words_in, OpenFrom, closed_in, laid};

use super::Image;
use crate::placing::NotPlaced;
use crate::segment::Segment;
use card::{Cell, Cells};

impl<'a> Image<'a> {
    // Puts every word at its address, or nothing at all if some address is not open.
    pub fn place<C: Cells>(&self, card: &mut C) -> Result<(), NotPlaced>
        ensures placed { PlacedImage (bytes_of self.now) (C.Cells.meaning card.old)
            result (C.Cells.meaning card.new) }
        ensures frame { C.Cells.frame card.new ≡ C.Cells.frame card.old }
        ensures untouched { OnErr result (card.new ≡ card.old) }
    {
        if let Some(address) = self.first_closed(card) {
            return Err(NotPlaced { address });
        }
        self.lay(card);
        Ok(())
    }

    // The lowest address of the image that is not open.
    fn first_closed<C: Cells>(&self, card: &C) -> Option<u32>
        ensures { Looked (bytes_of self.now) (C.Cells.meaning card.now).map result }
    {
        // a `for`, since the check finds no proof of a `find_map`
        for n in 0..self.directory.count() {
            if let Some(address) = self.segment_at(n).first_closed(card) {
                return Some(address);
            }
        }
        None
    }

    fn lay<C: Cells>(&self, card: &mut C)
        requires { AllOpen (bytes_of self.now) (pair_count (bytes_of self.now)) (C.Cells.meaning card.old).map }
        ensures laid { Laid (bytes_of self.now) (pair_count (bytes_of self.now))
            (C.Cells.meaning card.old) (C.Cells.meaning card.new) }
        ensures frame { C.Cells.frame card.new ≡ C.Cells.frame card.old }
    {
        for n in 0..self.directory.count() {
            self.segment_at(n).lay(card);
        }
    }
}

impl<'a> Segment<'a> {
    // The first address of the segment that is not open.
    fn first_closed<C: Cells>(&self, card: &C) -> Option<u32>
        requires { self.now.offset + words_in self.now.words.now ≤ 2 ^ 32 }
        ensures { result ≡ closed_in (C.Cells.meaning card.now).map self.now.offset self.now.words.now }
    {
        (0..self.words.len() / 4)
            .map(|k| self.offset + k as u32)
            .find(|address| !is_open(card.look(*address)))
    }

    // Puts the words at their addresses, which are all open.
    fn lay<C: Cells>(&self, card: &mut C)
        requires fits { self.now.offset + words_in self.now.words.now ≤ 2 ^ 32 }
        requires open { OpenFrom (C.Cells.meaning card.old).map self.now.offset (self.now.offset + words_in self.now.words.now) }
        ensures laid { C.Cells.meaning card.new ≡ mapped
            (laid self.now.offset self.now.words.now (words_in self.now.words.now) (C.Cells.meaning card.old).map)
            (C.Cells.meaning card.old) }
        ensures frame { C.Cells.frame card.new ≡ C.Cells.frame card.old }
    {
        let (words, _) = self.words.as_chunks::<4>();
        for (k, word) in words.iter().enumerate() {
            card.place(self.offset + k as u32, u32::from_be_bytes(*word))
                .unwrap();
        }
    }
}

fn is_open(cell: Cell) -> bool
    ensures { result ≡ cell_is_open cell }
{
    matches!(cell, Cell::Open(_))
}
