// The segments of an image, by number.
ghost use Rattle.image.specs.Check.{bytes_of};
ghost use Rattle.image.specs.Segments.{Shown};

use super::Image;
use crate::segment::Segment;

impl<'a> Image<'a> {
    // Segment n, counted from 0; none past the last.
    pub fn segment(&self, n: usize) -> Option<Segment<'a>>
        ensures { Shown (bytes_of self.now) n result }
    {
        // not by `then`, of whose closure the proof learns too little
        if n < self.directory.count() {
            Some(self.segment_at(n))
        } else {
            None
        }
    }
}
