// The check of an image, which is the only way to one that has a segment.
ghost use Rattle.std.specs.Prelude.{◌≡◌, [], ◌∷◌};
ghost use Rattle.image.specs.Check.{bytes_of, Checked};

use super::{Directory, Image};
use refusal::Refusal;

impl<'a> Image<'a> {
    // The image of no segment.
    pub fn empty() -> Image<'a>
        ensures { bytes_of result ≡ 0 ∷ 0 ∷ 0 ∷ 0 ∷ [] }
    {
        Image {
            directory: Directory::empty(),
        }
    }
}

// Any bytes at all can be checked. The tests come in their order, and the first that fails tells the refusal.
impl<'a> TryFrom<&'a [u8]> for Image<'a> {
    type Error = Refusal;

    ghost try_from_gives = { λ bytes answer. Checked bytes.now answer };

    fn try_from(bytes: &'a [u8]) -> Result<Image<'a>, Refusal> {
        let directory = Directory::try_from(bytes)?;
        if !directory.pairs_right() {
            return Err(Refusal::Pair);
        }
        if bytes.len() != directory.start(directory.count()) {
            return Err(Refusal::Length);
        }
        Ok(Image { directory })
    }
}
