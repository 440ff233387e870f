// A segment of an image: words for the addresses from the offset on.
#[derive(Clone, Copy)]
pub struct Segment<'a> {
    pub offset: u32,
    // part of the image's own bytes, four for each word; a slice of arrays would ask more of whoever makes a segment
    pub words: &'a [u8],
}
