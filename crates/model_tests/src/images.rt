// Images that are nearly right, segments at the ends, and placing on a word card.
use super::common::equal;
use card::{Card, Cells, Direction, Request, WordCard};
use image::{Image, NotPlaced};
use refusal::Refusal;
use std::process::Abort;
use std::test::Fail;

// An image as its numbers: the count, two pairs and three words.
fn image(numbers: [u32; 8]) -> [[u8; 4]; 8] {
    numbers.map(|number| number.to_be_bytes())
}

fn verdict(bytes: &[u8]) -> Option<Refusal> {
    Image::try_from(bytes).err()
}

// What is said of two pairs over three words.
fn pairs(first: [u32; 2], second: [u32; 2]) -> Option<Refusal> {
    verdict(image([2, first[0], first[1], second[0], second[1], 7, 8, 9]).as_flattened())
}

#[test]
fn refusals(rt: HostRuntime) {
    let rows: [(&[u8], Option<Refusal>); 9] = [
        (&[], Some(Refusal::Length)),
        (&[0, 0, 0], Some(Refusal::Length)),
        (&[0, 0, 0, 0], None),
        // bytes after no segment
        (&[0, 0, 0, 0, 0], Some(Refusal::Length)),
        // before the directory's length
        (&[0, 0, 0, 65], Some(Refusal::Count)),
        (&[0, 0, 0, 64], Some(Refusal::Length)),
        (&[0, 0, 0, 1, 0, 0, 0, 0, 0, 0, 0], Some(Refusal::Length)),
        (&[0, 0, 0, 1, 0, 0, 0, 0, 0, 0, 0, 0], Some(Refusal::Pair)),
        (&[0, 0, 0, 1, 0, 0, 0, 0, 0, 0, 0, 1], Some(Refusal::Length)),
    ];
    for (bytes, expected) in rows {
        equal(&rt, verdict(bytes), expected);
    }
}

#[test]
fn two_pairs(rt: HostRuntime) {
    let rows = [
        ("touching", [2, 2], [4, 1], None),
        ("up to the last address", [2, 2], [0xffff_ffff, 1], None),
        (
            "past the last address",
            [2, 1],
            [0xffff_ffff, 2],
            Some(Refusal::Pair),
        ),
        ("overlapping", [2, 2], [3, 1], Some(Refusal::Pair)),
        ("equal offsets", [2, 2], [2, 1], Some(Refusal::Pair)),
        ("not sorted", [4, 2], [2, 1], Some(Refusal::Pair)),
        ("no word", [2, 3], [5, 0], Some(Refusal::Pair)),
        (
            "far past the last address",
            [2, 2],
            [4, 0xffff_ffff],
            Some(Refusal::Pair),
        ),
        (
            "every address",
            [0, 0xffff_ffff],
            [0xffff_ffff, 1],
            Some(Refusal::Length),
        ),
        ("a wrong total besides", [2, 2], [3, 2], Some(Refusal::Pair)),
        ("a wrong total", [2, 2], [4, 2], Some(Refusal::Length)),
    ];
    for (what, first, second, expected) in rows {
        assert_eq!(rt; pairs(first, second), expected, "{what}");
    }
}

// As many segments of one word, with room for 65 pairs; by the position of each byte, as the format counts them.
fn many(count: u8) -> [u8; 784] {
    let mut bytes = [0; 784];
    bytes[3] = count;
    for n in 0..65u8 {
        bytes[8 * usize::from(n) + 7] = n;
        bytes[8 * usize::from(n) + 11] = 1;
    }
    bytes
}

#[test]
fn many_segments(rt: HostRuntime) {
    equal(&rt, verdict(&many(64)[0..772]), None);
    equal(&rt, verdict(&many(64)), Some(Refusal::Length));
    equal(&rt, verdict(&many(65)), Some(Refusal::Count));
}

// The image's segments in their order, and none after them.
fn has_segments(rt: &impl Abort, image: Image, segments: &[(u32, &[u8])]) -> Result<(), Fail> {
    for (n, (offset, words)) in segments.iter().enumerate() {
        let segment = image.segment(n).ok_or("a segment too few")?;
        equal(rt, (segment.offset, segment.words), (*offset, *words));
    }
    assert!(rt; image.segment(segments.len()).is_none());
    Ok(())
}

// The check of its bytes cut short, which is refused, leaves the image.
#[test]
fn segments(rt: HostRuntime) -> Result<(), Fail> {
    has_segments(&rt, Image::empty(), &[])?;
    let bytes = image([2, 2, 2, 4, 1, 0x1020304, 0x5060708, 0x90a0b0c]);
    let bytes = bytes.as_flattened();
    let image = Image::try_from(bytes)?;
    equal(&rt, verdict(&bytes[0..31]), Some(Refusal::Length));
    let segments: [(u32, &[u8]); 2] = [(2, &[1, 2, 3, 4, 5, 6, 7, 8]), (4, &[9, 10, 11, 12])];
    has_segments(&rt, image, &segments)
}

#[test]
fn refused_at_the_last_word(rt: HostRuntime) -> Result<(), Fail> {
    let bytes = image([2, 1, 1, 3, 2, 10, 11, 12]);
    let image = Image::try_from(bytes.as_flattened())?;
    let mut words = [7; 4];
    let refused = NotPlaced { address: 4 };
    equal(
        &rt,
        image.place(&mut WordCard::new(&mut words)),
        Err(refused),
    );
    equal(&rt, Refusal::from(refused), Refusal::NotOpen);
    Ok(())
}

// Checks the bytes and places the image, and answers the first refusal.
fn load<C: Cells>(bytes: &[u8], card: &mut C) -> Result<(), Refusal> {
    Image::try_from(bytes)?.place(card)?;
    Ok(())
}

// An image, the answer of its load on a card whose words are 7, and these words afterwards.
static LOADS: [([u32; 8], Result<(), Refusal>, &[u32]); 3] = [
    ([2, 1, 1, 3, 2, 10, 11, 12], Ok(()), &[7, 10, 7, 11, 12]),
    ([2, 1, 1, 3, 2, 10, 11, 12], Err(Refusal::NotOpen), &[7; 4]),
    ([2, 1, 1, 1, 2, 10, 11, 12], Err(Refusal::Pair), &[7; 5]),
];

// A transfer in being stays, whether the image is placed or not.
#[test]
fn loads(rt: HostRuntime) -> Result<(), Fail> {
    let request = Request {
        direction: Direction::Read,
        address: 0,
    };
    for (numbers, answer, after) in &LOADS {
        let mut words = [7; 5];
        let (words, _) = words
            .split_at_mut_checked(after.len())
            .ok_or("a long card")?;
        let mut card = WordCard::new(words);
        card.begin(request)?;
        equal(
            &rt,
            load(image(*numbers).as_flattened(), &mut card),
            *answer,
        );
        equal(&rt, card.begin(request), Err(Refusal::Transfer));
        equal(&rt, &*words, *after);
    }
    Ok(())
}
