// How many clocks each instruction takes.
use super::common::{count, instruction};
use card::WordCard;
use clocked::Processor;
use layer::{Kind, Layer};
use machine::Outcome;
use std::test::Fail;

// An opcode with a branch mask, by which a branch is taken if it is 0 and not if it is 8: the clocks without waits, the
// transfers, and how it ends.
fn expected(opcode: u8, mask: u8) -> (u8, u8, Outcome) {
    match (opcode, mask) {
        (0x00..=0x07 | 0x10..=0x13, _) => (5, 1, Outcome::Done),
        (0x30 | 0x31, _) => (7, 2, Outcome::Done),
        (0x20 | 0x21, _) => (10, 3, Outcome::Done),
        (0x40 | 0x41, 0) => (8, 2, Outcome::Done),
        (0x40 | 0x41, _) => (5, 1, Outcome::Done),
        (0x50 | 0x51, 0) => (5, 1, Outcome::Done),
        (0x50 | 0x51, _) => (4, 1, Outcome::Done),
        _ => (4, 1, Outcome::Ignored),
    }
}

// The clocks of one instruction on zero registers and flags, and how it ends.
fn taken(word: u32, waits: u8) -> Result<Option<(u32, Outcome)>, Fail> {
    let mut words = [word, 1, 0, 0];
    let mut card = Layer::new(Kind::Slow(waits), WordCard::new(&mut words));
    let mut axis = Processor::power_up(1, &mut card)?;
    Ok(instruction(&mut axis, &mut card)?)
}

#[test]
fn each_opcode(rt: HostRuntime) -> Result<(), Fail> {
    for opcode in 0..=255u8 {
        for mask in [0, 8] {
            let word = u32::from_be_bytes([opcode, mask, 0, 1]);
            let (clocks, transfers, outcome) = expected(opcode, mask);
            for waits in [0, 1, 200] {
                let all = count(clocks, transfers, waits);
                assert_eq!(rt; taken(word, waits)?, Some((all, outcome)), "{word:08x}");
            }
        }
    }
    Ok(())
}
