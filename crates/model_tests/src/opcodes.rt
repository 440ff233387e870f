// Every opcode once, and every branch mask at every setting of the flags, on a word card.
use super::common::{equal, run};
use card::{Cells, WordCard};
use isa::Flags;
use machine::{Machine, Outcome, marked_words};
use std::test::Fail;

// An opcode on r3 = 5, r1 = 2 and r2 = 3, which hold 100, 11 and 6, with the displacement 1: r5 and PC afterwards, and
// the answer. A branch has mask 5 and is taken, since V and Z are clear.
fn expected(opcode: u8) -> (u32, u32, Outcome) {
    match opcode {
        0x00 => (17, 4, Outcome::Done),
        0x01 => (5, 4, Outcome::Done),
        0x02 => (66, 4, Outcome::Done),
        0x03 => (1, 4, Outcome::Done),
        0x04 => (2, 4, Outcome::Done),
        0x05 => (15, 4, Outcome::Done),
        0x06 => (13, 4, Outcome::Done),
        0x07 => (9, 4, Outcome::Done),
        0x10 => (14, 4, Outcome::Done),
        0x11 => (8, 4, Outcome::Done),
        0x12 => (33, 4, Outcome::Done),
        0x13 => (3, 4, Outcome::Done),
        0x20 => (0x44, 5, Outcome::Done),
        0x21 => (100, 5, Outcome::Done),
        0x30 => (0x66, 4, Outcome::Done),
        0x31 => (100, 4, Outcome::Done),
        0x40 => (100, 6, Outcome::Done),
        0x41 => (100, 12, Outcome::Done),
        0x50 => (100, 7, Outcome::Done),
        0x51 => (100, 14, Outcome::Done),
        _ => (100, 4, Outcome::Ignored),
    }
}

#[test]
fn each_opcode(rt: HostRuntime) -> Result<(), Fail> {
    for opcode in 0..=255u8 {
        let word = u32::from_be_bytes([opcode, 5, 2, 3]);
        let mut words = [
            0x1002_000b,
            0x1003_0006,
            0x1005_0064,
            word,
            1,
            0,
            0,
            0,
            0,
            0,
            0,
            0,
            0x44,
            0,
            0x66,
            0,
        ];
        let mut card = WordCard::new(&mut words);
        let mut axis = Machine::power_up(1, &mut card)?;
        for _ in 0..3 {
            equal(&rt, axis.instruction(&mut card), Ok(Outcome::Done));
        }
        let (r5, pc, outcome) = expected(opcode);
        equal(&rt, axis.instruction(&mut card), Ok(outcome));
        equal(&rt, axis.register(5), r5);
        equal(&rt, axis.pc(), pc);
        equal(&rt, words[12], if opcode == 0x21 { 100 } else { 0x44 });
        equal(&rt, words[14], if opcode == 0x31 { 100 } else { 0x66 });
    }
    Ok(())
}

// Two words that leave the flags V, N, Z: an arithmetic result, then a logical one that only moves Z.
fn flag_setting(v: bool, n: bool, z: bool) -> [u32; 2] {
    let arithmetic = match (v, n) {
        (false, false) => 0x1005_0001,
        (false, true) => 0x1105_0001,
        // 0x80000000 - 1, and 0x80000000 / 0
        (true, false) => 0x1105_0101,
        (true, true) => 0x0305_0100,
    };
    [arithmetic, if z { 0x0406_0000 } else { 0x0506_0101 }]
}

#[test]
fn each_mask_at_each_setting(rt: HostRuntime) -> Result<(), Fail> {
    for setting in 0..8u8 {
        let (v, n, z) = (setting & 4 != 0, setting & 2 != 0, setting & 1 != 0);
        for mask in 0..16u8 {
            let [arithmetic, logic] = flag_setting(v, n, z);
            let branch = u32::from_be_bytes([0x50, mask, 0, 9]);
            let mut words = [0x3001_0004, arithmetic, logic, branch, 0x8000_0000];
            let axis = run(&rt, &mut WordCard::new(&mut words), 4)?;
            equal(&rt, axis.flags(), Flags { v, n, z });
            let some = (v && mask & 4 != 0) || (n && mask & 2 != 0) || (z && mask & 1 != 0);
            let taken = some == (mask & 8 != 0);
            equal(&rt, axis.pc(), if taken { 13 } else { 4 });
        }
    }
    Ok(())
}

// The arithmetic rows of the marked words, r2 and r3 loaded first; the branches stand in the bench's scenario.
#[test]
fn marked_arithmetic(rt: HostRuntime) -> Result<(), Fail> {
    let [negative, difference, product, quotient, ..] = marked_words();
    let flags = |v, n| Flags { v, n, z: false };
    let rows = [
        (negative, (0, 0), 5, 0xffff_ffff, flags(false, true)),
        (
            difference,
            (0x8000_0000, 1),
            1,
            0x7fff_ffff,
            flags(true, false),
        ),
        (
            product,
            (0xffff_0000, 0x8000),
            1,
            0x8000_0000,
            flags(false, true),
        ),
        (
            quotient,
            (0xffff_fffb, 0),
            1,
            0x8000_0000,
            flags(true, true),
        ),
    ];
    for (marked, (a, b), register, word, flags) in rows {
        let mut words = [0x3002_0003, 0x3003_0004, marked, a, b];
        let axis = run(&rt, &mut WordCard::new(&mut words), 3)?;
        equal(&rt, axis.register(register), word);
        equal(&rt, axis.flags(), flags);
    }
    Ok(())
}

// Who lent the words finds the stored one in them.
#[test]
fn lent_words_hold_a_store(rt: HostRuntime) -> Result<(), Fail> {
    let mut words = [0x1001_0007, 0x3101_0003, 0, 0];
    let _axis = run(&rt, &mut WordCard::new(&mut words), 2)?;
    assert!(rt; words[3] == 7);
    let mut card = WordCard::new(&mut words);
    assert!(rt; card.place(2, 8).is_ok());
    assert!(rt; words[2] == 8);
    Ok(())
}
