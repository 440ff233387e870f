// What an axis shows after each clock of an instruction: PC moves on, and the rest changes with the last clock only.
use super::common::{View, equal, shows};
use card::{Card, Cell, Cells, WordCard};
use clocked::{Answer, ControlState, Pending, Processor};
use isa::Flags;
use layer::{Kind, Layer};
use std::process::Abort;
use std::test::Fail;

// No flag set, and N or Z alone.
const NONE: Flags = Flags {
    v: false,
    n: false,
    z: false,
};

const N: Flags = Flags { n: true, ..NONE };

const Z: Flags = Flags { z: true, ..NONE };

// An instruction and the word after it; PC after each of its clocks; then register 1 and the flags, which were zero.
static ROWS: [(u32, u32, &[u32], u32, Flags); 10] = [
    (0x1001_00fe, 0, &[0, 1, 1, 1, 1], 0xffff_fffe, N),
    (0x0001_0000, 0, &[0, 1, 1, 1, 1], 0, Z),
    (0x3001_0004, 0, &[0, 1, 1, 1, 1, 1, 1], 0x1234, NONE),
    (
        0x2001_0000,
        4,
        &[0, 1, 1, 1, 1, 2, 2, 2, 2, 2],
        0x1234,
        NONE,
    ),
    (0x4000_0000, 9, &[0, 1, 1, 1, 1, 2, 2, 11], 0, NONE),
    (0x4008_0000, 9, &[0, 1, 1, 1, 2], 0, NONE),
    (0x4100_0000, 9, &[0, 1, 1, 1, 1, 2, 2, 9], 0, NONE),
    (0x5000_0009, 0, &[0, 1, 1, 1, 10], 0, NONE),
    (0x5008_0009, 0, &[0, 1, 1, 1], 0, NONE),
    (0x5100_0009, 0, &[0, 1, 1, 1, 9], 0, NONE),
];

#[test]
fn after_each_clock(rt: HostRuntime) -> Result<(), Fail> {
    for (word, next, pcs, register, flags) in &ROWS {
        let mut words = [*word, *next, 0, 0, 0x1234];
        let mut card = WordCard::new(&mut words);
        let mut axis = Processor::power_up(1, &mut card)?;
        let mut shown = View::new();
        for pc in pcs.iter() {
            shown.state = axis.state();
            shows(&rt, &axis, &shown);
            if let Answer::Ended(_) = axis.clock(&mut card)?.answer {
                shown.registers[1] = *register;
                shown.flags = *flags;
            }
            shown.pc = *pc;
        }
        shown.state = ControlState::Fetch0;
        shows(&rt, &axis, &shown);
    }
    Ok(())
}

// A store's word is there after its last clock, and not before.
fn stores<C: Card>(rt: &impl Abort, card: &mut C) -> Result<(), Fail> {
    let mut axis = Processor::power_up(1, card)?;
    for _ in 0..100 {
        equal(rt, card.look(4), Cell::Open(0x1234));
        if let Answer::Ended(_) = axis.clock(card)?.answer {
            equal(rt, card.look(4), Cell::Open(0));
            return Ok(());
        }
    }
    Err(Fail::new("the store does not end"))
}

#[test]
fn a_store_with_its_last_clock(rt: HostRuntime) -> Result<(), Fail> {
    for (word, displacement) in [(0x2101_0000, 4), (0x3101_0004, 0)] {
        for waits in [0, 3] {
            let mut words = [word, displacement, 0, 0, 0x1234];
            let mut card = Layer::new(Kind::Slow(waits), WordCard::new(&mut words));
            stores(&rt, &mut card)?;
        }
    }
    Ok(())
}

// At the boundary after an instruction its result is not stored yet, and the question for a register counts it.
#[test]
fn a_pending_result(rt: HostRuntime) -> Result<(), Fail> {
    let mut words = [0x1002_0009, 0x3003_0001];
    let mut card = WordCard::new(&mut words);
    let mut axis = Processor::power_up(1, &mut card)?;
    let mut shown = View::new();
    equal(&rt, axis.pending(), None);
    for (count, register, word, pc) in [(5, 2u8, 9, 1), (7, 3, 0x3003_0001, 2)] {
        for _ in 0..count {
            axis.clock(&mut card)?;
        }
        equal(&rt, axis.pending(), Some(Pending { register, word }));
        shown.registers[usize::from(register)] = word;
        shown.pc = pc;
        shows(&rt, &axis, &shown);
    }
    Ok(())
}
