// Programs by clock and by instruction: the chapter's test program, and each opcode.
use super::common::{equal, instruction};
use card::{Card, Cell, Cells, WordCard};
use clocked::Processor;
use layer::{Kind, Layer};
use machine::Machine;
use std::process::Abort;
use std::test::Fail;

const PROGRAM: [u32; 9] = [
    0x0700_0000,
    0x1002_0000,
    0x2102_0000,
    0x0000_0008,
    0x1002_0201,
    0x1101_020a,
    0x5009_00fa,
    0x5000_00fa,
    0x0000_0000,
];

// The two show the same.
fn agree(rt: &impl Abort, machine: &Machine, axis: &Processor) {
    for register in 0..=255u8 {
        equal(rt, axis.register(register), machine.register(register));
    }
    equal(rt, axis.flags(), machine.flags());
    equal(rt, axis.pc(), machine.pc());
    equal(rt, axis.fault(), machine.fault());
}

// Runs so many instructions on both machines, which agree after each, and in the end in so many cells: how many clocks
// they take.
fn in_step<C: Card, D: Card>(
    rt: &impl Abort,
    plain: &mut C,
    card: &mut D,
    instructions: u32,
    cells: u32,
) -> Result<u32, Fail> {
    let mut machine = Machine::power_up(1, plain)?;
    let mut axis = Processor::power_up(1, card)?;
    let mut clocks = 0u32;
    for _ in 0..instructions {
        let outcome = machine.instruction(plain)?;
        let (count, ended) = instruction(&mut axis, card)?.ok_or("no end")?;
        equal(rt, ended, outcome);
        agree(rt, &machine, &axis);
        clocks = clocks.saturating_add(count);
    }
    for address in 0..cells {
        equal(rt, card.look(address), plain.look(address));
    }
    Ok(clocks)
}

// The clocks of 60 instructions of the program.
fn clocks_on<C: Card>(rt: &impl Abort, card: &mut C) -> Result<u32, Fail> {
    let mut words = PROGRAM;
    let clocks = in_step(rt, &mut WordCard::new(&mut words), card, 60, 9)?;
    equal(rt, card.look(8), Cell::Open(1));
    Ok(clocks)
}

// 60 instructions without waits take 350 clocks; they have 84 transfers.
#[test]
fn chapters_program(rt: HostRuntime) -> Result<(), Fail> {
    let mut words = PROGRAM;
    equal(&rt, clocks_on(&rt, &mut WordCard::new(&mut words))?, 350);
    for (waits, clocks) in [(1, 434), (7, 938)] {
        let mut words = PROGRAM;
        let mut slow = Layer::new(Kind::Slow(waits), WordCard::new(&mut words));
        equal(&rt, clocks_on(&rt, &mut slow)?, clocks);
    }
    Ok(())
}

// Each opcode on r1 = 11, r2 = 6 and r3 = 100, with the displacement 1; a branch has mask 5, and is taken, or mask 13.
#[test]
fn each_opcode(rt: HostRuntime) -> Result<(), Fail> {
    for opcode in 0..=255u8 {
        for r3 in [5, 13] {
            let word = u32::from_be_bytes([opcode, r3, 2, 3]);
            let third = u32::from_be_bytes([0x10, r3, 0, 100]);
            let mut words = [0; 16];
            words[0..5].copy_from_slice(&[0x1002_000b, 0x1003_0006, third, word, 1]);
            words[12..15].copy_from_slice(&[0x44, 0x55, 0x66]);
            let mut copy = words;
            let mut plain = WordCard::new(&mut words);
            in_step(&rt, &mut plain, &mut WordCard::new(&mut copy), 4, 16)?;
        }
    }
    Ok(())
}
