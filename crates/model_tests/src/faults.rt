// Faults at every stage, and what they leave; a store into the instruction that comes next.
use super::common::equal;
use card::{BootCard, Cause, Origin, WordCard};
use isa::Flags;
use machine::{Axis, Fault, Machine, Outcome, Stage};
use refusal::Refusal;
use std::process::Abort;
use std::test::Fail;

// PC, register 1, flags and fault.
fn state(axis: &Machine) -> (u32, u32, Flags, Option<Fault>) {
    (axis.pc(), axis.register(1), axis.flags(), axis.fault())
}

// Runs the words until they halt, and compares the fault with what is expected; PC stays at it, until a reset.
fn faults_on(rt: &impl Abort, words: &mut [u32], expected: Fault) -> Result<(), Fail> {
    let mut card = WordCard::new(words);
    let mut axis = Machine::power_up(2, &mut card)?;
    for _ in 0..16 {
        if let Ok(Outcome::Halted) = axis.instruction(&mut card) {
            break;
        }
    }
    equal(rt, axis.instruction(&mut card), Err(Refusal::Halted));
    let none = Flags::default();
    equal(
        rt,
        state(&axis),
        (expected.instruction, 0, none, Some(expected)),
    );
    axis.reset();
    equal(rt, state(&axis), (0, 0, none, None));
    Ok(())
}

// An access of axis 2 to a cell that is absent on the bottom card.
fn absent(stage: Stage, instruction: u32, access: u32) -> Fault {
    Fault {
        axis: Axis::Two,
        stage,
        instruction,
        access,
        cause: Cause::Absent,
        origin: Origin {
            address: access,
            layer: 0,
        },
    }
}

// The words of a card, the stage of the fault, the instruction and the access.
static FAULTS: [(&[u32], Stage, u32, u32); 10] = [
    (&[], Stage::Fetch, 0, 0),
    (&[0x0800_0000], Stage::Fetch, 1, 1),
    (&[0x2001_0000], Stage::Displacement, 0, 1),
    (&[0x2101_0000], Stage::Displacement, 0, 1),
    (&[0x4000_0000], Stage::Displacement, 0, 1),
    (&[0x4100_0000], Stage::Displacement, 0, 1),
    (&[0x2001_0000, 9], Stage::Load, 0, 9),
    (&[0x3001_00ff], Stage::Load, 0, 0xffff_ffff),
    (&[0x0800_0000, 0x2101_0000, 3], Stage::Store, 1, 3),
    (&[0x3101_0001], Stage::Store, 0, 1),
];

#[test]
fn each_stage(rt: HostRuntime) -> Result<(), Fail> {
    for (program, stage, instruction, access) in &FAULTS {
        let mut words = [0; 3];
        let (words, _) = words
            .split_at_mut_checked(program.len())
            .ok_or("a long program")?;
        words.copy_from_slice(*program);
        faults_on(&rt, words, absent(*stage, *instruction, *access))?;
    }
    Ok(())
}

// The numbers that a fault line is asked for with.
#[test]
fn numbers(rt: HostRuntime) {
    let axes = [Axis::One, Axis::Two, Axis::Three];
    equal(&rt, axes.map(u32::from), [1, 2, 3]);
    let stages = [Stage::Fetch, Stage::Displacement, Stage::Load, Stage::Store];
    equal(&rt, stages.map(u32::from), [1, 2, 3, 4]);
    equal(&rt, [Cause::Absent, Cause::Fixed].map(u32::from), [1, 2]);
}

#[test]
fn store_to_a_boot_card(rt: HostRuntime) -> Result<(), Fail> {
    let words = [0x1001_0007, 0x3101_0000];
    let mut card = BootCard::new(&words);
    let mut axis = Machine::power_up(3, &mut card)?;
    equal(&rt, axis.instruction(&mut card), Ok(Outcome::Done));
    equal(&rt, axis.instruction(&mut card), Ok(Outcome::Halted));
    let fault = Fault {
        axis: Axis::Three,
        stage: Stage::Store,
        instruction: 1,
        access: 0,
        cause: Cause::Fixed,
        origin: Origin {
            address: 0,
            layer: 0,
        },
    };
    equal(&rt, state(&axis), (1, 7, Flags::default(), Some(fault)));
    Ok(())
}

// r1 is the instruction that is stored over the next one; it is the one that runs.
#[test]
fn self_modifying_store(rt: HostRuntime) -> Result<(), Fail> {
    let mut words = [0x3001_0003, 0x3101_0002, 0xff00_0000, 0x1005_0509];
    let mut card = WordCard::new(&mut words);
    let mut axis = Machine::power_up(1, &mut card)?;
    for _ in 0..3 {
        equal(&rt, axis.instruction(&mut card), Ok(Outcome::Done));
    }
    equal(&rt, (axis.pc(), axis.register(5)), (3, 9));
    Ok(())
}
