// A fault in each state that polls, without waits and with them.
use super::common::{View, count, equal, shows};
use card::{Card, Cause, Origin, WordCard};
use clocked::{Answer, Processor};
use layer::{Kind, Layer};
use machine::{Axis, Fault, Outcome, Stage};
use refusal::Refusal;
use std::process::Abort;
use std::test::Fail;

// The words of a card, the clocks and the transfers up to the fault, its stage, the instruction and the access.
static FAULTS: [(&[u32], u8, u8, Stage, u32, u32); 11] = [
    (&[], 3, 1, Stage::Fetch, 0, 0),
    (&[0x0800_0000], 7, 2, Stage::Fetch, 1, 1),
    (&[0x5000_00fe], 8, 2, Stage::Fetch, 0xffff_ffff, 0xffff_ffff),
    (&[0x2001_0000], 7, 2, Stage::Displacement, 0, 1),
    (&[0x2101_0000], 7, 2, Stage::Displacement, 0, 1),
    (&[0x4000_0000], 7, 2, Stage::Displacement, 0, 1),
    (&[0x4100_0000], 7, 2, Stage::Displacement, 0, 1),
    (&[0x2001_0000, 9], 10, 3, Stage::Load, 0, 9),
    (&[0x3001_00ff], 7, 2, Stage::Load, 0, 0xffff_ffff),
    (&[0x0800_0000, 0x2101_0000, 3], 14, 4, Stage::Store, 1, 3),
    (&[0x3101_0001], 7, 2, Stage::Store, 0, 1),
];

// Clocks the axis until it halts: how many clocks it took.
fn halted<C: Card>(axis: &mut Processor, card: &mut C) -> Result<Option<u32>, Refusal> {
    for count in 1..1_000 {
        if let Answer::Ended(Outcome::Halted) = axis.clock(card)?.answer {
            return Ok(Some(count));
        }
    }
    Ok(None)
}

// It shows the fault, with PC at the instruction, until a reset ends the halt.
fn stays_halted<C: Card>(
    rt: &impl Abort,
    axis: &mut Processor,
    card: &mut C,
    fault: Fault,
) -> Result<(), Refusal> {
    let mut shown = View::new();
    shown.pc = fault.instruction;
    shown.fault = Some(fault);
    shows(rt, axis, &shown);
    equal(rt, axis.clock(card), Err(Refusal::Halted));
    shows(rt, axis, &shown);
    axis.reset(card)?;
    shows(rt, axis, &View::new());
    Ok(())
}

#[test]
fn each_stage(rt: HostRuntime) -> Result<(), Fail> {
    for (program, clocks, transfers, stage, instruction, access) in &FAULTS {
        for waits in [0, 1, 100] {
            let mut words = [0; 3];
            let (words, _) = words
                .split_at_mut_checked(program.len())
                .ok_or("a long program")?;
            words.copy_from_slice(*program);
            let mut card = Layer::new(Kind::Slow(waits), WordCard::new(words));
            let mut axis = Processor::power_up(3, &mut card)?;
            let all = count(*clocks, *transfers, waits);
            equal(&rt, halted(&mut axis, &mut card)?, Some(all));
            let fault = Fault {
                axis: Axis::Three,
                stage: *stage,
                instruction: *instruction,
                access: *access,
                cause: Cause::Absent,
                origin: Origin {
                    address: *access,
                    layer: 1,
                },
            };
            stays_halted(&rt, &mut axis, &mut card, fault)?;
        }
    }
    Ok(())
}

// A store that the guard above refuses has no waits; what was done before the fault stays.
#[test]
fn a_fixed_cell(rt: HostRuntime) -> Result<(), Fail> {
    let mut words = [0x1101_0001, 0x3101_0003, 0, 0];
    let slow = Layer::new(Kind::Slow(2), WordCard::new(&mut words));
    let mut card = Layer::new(Kind::Guard(0, 3), slow);
    let mut axis = Processor::power_up(2, &mut card)?;
    equal(&rt, halted(&mut axis, &mut card)?, Some(16));
    let mut shown = View::new();
    shown.registers[1] = 0xffff_ffff;
    shown.flags.n = true;
    shown.pc = 1;
    shown.fault = Some(Fault {
        axis: Axis::Two,
        stage: Stage::Store,
        instruction: 1,
        access: 3,
        cause: Cause::Fixed,
        origin: Origin {
            address: 3,
            layer: 0,
        },
    });
    shows(&rt, &axis, &shown);
    Ok(())
}
