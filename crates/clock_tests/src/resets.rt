// A reset in each state, and in the waits of a store.
use super::common::{View, clocks, count, equal, instruction, shows};
use card::{Card, Cell, Cells, WordCard};
use clocked::{ControlState, Processor};
use layer::{Kind, Layer};
use machine::Outcome;
use refusal::Refusal;
use std::process::Abort;
use std::test::Fail;

// After an addq, whose result is pending at first, and so many clocks of a load: PC is 0, the rest is as it was, and the
// program then runs from its start.
fn after<C: Card>(rt: &impl Abort, card: &mut C, clocked: u32, waits: u8) -> Result<(), Fail> {
    let mut axis = Processor::power_up(1, card)?;
    let add = Some((count(5, 1, waits), Outcome::Done));
    let load = Some((count(10, 3, waits), Outcome::Done));
    equal(rt, instruction(&mut axis, card)?, add);
    clocks(&mut axis, card, clocked)?;
    let mut shown = View::of(&axis);
    axis.reset(card)?;
    shown.pc = 0;
    shown.state = ControlState::Fetch0;
    shows(rt, &axis, &shown);
    equal(rt, card.poll(), Err(Refusal::Transfer));
    equal(rt, instruction(&mut axis, card)?, add);
    equal(rt, instruction(&mut axis, card)?, load);
    equal(rt, axis.register(1), 0x1234);
    Ok(())
}

#[test]
fn in_each_state(rt: HostRuntime) -> Result<(), Fail> {
    for waits in [0, 2] {
        for clocked in 0..count(10, 3, waits) {
            let mut words = [0x1002_00f9, 0x2001_0000, 4, 0, 0x1234];
            let mut card = Layer::new(Kind::Slow(waits), WordCard::new(&mut words));
            after(&rt, &mut card, clocked, waits)?;
        }
    }
    Ok(())
}

// A store that still waits is not done.
#[test]
fn in_a_store(rt: HostRuntime) -> Result<(), Fail> {
    let mut words = [0x1002_0007, 0x3102_0004, 0, 0, 0];
    let mut card = Layer::new(Kind::Slow(2), WordCard::new(&mut words));
    let mut axis = Processor::power_up(1, &mut card)?;
    for clocked in 8..=10 {
        instruction(&mut axis, &mut card)?;
        clocks(&mut axis, &mut card, clocked)?;
        equal(&rt, axis.state(), ControlState::Execute2);
        axis.reset(&mut card)?;
        equal(&rt, card.look(4), Cell::Open(0));
    }
    instruction(&mut axis, &mut card)?;
    clocks(&mut axis, &mut card, 11)?;
    equal(&rt, axis.state(), ControlState::Fetch0);
    equal(&rt, card.look(4), Cell::Open(7));
    Ok(())
}
