// Each row of the clock table, by each class of instruction, without waits and with them.
use super::common::{View, equal, shows};
use ControlState::{
    Decode, DispFetch0, DispFetch1, DispFetch2, Execute0, Execute1, Execute2, Fetch0, Fetch1,
    Fetch2,
};
use card::{Card, WordCard};
use clocked::{Answer, ControlState, Processor, Tick};
use layer::{Kind, Layer};
use machine::Outcome;
use refusal::Refusal;
use std::process::Abort;
use std::test::Fail;

// The states of an instruction without waits, by where its last clock is and whether it has a displacement.
const IN_DECODE: [ControlState; 4] = [Fetch0, Fetch1, Fetch2, Decode];

const IN_EXECUTE: [ControlState; 5] = [Fetch0, Fetch1, Fetch2, Decode, Execute0];

const QUICK_ACCESS: [ControlState; 7] = [
    Fetch0, Fetch1, Fetch2, Decode, Execute0, Execute1, Execute2,
];

const LONG_BRANCH: [ControlState; 8] = [
    Fetch0, Fetch1, Fetch2, Decode, DispFetch0, DispFetch1, DispFetch2, Execute0,
];

const LONG_ACCESS: [ControlState; 10] = [
    Fetch0, Fetch1, Fetch2, Decode, DispFetch0, DispFetch1, DispFetch2, Execute0, Execute1,
    Execute2,
];

// An instruction, the word after it, its states, and how it ends. All registers and flags are zero, so that a branch of
// mask 0 is taken and one of mask 8 is not.
static ROWS: [(u32, u32, &[ControlState], Outcome); 18] = [
    (0x0001_0203, 0, &IN_EXECUTE, Outcome::Done),
    (0x0301_0203, 0, &IN_EXECUTE, Outcome::Done),
    (0x0401_0203, 0, &IN_EXECUTE, Outcome::Done),
    (0x0701_0203, 0, &IN_EXECUTE, Outcome::Done),
    (0x1001_0005, 0, &IN_EXECUTE, Outcome::Done),
    (0x3001_0004, 0, &QUICK_ACCESS, Outcome::Done),
    (0x3101_0004, 0, &QUICK_ACCESS, Outcome::Done),
    (0x2001_0000, 4, &LONG_ACCESS, Outcome::Done),
    (0x2101_0000, 4, &LONG_ACCESS, Outcome::Done),
    (0x4000_0000, 1, &LONG_BRANCH, Outcome::Done),
    (0x4008_0000, 1, &IN_EXECUTE, Outcome::Done),
    (0x4100_0000, 1, &LONG_BRANCH, Outcome::Done),
    (0x4108_0000, 1, &IN_EXECUTE, Outcome::Done),
    (0x5000_0001, 0, &IN_EXECUTE, Outcome::Done),
    (0x5008_0001, 0, &IN_DECODE, Outcome::Done),
    (0x5100_0001, 0, &IN_EXECUTE, Outcome::Done),
    (0x5108_0001, 0, &IN_DECODE, Outcome::Done),
    (0xff00_0000, 0, &IN_DECODE, Outcome::Ignored),
];

// A clock in the state, after so many that wait if it is one that polls.
fn clock_in<C: Card>(
    rt: &impl Abort,
    axis: &mut Processor,
    card: &mut C,
    waits: u8,
    last: Tick,
) -> Result<(), Refusal> {
    let state = last.state;
    if let Fetch2 | DispFetch2 | Execute2 = state {
        for _ in 0..waits {
            let before = View::of(axis);
            let answer = Answer::Waiting;
            equal(rt, axis.clock(card)?, Tick { state, answer });
            shows(rt, axis, &before);
        }
    }
    equal(rt, axis.state(), state);
    equal(rt, axis.clock(card)?, last);
    Ok(())
}

// All clocks of an instruction, and the boundary after them.
fn clocks_of<C: Card>(
    rt: &impl Abort,
    card: &mut C,
    waits: u8,
    states: &[ControlState],
    outcome: Outcome,
) -> Result<(), Fail> {
    let mut axis = Processor::power_up(1, card)?;
    let (last, before) = states.split_last().ok_or("no states")?;
    for state in before {
        let tick = Tick {
            state: *state,
            answer: Answer::On,
        };
        clock_in(rt, &mut axis, card, waits, tick)?;
    }
    let tick = Tick {
        state: *last,
        answer: Answer::Ended(outcome),
    };
    clock_in(rt, &mut axis, card, waits, tick)?;
    equal(rt, axis.state(), Fetch0);
    equal(rt, axis.fault(), None);
    Ok(())
}

#[test]
fn each_class(rt: HostRuntime) -> Result<(), Fail> {
    for (word, next, states, outcome) in &ROWS {
        for waits in [0, 1, 3, 255] {
            let mut words = [*word, *next, 0, 0, 0, 0, 0, 0];
            let mut card = Layer::new(Kind::Slow(waits), WordCard::new(&mut words));
            clocks_of(&rt, &mut card, waits, *states, *outcome)?;
        }
    }
    Ok(())
}
