// Clocks that are refused for the card's transfer, and the axis that goes on once the transfer is right again.
use super::common::LOAD;
use super::script::{Answer, Call, Said, follows};
use ControlState::{
    Decode, DispFetch0, DispFetch1, DispFetch2, Execute0, Execute1, Execute2, Fetch0, Fetch1,
    Fetch2,
};
use card::{Cause, Direction, Origin, Request, WordCard};
use clocked::{ControlState, Tick};
use layer::{Kind, Layer};
use machine::{Axis, Fault, Outcome, Stage};
use refusal::Refusal;
use std::process::Abort;
use std::test::Fail;

// Somebody else's transfer.
const FOREIGN: Request = Request {
    direction: Direction::Write(5),
    address: 3,
};

const OK: Answer = Ok(Said::Nothing);

const REFUSED: Answer = Err(Refusal::Transfer);

fn read(address: u32) -> Request {
    Request {
        direction: Direction::Read,
        address,
    }
}

// A script for the load on a card with two waits, where it takes 16 clocks.
fn on_a_load(rt: &impl Abort, script: &[(Call, Answer)]) -> Result<(), Fail> {
    let mut words = LOAD;
    let mut card = Layer::new(Kind::Slow(2), WordCard::new(&mut words));
    follows(rt, &mut card, script)
}

// The foreign transfer keeps its waits, and then stores its word.
#[test]
fn one_in_being_where_one_begins(rt: HostRuntime) -> Result<(), Fail> {
    for (count, left, state) in [(1, 15, Fetch1), (7, 9, DispFetch1), (12, 4, Execute1)] {
        let script = [
            (Call::Clocks(count), OK),
            (Call::State, Ok(Said::State(state))),
            (Call::Begin(FOREIGN), Ok(Said::Waits(2))),
            (Call::Clock, REFUSED),
            (Call::Clock, REFUSED),
            (Call::Poll, Ok(Said::End(None))),
            (Call::Poll, Ok(Said::End(None))),
            (Call::Poll, Ok(Said::End(Some(Ok(5))))),
            (Call::Clocks(left), OK),
            (Call::State, Ok(Said::State(Fetch0))),
            (Call::Register(1), Ok(Said::Word(0x1234))),
            (Call::Pc, Ok(Said::Word(2))),
        ];
        on_a_load(&rt, &script)?;
    }
    Ok(())
}

// The axis's own transfer is cancelled before a poll, and begun again: it then waits from the start.
#[test]
fn none_where_one_is_polled(rt: HostRuntime) -> Result<(), Fail> {
    for (count, left, state, address) in [
        (2, 14, Fetch2, 0),
        (4, 14, Fetch2, 0),
        (8, 8, DispFetch2, 1),
        (9, 8, DispFetch2, 1),
        (13, 3, Execute2, 4),
        (15, 3, Execute2, 4),
    ] {
        let script = [
            (Call::Clocks(count), OK),
            (Call::State, Ok(Said::State(state))),
            (Call::Cancel, OK),
            (Call::Clock, REFUSED),
            (Call::Clock, REFUSED),
            (Call::Poll, REFUSED),
            (Call::Begin(read(address)), Ok(Said::Waits(2))),
            (Call::Clocks(left), OK),
            (Call::State, Ok(Said::State(Fetch0))),
            (Call::Register(1), Ok(Said::Word(0x1234))),
            (Call::Pc, Ok(Said::Word(2))),
        ];
        on_a_load(&rt, &script)?;
    }
    Ok(())
}

// The other states do not look at the transfer, and leave it.
#[test]
fn one_in_being_elsewhere(rt: HostRuntime) -> Result<(), Fail> {
    for (count, state) in [(0, Fetch0), (5, Decode), (6, DispFetch0), (11, Execute0)] {
        let answer = clocked::Answer::On;
        let script = [
            (Call::Clocks(count), OK),
            (Call::Begin(FOREIGN), Ok(Said::Waits(2))),
            (Call::Clock, Ok(Said::Tick(Tick { state, answer }))),
            (Call::Poll, Ok(Said::End(None))),
            (Call::Poll, Ok(Said::End(None))),
            (Call::Poll, Ok(Said::End(Some(Ok(5))))),
        ];
        on_a_load(&rt, &script)?;
    }
    Ok(())
}

// Somebody puts another transfer in the place of the axis's own: the axis takes its word for the displacement, for the
// loaded word, or its fault. The access is the axis's own address then, and the origin is the cell's.
#[test]
fn another_in_its_place(rt: HostRuntime) -> Result<(), Fail> {
    let tick = Tick {
        state: Execute2,
        answer: clocked::Answer::Ended(Outcome::Done),
    };
    let fault = Fault {
        axis: Axis::Two,
        stage: Stage::Fetch,
        instruction: 0,
        access: 0,
        cause: Cause::Absent,
        origin: Origin {
            address: 100,
            layer: 0,
        },
    };
    let script = [
        (Call::Clocks(6), OK),
        (Call::Cancel, OK),
        (Call::Begin(FOREIGN), Ok(Said::Waits(0))),
        (Call::Clocks(2), OK),
        (Call::State, Ok(Said::State(Execute1))),
        (Call::Clocks(1), OK),
        (Call::Cancel, OK),
        (Call::Begin(FOREIGN), Ok(Said::Waits(0))),
        (Call::Clock, Ok(Said::Tick(tick))),
        (Call::Register(1), Ok(Said::Word(5))),
        (Call::Clocks(2), OK),
        (Call::Reset, OK),
        (Call::Clocks(2), OK),
        (Call::Cancel, OK),
        (Call::Begin(read(100)), Ok(Said::Waits(0))),
        (Call::Clocks(1), OK),
        (Call::Fault, Ok(Said::Fault(Some(fault)))),
        (Call::Clock, Err(Refusal::Halted)),
    ];
    let mut words = LOAD;
    follows(&rt, &mut WordCard::new(&mut words), &script)
}
