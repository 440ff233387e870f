// Calls of an axis in a row, each with what it has to answer: a script is data, which a check reads faster than code.
use super::common::{View, clocks, equal, hand_back, refused_draw, shows};
use card::{Card, End, Request};
use clocked::{ControlState, Key, NotTaken, Processor, Tick};
use machine::Fault;
use refusal::Refusal;
use std::process::Abort;
use std::test::Fail;

#[derive(Clone, Copy)]
pub enum Call {
    Clock,
    Clocks(u32),
    Reset,
    Draw,
    // with the key that is out
    Set(u8, u32),
    GiveBack,
    // somebody else's calls of the card
    Begin(Request),
    Poll,
    Cancel,
    // questions
    Register(u8),
    Pc,
    State,
    Fault,
}

#[derive(Clone, Copy, PartialEq, Debug)]
pub enum Said {
    Nothing,
    Tick(Tick),
    Waits(u16),
    End(Option<End>),
    Word(u32),
    State(ControlState),
    Fault(Option<Fault>),
}

pub type Answer = Result<Said, Refusal>;

// A call without the key.
fn asked<C: Card>(rt: &impl Abort, axis: &mut Processor, card: &mut C, call: Call) -> Answer {
    Ok(match call {
        Call::Clock => Said::Tick(axis.clock(card)?),
        Call::Clocks(count) => {
            clocks(axis, card, count)?;
            Said::Nothing
        }
        Call::Reset => {
            axis.reset(card)?;
            Said::Nothing
        }
        Call::Begin(request) => Said::Waits(card.begin(request)?),
        Call::Poll => Said::End(card.poll()?),
        Call::Cancel => {
            card.cancel();
            Said::Nothing
        }
        Call::Register(register) => Said::Word(axis.register(register)),
        Call::Pc => Said::Word(axis.pc()),
        Call::State => Said::State(axis.state()),
        Call::Fault => Said::Fault(axis.fault()),
        Call::Draw | Call::Set(_, _) | Call::GiveBack => panic!(rt; "no key is out"),
    })
}

// A call with the key, if it is out, and the key afterwards.
fn answered<C: Card>(
    rt: &impl Abort,
    axis: &mut Processor,
    card: &mut C,
    key: Option<Key>,
    call: Call,
) -> (Option<Key>, Answer) {
    match (call, key) {
        (Call::Draw, None) => match axis.draw() {
            Ok(key) => (Some(key), Ok(Said::Nothing)),
            Err(refusal) => (None, Err(refusal)),
        },
        (Call::Draw, Some(key)) => (Some(key), Err(refused_draw(rt, axis))),
        (Call::Set(register, word), Some(key)) => match axis.set(&key, register, word) {
            Ok(()) => (Some(key), Ok(Said::Nothing)),
            Err(refusal) => (Some(key), Err(refusal)),
        },
        (Call::GiveBack, Some(key)) => match axis.give_back(key) {
            Ok(()) => (None, Ok(Said::Nothing)),
            Err(NotTaken { key, refusal }) => (Some(key), Err(refusal)),
        },
        (call, key) => (key, asked(rt, axis, card, call)),
    }
}

// Runs the script on axis 2, powered up on the card. A refused call has to leave the axis as it was.
pub fn follows<C: Card>(
    rt: &impl Abort,
    card: &mut C,
    script: &[(Call, Answer)],
) -> Result<(), Fail> {
    let mut axis = Processor::power_up(2, card)?;
    let mut key = None;
    for (call, expected) in script {
        let before = View::of(&axis);
        let (left, answer) = answered(rt, &mut axis, card, key, *call);
        key = left;
        equal(rt, answer, *expected);
        if answer.is_err() {
            shows(rt, &axis, &before);
        }
    }
    if let Some(key) = key {
        hand_back(rt, &mut axis, key);
    }
    Ok(())
}
