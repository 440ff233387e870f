// What several tests share.
use card::Card;
use clocked::{Answer, ControlState, Key, NotTaken, Processor};
use isa::Flags;
use machine::{Fault, Outcome};
use refusal::Refusal;
use std::fmt::Debug;
use std::process::Abort;

// Loads r1 from address 4, with a displacement.
pub const LOAD: [u32; 5] = [0x2001_0000, 4, 0, 0, 0x1234];

// The comparison of every test. It stands in a function of its own, since a check takes a second for each place where the macro
// stands, and next to nothing for a call of this.
pub fn equal<T: PartialEq + Debug + Drop>(rt: &impl Abort, found: T, expected: T) {
    assert_eq!(rt; found, expected);
}

// Everything that an axis can be asked for.
#[derive(PartialEq, Debug, Drop)]
pub struct View {
    pub registers: [u32; 256],
    pub flags: Flags,
    pub pc: u32,
    pub fault: Option<Fault>,
    pub state: ControlState,
}

impl View {
    // As it is after power-up.
    pub fn new() -> View {
        View {
            registers: [0; 256],
            flags: Flags::default(),
            pc: 0,
            fault: None,
            state: ControlState::Fetch0,
        }
    }

    pub fn of(axis: &Processor) -> View {
        let mut registers = [0; 256];
        for register in 0..=255u8 {
            registers[usize::from(register)] = axis.register(register);
        }
        View {
            registers,
            flags: axis.flags(),
            pc: axis.pc(),
            fault: axis.fault(),
            state: axis.state(),
        }
    }
}

// The axis shows what is expected.
pub fn shows(rt: &impl Abort, axis: &Processor, expected: &View) {
    equal(rt, &View::of(axis), expected);
}

// So many clocks, all of them accepted.
pub fn clocks<C: Card>(axis: &mut Processor, card: &mut C, count: u32) -> Result<(), Refusal> {
    for _ in 0..count {
        axis.clock(card)?;
    }
    Ok(())
}

// One instruction, or what is left of it: its clocks, and how it ends. No test has one of 1,000 clocks.
pub fn instruction<C: Card>(
    axis: &mut Processor,
    card: &mut C,
) -> Result<Option<(u32, Outcome)>, Refusal> {
    for count in 1..1_000 {
        if let Answer::Ended(outcome) = axis.clock(card)?.answer {
            return Ok(Some((count, outcome)));
        }
    }
    Ok(None)
}

// The clocks of an instruction with so many transfers, each with so many waits.
pub fn count(clocks: u8, transfers: u8, waits: u8) -> u32 {
    u32::from(clocks) + u32::from(transfers) * u32::from(waits)
}

// A key cannot be let go: a test that has one gives it back, or ends by a failed assertion.
pub fn hand_back(rt: &impl Abort, axis: &mut Processor, key: Key) {
    match axis.give_back(key) {
        Ok(()) => {}
        Err(_not_taken) => panic!(rt; "the key is not taken"),
    }
}

// The key again, where it does not fit.
pub fn kept(rt: &impl Abort, axis: &mut Processor, key: Key) -> Key {
    match axis.give_back(key) {
        Ok(()) => panic!(rt; "the key is taken"),
        Err(NotTaken { key, refusal }) => {
            equal(rt, refusal, Refusal::Misfit);
            key
        }
    }
}

// Why the key cannot be drawn.
pub fn refused_draw(rt: &impl Abort, axis: &mut Processor) -> Refusal {
    match axis.draw() {
        Ok(_key) => panic!(rt; "a key is drawn"),
        Err(refusal) => refusal,
    }
}
