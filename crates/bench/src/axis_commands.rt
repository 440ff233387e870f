// The commands of an axis. What they print is the bench's format, so it stands here and in no `Display` of the library's types.
// The runtime is passed along, as everywhere.
use super::axis::Axis;
use super::mistake::Mistake;
use super::serviced::Serviced;
use card::Card;
use clocked::{Answer, ControlState, Tick};
use fault_report::write_fault;
use machine::{Machine, Outcome};
use refusal::Refusal;
use std::io;

// At most so many instructions of an instruction machine.
pub fn run_instructions<C: Card>(
    rt: &HostRuntime,
    axis: &mut Axis,
    card: &mut C,
    count: u32,
) -> Result<(), Mistake> {
    let Axis::ByInstruction(machine) = axis else {
        return Err(Mistake::ByClock);
    };
    let (accepted, last) = instructions(machine, card, count);
    match last {
        Ok(outcome) => {
            let outcome = outcome_name(outcome);
            println!(rt; "instruction {accepted} {outcome}")?;
        }
        Err(refusal) => println!(rt; "instruction {accepted} refused {refusal}")?,
    }
    Ok(())
}

// Up to so many instructions, to the first that halts or is refused: how many were accepted, and the last answer. The count of
// the turns is the count of the answer.
fn instructions<C: Card>(
    machine: &mut Machine,
    card: &mut C,
    count: u32,
) -> (u32, Result<Outcome, Refusal>) {
    let mut last = Outcome::Done;
    for accepted in 0..count {
        match machine.instruction(card) {
            Ok(Outcome::Halted) => return (accepted + 1, Ok(Outcome::Halted)),
            Ok(outcome) => last = outcome,
            Err(refusal) => return (accepted, Err(refusal)),
        }
    }
    (count, Ok(last))
}

// At most so many clocks of a processor by clock.
pub fn run_clocks<C: Card>(
    rt: &HostRuntime,
    axis: &mut Axis,
    card: &mut C,
    count: u32,
) -> Result<(), Mistake> {
    let (accepted, last) = clocks(by_clock(axis)?, card, count);
    match last {
        Ok(Tick { state, answer }) => {
            let state = state_name(state);
            let answer = answer_name(answer);
            println!(rt; "clock {accepted} {state} {answer}")?;
        }
        Err(refusal) => println!(rt; "clock {accepted} refused {refusal}")?,
    }
    Ok(())
}

// As `instructions`. Where no clock is asked for, the answer is that of a boundary.
fn clocks<C: Card>(
    serviced: &mut Serviced,
    card: &mut C,
    count: u32,
) -> (u32, Result<Tick, Refusal>) {
    let mut last = Tick {
        state: ControlState::Fetch0,
        answer: Answer::On,
    };
    for accepted in 0..count {
        match serviced.clock(card) {
            Ok(tick) if tick.answer == Answer::Ended(Outcome::Halted) => {
                return (accepted + 1, Ok(tick));
            }
            Ok(tick) => last = tick,
            Err(refusal) => return (accepted, Err(refusal)),
        }
    }
    (count, Ok(last))
}

fn outcome_name(outcome: Outcome) -> &'static str {
    match outcome {
        Outcome::Done => "done",
        Outcome::Ignored => "ignored",
        Outcome::Halted => "halted",
    }
}

fn answer_name(answer: Answer) -> &'static str {
    match answer {
        Answer::On => "on",
        Answer::Waiting => "waiting",
        Answer::Ended(outcome) => outcome_name(outcome),
    }
}

fn state_name(state: ControlState) -> &'static str {
    match state {
        ControlState::Fetch0 => "fetch_0",
        ControlState::Fetch1 => "fetch_1",
        ControlState::Fetch2 => "fetch_2",
        ControlState::Decode => "decode",
        ControlState::DispFetch0 => "disp_fetch_0",
        ControlState::DispFetch1 => "disp_fetch_1",
        ControlState::DispFetch2 => "disp_fetch_2",
        ControlState::Execute0 => "execute_0",
        ControlState::Execute1 => "execute_1",
        ControlState::Execute2 => "execute_2",
    }
}

fn by_clock(axis: &mut Axis) -> Result<&mut Serviced, Mistake> {
    match axis {
        Axis::ByClock(serviced) => Ok(serviced),
        Axis::ByInstruction(_) => Err(Mistake::ByInstruction),
    }
}

pub fn reset<C: Card>(rt: &HostRuntime, axis: &mut Axis, card: &mut C) -> io::Result<()> {
    print_answer(rt, "reset", axis.reset(card))
}

pub fn draw(rt: &HostRuntime, axis: &mut Axis) -> Result<(), Mistake> {
    let answer = by_clock(axis)?.draw();
    print_answer(rt, "draw", answer)?;
    Ok(())
}

pub fn set(rt: &HostRuntime, axis: &mut Axis, register: u8, word: u32) -> Result<(), Mistake> {
    let answer = by_clock(axis)?.set(register, word).ok_or(Mistake::NoKey)?;
    print_answer(rt, "set", answer)?;
    Ok(())
}

pub fn give(rt: &HostRuntime, axis: &mut Axis) -> Result<(), Mistake> {
    let answer = by_clock(axis)?.give().ok_or(Mistake::NoKey)?;
    print_answer(rt, "give", answer)?;
    Ok(())
}

// What a call answered that answers nothing but ok or a refusal.
fn print_answer(rt: &HostRuntime, call: &str, answer: Result<(), Refusal>) -> io::Result<()> {
    match answer {
        Ok(()) => println!(rt; "{call} ok"),
        Err(refusal) => println!(rt; "{call} refused {refusal}"),
    }
}

// The registers that are not zero.
pub fn registers(rt: &HostRuntime, axis: &Axis) -> io::Result<()> {
    let count = (0..=255u8)
        .filter(|register| axis.register(*register) != 0)
        .count();
    println!(rt; "registers {count}")?;
    for register in 0..=255u8 {
        let word = axis.register(register);
        if word != 0 {
            println!(rt; "r{register} {word:08x}")?;
        }
    }
    Ok(())
}

pub fn flags(rt: &HostRuntime, axis: &Axis) -> io::Result<()> {
    let flags = axis.flags();
    let v = u8::from(flags.v);
    let n = u8::from(flags.n);
    let z = u8::from(flags.z);
    println!(rt; "flags V{v} N{n} Z{z}")
}

pub fn pc(rt: &HostRuntime, axis: &Axis) -> io::Result<()> {
    let pc = axis.pc();
    println!(rt; "pc {pc:08x}")
}

// The fault line, or that there is no fault.
pub fn fault(rt: &HostRuntime, axis: &Axis) -> io::Result<()> {
    let Some(fault) = axis.fault() else {
        return println!(rt; "fault none");
    };
    let mut line = [0u8; 48];
    // 48 bytes do for every line, so it is never refused
    let length = write_fault(fault, &mut line).unwrap();
    print_text(rt, &line[..length])
}

// The line's text, which is ASCII.
fn print_text(rt: &HostRuntime, line: &[u8]) -> io::Result<()> {
    match std::str::from_utf8(line) {
        Ok(text) => print!(rt; "{text}"),
        Err(_) => println!(rt; "fault has no line"),
    }
}
