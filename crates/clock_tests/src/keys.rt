// The service key of an axis: where it can be drawn, what it locks out, and what it sets.
use super::common::{LOAD, View, clocks, equal, instruction, refused_draw, shows};
use super::script::{Answer, Call, Said, follows};
use card::WordCard;
use clocked::Processor;
use key_use::{set_register, set_registers};
use layer::{Kind, Layer};
use machine::Outcome;
use refusal::Refusal;
use std::test::Fail;

const OK: Answer = Ok(Said::Nothing);

// At a boundary with a result pending for r2: the draw stores it, so it does not overwrite what is set.
static AT_A_BOUNDARY: [(Call, Answer); 18] = [
    (Call::Clocks(5), OK),
    (Call::Register(2), Ok(Said::Word(9))),
    (Call::Draw, OK),
    (Call::Clock, Err(Refusal::KeyOut)),
    (Call::Reset, Err(Refusal::KeyOut)),
    (Call::Draw, Err(Refusal::KeyOut)),
    (Call::Register(2), Ok(Said::Word(9))),
    (Call::Set(2, 4), OK),
    (Call::Set(255, 8), OK),
    (Call::GiveBack, OK),
    (Call::Register(2), Ok(Said::Word(4))),
    (Call::Register(3), Ok(Said::Word(0))),
    (Call::Clocks(5), OK),
    (Call::Register(2), Ok(Said::Word(4))),
    (Call::Register(3), Ok(Said::Word(1))),
    (Call::Register(254), Ok(Said::Word(0))),
    (Call::Register(255), Ok(Said::Word(8))),
    (Call::Pc, Ok(Said::Word(2))),
];

#[test]
fn at_a_boundary(rt: HostRuntime) -> Result<(), Fail> {
    let mut words = [0x1002_0009, 0x1003_0001];
    follows(&rt, &mut WordCard::new(&mut words), &AT_A_BOUNDARY)
}

// A halted axis gives its key out, and stays halted with the same fault.
#[test]
fn halted(rt: HostRuntime) -> Result<(), Fail> {
    let mut words = [0x2001_0000, 9];
    let mut card = WordCard::new(&mut words);
    let mut axis = Processor::power_up(1, &mut card)?;
    let end = instruction(&mut axis, &mut card)?;
    equal(&rt, end, Some((10, Outcome::Halted)));
    let mut shown = View::of(&axis);
    set_registers(&mut axis, (7, 5), (8, 6))?;
    set_registers(&mut axis, (8, 1), (8, 2))?;
    shown.registers[7] = 5;
    shown.registers[8] = 2;
    shows(&rt, &axis, &shown);
    equal(&rt, axis.clock(&mut card), Err(Refusal::Halted));
    Ok(())
}

// A load of 13 clocks: no key between its ends, and a refused draw changes nothing.
#[test]
fn between_boundaries(rt: HostRuntime) -> Result<(), Fail> {
    let mut words = LOAD;
    let mut card = Layer::new(Kind::Slow(1), WordCard::new(&mut words));
    let mut axis = Processor::power_up(1, &mut card)?;
    set_register(&mut axis, 2, 6)?;
    for _ in 1..13 {
        clocks(&mut axis, &mut card, 1)?;
        let before = View::of(&axis);
        equal(&rt, refused_draw(&rt, &mut axis), Refusal::NoBoundary);
        equal(&rt, set_register(&mut axis, 2, 7), Err(Refusal::NoBoundary));
        shows(&rt, &axis, &before);
    }
    clocks(&mut axis, &mut card, 1)?;
    set_registers(&mut axis, (3, 8), (4, 9))?;
    let mut shown = View::new();
    shown.registers[0..5].copy_from_slice(&[0, 0x1234, 6, 8, 9]);
    shown.pc = 2;
    shows(&rt, &axis, &shown);
    Ok(())
}
