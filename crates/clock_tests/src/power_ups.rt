// Power-up: its axes, the card's transfer, and power that is cut in an instruction.
use super::common::{LOAD, View, clocks, equal, instruction, shows};
use card::{Card, Direction, Request, WordCard};
use clocked::Processor;
use layer::{Kind, Layer};
use machine::{Axis, Outcome};
use refusal::Refusal;
use std::test::Fail;

const REQUEST: Request = Request {
    direction: Direction::Write(7),
    address: 1,
};

// The transfer goes on after each refusal: it waits once more, and then stores its word.
#[test]
fn refused_axes(rt: HostRuntime) -> Result<(), Fail> {
    let mut words = [1, 2];
    let mut card = Layer::new(Kind::Slow(4), WordCard::new(&mut words));
    card.begin(REQUEST)?;
    for axis in [0, 4, 257, 0xffff_ffff] {
        assert!(rt; matches!(Processor::power_up(axis, &mut card), Err(Refusal::Axis)));
        equal(&rt, card.poll(), Ok(None));
    }
    equal(&rt, card.poll(), Ok(Some(Ok(7))));
    Ok(())
}

// An accepted power-up cancels the transfer. The first clocks halt, and the fault bears the axis.
#[test]
fn accepted_axes(rt: HostRuntime) -> Result<(), Fail> {
    for (number, axis) in [(1, Axis::One), (2, Axis::Two), (3, Axis::Three)] {
        let mut card = WordCard::new(&mut []);
        card.begin(REQUEST)?;
        let mut processor = Processor::power_up(number, &mut card)?;
        equal(&rt, card.poll(), Err(Refusal::Transfer));
        shows(&rt, &processor, &View::new());
        clocks(&mut processor, &mut card, 3)?;
        let fault = processor.fault().ok_or("no fault")?;
        equal(&rt, fault.axis, axis);
    }
    Ok(())
}

// Power cut after each clock of a load: the new processor begins anew, on a card that holds no transfer of the old one.
#[test]
fn in_an_instruction(rt: HostRuntime) -> Result<(), Fail> {
    for count in 0..=13 {
        let mut words = LOAD;
        let mut card = Layer::new(Kind::Slow(1), WordCard::new(&mut words));
        let mut old = Processor::power_up(1, &mut card)?;
        clocks(&mut old, &mut card, count)?;
        let mut axis = Processor::power_up(1, &mut card)?;
        equal(&rt, card.poll(), Err(Refusal::Transfer));
        shows(&rt, &axis, &View::new());
        equal(
            &rt,
            instruction(&mut axis, &mut card)?,
            Some((13, Outcome::Done)),
        );
        equal(&rt, axis.register(1), 0x1234);
    }
    Ok(())
}
