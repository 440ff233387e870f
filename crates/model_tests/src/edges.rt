// Addresses across the end of memory, with waits.
use super::common::equal;
use super::edge_card::EdgeCard;
use card::{Card, Cause, Cell, Cells, Direction, Origin, Request};
use machine::{Axis, Fault, Machine, Outcome, Stage};
use refusal::Refusal;
use std::process::Abort;
use std::test::Fail;

// Instructions, each with its answer and PC afterwards.
fn steps(
    rt: &impl Abort,
    axis: &mut Machine,
    card: &mut EdgeCard,
    rows: &[(Result<Outcome, Refusal>, u32)],
) {
    for (answer, pc) in rows {
        equal(rt, axis.instruction(card), *answer);
        equal(rt, axis.pc(), *pc);
    }
}

// biq r1 + i8 at 0 goes to 0xffffffff; there a long branch has its displacement at 0, and its base is 1.
#[test]
fn branch_at_the_last_address(rt: HostRuntime) -> Result<(), Fail> {
    let mut card = EdgeCard::new(
        [0x5100_00ff, 0, 0, 0, 0, 0, 0, 0],
        [0, 0, 0, 0, 0, 0, 0, 0x4000_0000],
    );
    let mut axis = Machine::power_up(1, &mut card)?;
    let rows = [
        (Ok(Outcome::Done), 0xffff_ffff),
        (Ok(Outcome::Done), 0x5100_0100),
    ];
    steps(&rt, &mut axis, &mut card, &rows);
    Ok(())
}

// A load with its displacement at 0 goes on at 1; a store at the last address but one halts at a fixed cell.
#[test]
fn load_and_store_at_the_last_addresses(rt: HostRuntime) -> Result<(), Fail> {
    let first = [0x5100_00fe, 0x5100_00ff, 0, 0, 0, 0, 0, 0];
    let last = [0, 0, 0, 0, 0, 0, 0x2102_0000, 0x2002_0000];
    let mut card = EdgeCard::new(first, last);
    let mut axis = Machine::power_up(2, &mut card)?;
    // at 0xfffffffe the store's displacement is the word at 0xffffffff, a fixed cell's address
    let rows = [
        (Ok(Outcome::Done), 0xffff_fffe),
        (Ok(Outcome::Halted), 0xffff_fffe),
    ];
    steps(&rt, &mut axis, &mut card, &rows);
    let fault = Fault {
        axis: Axis::Two,
        stage: Stage::Store,
        instruction: 0xffff_fffe,
        access: 0x2002_0000,
        cause: Cause::Fixed,
        origin: Origin {
            address: 0x2002_0000,
            layer: 0,
        },
    };
    equal(&rt, axis.fault(), Some(fault));
    // the load at 0xffffffff has its displacement at 0
    axis.reset();
    card.place(0, 0x5100_00ff)?;
    steps(
        &rt,
        &mut axis,
        &mut card,
        &[(Ok(Outcome::Done), 0xffff_ffff)],
    );
    card.place(0, 1)?;
    steps(&rt, &mut axis, &mut card, &[(Ok(Outcome::Done), 1)]);
    equal(&rt, axis.register(2), 0x5100_00ff);
    Ok(())
}

// A foreign transfer refuses an instruction and stays; power-up cancels it; a refused power-up does not.
#[test]
fn foreign_transfer(rt: HostRuntime) -> Result<(), Fail> {
    let mut card = EdgeCard::new([0x0800_0000, 0, 0, 0, 0, 0, 0, 0], [0; 8]);
    let mut axis = Machine::power_up(3, &mut card)?;
    let request = Request {
        direction: Direction::Read,
        address: 5,
    };
    equal(&rt, card.begin(request), Ok(1));
    steps(&rt, &mut axis, &mut card, &[(Err(Refusal::Transfer), 0)]);
    equal(&rt, card.begin(request), Err(Refusal::Transfer));
    assert!(rt; matches!(Machine::power_up(4, &mut card), Err(Refusal::Axis)));
    equal(&rt, card.begin(request), Err(Refusal::Transfer));
    assert!(rt; Machine::power_up(1, &mut card).is_ok());
    steps(&rt, &mut axis, &mut card, &[(Ok(Outcome::Ignored), 1)]);
    Ok(())
}

// An instruction of one word at the last address, and one of two at the last but one, go on at 0.
#[test]
fn past_the_last_address(rt: HostRuntime) -> Result<(), Fail> {
    let first = [0x5100_00fe, 0, 0, 0, 0, 0, 0, 0];
    let mut card = EdgeCard::new(first, [0, 0, 0, 0, 0, 0, 0x2103_0000, 0x0000_0005]);
    let mut axis = Machine::power_up(1, &mut card)?;
    steps(
        &rt,
        &mut axis,
        &mut card,
        &[(Ok(Outcome::Done), 0xffff_fffe)],
    );
    card.place(5, 9)?;
    steps(&rt, &mut axis, &mut card, &[(Ok(Outcome::Done), 0)]);
    equal(&rt, card.look(5), Cell::Open(0));
    let mut card = EdgeCard::new([0x5100_00ff, 0, 0, 0, 0, 0, 0, 0], [0x1004_0006; 8]);
    let mut axis = Machine::power_up(1, &mut card)?;
    let rows = [(Ok(Outcome::Done), 0xffff_ffff), (Ok(Outcome::Done), 0)];
    steps(&rt, &mut axis, &mut card, &rows);
    equal(&rt, axis.register(4), 6);
    Ok(())
}

// A halt is told before a transfer in being.
#[test]
fn halted_before_busy(rt: HostRuntime) -> Result<(), Fail> {
    let mut card = EdgeCard::new([0x2101_0000, 100, 0, 0, 0, 0, 0, 0], [0; 8]);
    let mut axis = Machine::power_up(1, &mut card)?;
    equal(&rt, axis.instruction(&mut card), Ok(Outcome::Halted));
    assert!(rt;
        card.begin(Request {
            direction: Direction::Read,
            address: 0,
        })
        .is_ok()
    );
    steps(&rt, &mut axis, &mut card, &[(Err(Refusal::Halted), 0)]);
    axis.reset();
    steps(&rt, &mut axis, &mut card, &[(Err(Refusal::Transfer), 0)]);
    Ok(())
}
