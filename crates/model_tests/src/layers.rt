// Layers: origins through a stack, waits, and what a layer leaves of the card below.
use super::common::{equal, fault, run, shows};
use super::edge_card::EdgeCard;
use card::{BootCard, Card, Cause, Cell, Cells, Direction, End, Origin, Request, WordCard};
use layer::{Kind, Layer};
use machine::Machine;
use refusal::Refusal;
use std::process::Abort;
use std::test::Fail;

fn absent(address: u32, layer: u8) -> Cell {
    Cell::Absent(Origin { address, layer })
}

fn fixed(word: u32, address: u32, layer: u8) -> Cell {
    Cell::Fixed(word, Origin { address, layer })
}

#[test]
fn offsets_at_their_ends(rt: HostRuntime) -> Result<(), Fail> {
    let mut words = [5];
    let card = Layer::new(Kind::Offset(0), WordCard::new(&mut words));
    shows(&rt, &card, &[(0, Cell::Open(5)), (1, absent(1, 1))]);
    let mut words = [5];
    let card = Layer::new(Kind::Offset(0xffff_ffff), WordCard::new(&mut words));
    shows(
        &rt,
        &card,
        &[
            (0xffff_ffff, Cell::Open(5)),
            (0xffff_fffe, absent(0xffff_fffe, 0)),
        ],
    );
    let mut words = [5];
    let mut card = Layer::new(Kind::Offset(4), WordCard::new(&mut words));
    let cells = [(3, absent(3, 0)), (4, Cell::Open(5)), (5, absent(1, 1))];
    shows(&rt, &card, &cells);
    card.place(4, 6)?;
    equal(&rt, card.place(3, 6), Err(Refusal::NotOpen));
    equal(&rt, card.look(4), Cell::Open(6));
    Ok(())
}

#[test]
fn guards_at_their_ends(rt: HostRuntime) -> Result<(), Fail> {
    let mut words = [5, 6, 7, 8];
    let mut card = Layer::new(Kind::Guard(1, 2), WordCard::new(&mut words));
    let cells = [
        (0, Cell::Open(5)),
        (1, fixed(6, 1, 0)),
        (2, fixed(7, 2, 0)),
        (3, Cell::Open(8)),
        (4, absent(4, 1)),
    ];
    shows(&rt, &card, &cells);
    equal(&rt, card.place(2, 9), Err(Refusal::NotOpen));
    card.place(3, 9)?;
    // first above last guards nothing
    let mut words = [5, 6, 7];
    let card = Layer::new(Kind::Guard(2, 1), WordCard::new(&mut words));
    shows(&rt, &card, &[(1, Cell::Open(6)), (2, Cell::Open(7))]);
    // what is fixed or absent below stays as it is there; of two guards the lower is the origin
    let card = Layer::new(Kind::Guard(0, 9), BootCard::new(&[5]));
    shows(&rt, &card, &[(0, fixed(5, 0, 1)), (1, absent(1, 1))]);
    let mut words = [5, 6];
    let lower = Layer::new(Kind::Guard(0, 0), WordCard::new(&mut words));
    let card = Layer::new(Kind::Guard(0, 9), lower);
    shows(&rt, &card, &[(0, fixed(5, 0, 1)), (1, fixed(6, 1, 0))]);
    Ok(())
}

// Waits of a transfer, and how it ends once they are over.
fn waited<C: Card>(
    rt: &impl Abort,
    card: &mut C,
    direction: Direction,
    address: u32,
) -> Result<(u16, End), Fail> {
    let request = Request { direction, address };
    let waits = card.begin(request)?;
    equal(rt, card.begin(request), Err(Refusal::Transfer));
    for _ in 0..waits {
        equal(rt, card.poll(), Ok(None));
    }
    let end = card.poll()?.ok_or("the transfer does not end")?;
    Ok((waits, end))
}

// Transfers, each with its waits and its end.
fn transfers<C: Card>(
    rt: &impl Abort,
    card: &mut C,
    rows: &[(Direction, u32, u16, End)],
) -> Result<(), Fail> {
    for (direction, address, waits, end) in rows {
        equal(rt, waited(rt, card, *direction, *address)?, (*waits, *end));
    }
    Ok(())
}

// A layer of this kind over the card: its patience, and transfers through it.
fn through<C: Card + Drop>(
    rt: &impl Abort,
    kind: Kind,
    below: C,
    patience: u16,
    rows: &[(Direction, u32, u16, End)],
) -> Result<Layer<C>, Fail> {
    let mut card = Layer::new(kind, below);
    equal(rt, card.patience(), patience);
    transfers(rt, &mut card, rows)?;
    Ok(card)
}

// The card at the bottom waits by its address, and the slow layer adds to that; what a layer refuses itself has no waits.
#[test]
fn waits_through_a_stack(rt: HostRuntime) -> Result<(), Fail> {
    let bottom = EdgeCard::new([0; 8], [0; 8]);
    let rows = [(Direction::Read, 3, 203, Ok(0))];
    let slow = through(&rt, Kind::Slow(200), bottom, 203, &rows)?;
    let rows = [(Direction::Read, 4, 202, Ok(0))];
    let offset = through(&rt, Kind::Offset(2), slow, 203, &rows)?;
    let rows = [
        (Direction::Read, 5, 203, Ok(0)),
        (Direction::Write(7), 6, 200, Ok(7)),
        (Direction::Read, 1, 0, fault(Cause::Absent, 1, 1)),
    ];
    let guard = through(&rt, Kind::Guard(1, 1), offset, 203, &rows)?;
    shows(&rt, &guard, &[(6, Cell::Open(7))]);
    let rows = [
        (Direction::Write(9), 5, 0, fault(Cause::Fixed, 5, 0)),
        (Direction::Read, 5, 203, Ok(0)),
        (Direction::Write(9), 20, 202, fault(Cause::Fixed, 18, 4)),
    ];
    through(&rt, Kind::Guard(4, 5), guard, 203, &rows)?;
    Ok(())
}

// The longest transfer of a slow layer takes as long as its patience, and the one at address 0 three waits less.
fn slower<C: Card + Drop>(rt: &impl Abort, below: C, patience: u16) -> Result<Layer<C>, Fail> {
    let rows = [
        (Direction::Read, 3, patience, Ok(0)),
        (Direction::Read, 0, patience.saturating_sub(3), Ok(0)),
    ];
    through(rt, Kind::Slow(255), below, patience, &rows)
}

// The waits of slow layers stop at 4,096: four of 255 on a card that waits as under fourteen of them.
#[test]
fn waits_stop_at_their_most(rt: HostRuntime) -> Result<(), Fail> {
    let fourteen = EdgeCard::under(14, 14 * 255 - 3);
    let fifteen = slower(&rt, fourteen, 3825)?;
    let sixteen = slower(&rt, fifteen, 4080)?;
    let seventeen = slower(&rt, sixteen, 4096)?;
    slower(&rt, seventeen, 4096)?;
    Ok(())
}

// The layer number of an origin that has so many layers above it already, seen through two more and through three.
#[test]
fn layer_numbers_stop_at_255(rt: HostRuntime) -> Result<(), Fail> {
    for (layers, through_two, through_three) in [
        (252, 254, 255),
        (253, 255, 255),
        (254, 255, 255),
        (255, 255, 255),
    ] {
        let below = Layer::new(Kind::Slow(0), EdgeCard::under(layers, 0));
        let two = Layer::new(Kind::Guard(0, 9), below);
        equal(&rt, two.look(9), fixed(0, 9, through_two));
        let mut three = Layer::new(Kind::Offset(1), two);
        equal(&rt, three.look(9), fixed(0, 8, through_three));
        equal(
            &rt,
            waited(&rt, &mut three, Direction::Write(5), 9)?,
            (0, fault(Cause::Fixed, 8, through_three)),
        );
    }
    Ok(())
}

// Making a layer cancels the transfer below, and cancelling the layer's own leaves the cells.
#[test]
fn made_during_a_transfer(rt: HostRuntime) -> Result<(), Fail> {
    let mut below = EdgeCard::new([1; 8], [2; 8]);
    let request = Request {
        direction: Direction::Write(9),
        address: 3,
    };
    below.begin(request)?;
    let mut card = Layer::new(Kind::Slow(0), below);
    equal(&rt, card.poll(), Err(Refusal::Transfer));
    equal(&rt, card.begin(request), Ok(3));
    equal(&rt, card.poll(), Ok(None));
    card.cancel();
    equal(&rt, card.poll(), Err(Refusal::Transfer));
    equal(&rt, card.look(3), Cell::Open(1));
    Ok(())
}

// But for their origins the cells of both are the same.
fn same_cells<C: Cells, D: Cells>(rt: &impl Abort, card: &C, other: &D) {
    for address in 0..12u32 {
        match (card.look(address), other.look(address)) {
            (Cell::Open(a), Cell::Open(b)) => equal(rt, a, b),
            (Cell::Absent(_), Cell::Absent(_)) => {}
            _ => panic!(rt; "a cell differs"),
        }
    }
}

// The registers, flags and PC of both are the same.
fn same_state(rt: &impl Abort, axis: &Machine, other: &Machine) {
    for register in 0..=255u8 {
        equal(rt, axis.register(register), other.register(register));
    }
    equal(rt, axis.flags(), other.flags());
    equal(rt, axis.pc(), other.pc());
}

// The chapter's test program on a stack of three slow layers, and on the bare card.
#[test]
fn slow_layers_change_nothing_but_waits(rt: HostRuntime) -> Result<(), Fail> {
    let program = [
        0x0700_0000,
        0x1002_0000,
        0x2102_0000,
        0x0000_0008,
        0x1002_0201,
        0x1101_020a,
        0x5009_00fa,
        0x5000_00fa,
        0x0000_0000,
    ];
    let mut words = program;
    let mut bare = WordCard::new(&mut words);
    let plain = run(&rt, &mut bare, 60)?;
    let mut words = program;
    let lower = Layer::new(Kind::Slow(3), WordCard::new(&mut words));
    let mut stack = Layer::new(Kind::Slow(0), Layer::new(Kind::Slow(255), lower));
    let slowed = run(&rt, &mut stack, 60)?;
    same_state(&rt, &plain, &slowed);
    same_cells(&rt, &bare, &stack);
    Ok(())
}
