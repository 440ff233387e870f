// Faults as lines, where the machine's address is not the origin's: records with other addresses and layers, and machines on
// stacks that show cells at other addresses than the card below.
use super::common::{equal, run};
use super::edge_card::EdgeCard;
use card::{BootCard, Card, Cause, Cells, Origin, WordCard};
use fault_line::Fields;
use fault_report::{fields, halting_lines, write_fault};
use layer::{Kind, Layer};
use machine::{Axis, Fault, Machine, Outcome, Stage};
use refusal::Refusal;
use std::process::Abort;
use std::test::Fail;

fn fault(
    axis: Axis,
    stage: Stage,
    [instruction, access]: [u32; 2],
    cause: Cause,
    address: u32,
    layer: u8,
) -> Fault {
    Fault {
        axis,
        stage,
        instruction,
        access,
        cause,
        origin: Origin { address, layer },
    }
}

// The line of the fault stands at the front of the buffer, and the rest is as it was.
fn shows(rt: &impl Abort, fault: Fault, text: &[u8]) -> Result<(), Fail> {
    let mut line = [0xaa; 50];
    equal(rt, write_fault(fault, &mut line), Ok(text.len()));
    let rest = line.strip_prefix(text).ok_or("another line")?;
    for byte in rest {
        equal(rt, *byte, 0xaa);
    }
    Ok(())
}

// Every stage with each cause that it can have, three axes, and layers of one to three digits.
#[test]
fn records(rt: HostRuntime) -> Result<(), Fail> {
    let rows: [(Fault, &[u8]); 7] = [
        (
            fault(Axis::One, Stage::Fetch, [0x40, 0x40], Cause::Absent, 0, 1),
            b"A1 fetch 00000040 00000040 absent 00000000 L001\n",
        ),
        (
            fault(
                Axis::Two,
                Stage::Displacement,
                [0x1234, 0x1235],
                Cause::Absent,
                0x35,
                9,
            ),
            b"A2 displ 00001234 00001235 absent 00000035 L009\n",
        ),
        (
            fault(
                Axis::Three,
                Stage::Load,
                [1, 0xffff_ffff],
                Cause::Absent,
                0xffff_fffe,
                10,
            ),
            b"A3 load 00000001 ffffffff absent fffffffe L010\n",
        ),
        (
            fault(
                Axis::One,
                Stage::Store,
                [0xabcd_ef00, 2],
                Cause::Absent,
                3,
                99,
            ),
            b"A1 store abcdef00 00000002 absent 00000003 L099\n",
        ),
        (
            fault(Axis::Two, Stage::Store, [3, 2], Cause::Fixed, 1, 100),
            b"A2 store 00000003 00000002 fixed 00000001 L100\n",
        ),
        (
            fault(
                Axis::Three,
                Stage::Store,
                [0, 0x1000_0000],
                Cause::Fixed,
                0x0000_0001,
                255,
            ),
            b"A3 store 00000000 10000000 fixed 00000001 L255\n",
        ),
        (
            fault(Axis::One, Stage::Load, [0, 7], Cause::Absent, 0x1000, 0),
            b"A1 load 00000000 00000007 absent 00001000 L000\n",
        ),
    ];
    for (fault, text) in rows {
        shows(&rt, fault, text)?;
    }
    Ok(())
}

#[test]
fn numbers_of_a_record(rt: HostRuntime) {
    let fault = fault(Axis::Three, Stage::Store, [5, 6], Cause::Fixed, 7, 8);
    let expected = Fields {
        axis: 3,
        stage: 4,
        instruction: 5,
        access: 6,
        cause: 2,
        origin: 7,
        layer: 8,
    };
    equal(&rt, fields(fault), expected);
}

// A line of 46 bytes is refused where one of 48 is, and does not touch the buffer.
#[test]
fn short_buffers(rt: HostRuntime) {
    let fault = fault(Axis::One, Stage::Load, [0, 7], Cause::Fixed, 0x1000, 0);
    for size in [0, 46, 47] {
        let mut line = [0xaa; 48];
        let answer = write_fault(fault, &mut line[0..size]);
        equal(&rt, answer, Err(Refusal::Buffer));
        equal(&rt, line, [0xaa; 48]);
    }
    let mut line = [0xaa; 48];
    equal(&rt, write_fault(fault, &mut line), Ok(46));
}

// The axis halts on the card at once, with this line.
fn halts<C: Card>(
    rt: &impl Abort,
    mut axis: Machine,
    card: &mut C,
    text: &[u8],
) -> Result<(), Fail> {
    equal(rt, axis.instruction(card), Ok(Outcome::Halted));
    shows(rt, axis.fault().ok_or("no fault")?, text)
}

// Axis 1, which branched to 0x40 on a card of its own.
fn branched(rt: &impl Abort) -> Result<Machine, Fail> {
    let mut words = [0x5000_003f];
    run(rt, &mut WordCard::new(&mut words), 1)
}

// A word that is shown at 0x40 by an offset, and the line. An absent cell below has its address there, and a number raised by one.
#[test]
fn offset_over_a_word(rt: HostRuntime) -> Result<(), Fail> {
    let rows: [(u32, &[u8]); 5] = [
        (
            0x2001_0000,
            b"A1 displ 00000040 00000041 absent 00000001 L001\n",
        ),
        (
            0x3001_0050,
            b"A1 load 00000040 00000050 absent 00000010 L001\n",
        ),
        (
            0x3101_0050,
            b"A1 store 00000040 00000050 absent 00000010 L001\n",
        ),
        // below its base the offset refuses by itself
        (
            0x3001_0005,
            b"A1 load 00000040 00000005 absent 00000005 L000\n",
        ),
        (
            0x3101_0005,
            b"A1 store 00000040 00000005 absent 00000005 L000\n",
        ),
    ];
    for (word, text) in rows {
        let mut words = [word];
        let mut card = Layer::new(Kind::Offset(0x40), WordCard::new(&mut words));
        halts(&rt, branched(&rt)?, &mut card, text)?;
    }
    Ok(())
}

#[test]
fn offset_over_other_cards(rt: HostRuntime) -> Result<(), Fail> {
    let offset = Kind::Offset(0x40);
    let mut card = Layer::new(offset, BootCard::new(&[]));
    let line = b"A1 fetch 00000040 00000040 absent 00000000 L001\n";
    halts(&rt, branched(&rt)?, &mut card, line)?;
    let words = [0x3101_0040];
    let mut card = Layer::new(offset, BootCard::new(&words));
    let line = b"A1 store 00000040 00000040 fixed 00000000 L001\n";
    halts(&rt, branched(&rt)?, &mut card, line)?;
    // a card under 254 layers of its own
    let mut card = Layer::new(offset, EdgeCard::under(254, 0));
    card.place(0x40, 0x3101_0050)?;
    let line = b"A1 store 00000040 00000050 fixed 00000010 L255\n";
    halts(&rt, branched(&rt)?, &mut card, line)
}

#[test]
fn two_layers(rt: HostRuntime) -> Result<(), Fail> {
    let offset = Kind::Offset(0x40);
    // a guard below the offset, and one above it
    let mut words = [0x3101_0041, 0];
    let below = Layer::new(Kind::Guard(1, 1), WordCard::new(&mut words));
    let line = b"A1 store 00000040 00000041 fixed 00000001 L001\n";
    halts(&rt, branched(&rt)?, &mut Layer::new(offset, below), line)?;
    let mut words = [0x3101_0041, 0];
    let below = Layer::new(offset, WordCard::new(&mut words));
    let mut card = Layer::new(Kind::Guard(0x41, 0x41), below);
    let line = b"A1 store 00000040 00000041 fixed 00000041 L000\n";
    halts(&rt, branched(&rt)?, &mut card, line)?;
    // two offsets: the card below them refuses, then the lower one by itself
    let rows: [(u32, &[u8]); 2] = [
        (
            0x3001_0051,
            b"A1 load 00000040 00000051 absent 00000011 L002\n",
        ),
        (
            0x3001_003f,
            b"A1 load 00000040 0000003f absent 0000000f L001\n",
        ),
    ];
    for (word, text) in rows {
        let mut words = [word];
        let below = Layer::new(Kind::Offset(0x10), WordCard::new(&mut words));
        let mut card = Layer::new(Kind::Offset(0x30), below);
        halts(&rt, branched(&rt)?, &mut card, text)?;
    }
    Ok(())
}

fn halts_after_power_up<C: Card>(
    rt: &impl Abort,
    axis: u32,
    card: &mut C,
    line: &[u8],
) -> Result<(), Fail> {
    let axis = Machine::power_up(axis, card)?;
    halts(rt, axis, card, line)
}

// The rows of `halting_lines` on cards.
#[test]
fn halting_rows(rt: HostRuntime) -> Result<(), Fail> {
    let [fetch, displacement, load, store, fixed] = halting_lines();
    let mut words = vec![in rt.alloc(); 0u32; 4096]?;
    words[0] = 0x2001_0000;
    words[1] = 0x1000;
    halts_after_power_up(&rt, 1, &mut WordCard::new(&mut words), load)?;
    for (axis, word, line) in [(3, 0x2001_0000, displacement), (1, 0x3101_00ff, store)] {
        let mut words = [word];
        halts_after_power_up(&rt, axis, &mut WordCard::new(&mut words), line)?;
    }
    halts_after_power_up(&rt, 2, &mut WordCard::new(&mut []), fetch)?;
    halts_after_power_up(&rt, 1, &mut BootCard::new(&[0x3101_0000]), fixed)
}
