// The two bottom cards at their ends, and calls out of order.
ghost use Rattle.std.specs.Prelude.{◌≡◌, false};

use super::common::{equal, fault, shows};
use card::{
    BootCard, BottomCard, Card, Cause, Cell, Cells, Direction, End, Memory, Origin, Request,
    Transfer, WordCard,
};
use refusal::Refusal;
use std::process::Abort;
use std::test::Fail;

// The card itself, as the origin of a refusal.
fn here(address: u32) -> Origin {
    Origin { address, layer: 0 }
}

// A whole transfer without waits: how it ends.
fn access<C: Card>(card: &mut C, direction: Direction, address: u32) -> Result<End, Fail> {
    let waits = card.begin(Request { direction, address })?;
    let end = card.poll()?.ok_or("the transfer waits")?;
    if waits == 0 {
        Ok(end)
    } else {
        Err(Fail::new("waits"))
    }
}

// Transfers, each with its end.
fn accesses<C: Card>(
    rt: &impl Abort,
    card: &mut C,
    rows: &[(Direction, u32, End)],
) -> Result<(), Fail> {
    for (direction, address, end) in rows {
        equal(rt, access(card, *direction, *address)?, *end);
    }
    Ok(())
}

#[test]
fn word_card_at_its_ends(rt: HostRuntime) -> Result<(), Fail> {
    let mut words = [5, 6, 7];
    let mut card = WordCard::new(&mut words);
    let cells = [
        (0, Cell::Open(5)),
        (2, Cell::Open(7)),
        (3, Cell::Absent(here(3))),
        (0xffff_ffff, Cell::Absent(here(0xffff_ffff))),
    ];
    shows(&rt, &card, &cells);
    let rows = [
        (Direction::Write(9), 2, Ok(9)),
        (Direction::Read, 2, Ok(9)),
        (Direction::Write(9), 3, fault(Cause::Absent, 3, 0)),
    ];
    accesses(&rt, &mut card, &rows)?;
    card.place(0, 4)?;
    equal(&rt, card.place(3, 4), Err(Refusal::NotOpen));
    equal(&rt, card.patience(), 0);
    equal(&rt, words, [4, 6, 9]);
    Ok(())
}

#[test]
fn largest_cards(rt: HostRuntime) -> Result<(), Fail> {
    let mut words = vec![in rt.alloc(); 1u32; 65_537]?;
    let card = BootCard::new(words.as_slice());
    let cells = [
        (65_535, Cell::Fixed(1, here(65_535))),
        (65_536, Cell::Absent(here(65_536))),
    ];
    shows(&rt, &card, &cells);
    let mut card = WordCard::new(words.as_mut_slice());
    let cells = [
        (65_535, Cell::Open(1)),
        (65_536, Cell::Absent(here(65_536))),
    ];
    shows(&rt, &card, &cells);
    card.place(65_535, 2)?;
    equal(&rt, card.place(65_536, 2), Err(Refusal::NotOpen));
    Ok(())
}

#[test]
fn boot_card_is_fixed(rt: HostRuntime) -> Result<(), Fail> {
    let mut card = BootCard::new(&[5, 6]);
    let rows = [
        (Direction::Read, 1, Ok(6)),
        (Direction::Read, 2, fault(Cause::Absent, 2, 0)),
        (Direction::Write(7), 1, fault(Cause::Fixed, 1, 0)),
    ];
    accesses(&rt, &mut card, &rows)?;
    equal(&rt, card.place(1, 7), Err(Refusal::NotOpen));
    equal(&rt, card.look(1), Cell::Fixed(6, here(1)));
    equal(&rt, card.patience(), 0);
    Ok(())
}

// A second begin, a poll without a begin or after a cancel, a word placed while it is being read, and the transfer after each call.
fn out_of_order<C: Card>(rt: &impl Abort, card: &mut C, placed: bool) -> Result<(), Fail> {
    let request = Request {
        direction: Direction::Read,
        address: 0,
    };
    let begun = Some(Transfer { request, waits: 0 });
    equal(rt, card.poll(), Err(Refusal::Transfer));
    equal(rt, card.transfer(), None);
    card.begin(request)?;
    equal(rt, card.transfer(), begun);
    equal(rt, card.begin(request), Err(Refusal::Transfer));
    equal(rt, card.place(0, 8).is_ok(), placed);
    equal(rt, card.transfer(), begun);
    let word = if placed { 8 } else { 5 };
    equal(rt, card.poll(), Ok(Some(Ok(word))));
    equal(rt, card.transfer(), None);
    equal(rt, card.poll(), Err(Refusal::Transfer));
    card.begin(request)?;
    card.cancel();
    equal(rt, card.transfer(), None);
    equal(rt, card.poll(), Err(Refusal::Transfer));
    Ok(())
}

#[test]
fn calls_out_of_order(rt: HostRuntime) -> Result<(), Fail> {
    out_of_order(&rt, &mut WordCard::new(&mut [5]), true)?;
    out_of_order(&rt, &mut BootCard::new(&[5]), false)
}

// Whether the poll of a card over lent words answers that it waits, whatever was asked of the card before: never.
fn lent_words_wait<M: Memory>(card: &mut BottomCard<M>) -> bool
    ensures { result ≡ false }
{
    match card.poll() {
        Ok(None) => true,
        Ok(Some(_)) | Err(_) => false,
    }
}

#[test]
fn no_poll_of_lent_words_waits(rt: HostRuntime) -> Result<(), Fail> {
    let read = Request {
        direction: Direction::Read,
        address: 0,
    };
    let mut words = [7];
    let mut card = WordCard::new(&mut words);
    equal(&rt, lent_words_wait(&mut card), false);
    card.begin(read)?;
    equal(&rt, lent_words_wait(&mut card), false);
    equal(&rt, card.transfer(), None);
    let mut card = BootCard::new(&words);
    card.begin(read)?;
    equal(&rt, lent_words_wait(&mut card), false);
    equal(&rt, card.transfer(), None);
    Ok(())
}
