// Looking at the cells of a card, placing a word, and placing an image. What is printed is the bench's format, so it stands here
// and in no `Display` of the library's types.
use super::mistake::Mistake;
use super::stack::Task;
use card::{Card, Cell, Origin};
use command::Command;
use image::Image;
use refusal::Refusal;
use std::{fmt, fs, io};

// What is done on the cells of a card, with an axis on it or without.
#[derive(Drop)]
pub enum OnCells {
    Look(u32),
    // so many cells from an address on; none is past the last address
    Dump(u32, u32),
    // a word at an address
    Place(u32, u32),
    // the bytes of an image, which may be wrong
    Load(Vec<u8>),
}

impl OnCells {
    // What a command does on cells, if it is one of these. The file that it names is read.
    pub fn of(rt: &HostRuntime, command: &Command<'_>) -> Result<Option<OnCells>, Mistake> {
        match command {
            Command::Look(address) => Ok(Some(OnCells::Look(*address))),
            Command::Memory(from, count) => Ok(Some(OnCells::Dump(*from, *count))),
            Command::Place(address, word) => Ok(Some(OnCells::Place(*address, *word))),
            Command::Load(name) => Ok(Some(OnCells::Load(read_file(rt, name.bytes())?))),
            _ => Ok(None),
        }
    }
}

impl Task for OnCells {
    type Answer = ();

    fn perform<C: Card>(self, rt: &HostRuntime, card: &mut C) -> io::Result<()> {
        match self {
            OnCells::Look(address) => look(rt, card, address),
            OnCells::Dump(from, count) => dump(rt, card, from, count),
            OnCells::Place(address, word) => place(rt, card, address, word),
            OnCells::Load(bytes) => load(rt, card, &bytes),
        }
    }
}

fn look<C: Card>(rt: &HostRuntime, card: &C, address: u32) -> io::Result<()> {
    match card.look(address) {
        Cell::Open(word) => println!(rt; "look open {word:08x}"),
        Cell::Fixed(word, origin) => println!(rt; "look fixed {word:08x} {}", By(origin)),
        Cell::Absent(origin) => println!(rt; "look absent {}", By(origin)),
    }
}

fn dump<C: Card>(rt: &HostRuntime, card: &C, from: u32, count: u32) -> io::Result<()> {
    for address in (0..count).map(|i| from.wrapping_add(i)) {
        match card.look(address) {
            Cell::Open(word) => println!(rt; "{address:08x} open {word:08x}")?,
            Cell::Fixed(word, _) => println!(rt; "{address:08x} fixed {word:08x}")?,
            Cell::Absent(_) => println!(rt; "{address:08x} absent")?,
        }
    }
    Ok(())
}

fn place<C: Card>(rt: &HostRuntime, card: &mut C, address: u32, word: u32) -> io::Result<()> {
    match card.place(address, word) {
        Ok(()) => println!(rt; "place ok"),
        Err(refusal) => println!(rt; "place refused {refusal}"),
    }
}

fn load<C: Card>(rt: &HostRuntime, card: &mut C, bytes: &[u8]) -> io::Result<()> {
    let image = match Image::try_from(bytes) {
        Ok(image) => image,
        Err(refusal) => return println!(rt; "load refused {refusal}"),
    };
    match image.place(card) {
        Ok(()) => println!(rt; "load ok"),
        Err(refused) => {
            let refusal = Refusal::from(refused);
            let address = refused.address;
            println!(rt; "load refused {refusal} at {address:08x}")
        }
    }
}

// By whom a cell is refused, as it is printed.
#[derive(Clone, Copy)]
struct By(Origin);

impl fmt::Display for By {
    fn fmt<W: fmt::Write>(&self, f: &mut fmt::Formatter<W>) -> fmt::Result {
        write!(f, "{:08x} L{:03}", self.0.address, self.0.layer)
    }
}

// The bytes of the file of an image.
fn read_file(rt: &HostRuntime, name: &[u8]) -> Result<Vec<u8>, Mistake> {
    let path = std::str::from_utf8(name).map_err(|_| Mistake::Unreadable)?;
    fs::read(rt, path).map_err(|_| Mistake::Unreadable)
}
