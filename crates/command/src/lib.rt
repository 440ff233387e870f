// Reads one line of a bench scenario into a command.
#![tactic(auto)]

ghost use Rattle.std.specs.Prelude.{◌≡◌, Some};
ghost use Rattle.command.specs.Lines.{line_of};
ghost use Rattle.command.specs.Operands.{bottom_named, machine_named};
ghost use Rattle.command.specs.Texts.{text_of};

use layer::Kind;
use line::{before_comment, has_bad_byte};
use std::error::Error;
use std::fmt;
use words::Words;

mod grammar;
mod keyword;
mod line;
mod number;
mod words;

pub use words::{Name, Numbers};

// The card at the bottom of a stack.
#[derive(Clone, Copy, PartialEq, Eq, Debug)]
pub enum Bottom {
    Word,
    Boot,
}

impl TryFrom<&[u8]> for Bottom {
    type Error = Wrong;

    ghost try_from_gives = { λ word r. r ≡ bottom_named word.now };

    fn try_from(word: &[u8]) -> Result<Self, Wrong> {
        match word {
            b"word" => Ok(Bottom::Word),
            b"boot" => Ok(Bottom::Boot),
            _ => Err(Wrong::UnknownCard),
        }
    }
}

// The machine that an axis is powered up with.
#[derive(Clone, Copy, PartialEq, Eq, Debug)]
pub enum MachineKind {
    ByClock,
    ByInstruction,
}

impl TryFrom<&[u8]> for MachineKind {
    type Error = Wrong;

    ghost try_from_gives = { λ word r. r ≡ machine_named word.now };

    fn try_from(word: &[u8]) -> Result<Self, Wrong> {
        match word {
            b"clock" => Ok(MachineKind::ByClock),
            b"instruction" => Ok(MachineKind::ByInstruction),
            _ => Err(Wrong::UnknownMachine),
        }
    }
}

#[derive(Debug, Drop)]
pub enum Command<'a> {
    // a bottom card over so many zero words
    Card(Bottom, u32),
    // words into the bottom card's memory, from this index on
    Words(u32, Numbers<'a>),
    // a layer on top of the card
    Layer(Kind),
    // an image, by its file's name
    Load(Name<'a>),
    // a machine on this axis
    Power(MachineKind, u32),
    // at most so many clocks
    Clock(u32),
    // at most so many instructions
    Instruction(u32),
    Reset,
    // the service key out
    Draw,
    // this word in this register, with the key
    Set(u8, u32),
    // the service key back
    Give,
    Registers,
    Flags,
    Pc,
    Fault,
    // the cell at this address
    Look(u32),
    // the cells from this address on, and how many
    Memory(u32, u32),
    // this word at this address
    Place(u32, u32),
}

// What is wrong with a line.
#[derive(Clone, Copy, PartialEq, Eq, Debug)]
pub enum Wrong {
    BadByte,
    UnknownCommand,
    UnknownCard,
    UnknownLayer,
    UnknownMachine,
    MissingOperand,
    ExtraOperand,
    NotANumber,
    NumberTooLarge,
    CardTooLarge,
    SlowTooLarge,
    RegisterTooLarge,
    PastLastAddress,
}

impl Wrong {
    pub fn text(self) -> &'static str
        ensures { result.now ≡ text_of self }
    {
        match self {
            Wrong::BadByte => "a carriage return or a byte outside ASCII",
            Wrong::UnknownCommand => "no such command",
            Wrong::UnknownCard => "no such card, only word and boot",
            Wrong::UnknownLayer => "no such layer, only offset, guard and slow",
            Wrong::UnknownMachine => "no such machine, only clock and instruction",
            Wrong::MissingOperand => "an operand is missing",
            Wrong::ExtraOperand => "an operand too many",
            Wrong::NotANumber => "not a number",
            Wrong::NumberTooLarge => "the number is past 4294967295",
            Wrong::CardTooLarge => "the card is over 65536 words",
            Wrong::SlowTooLarge => "the waits are over 255",
            Wrong::RegisterTooLarge => "the register is over 255",
            Wrong::PastLastAddress => "a cell is past address 0xffffffff",
        }
    }
}

// by hand, since what `thiserror` derives promises no text
impl fmt::Display for Wrong {
    ghost output = { λ w. Some (text_of w) };

    fn fmt<W: fmt::Write>(&self, f: &mut fmt::Formatter<W>) -> fmt::Result {
        f.write_str(self.text())
    }
}

impl Error for Wrong {}

// The command on a line, which has no line end; None where it has no word.
// What is tested first: the bytes, the command's name, its operands from left to right, words too many.
pub fn read(line: &[u8]) -> Result<Option<Command<'_>>, Wrong>
    ensures { result ≡ line_of line.now }
{
    let text = before_comment(line);
    if has_bad_byte(text) {
        return Err(Wrong::BadByte);
    }
    grammar::command(&mut Words::new(text))
}
