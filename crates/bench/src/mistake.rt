// Why a line is not carried out, and the report of it.
use command::Wrong;
use std::alloc::AllocError;
use std::io;
use thiserror::Error;

#[derive(Debug, Drop, Error)]
pub enum Mistake {
    #[error("{0}")]
    Wrong(#[from] Wrong),
    #[error("no card yet")]
    NoCard,
    #[error("no axis yet")]
    NoAxis,
    #[error("the words pass the card's memory")]
    WordsPastMemory,
    #[error("words come before power-up")]
    WordsAfterPower,
    #[error("layers come before power-up")]
    LayerAfterPower,
    #[error("the card has three layers already")]
    FourthLayer,
    #[error("the axis is powered up by clock, not by instruction")]
    ByClock,
    #[error("the axis is powered up by instruction, not by clock")]
    ByInstruction,
    #[error("no key in hand")]
    NoKey,
    #[error("the file cannot be read")]
    Unreadable,
    // no mistake of the line: this ends the run
    #[error(transparent)]
    Io(#[from] io::Error),
    #[error(transparent)]
    Memory(#[from(alloc)] AllocError),
}

#[derive(Drop)]
pub struct Report<'a> {
    rt: &'a HostRuntime,
    all_right: bool,
}

impl<'a> Report<'a> {
    pub fn new(rt: &'a HostRuntime) -> Report<'a> {
        Report {
            rt,
            all_right: true,
        }
    }

    // Whether no line was wrong.
    pub fn all_right(&self) -> bool {
        self.all_right
    }

    // Reports what is wrong with a line.
    pub fn mistake(&mut self, number: u64, mistake: Mistake) -> io::Result<()> {
        match mistake {
            Mistake::Io(error) => Err(error),
            Mistake::Memory(error) => Err(error.into()),
            mistake => {
                self.all_right = false;
                println!(self.rt; "line {number}: {mistake}")
            }
        }
    }
}
