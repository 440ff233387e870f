// What a card is made of: the words of its bottom card, and the layers over it.
use super::mistake::Mistake;
use super::stack::{Height, Task, UpToThree};
use card::{BootCard, WordCard};
use command::{Bottom, Numbers};
use layer::Kind;
use std::alloc::{AllocError, Global};
use std::io;

#[derive(Drop)]
pub struct Memory {
    bottom: Bottom,
    words: Vec<u32>,
    layers: Vec<Kind>,
}

impl Memory {
    // So many zero words, and no layer.
    pub fn new(heap: Global, bottom: Bottom, count: u32) -> Result<Memory, AllocError> {
        Ok(Memory {
            bottom,
            words: vec![in heap; 0u32; count as usize]?,
            layers: Vec::new(heap),
        })
    }

    // Puts words into the memory from an index on, unless they pass its end.
    pub fn store(&mut self, from: u32, list: &Numbers<'_>) -> Result<(), Mistake> {
        let places = self
            .words
            .as_mut_slice()
            .get_mut(from as usize..)
            .ok_or(Mistake::WordsPastMemory)?;
        if list.len() > places.len() {
            return Err(Mistake::WordsPastMemory);
        }
        for (place, word) in places.iter_mut().zip(list.iter()) {
            *place = word;
        }
        Ok(())
    }

    // One more layer, unless there are three.
    pub fn add(&mut self, kind: Kind) -> Result<(), Mistake> {
        if self.layers.len() >= 3 {
            return Err(Mistake::FourthLayer);
        }
        self.layers.push(kind)?;
        Ok(())
    }

    // Does a task on the whole stack over the words. A stack is made anew for each, and no transfer outlasts its stack.
    pub fn perform<T: Task>(&mut self, rt: &HostRuntime, task: T) -> io::Result<T::Answer> {
        match self.bottom {
            Bottom::Word => {
                UpToThree::perform(rt, WordCard::new(&mut self.words), &self.layers, task)
            }
            Bottom::Boot => {
                UpToThree::perform(rt, BootCard::new(&self.words), &self.layers, task)
            }
        }
    }
}
