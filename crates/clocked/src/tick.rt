// What an accepted clock answers.
use super::control::ControlState;
use machine::Outcome;

#[derive(Clone, Copy, PartialEq, Eq, Debug)]
pub enum Answer {
    // the next clock goes on with the instruction
    On,
    // the card waits, and the state is repeated
    Waiting,
    // the instruction is at its end
    Ended(Outcome),
}

#[derive(Clone, Copy, PartialEq, Eq, Debug)]
pub struct Tick {
    // the state that the processor was in
    pub state: ControlState,
    pub answer: Answer,
}
