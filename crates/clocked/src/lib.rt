// The DP32 by clock: its control states, its service key, and what is promised of every run.
#![tactic(auto)]

mod access;
mod control;
mod key;
mod pending;
mod processor;
mod tick;

pub use control::ControlState;
pub use key::{Key, NotTaken};
pub use pending::Pending;
pub use processor::Processor;
pub use tick::{Answer, Tick};
