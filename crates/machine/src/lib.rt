// The DP32 by instruction: its state, its faults, and the machine that does one instruction a call.
#![tactic(auto)]

mod access;
pub mod axis;
mod execute;
pub mod fault;
pub mod machine;
pub mod marked;
pub mod registers;

pub use axis::Axis;
pub use fault::{Fault, Stage};
pub use machine::{Machine, Outcome};
pub use marked::marked_words;
pub use registers::Registers;
