// The instruction set: the fields of an instruction word, the decode table, arithmetic and logic, the branch condition.
#![tactic(auto)]

pub mod alu;
pub mod fields;
pub mod flags;
pub mod opcodes;
mod table;

pub use alu::{Answer, Arithmetic, Logical};
pub use fields::{Instruction, Mask};
pub use flags::Flags;
pub use opcodes::{Class, Entry, Form, decode};
