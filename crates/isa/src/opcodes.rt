// The classes of instructions, and decoding an opcode by the table.
ghost use Rattle.std.specs.Prelude.{◌≡◌};
ghost use Rattle.isa.specs.Opcodes.{entry_of};

use crate::alu::{Arithmetic, Logical};
use crate::table::entries;

// Where a displacement stands: in the next word, or in the instruction as i8.
#[derive(Clone, Copy, PartialEq, Eq, Debug)]
pub enum Form {
    Long,
    Quick,
}

// What an instruction does. The second operand is r2, or i8 in the quick arithmetic; a branch goes to PC plus the
// displacement, or to r1 plus it if it is indexed.
#[derive(Clone, Copy, PartialEq, Eq, Debug)]
pub enum Class {
    Arithmetic(Arithmetic),
    ArithmeticQuick(Arithmetic),
    Logical(Logical),
    Load(Form),
    Store(Form),
    Branch(Form),
    BranchIndexed(Form),
    Unknown,
}

// The clocks are those without waits, of a branch those where it is not taken.
#[derive(Clone, Copy, PartialEq, Eq, Debug)]
pub struct Entry {
    pub class: Class,
    pub clocks: u8,
}

// The entry of an opcode. It is a look-up in the table and no conversion: `Entry::from(opcode)` would name neither.
pub fn decode(opcode: u8) -> Entry
    ensures { result ≡ entry_of opcode }
{
    entries()[usize::from(opcode)]
}
