// The decode table, an entry for each of the 256 opcodes: a constant by a rule of the project. Each row is named by its
// mnemonic, and written as a literal, since the value of a constant may call no function.
ghost use Rattle.std.specs.Prelude.{◌≡◌, map};
ghost use Rattle.std.specs.List.{range_with_len};
ghost use Rattle.isa.specs.Opcodes.{entry_of};

use crate::alu::{Arithmetic, Logical};
use crate::opcodes::{Class, Entry, Form};

// The whole table, and its rule.
#[tactic(auto, unfolding(crate::specs::Opcodes::class_of))]
pub(crate) fn entries() -> &'static [Entry; 256]
    ensures { result.now ≡ map entry_of (range_with_len 0 256) }
{
    &TABLE
}

const ADD: Entry = Entry {
    class: Class::Arithmetic(Arithmetic::Add),
    clocks: 5,
};

const SUB: Entry = Entry {
    class: Class::Arithmetic(Arithmetic::Sub),
    clocks: 5,
};

const MUL: Entry = Entry {
    class: Class::Arithmetic(Arithmetic::Mul),
    clocks: 5,
};

const DIV: Entry = Entry {
    class: Class::Arithmetic(Arithmetic::Div),
    clocks: 5,
};

const LAND: Entry = Entry {
    class: Class::Logical(Logical::And),
    clocks: 5,
};

const LOR: Entry = Entry {
    class: Class::Logical(Logical::Or),
    clocks: 5,
};

const LXOR: Entry = Entry {
    class: Class::Logical(Logical::Xor),
    clocks: 5,
};

const LMASK: Entry = Entry {
    class: Class::Logical(Logical::Mask),
    clocks: 5,
};

const ADDQ: Entry = Entry {
    class: Class::ArithmeticQuick(Arithmetic::Add),
    clocks: 5,
};

const SUBQ: Entry = Entry {
    class: Class::ArithmeticQuick(Arithmetic::Sub),
    clocks: 5,
};

const MULQ: Entry = Entry {
    class: Class::ArithmeticQuick(Arithmetic::Mul),
    clocks: 5,
};

const DIVQ: Entry = Entry {
    class: Class::ArithmeticQuick(Arithmetic::Div),
    clocks: 5,
};

const LD: Entry = Entry {
    class: Class::Load(Form::Long),
    clocks: 10,
};

const ST: Entry = Entry {
    class: Class::Store(Form::Long),
    clocks: 10,
};

const LDQ: Entry = Entry {
    class: Class::Load(Form::Quick),
    clocks: 7,
};

const STQ: Entry = Entry {
    class: Class::Store(Form::Quick),
    clocks: 7,
};

const BR: Entry = Entry {
    class: Class::Branch(Form::Long),
    clocks: 5,
};

const BI: Entry = Entry {
    class: Class::BranchIndexed(Form::Long),
    clocks: 5,
};

const BRQ: Entry = Entry {
    class: Class::Branch(Form::Quick),
    clocks: 4,
};

const BIQ: Entry = Entry {
    class: Class::BranchIndexed(Form::Quick),
    clocks: 4,
};

const UNKNOWN: Entry = Entry {
    class: Class::Unknown,
    clocks: 4,
};

const TABLE: [Entry; 256] = [
    // 0x00
    ADD, SUB, MUL, DIV, LAND, LOR, LXOR, LMASK, UNKNOWN, UNKNOWN, UNKNOWN, UNKNOWN, UNKNOWN,
    UNKNOWN, UNKNOWN, UNKNOWN,
    // 0x10
    ADDQ, SUBQ, MULQ, DIVQ, UNKNOWN, UNKNOWN, UNKNOWN, UNKNOWN, UNKNOWN, UNKNOWN, UNKNOWN, UNKNOWN,
    UNKNOWN, UNKNOWN, UNKNOWN, UNKNOWN,
    // 0x20
    LD, ST, UNKNOWN, UNKNOWN, UNKNOWN, UNKNOWN, UNKNOWN, UNKNOWN, UNKNOWN, UNKNOWN, UNKNOWN,
    UNKNOWN, UNKNOWN, UNKNOWN, UNKNOWN, UNKNOWN,
    // 0x30
    LDQ, STQ, UNKNOWN, UNKNOWN, UNKNOWN, UNKNOWN, UNKNOWN, UNKNOWN, UNKNOWN, UNKNOWN, UNKNOWN,
    UNKNOWN, UNKNOWN, UNKNOWN, UNKNOWN, UNKNOWN,
    // 0x40
    BR, BI, UNKNOWN, UNKNOWN, UNKNOWN, UNKNOWN, UNKNOWN, UNKNOWN, UNKNOWN, UNKNOWN, UNKNOWN,
    UNKNOWN, UNKNOWN, UNKNOWN, UNKNOWN, UNKNOWN,
    // 0x50
    BRQ, BIQ, UNKNOWN, UNKNOWN, UNKNOWN, UNKNOWN, UNKNOWN, UNKNOWN, UNKNOWN, UNKNOWN, UNKNOWN,
    UNKNOWN, UNKNOWN, UNKNOWN, UNKNOWN, UNKNOWN,
    // 0x60
    UNKNOWN, UNKNOWN, UNKNOWN, UNKNOWN, UNKNOWN, UNKNOWN, UNKNOWN, UNKNOWN, UNKNOWN, UNKNOWN,
    UNKNOWN, UNKNOWN, UNKNOWN, UNKNOWN, UNKNOWN, UNKNOWN,
    // 0x70
    UNKNOWN, UNKNOWN, UNKNOWN, UNKNOWN, UNKNOWN, UNKNOWN, UNKNOWN, UNKNOWN, UNKNOWN, UNKNOWN,
    UNKNOWN, UNKNOWN, UNKNOWN, UNKNOWN, UNKNOWN, UNKNOWN,
    // 0x80
    UNKNOWN, UNKNOWN, UNKNOWN, UNKNOWN, UNKNOWN, UNKNOWN, UNKNOWN, UNKNOWN, UNKNOWN, UNKNOWN,
    UNKNOWN, UNKNOWN, UNKNOWN, UNKNOWN, UNKNOWN, UNKNOWN,
    // 0x90
    UNKNOWN, UNKNOWN, UNKNOWN, UNKNOWN, UNKNOWN, UNKNOWN, UNKNOWN, UNKNOWN, UNKNOWN, UNKNOWN,
    UNKNOWN, UNKNOWN, UNKNOWN, UNKNOWN, UNKNOWN, UNKNOWN,
    // 0xa0
    UNKNOWN, UNKNOWN, UNKNOWN, UNKNOWN, UNKNOWN, UNKNOWN, UNKNOWN, UNKNOWN, UNKNOWN, UNKNOWN,
    UNKNOWN, UNKNOWN, UNKNOWN, UNKNOWN, UNKNOWN, UNKNOWN,
    // 0xb0
    UNKNOWN, UNKNOWN, UNKNOWN, UNKNOWN, UNKNOWN, UNKNOWN, UNKNOWN, UNKNOWN, UNKNOWN, UNKNOWN,
    UNKNOWN, UNKNOWN, UNKNOWN, UNKNOWN, UNKNOWN, UNKNOWN,
    // 0xc0
    UNKNOWN, UNKNOWN, UNKNOWN, UNKNOWN, UNKNOWN, UNKNOWN, UNKNOWN, UNKNOWN, UNKNOWN, UNKNOWN,
    UNKNOWN, UNKNOWN, UNKNOWN, UNKNOWN, UNKNOWN, UNKNOWN,
    // 0xd0
    UNKNOWN, UNKNOWN, UNKNOWN, UNKNOWN, UNKNOWN, UNKNOWN, UNKNOWN, UNKNOWN, UNKNOWN, UNKNOWN,
    UNKNOWN, UNKNOWN, UNKNOWN, UNKNOWN, UNKNOWN, UNKNOWN,
    // 0xe0
    UNKNOWN, UNKNOWN, UNKNOWN, UNKNOWN, UNKNOWN, UNKNOWN, UNKNOWN, UNKNOWN, UNKNOWN, UNKNOWN,
    UNKNOWN, UNKNOWN, UNKNOWN, UNKNOWN, UNKNOWN, UNKNOWN,
    // 0xf0
    UNKNOWN, UNKNOWN, UNKNOWN, UNKNOWN, UNKNOWN, UNKNOWN, UNKNOWN, UNKNOWN, UNKNOWN, UNKNOWN,
    UNKNOWN, UNKNOWN, UNKNOWN, UNKNOWN, UNKNOWN, UNKNOWN,
];
