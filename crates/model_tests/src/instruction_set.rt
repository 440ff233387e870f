// The instruction set: ends of the range, fields, every opcode, every mask at every setting of the flags.
use super::common::equal;
use isa::{Arithmetic, Class, Entry, Flags, Form, Instruction, Logical, Mask, decode};

const MIN: u32 = 0x8000_0000;

const MAX: u32 = 0x7fff_ffff;

const MINUS_1: u32 = 0xffff_ffff;

#[test]
fn arithmetic(rt: HostRuntime) {
    let rows = [
        (Arithmetic::Add, MAX, 1, (MIN, true, true, false)),
        (Arithmetic::Add, MIN, MIN, (0, true, false, true)),
        (Arithmetic::Add, MAX, MIN, (MINUS_1, false, true, false)),
        (Arithmetic::Add, MINUS_1, 1, (0, false, false, true)),
        (Arithmetic::Sub, MIN, 1, (MAX, true, false, false)),
        (Arithmetic::Sub, 0, MIN, (MIN, true, true, false)),
        (Arithmetic::Sub, MINUS_1, MIN, (MAX, false, false, false)),
        (
            Arithmetic::Mul,
            0xffff_0000,
            0x8000,
            (MIN, false, true, false),
        ),
        (Arithmetic::Mul, 0x1_0000, 0x8000, (MAX, true, false, false)),
        (Arithmetic::Mul, MIN, MAX, (MIN, true, true, false)),
        (Arithmetic::Mul, MIN, MIN, (MAX, true, false, false)),
        (Arithmetic::Mul, MINUS_1, 0, (0, false, false, true)),
        (Arithmetic::Div, MIN, MINUS_1, (MIN, false, true, false)),
        (
            Arithmetic::Div,
            0xffff_fff9,
            2,
            (0xffff_fffd, false, true, false),
        ),
        (
            Arithmetic::Div,
            7,
            0xffff_fffe,
            (0xffff_fffd, false, true, false),
        ),
        (Arithmetic::Div, MINUS_1, 2, (0, false, false, true)),
        (Arithmetic::Div, 0, 0, (MAX, true, false, false)),
        (Arithmetic::Div, MAX, 0, (MAX, true, false, false)),
        (Arithmetic::Div, MINUS_1, 0, (MIN, true, true, false)),
    ];
    for (operation, a, b, expected) in rows {
        equal(&rt, operation.apply(a, b), expected);
    }
}

// V and N stay as they were, whatever the word's top bit is.
#[test]
fn logic(rt: HostRuntime) {
    let rows = [
        (Logical::And, 0xf0f0_ffff, 0xff00_00ff, 0xf000_00ff),
        (Logical::And, 0x5555_5555, 0xaaaa_aaaa, 0),
        (Logical::Or, 0x8000_0000, 1, 0x8000_0001),
        (Logical::Xor, MINUS_1, 0x00ff_ff00, 0xff00_00ff),
        (Logical::Xor, MIN, MIN, 0),
        (Logical::Mask, MINUS_1, 0x00ff_ff00, 0xff00_00ff),
        (Logical::Mask, MAX, MINUS_1, 0),
    ];
    for (operation, a, b, word) in rows {
        for old in [false, true] {
            let flags = Flags {
                v: old,
                n: !old,
                z: old,
            };
            equal(
                &rt,
                operation.apply(a, b, flags),
                (word, old, !old, word == 0),
            );
        }
    }
}

#[test]
fn fields(rt: HostRuntime) {
    equal(
        &rt,
        Instruction::from(0x1005_03ff),
        Instruction {
            opcode: 0x10,
            r3: 5,
            r1: 3,
            r2: 255,
            mask: Mask {
                i: false,
                v: true,
                n: false,
                z: true,
            },
        },
    );
    for (word, immediate) in [
        (0xffff_ff00, 0),
        (0x7f, 0x7f),
        (0x80, 0xffff_ff80),
        (0xff, 0xffff_ffff),
    ] {
        equal(&rt, Instruction::from(word).immediate(), immediate);
    }
}

// Each mask with each setting of the flags.
#[test]
fn branches(rt: HostRuntime) {
    for mask in 0..16u32 {
        for set in 0..8u32 {
            let flags = Flags {
                v: set >= 4,
                n: set / 2 % 2 == 1,
                z: set % 2 == 1,
            };
            let some = mask % 8 & set != 0;
            equal(
                &rt,
                Instruction::from(mask << 16).mask.taken(flags),
                some == (mask >= 8),
            );
        }
    }
}

// Every opcode that is known, its class and its clocks; any other is unknown, in 4 clocks.
#[test]
fn opcodes(rt: HostRuntime) {
    let rows = [
        (0x00, Class::Arithmetic(Arithmetic::Add), 5),
        (0x01, Class::Arithmetic(Arithmetic::Sub), 5),
        (0x02, Class::Arithmetic(Arithmetic::Mul), 5),
        (0x03, Class::Arithmetic(Arithmetic::Div), 5),
        (0x04, Class::Logical(Logical::And), 5),
        (0x05, Class::Logical(Logical::Or), 5),
        (0x06, Class::Logical(Logical::Xor), 5),
        (0x07, Class::Logical(Logical::Mask), 5),
        (0x10, Class::ArithmeticQuick(Arithmetic::Add), 5),
        (0x11, Class::ArithmeticQuick(Arithmetic::Sub), 5),
        (0x12, Class::ArithmeticQuick(Arithmetic::Mul), 5),
        (0x13, Class::ArithmeticQuick(Arithmetic::Div), 5),
        (0x20, Class::Load(Form::Long), 10),
        (0x21, Class::Store(Form::Long), 10),
        (0x30, Class::Load(Form::Quick), 7),
        (0x31, Class::Store(Form::Quick), 7),
        (0x40, Class::Branch(Form::Long), 5),
        (0x41, Class::BranchIndexed(Form::Long), 5),
        (0x50, Class::Branch(Form::Quick), 4),
        (0x51, Class::BranchIndexed(Form::Quick), 4),
    ];
    for opcode in 0..=255u8 {
        let (_, class, clocks) = rows
            .into_iter()
            .find(|row| row.0 == opcode)
            .unwrap_or((opcode, Class::Unknown, 4));
        equal(&rt, decode(opcode), Entry { class, clocks });
    }
}
