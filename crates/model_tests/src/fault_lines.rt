// Lines as a panel sees them, refusals, and texts that are nearly lines.
use super::common::equal;
use fault_line::{Fields, read_line, write_line};
use std::process::Abort;
use std::test::Fail;

fn fields([axis, stage, instruction, access, cause, origin, layer]: [u32; 7]) -> Fields {
    Fields {
        axis,
        stage,
        instruction,
        access,
        cause,
        origin,
        layer,
    }
}

// The line stands at the front of the buffer, the rest is as it was, and it is read as what was written.
fn line(rt: &impl Abort, f: [u32; 7], text: &[u8]) -> Result<(), Fail> {
    let mut line = [0xaa; 50];
    equal(rt, write_line(fields(f), &mut line), Ok(text.len()));
    let rest = line.strip_prefix(text).ok_or("another line")?;
    for byte in rest {
        equal(rt, *byte, 0xaa);
    }
    equal(rt, read_line(text), Some(fields(f)));
    Ok(())
}

// Nothing is written, and the refusal has the number.
fn refused(rt: &impl Abort, f: [u32; 7], size: usize, number: u32) {
    let mut line = [0xaa; 50];
    assert!(rt; size <= 50);
    let answer = write_line(fields(f), &mut line[0..size]);
    equal(rt, answer.map_err(u32::from), Err(number));
    equal(rt, line, [0xaa; 50]);
}

// The numbers of a line, and its text.
static LINES: [([u32; 7], &[u8]); 8] = [
    (
        [1, 1, 0, 0x1000, 1, 7, 0],
        b"A1 fetch 00000000 00001000 absent 00000007 L000\n",
    ),
    (
        [2, 2, 0, 0x1000, 1, 7, 0],
        b"A2 displ 00000000 00001000 absent 00000007 L000\n",
    ),
    (
        [3, 3, 0, 0x1000, 1, 7, 0],
        b"A3 load 00000000 00001000 absent 00000007 L000\n",
    ),
    (
        [1, 4, 0, 0x1000, 1, 7, 0],
        b"A1 store 00000000 00001000 absent 00000007 L000\n",
    ),
    (
        [1, 3, 0, 0x1000, 2, 7, 0],
        b"A1 load 00000000 00001000 fixed 00000007 L000\n",
    ),
    (
        [1, 3, u32::MAX, 0, 1, 7, 9],
        b"A1 load ffffffff 00000000 absent 00000007 L009\n",
    ),
    (
        [1, 3, 0, 0x12ab_cdef, 1, 7, 99],
        b"A1 load 00000000 12abcdef absent 00000007 L099\n",
    ),
    (
        [1, 3, 0, 0, 1, 0x3456_7890, 255],
        b"A1 load 00000000 00000000 absent 34567890 L255\n",
    ),
];

#[test]
fn lines(rt: HostRuntime) -> Result<(), Fail> {
    for (fields, text) in &LINES {
        line(&rt, *fields, *text)?;
    }
    Ok(())
}

#[test]
fn layers(rt: HostRuntime) {
    for layer in 0..256 {
        let f = [1, 3, 0, 0x1000, 1, 0x1000, layer];
        let mut line = [0; 48];
        equal(&rt, write_line(fields(f), &mut line), Ok(47));
        equal(&rt, read_line(&line[0..47]), Some(fields(f)));
    }
}

#[test]
fn refusals(rt: HostRuntime) {
    for f in [
        [0, 3, 0, 0x1000, 1, 0x1000, 0],
        [4, 3, 0, 0x1000, 1, 0x1000, 0],
        [257, 3, 0, 0x1000, 1, 0x1000, 0],
        [1, 0, 0, 0x1000, 1, 0x1000, 0],
        [1, 5, 0, 0x1000, 1, 0x1000, 0],
        [1, 3, 0, 0x1000, 0, 0x1000, 0],
        [1, 3, 0, 0x1000, 3, 0x1000, 0],
        [1, 3, 0, 0x1000, 1, 0x1000, 256],
    ] {
        for size in [50, 47] {
            refused(&rt, f, size, 46);
        }
    }
    for size in [47, 0] {
        refused(&rt, [1, 3, 0, 0x1000, 1, 0x1000, 0], size, 45);
    }
}

static NEAR_MISSES: [&[u8]; 13] = [
    b"",
    b"A1 load 00000000 00001000 absent 00001000 L000",
    b"A1 load 00000000 00001000 absent 00001000 L000\n\n",
    b" A1 load 00000000 00001000 absent 00001000 L000\n",
    b"A1 load 00000000 0000100A absent 00001000 L000\n",
    b"A1 load 00000000 0000100g absent 00001000 L000\n",
    b"A1 load 00000000 0001000 absent 00001000 L000\n",
    b"A1  load 00000000 00001000 absent 00001000 L000\n",
    b"A1 loads 00000000 00001000 absent 00001000 L000\n",
    b"A0 load 00000000 00001000 absent 00001000 L000\n",
    b"A4 load 00000000 00001000 absent 00001000 L000\n",
    b"A1 load 00000000 00001000 absent 00001000 L256\n",
    b"A1 load 00000000 00001000 absent 00001000 L0ff\n",
];

#[test]
fn near_misses(rt: HostRuntime) {
    for text in &NEAR_MISSES {
        equal(&rt, read_line(*text), None);
    }
}
