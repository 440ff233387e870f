// Lines, and what `read` answers, each by its debug text, so that a row stays a line. In two tables, since the check of one has
// a limit.
use super::common::equal;
use command::{Bottom, MachineKind, Wrong, read};
use std::alloc::Global;
use std::process::Abort;
use std::test::Fail;

// Lines that are commands or have none.
static COMMANDS: [(&[u8], &str); 52] = [
    (
        b"layer offset 0xffffffff",
        "Ok(Some(Layer(Offset(4294967295))))",
    ),
    (b"layer guard 4 2", "Ok(Some(Layer(Guard(4, 2))))"),
    (b"layer slow 0", "Ok(Some(Layer(Slow(0))))"),
    (b"layer slow 255", "Ok(Some(Layer(Slow(255))))"),
    (
        b"load a.image",
        "Ok(Some(Load([97, 46, 105, 109, 97, 103, 101])))",
    ),
    (b"", "Ok(None)"),
    (b" \t ", "Ok(None)"),
    (b"# card word 4", "Ok(None)"),
    (b"  # caf\xc3\xa9\r", "Ok(None)"),
    (b"card word 0", "Ok(Some(Card(Word, 0)))"),
    (b"card boot 65536", "Ok(Some(Card(Boot, 65536)))"),
    (b"card word 0x10000", "Ok(Some(Card(Word, 65536)))"),
    (b"words 0 1", "Ok(Some(Words(0, [1])))"),
    (
        b"words 3 0x20010000 4096 0",
        "Ok(Some(Words(3, [536936448, 4096, 0])))",
    ),
    (b"power instruction 1", "Ok(Some(Power(ByInstruction, 1)))"),
    (
        b"power instruction 257",
        "Ok(Some(Power(ByInstruction, 257)))",
    ),
    (b"power clock 3", "Ok(Some(Power(ByClock, 3)))"),
    (b"clock", "Ok(Some(Clock(1)))"),
    (b"clock 0", "Ok(Some(Clock(0)))"),
    (b"clock 4294967295", "Ok(Some(Clock(4294967295)))"),
    (b"instruction", "Ok(Some(Instruction(1)))"),
    (b"instruction 0", "Ok(Some(Instruction(0)))"),
    (b"instruction 5", "Ok(Some(Instruction(5)))"),
    (b"reset", "Ok(Some(Reset))"),
    (b"draw", "Ok(Some(Draw))"),
    (b"set 0 0", "Ok(Some(Set(0, 0)))"),
    (b"set 0xff 0xffffffff", "Ok(Some(Set(255, 4294967295)))"),
    (b"give", "Ok(Some(Give))"),
    (b"registers", "Ok(Some(Registers))"),
    (b"flags", "Ok(Some(Flags))"),
    (b"pc", "Ok(Some(Pc))"),
    (b"fault", "Ok(Some(Fault))"),
    (b"look 4096", "Ok(Some(Look(4096)))"),
    (b"memory 8 2", "Ok(Some(Memory(8, 2)))"),
    (b"memory 0 0", "Ok(Some(Memory(0, 0)))"),
    (b"memory 0xffffffff 0", "Ok(Some(Memory(4294967295, 0)))"),
    (b"memory 0xffffffff 1", "Ok(Some(Memory(4294967295, 1)))"),
    (b"memory 1 0xffffffff", "Ok(Some(Memory(1, 4294967295)))"),
    (b"place 4 42", "Ok(Some(Place(4, 42)))"),
    (b"\tplace\t4  42\t", "Ok(Some(Place(4, 42)))"),
    (b"pc# caf\xc3\xa9", "Ok(Some(Pc))"),
    (b"look 7#8", "Ok(Some(Look(7)))"),
    (b"look 4294967295", "Ok(Some(Look(4294967295)))"),
    (b"look 0xFFFFFFFF", "Ok(Some(Look(4294967295)))"),
    (b"look 0xffFFffFF # a comment", "Ok(Some(Look(4294967295)))"),
    (b"pc # \xff", "Ok(Some(Pc))"),
    (b"look 0xabcdef", "Ok(Some(Look(11259375)))"),
    (b"look 0x00000000000000000000000000001", "Ok(Some(Look(1)))"),
    (
        b"look 00000000000000000000000000000001",
        "Ok(Some(Look(1)))",
    ),
    (b"look 09", "Ok(Some(Look(9)))"),
    (b"look 0", "Ok(Some(Look(0)))"),
    (b"pc\t# \r", "Ok(Some(Pc))"),
];

// Lines that are wrong.
static MISTAKES: [(&[u8], &str); 67] = [
    (b"layer slow 256", "Err(SlowTooLarge)"),
    (b"layer slow 256 1", "Err(SlowTooLarge)"),
    (b"layer slow 1 1", "Err(ExtraOperand)"),
    (b"layer guard 4", "Err(MissingOperand)"),
    (b"layer offset", "Err(MissingOperand)"),
    (b"layer", "Err(MissingOperand)"),
    (b"layer Slow 1", "Err(UnknownLayer)"),
    (b"load", "Err(MissingOperand)"),
    (b"load a b", "Err(ExtraOperand)"),
    (b"pc\r", "Err(BadByte)"),
    (b"pc \xc3\xa9", "Err(BadByte)"),
    (b"pc \xff", "Err(BadByte)"),
    (b"\r# comment", "Err(BadByte)"),
    (b"nonsense \x80 # comment", "Err(BadByte)"),
    (b"nonsense", "Err(UnknownCommand)"),
    (b"PC", "Err(UnknownCommand)"),
    (b"pcs", "Err(UnknownCommand)"),
    (b"p c", "Err(UnknownCommand)"),
    (b"42", "Err(UnknownCommand)"),
    (b"clocks 1", "Err(UnknownCommand)"),
    (b"pc\x0b", "Err(UnknownCommand)"),
    (b"card", "Err(MissingOperand)"),
    (b"card word", "Err(MissingOperand)"),
    (b"card words 4", "Err(UnknownCard)"),
    (b"card 4", "Err(UnknownCard)"),
    (b"card word x 4", "Err(NotANumber)"),
    (b"card word 65537", "Err(CardTooLarge)"),
    (b"card word 65537 1", "Err(CardTooLarge)"),
    (b"card boot 4294967296", "Err(NumberTooLarge)"),
    (b"card boot 4 4", "Err(ExtraOperand)"),
    (b"words", "Err(MissingOperand)"),
    (b"words 0", "Err(MissingOperand)"),
    (b"words 0 1 x 4294967296", "Err(NotANumber)"),
    (b"words 0 1 4294967296 x", "Err(NumberTooLarge)"),
    (b"power", "Err(MissingOperand)"),
    (b"power instruction", "Err(MissingOperand)"),
    (b"power clock", "Err(MissingOperand)"),
    (b"power clocks 1", "Err(UnknownMachine)"),
    (b"clock 1 2", "Err(ExtraOperand)"),
    (b"clock -1", "Err(NotANumber)"),
    (b"power instruction 1 2", "Err(ExtraOperand)"),
    (b"instruction 1 2", "Err(ExtraOperand)"),
    (b"instruction x", "Err(NotANumber)"),
    (b"reset 1", "Err(ExtraOperand)"),
    (b"draw 1", "Err(ExtraOperand)"),
    (b"give 1", "Err(ExtraOperand)"),
    (b"set", "Err(MissingOperand)"),
    (b"set 1", "Err(MissingOperand)"),
    (b"set 256", "Err(RegisterTooLarge)"),
    (b"set 256 x", "Err(RegisterTooLarge)"),
    (b"set 4294967296 1", "Err(NumberTooLarge)"),
    (b"set r1 1", "Err(NotANumber)"),
    (b"set 1 2 3", "Err(ExtraOperand)"),
    (b"look", "Err(MissingOperand)"),
    (b"look 1 2", "Err(ExtraOperand)"),
    (b"look -1", "Err(NotANumber)"),
    (b"look +1", "Err(NotANumber)"),
    (b"look 0x", "Err(NotANumber)"),
    (b"look 0xg", "Err(NotANumber)"),
    (b"look 0X1", "Err(NotANumber)"),
    (b"look 1f", "Err(NotANumber)"),
    (b"look 4294967296", "Err(NumberTooLarge)"),
    (b"look 0x100000000", "Err(NumberTooLarge)"),
    (b"look 99999999999999999999999999999999x", "Err(NotANumber)"),
    (
        b"look 340282366920938463463374607431768211457",
        "Err(NumberTooLarge)",
    ),
    (b"memory 0xffffffff 2", "Err(PastLastAddress)"),
    (b"place 4", "Err(MissingOperand)"),
];

#[test]
fn commands_are_read(rt: HostRuntime) -> Result<(), Fail> {
    are_read(&rt, rt.alloc(), &COMMANDS)
}

#[test]
fn mistakes_are_read(rt: HostRuntime) -> Result<(), Fail> {
    are_read(&rt, rt.alloc(), &MISTAKES)
}

// Each line is answered with its text.
fn are_read(rt: &impl Abort, heap: Global, lines: &[(&[u8], &str)]) -> Result<(), Fail> {
    for (line, expected) in lines {
        let found = format!(in heap; "{:?}", read(*line))?;
        equal(rt, found.as_str(), *expected);
    }
    Ok(())
}

#[test]
fn cards_and_machines_have_names(rt: HostRuntime) {
    let cards: [(&[u8], Result<Bottom, Wrong>); 2] = [
        (b"boot", Ok(Bottom::Boot)),
        (b"Boot", Err(Wrong::UnknownCard)),
    ];
    for (name, card) in cards {
        equal(&rt, Bottom::try_from(name), card);
    }
    let machines: [(&[u8], Result<MachineKind, Wrong>); 2] = [
        (b"clock", Ok(MachineKind::ByClock)),
        (b"Clock", Err(Wrong::UnknownMachine)),
    ];
    for (name, machine) in machines {
        equal(&rt, MachineKind::try_from(name), machine);
    }
}
