// A scenario: a card, then an axis on it, until the next card.
use super::axis::PowerUp;
use super::cells::OnCells;
use super::input::{Line, Lines, NewCard};
use super::memory::Memory;
use super::mistake::{Mistake, Report};
use super::session::{Session, SessionEnd};
use command::{Command, Numbers};
use layer::Kind;
use std::io;

// Carries out all lines, a scenario at a time: each begins at the line of its card, and ends before the next one.
pub fn play(rt: &HostRuntime, report: &mut Report<'_>, lines: &mut Lines<'_>) -> io::Result<()> {
    let mut next = without_card(report, lines)?;
    for _ in 0..u64::MAX {
        let Some(card) = next else {
            break;
        };
        let memory = Memory::new(rt.alloc(), card.bottom, card.words)?;
        println!(rt; "card ok")?;
        next = on_card(rt, report, memory, lines)?;
    }
    Ok(())
}

// The lines up to the first card: without one none can be carried out.
fn without_card(report: &mut Report<'_>, lines: &mut Lines<'_>) -> io::Result<Option<NewCard>> {
    for _ in 0..u64::MAX {
        let Some(line) = lines.next() else {
            break;
        };
        if let Some(card) = line.card() {
            return Ok(Some(card));
        }
        let mistake = line
            .command()
            .map_or_else(Mistake::from, |_| Mistake::NoCard);
        report.mistake(line.number, mistake)?;
    }
    Ok(None)
}

// Carries out the lines up to the next card, which is the answer.
fn on_card(
    rt: &HostRuntime,
    report: &mut Report<'_>,
    mut memory: Memory,
    lines: &mut Lines<'_>,
) -> io::Result<Option<NewCard>> {
    for _ in 0..u64::MAX {
        let power_up = match set_up(rt, report, &mut memory, lines)? {
            SetUp::Power(power_up) => power_up,
            SetUp::Over(next) => return Ok(next),
        };
        let session = Session {
            power_up,
            lines: &mut *lines,
            report: &mut *report,
        };
        if let SessionEnd::Over(next) = memory.perform(rt, session)? {
            return Ok(next);
        }
    }
    Ok(None)
}

// What ends the part of a scenario that has no axis: a power-up, or else the scenario is over, at the next card if there is one.
#[derive(Drop)]
enum SetUp {
    Power(PowerUp),
    Over(Option<NewCard>),
}

// Carries out the lines up to a power-up.
fn set_up(
    rt: &HostRuntime,
    report: &mut Report<'_>,
    memory: &mut Memory,
    lines: &mut Lines<'_>,
) -> io::Result<SetUp> {
    for _ in 0..u64::MAX {
        let Some(line) = lines.next() else {
            break;
        };
        let card = line.card();
        if card.is_some() {
            return Ok(SetUp::Over(card));
        }
        if let Ok(Command::Power(kind, axis)) = line.command {
            return Ok(SetUp::Power(PowerUp { kind, axis }));
        }
        if let Err(mistake) = carry_out(rt, memory, &line) {
            report.mistake(line.number, mistake)?;
        }
    }
    Ok(SetUp::Over(None))
}

// Carries out a line before power-up.
fn carry_out(rt: &HostRuntime, memory: &mut Memory, line: &Line<'_>) -> Result<(), Mistake> {
    let command = line.command()?;
    if let Some(task) = OnCells::of(rt, command)? {
        return Ok(memory.perform(rt, task)?);
    }
    match command {
        Command::Words(from, list) => store(rt, memory, *from, list)?,
        Command::Layer(kind) => add_layer(rt, memory, *kind)?,
        Command::Clock(_)
        | Command::Instruction(_)
        | Command::Reset
        | Command::Draw
        | Command::Set(_, _)
        | Command::Give
        | Command::Registers
        | Command::Flags
        | Command::Pc
        | Command::Fault => return Err(Mistake::NoAxis),
        // a card and a power-up end this part, and what is done on cells is done above
        Command::Card(_, _)
        | Command::Power(_, _)
        | Command::Look(_)
        | Command::Memory(_, _)
        | Command::Place(_, _)
        | Command::Load(_) => {}
    }
    Ok(())
}

fn store(
    rt: &HostRuntime,
    memory: &mut Memory,
    from: u32,
    list: &Numbers<'_>,
) -> Result<(), Mistake> {
    memory.store(from, list)?;
    println!(rt; "words ok")?;
    Ok(())
}

fn add_layer(rt: &HostRuntime, memory: &mut Memory, kind: Kind) -> Result<(), Mistake> {
    memory.add(kind)?;
    println!(rt; "layer ok")?;
    Ok(())
}
