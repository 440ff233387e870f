// An axis on its card, from its power-up to the end of its scenario.
use super::axis::{Axis, PowerUp};
use super::axis_commands;
use super::cells::OnCells;
use super::input::{Line, Lines, NewCard};
use super::mistake::{Mistake, Report};
use super::stack::Task;
use card::Card;
use command::Command;
use std::io;

// A power-up and all lines after it are one task on one stack, since a transfer can last from a line to the next.
#[derive(Drop)]
pub struct Session<'l, 't, 'r, 'a> {
    pub power_up: PowerUp,
    pub lines: &'l mut Lines<'t>,
    pub report: &'r mut Report<'a>,
}

// How a session ended.
#[derive(Drop)]
pub enum SessionEnd {
    // the power-up was refused, so that there was no session
    Refused,
    // the scenario is over, at the card of the next one if there is one
    Over(Option<NewCard>),
}

impl Task for Session<'_, '_, '_, '_> {
    type Answer = SessionEnd;

    fn perform<C: Card>(self, rt: &HostRuntime, card: &mut C) -> io::Result<SessionEnd> {
        let Session {
            power_up,
            lines,
            report,
        } = self;
        let Some(mut axis) = power_up.perform(rt, card)? else {
            return Ok(SessionEnd::Refused);
        };
        for _ in 0..u64::MAX {
            let Some(line) = lines.next() else {
                break;
            };
            if let Some(card) = line.card() {
                return Ok(SessionEnd::Over(Some(card)));
            }
            if let Err(mistake) = carry_out(rt, card, &mut axis, &line) {
                report.mistake(line.number, mistake)?;
            }
        }
        Ok(SessionEnd::Over(None))
    }
}

fn carry_out<C: Card>(
    rt: &HostRuntime,
    card: &mut C,
    axis: &mut Axis,
    line: &Line<'_>,
) -> Result<(), Mistake> {
    let command = line.command()?;
    if let Some(task) = OnCells::of(rt, command)? {
        return Ok(task.perform(rt, card)?);
    }
    match command {
        Command::Words(_, _) => return Err(Mistake::WordsAfterPower),
        Command::Layer(_) => return Err(Mistake::LayerAfterPower),
        Command::Power(kind, number) => {
            let power_up = PowerUp {
                kind: *kind,
                axis: *number,
            };
            // a key that is out goes back with the axis before
            if let Some(next) = power_up.perform(rt, card)? {
                *axis = next;
            }
        }
        Command::Clock(count) => axis_commands::run_clocks(rt, axis, card, *count)?,
        Command::Instruction(count) => axis_commands::run_instructions(rt, axis, card, *count)?,
        Command::Reset => axis_commands::reset(rt, axis, card)?,
        Command::Draw => axis_commands::draw(rt, axis)?,
        Command::Set(register, word) => axis_commands::set(rt, axis, *register, *word)?,
        Command::Give => axis_commands::give(rt, axis)?,
        Command::Registers => axis_commands::registers(rt, axis)?,
        Command::Flags => axis_commands::flags(rt, axis)?,
        Command::Pc => axis_commands::pc(rt, axis)?,
        Command::Fault => axis_commands::fault(rt, axis)?,
        // a card begins the next scenario, and what is done on cells is done above
        Command::Card(_, _)
        | Command::Look(_)
        | Command::Memory(_, _)
        | Command::Place(_, _)
        | Command::Load(_) => {}
    }
    Ok(())
}
