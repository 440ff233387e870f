// An axis: a machine that is powered up on a card, and what is asked of it.
use super::serviced::Serviced;
use super::stack::Task;
use card::Card;
use command::MachineKind;
use isa::Flags;
use machine::{Fault, Machine};
use refusal::Refusal;
use std::io;

#[derive(Drop)]
pub enum Axis {
    ByClock(Serviced),
    ByInstruction(Machine),
}

impl Axis {
    fn power_up<C: Card>(kind: MachineKind, axis: u32, card: &mut C) -> Result<Axis, Refusal> {
        match kind {
            MachineKind::ByClock => Ok(Axis::ByClock(Serviced::power_up(axis, card)?)),
            MachineKind::ByInstruction => Ok(Axis::ByInstruction(Machine::power_up(axis, card)?)),
        }
    }

    pub fn reset<C: Card>(&mut self, card: &mut C) -> Result<(), Refusal> {
        match self {
            Axis::ByClock(serviced) => serviced.reset(card),
            Axis::ByInstruction(machine) => {
                machine.reset();
                Ok(())
            }
        }
    }

    pub fn register(&self, register: u8) -> u32 {
        match self {
            Axis::ByClock(serviced) => serviced.processor().register(register),
            Axis::ByInstruction(machine) => machine.register(register),
        }
    }

    pub fn flags(&self) -> Flags {
        match self {
            Axis::ByClock(serviced) => serviced.processor().flags(),
            Axis::ByInstruction(machine) => machine.flags(),
        }
    }

    pub fn pc(&self) -> u32 {
        match self {
            Axis::ByClock(serviced) => serviced.processor().pc(),
            Axis::ByInstruction(machine) => machine.pc(),
        }
    }

    pub fn fault(&self) -> Option<Fault> {
        match self {
            Axis::ByClock(serviced) => serviced.processor().fault(),
            Axis::ByInstruction(machine) => machine.fault(),
        }
    }
}

// Powering an axis up on the card; None where that is refused.
#[derive(Drop)]
pub struct PowerUp {
    pub kind: MachineKind,
    pub axis: u32,
}

impl Task for PowerUp {
    type Answer = Option<Axis>;

    fn perform<C: Card>(self, rt: &HostRuntime, card: &mut C) -> io::Result<Option<Axis>> {
        match Axis::power_up(self.kind, self.axis, card) {
            Ok(axis) => {
                println!(rt; "power ok")?;
                Ok(Some(axis))
            }
            Err(refusal) => {
                println!(rt; "power refused {refusal}")?;
                Ok(None)
            }
        }
    }
}
