// The processor by clock: its parts, power-up, and the questions. One clock, the reset and the service key are in the
// modules below.
ghost use Rattle.std.specs.Prelude.{◌≡◌, OnErr};
ghost use Rattle.machine.specs.Axes.{axis_of};
ghost use Rattle.machine.specs.Registers.{read};
ghost use Rattle.clocked.specs.Calls.{PoweredUp};
ghost use Rattle.clocked.specs.Control.{named};
ghost use Rattle.clocked.specs.Changes.{written_back};
ghost use Rattle.clocked.specs.Determined.{Determined};
ghost use Rattle.clocked.specs.Processor.{registers_of};
ghost use Rattle.clocked.specs.Promise.{Promised};
ghost use Rattle.clocked.specs.Runs.{Made};
ghost use Rattle.clocked.specs.Wrong.{Refuted};

use super::control::{Control, ControlState};
use super::pending::Pending;
use card::Card;
use isa::Flags;
use machine::{Axis, Fault, Registers};
use refusal::Refusal;

mod clock;
mod reset;
mod service;

#[derive(Drop)]
pub struct Processor {
    axis: Axis,
    registers: Registers,
    // a result that is not yet in its register
    pending: Option<Pending>,
    flags: Flags,
    pc: u32,
    // the address of the instruction under way
    start: u32,
    control: Control,
    fault: Option<Fault>,
    // whether its key is out
    locked: bool,
}

impl Processor {
    // A processor at the boundary, with registers, flags and PC zero; it cancels the card's transfer. Refused unless the
    // axis is 1, 2 or 3. What is promised of every run from here on is `Promised`; `Determined` says what decides a call, and
    // `Refuted` shows wrong machines to break the promise.
    #[tactic(auto, using(crate::proofs::Theorem::promised, crate::proofs::Determining::determined, crate::proofs::Refuted::refuted))]
    pub fn power_up<C: Card>(axis: u32, card: &mut C) -> Result<Processor, Refusal>
        ensures powered { PoweredUp axis (C.Cells.meaning card.old)
            result (C.Cells.meaning card.new) }
        ensures frame { C.Cells.frame card.new ≡ C.Cells.frame card.old }
        ensures untouched { OnErr result (card.new ≡ card.old) }
        ensures promise { Promised (axis_of axis) (C.Cells.meaning card.old)
            result (C.Cells.meaning card.new) }
        ensures determined { Determined Made }
        ensures refuted { Refuted }
    {
        let axis = Axis::try_from(axis)?;
        card.cancel();
        Ok(Processor {
            axis,
            registers: Registers::new(),
            pending: None,
            flags: Flags::default(),
            pc: 0,
            start: 0,
            control: Control::Fetch0,
            fault: None,
            locked: false,
        })
    }

    // Stores a pending result in its register.
    fn write_back(&mut self)
        ensures { self.new ≡ written_back self.old }
    {
        if let Some(pending) = self.pending.take() {
            self.registers.store(pending.register, pending.word);
        }
    }

    // A register, a pending result counted as stored.
    pub fn register(&self, register: u8) -> u32
        ensures { result ≡ read (registers_of self.now) register }
    {
        match self.pending {
            Some(pending) => self
                .registers
                .get_after_store(pending.register, pending.word, register),
            None => self.registers.get(register),
        }
    }

    // The result that waits for its register, or none.
    pub fn pending(&self) -> Option<Pending>
        ensures { result ≡ self.now.pending }
    {
        self.pending
    }

    pub fn flags(&self) -> Flags
        ensures { result ≡ self.now.flags }
    {
        self.flags
    }

    pub fn pc(&self) -> u32
        ensures { result ≡ self.now.pc }
    {
        self.pc
    }

    // The fault that the processor has halted with, if it has.
    pub fn fault(&self) -> Option<Fault>
        ensures { result ≡ self.now.fault }
    {
        self.fault
    }

    // The state of the next clock.
    pub fn state(&self) -> ControlState
        ensures { result ≡ named self.now.control }
    {
        self.control.state()
    }
}
