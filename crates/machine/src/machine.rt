// The instruction machine: the state, power-up, reset, and the questions. One instruction is in the module `execute`.
ghost use Rattle.std.specs.Prelude.{◌≡◌, OnErr};
ghost use Rattle.card.specs.Cells.{Map};
ghost use Rattle.machine.specs.Calls.{PoweredUp};
ghost use Rattle.machine.specs.Registers.{read};
ghost use Rattle.machine.specs.State.{state_of, restarted};

use super::axis::Axis;
use super::fault::Fault;
use super::registers::Registers;
use card::Card;
use isa::Flags;
use refusal::Refusal;

// What an accepted instruction answers.
#[derive(Clone, Copy, PartialEq, Eq, Debug)]
pub enum Outcome {
    Done,
    // an unknown opcode
    Ignored,
    // the instruction met a fault
    Halted,
}

#[derive(Drop)]
pub struct Machine {
    pub(crate) axis: Axis,
    pub(crate) registers: Registers,
    pub(crate) pc: u32,
    pub(crate) flags: Flags,
    pub(crate) fault: Option<Fault>,
}

impl Machine {
    // A machine with registers, flags and PC zero; it cancels the card's transfer. Refused unless the axis is 1, 2 or 3.
    pub fn power_up<C: Card>(axis: u32, card: &mut C) -> Result<Machine, Refusal>
        ensures powered { PoweredUp axis (C.Cells.meaning card.old)
            result (C.Cells.meaning card.new) }
        ensures frame { C.Cells.frame card.new ≡ C.Cells.frame card.old }
        ensures untouched { OnErr result (card.new ≡ card.old) }
    {
        let axis = Axis::try_from(axis)?;
        card.cancel();
        Ok(Machine {
            axis,
            registers: Registers::new(),
            pc: 0,
            flags: Flags::default(),
            fault: None,
        })
    }

    // Sets PC to 0 and ends a halt.
    pub fn reset(&mut self)
        ensures { (f : Map) → state_of self.new f ≡ restarted (state_of self.old f) }
    {
        self.pc = 0;
        self.fault = None;
    }

    pub fn register(&self, register: u8) -> u32
        ensures { result ≡ read self.now.registers.words register }
    {
        self.registers.get(register)
    }

    pub fn flags(&self) -> Flags
        ensures { result ≡ self.now.flags }
    {
        self.flags
    }

    pub fn pc(&self) -> u32
        ensures { result ≡ self.now.pc }
    {
        self.pc
    }

    // The fault that the machine has halted with, if it has.
    pub fn fault(&self) -> Option<Fault>
        ensures { result ≡ self.now.fault }
    {
        self.fault
    }
}
