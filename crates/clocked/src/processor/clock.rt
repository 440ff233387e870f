// One clock: a row of the clock table.
ghost use Rattle.std.specs.Prelude.{◌≡◌, false, OnOk};
ghost use Rattle.isa.specs.Branch.{taken_by};
ghost use Rattle.isa.specs.Opcodes.{class_of};
ghost use Rattle.machine.specs.declared.machine.Outcome.TheVariants.{Done, Halted};
ghost use Rattle.machine.specs.State.{plus};
ghost use Rattle.clocked.specs.declared.control.Control.TheVariants.{Fetch0, Fetch1};
ghost use Rattle.clocked.specs.declared.tick.Answer.TheVariants.{On, Ended};
ghost use Rattle.clocked.specs.Advance.{Advanced, PolledFor, is_poll};
ghost use Rattle.clocked.specs.Calls.{Chosen};
ghost use Rattle.clocked.specs.Control.{reads_at};
ghost use Rattle.clocked.specs.Changes.{going, going_at, noting, written_back, halting};
ghost use Rattle.clocked.specs.Refusals.{asks_card};
ghost use Rattle.clocked.specs.Runs.{config, clocked, MadeBy};
ghost use Rattle.clocked.specs.Table.{row_of, asks, decodes, executes, latches, branches, completes};

use super::Processor;
use crate::access::Access;
use crate::control::Control;
use crate::pending::Pending;
use crate::tick::{Answer, Tick};
use card::{AccessFault, Card, Direction, End, Request};
use isa::{Class, Flags, Form, Instruction, decode};
use machine::{Fault, Outcome, Stage};
use refusal::Refusal;

impl Processor {
    // One clock. Refused, with nothing changed, while the key is out, if the processor has halted, or if the card has a
    // transfer in being where one begins, or none where one is polled.
    #[tactic(auto, using(crate::proofs::Refusing::refused_clock))]
    pub fn clock<C: Card>(&mut self, card: &mut C) -> Result<Tick, Refusal>
        ensures made { MadeBy (clocked result) (config self.old (C.Cells.meaning card.old))
            (config self.new (C.Cells.meaning card.new)) }
        ensures frame { C.Cells.frame card.new ≡ C.Cells.frame card.old }
        ensures untouched { asks_card self.old ≡ false → card.new ≡ card.old }
        ensures chosen { OnOk result (Chosen (C.choice card.old) (row_of self.old.control self.old)
            (C.Cells.meaning card.old).transfer (C.Cells.meaning card.new).transfer) }
    {
        if self.locked {
            return Err(Refusal::KeyOut);
        }
        if self.fault.is_some() {
            return Err(Refusal::Halted);
        }
        let state = self.state();
        let answer = self.advance(card)?;
        Ok(Tick { state, answer })
    }

    // Matches the control state and what the card answers where it is polled. Apart from the refusals above, since a goal that
    // has both takes the search for proofs to its limits. By reference, since otherwise each clock copies the whole state.
    fn advance<C: Card>(&mut self, card: &mut C) -> Result<Answer, Refusal>
        ensures advanced { Advanced self.old (C.Cells.meaning card.old)
            result self.new (C.Cells.meaning card.new) }
        ensures frame { C.Cells.frame card.new ≡ C.Cells.frame card.old }
        ensures untouched { asks (row_of self.old.control self.old) ≡ false → card.new ≡ card.old }
        ensures chosen { Chosen (C.choice card.old) (row_of self.old.control self.old)
            (C.Cells.meaning card.old).transfer (C.Cells.meaning card.new).transfer }
    {
        let answer = match (&self.control, self.poll(card)?) {
            (&Control::Fetch0, _) => self.fetch(),
            (&Control::Fetch1, _) => {
                card.begin(read_at(self.pc))?;
                self.step_to(Control::Fetch2)
            }
            (&Control::Fetch2, Some(Ok(word))) => {
                self.go(Control::Decode(Instruction::from(word)))
            }
            (&Control::Fetch2, Some(Err(why))) => self.halt(Stage::Fetch, self.start, why),
            (&Control::Decode(instruction), _) => self.decode(instruction),
            (&Control::DispFetch0(instruction), _) => self.go(Control::DispFetch1(instruction)),
            (&Control::DispFetch1(instruction), _) => {
                card.begin(read_at(self.pc))?;
                self.step_to(Control::DispFetch2(instruction))
            }
            (&Control::DispFetch2(instruction), Some(Ok(displacement))) => {
                self.go(Control::Execute0(instruction, displacement))
            }
            (&Control::DispFetch2(_), Some(Err(why))) => {
                self.halt(Stage::Displacement, self.start.wrapping_add(1), why)
            }
            (&Control::Execute0(instruction, displacement), _) => {
                self.execute(instruction, displacement)
            }
            (&Control::Execute1(access), _) => {
                card.begin(access.request())?;
                self.go(Control::Execute2(access))
            }
            (&Control::Execute2(access), Some(Ok(word))) => self.complete(access, word),
            (&Control::Execute2(access), Some(Err(why))) => {
                self.halt(access.stage(), access.request().address, why)
            }
            (&(Control::Fetch2 | Control::DispFetch2(_) | Control::Execute2(_)), None) => {
                Answer::Waiting
            }
        };
        Ok(answer)
    }

    // The end of the transfer in a state that polls, if it ends now; the other states do not ask.
    fn poll<C: Card>(&self, card: &mut C) -> Result<Option<End>, Refusal>
        ensures polled { PolledFor (row_of self.now.control self.now) (C.Cells.meaning card.old)
            result (C.Cells.meaning card.new) }
        ensures frame { C.Cells.frame card.new ≡ C.Cells.frame card.old }
        ensures untouched { is_poll (row_of self.now.control self.now) ≡ false → card.new ≡ card.old }
    {
        match self.control {
            Control::Fetch2 | Control::DispFetch2(_) | Control::Execute2(_) => card.poll(),
            _ => Ok(None),
        }
    }

    // The boundary: stores a pending result and notes PC as the instruction's address.
    fn fetch(&mut self) -> Answer
        ensures answer { result ≡ On }
        ensures after { self.new ≡ noting Fetch1 (written_back self.old) }
    {
        self.write_back();
        self.start = self.pc;
        self.go(Control::Fetch1)
    }

    fn go(&mut self, control: Control) -> Answer
        ensures answer { result ≡ On }
        ensures after { self.new ≡ going control self.old }
    {
        self.control = control;
        Answer::On
    }

    // Goes on, with PC past the word that is being read.
    fn step_to(&mut self, control: Control) -> Answer
        ensures answer { result ≡ On }
        ensures after { self.new ≡ going_at control (plus self.old.pc 1) self.old }
    {
        self.pc = self.pc.wrapping_add(1);
        self.go(control)
    }

    // Ends the instruction, with PC at the next one.
    fn finish(&mut self, outcome: Outcome, pc: u32) -> Answer
        ensures answer { result ≡ Ended outcome }
        ensures after { self.new ≡ going_at Fetch0 pc self.old }
    {
        self.pc = pc;
        self.control = Control::Fetch0;
        Answer::Ended(outcome)
    }

    fn decode(&mut self, instruction: Instruction) -> Answer
        ensures answer { result ≡ (decodes (class_of instruction.opcode)
            (taken_by instruction.mask self.old.flags) instruction self.old).0 }
        ensures after { self.new ≡ (decodes (class_of instruction.opcode)
            (taken_by instruction.mask self.old.flags) instruction self.old).1 }
    {
        let taken = instruction.mask.taken(self.flags);
        match (decode(instruction.opcode).class, taken) {
            (Class::Load(Form::Long) | Class::Store(Form::Long), _)
            | (Class::Branch(Form::Long) | Class::BranchIndexed(Form::Long), true) => {
                self.go(Control::DispFetch0(instruction))
            }
            (Class::Branch(Form::Quick) | Class::BranchIndexed(Form::Quick), false) => {
                self.finish(Outcome::Done, self.pc)
            }
            (Class::Unknown, _) => self.finish(Outcome::Ignored, self.pc),
            _ => self.go(Control::Execute0(instruction, instruction.immediate())),
        }
    }

    // The last state of all but loads and stores, which get their address here.
    fn execute(&mut self, instruction: Instruction, displacement: u32) -> Answer
        ensures answer { result ≡ (executes (class_of instruction.opcode)
            (taken_by instruction.mask self.old.flags) instruction displacement self.old).0 }
        ensures after { self.new ≡ (executes (class_of instruction.opcode)
            (taken_by instruction.mask self.old.flags) instruction displacement self.old).1 }
    {
        let first = self.registers.get(instruction.r1);
        let second = self.registers.get(instruction.r2);
        match decode(instruction.opcode).class {
            Class::Arithmetic(operation) => self.latch(instruction, operation.apply(first, second)),
            Class::ArithmeticQuick(operation) => {
                self.latch(instruction, operation.apply(first, displacement))
            }
            Class::Logical(operation) => {
                self.latch(instruction, operation.apply(first, second, self.flags))
            }
            Class::Load(_) => {
                let address = first.wrapping_add(displacement);
                self.go(Control::Execute1(Access::Load(address, instruction.r3)))
            }
            Class::Store(_) => {
                let address = first.wrapping_add(displacement);
                let word = self.registers.get(instruction.r3);
                self.go(Control::Execute1(Access::Store(address, word)))
            }
            Class::Branch(form) => {
                self.branch(form, instruction, self.pc.wrapping_add(displacement))
            }
            Class::BranchIndexed(form) => {
                self.branch(form, instruction, first.wrapping_add(displacement))
            }
            Class::Unknown => self.finish(Outcome::Ignored, self.pc),
        }
    }

    // A result with its flags; the result is then pending.
    fn latch(&mut self, instruction: Instruction, answer: isa::Answer) -> Answer
        ensures answer { result ≡ Ended Done }
        ensures after { self.new ≡ (latches answer instruction self.old).1 }
    {
        let (word, v, n, z) = answer;
        self.pending = Some(Pending {
            register: instruction.r3,
            word,
        });
        self.flags = Flags { v, n, z };
        self.finish(Outcome::Done, self.pc)
    }

    // To the target, or past a displacement that was not read.
    fn branch(&mut self, form: Form, instruction: Instruction, target: u32) -> Answer
        ensures answer { result ≡ Ended Done }
        ensures after { self.new ≡ (branches
            (taken_by instruction.mask self.old.flags) form target self.old).1 }
    {
        match (instruction.mask.taken(self.flags), form) {
            (true, _) => self.finish(Outcome::Done, target),
            (false, Form::Long) => self.finish(Outcome::Done, self.pc.wrapping_add(1)),
            (false, Form::Quick) => self.finish(Outcome::Done, self.pc),
        }
    }

    // The end of a load or store.
    fn complete(&mut self, access: Access, word: u32) -> Answer
        ensures answer { result ≡ (completes access self.old word).0 }
        ensures after { self.new ≡ (completes access self.old word).1 }
    {
        if let Access::Load(_, register) = access {
            self.pending = Some(Pending { register, word });
        }
        self.finish(Outcome::Done, self.pc)
    }

    // Halts with PC back at the instruction.
    fn halt(&mut self, stage: Stage, access: u32, why: AccessFault) -> Answer
        ensures answer { result ≡ Ended Halted }
        ensures after { self.new ≡ halting stage access why self.old }
    {
        self.fault = Some(Fault {
            axis: self.axis,
            stage,
            instruction: self.start,
            access,
            cause: why.cause,
            origin: why.origin,
        });
        self.finish(Outcome::Halted, self.start)
    }
}

fn read_at(address: u32) -> Request
    ensures { result ≡ reads_at address }
{
    Request {
        direction: Direction::Read,
        address,
    }
}
