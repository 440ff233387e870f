// One instruction, by the words that it reads: itself, a displacement, the word at an address.
// Its parts answer a fault as an error, and only the call as a whole records it: so up to there a fault has changed nothing.
// They are methods of the machine over a card, a form and an instruction; a struct of these would lend the machine once more.
ghost use Rattle.std.specs.Prelude.{◌≡◌, OnSome};
ghost use Rattle.card.specs.Ends.{End};
ghost use Rattle.card.specs.declared.transfer.Direction.TheVariants.{Read};
ghost use Rattle.isa.specs.declared.opcodes.Class.TheVariants.{Load, Store};
ghost use Rattle.isa.specs.Branch.{taken_by};
ghost use Rattle.machine.specs.declared.fault.Stage.TheVariants.{Displacement};
ghost use Rattle.machine.specs.Calls.{Stepped, Executes, word_or_fault};
ghost use Rattle.machine.specs.Laws.{Laws};
ghost use Rattle.machine.specs.State.{state_of, plus, latched};
ghost use Rattle.machine.specs.Step.{past, displacement, executed, branched, fetched};

use super::access::{IdleCard, complete};
use super::fault::{Fault, Stage};
use super::machine::{Machine, Outcome};
use card::{Card, Direction, End, Request};
use isa::{Answer, Class, Flags, Form, Instruction, decode};
use refusal::Refusal;

impl Machine {
    // One instruction. Refused, with nothing changed, if the machine has halted or the card has a transfer in being.
    #[tactic(auto, using(crate::proofs::Lawful::lawful))]
    pub fn instruction<C: Card>(&mut self, card: &mut C) -> Result<Outcome, Refusal>
        ensures laws { Laws }
        ensures stepped { Stepped
            self.old (C.Cells.meaning card.old)
            result self.new (C.Cells.meaning card.new) }
        ensures frame { C.Cells.frame card.new ≡ C.Cells.frame card.old }
        ensures untouched { OnSome self.old.fault (card.new ≡ card.old) }
    {
        if self.fault.is_some() {
            return Err(Refusal::Halted);
        }
        let word = complete(
            card,
            Request {
                direction: Direction::Read,
                address: self.pc,
            },
        )?;
        match self.execute(&mut IdleCard { card }, word) {
            Ok(outcome) => Ok(outcome),
            Err(fault) => {
                self.fault = Some(fault);
                Ok(Outcome::Halted)
            }
        }
    }

    // The instruction whose word was fetched, or the fault that it was not.
    fn execute<'c, C: Card>(
        &mut self,
        card: &mut IdleCard<'c, C>,
        word: End,
    ) -> Result<Outcome, Fault>
        ensures executes { Executes C.Cells.meaning (fetched word)
            self.old card.old.card result self.new card.new.card }
        ensures frame { C.Cells.frame card.new.card.now ≡ C.Cells.frame card.old.card.now }
    {
        let instruction = Instruction::from(self.word_or_fault(Stage::Fetch, self.pc, word)?);
        let first = self.registers.get(instruction.r1);
        match decode(instruction.opcode).class {
            Class::Arithmetic(operation) => {
                let second = self.registers.get(instruction.r2);
                self.latch(instruction, operation.apply(first, second));
                Ok(Outcome::Done)
            }
            Class::ArithmeticQuick(operation) => {
                self.latch(instruction, operation.apply(first, instruction.immediate()));
                Ok(Outcome::Done)
            }
            Class::Logical(operation) => {
                let second = self.registers.get(instruction.r2);
                self.latch(instruction, operation.apply(first, second, self.flags));
                Ok(Outcome::Done)
            }
            Class::Load(form) => self.load(card, form, instruction),
            Class::Store(form) => self.store(card, form, instruction),
            Class::Branch(form) => self.branch(card, form, instruction, self.past(form)),
            Class::BranchIndexed(form) => self.branch(card, form, instruction, first),
            Class::Unknown => {
                self.pc = self.past(Form::Quick);
                Ok(Outcome::Ignored)
            }
        }
    }

    // The address of the word after the whole instruction.
    fn past(&self, form: Form) -> u32
        ensures { result ≡ past form self.now.pc }
    {
        match form {
            Form::Quick => self.pc.wrapping_add(1),
            Form::Long => self.pc.wrapping_add(2),
        }
    }

    // The word of an access, or the fault that the access is.
    fn word_or_fault(&self, stage: Stage, access: u32, end: End) -> Result<u32, Fault>
        ensures { result ≡ word_or_fault self.now stage access end }
    {
        end.map_err(|refused| Fault {
            axis: self.axis,
            stage,
            instruction: self.pc,
            access,
            cause: refused.cause,
            origin: refused.origin,
        })
    }

    // The displacement: i8 of the instruction itself, or the next word.
    fn displacement<'c, C: Card>(
        &self,
        card: &mut IdleCard<'c, C>,
        form: Form,
        instruction: Instruction,
    ) -> Result<u32, Fault>
        ensures displacement { result ≡ word_or_fault self.now Displacement (plus self.now.pc 1)
            (displacement form instruction (state_of self.now (C.Cells.meaning card.old.card.now).map)) }
        ensures same { C.Cells.meaning card.new.card.now ≡ C.Cells.meaning card.old.card.now }
        ensures lender { card.new.card.ghost_name ≡ card.old.card.ghost_name }
        ensures frame { C.Cells.frame card.new.card.now ≡ C.Cells.frame card.old.card.now }
    {
        match form {
            Form::Quick => Ok(instruction.immediate()),
            Form::Long => {
                let next = self.pc.wrapping_add(1);
                self.word_or_fault(Stage::Displacement, next, card.read(next))
            }
        }
    }

    // Loads r3 from r1 plus the displacement.
    fn load<'c, C: Card>(
        &mut self,
        card: &mut IdleCard<'c, C>,
        form: Form,
        instruction: Instruction,
    ) -> Result<Outcome, Fault>
        ensures executes { Executes C.Cells.meaning (executed (Load form) instruction)
            self.old card.old.card result self.new card.new.card }
        ensures frame { C.Cells.frame card.new.card.now ≡ C.Cells.frame card.old.card.now }
    {
        let offset = self.displacement(card, form, instruction)?;
        let address = self.registers.get(instruction.r1).wrapping_add(offset);
        let word = self.word_or_fault(Stage::Load, address, card.read(address))?;
        self.registers.store(instruction.r3, word);
        self.pc = self.past(form);
        Ok(Outcome::Done)
    }

    // Stores r3 at r1 plus the displacement.
    fn store<'c, C: Card>(
        &mut self,
        card: &mut IdleCard<'c, C>,
        form: Form,
        instruction: Instruction,
    ) -> Result<Outcome, Fault>
        ensures executes { Executes C.Cells.meaning (executed (Store form) instruction)
            self.old card.old.card result self.new card.new.card }
        ensures frame { C.Cells.frame card.new.card.now ≡ C.Cells.frame card.old.card.now }
    {
        let offset = self.displacement(card, form, instruction)?;
        let address = self.registers.get(instruction.r1).wrapping_add(offset);
        let word = self.registers.get(instruction.r3);
        self.word_or_fault(Stage::Store, address, card.write(address, word))?;
        self.pc = self.past(form);
        Ok(Outcome::Done)
    }

    // A branch to base plus displacement, or to the word after the instruction.
    fn branch<'c, C: Card>(
        &mut self,
        card: &mut IdleCard<'c, C>,
        form: Form,
        instruction: Instruction,
        base: u32,
    ) -> Result<Outcome, Fault>
        ensures executes { Executes C.Cells.meaning (λ s. branched (taken_by instruction.mask s.flags) form instruction s (plus base))
            self.old card.old.card result self.new card.new.card }
        ensures frame { C.Cells.frame card.new.card.now ≡ C.Cells.frame card.old.card.now }
    {
        self.pc = if instruction.mask.taken(self.flags) {
            base.wrapping_add(self.displacement(card, form, instruction)?)
        } else {
            self.past(form)
        };
        Ok(Outcome::Done)
    }

    // Takes a result with its flags, and goes on to the next word.
    fn latch(&mut self, instruction: Instruction, answer: Answer)
        ensures { self.new ≡ latched self.old instruction.r3 answer }
    {
        let (word, v, n, z) = answer;
        self.registers.store(instruction.r3, word);
        self.flags = Flags { v, n, z };
        self.pc = self.past(Form::Quick);
    }
}
