// The record of a fault as its line: the one place that takes the record apart into the line's seven numbers.
#![tactic(auto)]

ghost use Rattle.std.specs.Prelude.{◌≡◌, map};
ghost use Rattle.fault_report.specs.Halting.{AllHalt, rows};
ghost use Rattle.fault_report.specs.Report.{Reported, fields_of};

use fault_line::{Fields, write_line};
use machine::Fault;
use refusal::Refusal;

// The seven numbers of a fault, which its line tells. No `From`, since neither type is this crate's.
pub fn fields(fault: Fault) -> Fields
    ensures { result ≡ fields_of fault }
{
    Fields {
        axis: fault.axis.into(),
        stage: fault.stage.into(),
        instruction: fault.instruction,
        access: fault.access,
        cause: fault.cause.into(),
        origin: fault.origin.address,
        layer: fault.origin.layer.into(),
    }
}

// Writes the line of a fault over the front of a buffer, and answers its length. It is refused, with the buffer as it was, where
// the buffer does not do for every line, and for nothing else.
pub fn write_fault(fault: Fault, line: &mut [u8]) -> Result<usize, Refusal>
    ensures { Reported fault line.old result line.new }
{
    write_line(fields(fault), line)
}

// The lines of the table, whose axes and cells are in the contract.
pub fn halting_lines() -> [&'static [u8]; 5]
    ensures lines { map (λ line. line.now) result ≡ map (λ r. r.line) rows }
    ensures halting { AllHalt }
{
    [
        b"A2 fetch 00000000 00000000 absent 00000000 L000\n",
        b"A3 displ 00000000 00000001 absent 00000001 L000\n",
        b"A1 load 00000000 00001000 absent 00001000 L000\n",
        b"A1 store 00000000 ffffffff absent ffffffff L000\n",
        b"A1 store 00000000 00000000 fixed 00000000 L000\n",
    ]
}
