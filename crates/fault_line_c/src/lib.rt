// The fault line for a panel written in C: the library's call under its exported name.
#![tactic(auto)]

ghost use Rattle.fault_line.specs.Answer.{CLineAnswered, fault};

use fault_line::{Fields, write_line};

// Writes the line of a fault into a buffer. The answer is the line's length, or minus the number of the refusal: a field is
// out of its range, or the buffer does not do for every line. C has no `Result`, so it is a number.
#[unsafe(no_mangle)]
pub extern "C" fn dp32_fault_line(
    axis: u32,
    stage: u32,
    instruction: u32,
    access: u32,
    cause: u32,
    origin: u32,
    layer: u32,
    line: &mut [u8],
) -> i32
    ensures { CLineAnswered (fault axis stage instruction access cause origin layer) line.entry result line.exit }
{
    let fields = Fields {
        axis,
        stage,
        instruction,
        access,
        cause,
        origin,
        layer,
    };
    match write_line(fields, line) {
        Ok(length) => length as i32,
        Err(refusal) => -(u32::from(refusal) as i32),
    }
}
