// The bench: reads scenarios and prints what gets done. Whatever matters is a call of the library; this program only
// reads, calls and prints.
#![tactic(auto)]

use anyhow::anyhow;
use input::Lines;
use mistake::Report;

mod axis;
mod axis_commands;
mod cells;
mod input;
mod memory;
mod mistake;
mod scenario;
mod serviced;
mod session;
mod stack;

fn main(rt: HostRuntime) -> anyhow::Result<()> {
    let files = input::gather(&rt)?.ok_or_else(|| anyhow!("a file cannot be read"))?;
    let mut report = Report::new(&rt);
    scenario::play(&rt, &mut report, &mut Lines::of(&files))?;
    if report.all_right() {
        Ok(())
    } else {
        Err(anyhow!("a line is wrong"))
    }
}
