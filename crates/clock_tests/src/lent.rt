// Words that are lent to a stack hold the memory of the run of an axis on it.
use super::common::equal;
use lent_words::run_on_words;
use machine::Axis;
use std::test::Fail;

// The base of the offset layer and the clocks; then PC, whether the axis has halted, and word 4, which a store sets to 0.
static ROWS: [(u32, u32, u32, bool, u32); 4] = [
    (0, 0, 0, false, 0x1234),
    (0, 12, 1, false, 0x1234),
    (0, 13, 1, false, 0),
    (1, 13, 0, true, 0x1234),
];

#[test]
fn hold_a_store(rt: HostRuntime) -> Result<(), Fail> {
    for (base, clocks, pc, halted, word) in &ROWS {
        let mut words = [0x3101_0004, 0, 0, 0, 0x1234];
        let axis = run_on_words(&mut words, *base, 3, Axis::Two, *clocks);
        equal(&rt, axis.pc(), *pc);
        equal(&rt, axis.fault().is_some(), *halted);
        equal(&rt, words, [0x3101_0004, 0, 0, 0, *word]);
    }
    Ok(())
}
