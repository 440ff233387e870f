// Words that a program lends to a card under layers: an axis runs on the stack, and the words hold the memory of its run.
// Each layer lies over a card that is lent, in a function of its own, so that the prover follows the loan through the stack.
#![tactic(auto)]

ghost use Rattle.std.specs.Prelude.{◌≡◌};
ghost use Rattle.card.specs.Bottom.{beyond};
ghost use Rattle.layer.specs.declared.kind.Kind.TheVariants.{Slow};
ghost use Rattle.layer.specs.Waits.{waits_of};
ghost use Rattle.clocked.specs.Runs.{config};
ghost use Rattle.lent_words.specs.Lending.{under, under_both, waits_under_both, lent, ClocksTo, Ran, Steady};

use card::{Card, WordCard};
use clocked::Processor;
use layer::{Kind, Layer};
use machine::Axis;

// Powers an axis up on the words, which a word card lies over, under an offset and a slow layer, and gives it so many clocks, up to
// the first that is refused. Answers the processor.
pub fn run_on_words(words: &mut [u32], base: u32, waits: u8, axis: Axis, clocks: u32) -> Processor
    ensures words { Ran axis clocks (under_both base waits)
        (waits_under_both base waits (lent words.old) (λ _. 0)) (lent words.old) result (lent words.new) }
    ensures rest { beyond words.new ≡ beyond words.old }
{
    let mut card = WordCard::new(words);
    run_over(&mut card, base, waits, axis, clocks)
}

// The same on any card whose frame settles its waits.
fn run_over<C: Card>(card: &mut C, base: u32, waits: u8, axis: Axis, clocks: u32) -> Processor
    requires { Steady C.Cells.frame C.choice C.Cells.meaning card.old }
    ensures ran { Ran axis clocks (under_both base waits)
        (waits_under_both base waits (C.Cells.meaning card.old) (C.choice card.old))
        (C.Cells.meaning card.old) result (C.Cells.meaning card.new) }
    ensures frame { C.Cells.frame card.new ≡ C.Cells.frame card.old }
{
    let mut offset = Layer::new(Kind::Offset(base), card);
    run_slowed(&mut offset, waits, axis, clocks)
}

#[tactic(auto, using(crate::proofs::Layers::known_axis))]
fn run_slowed<C: Card>(card: &mut C, waits: u8, axis: Axis, clocks: u32) -> Processor
    requires { Steady C.Cells.frame C.choice C.Cells.meaning card.old }
    ensures ran { Ran axis clocks (under (Slow waits))
        (waits_of (Slow waits) (C.Cells.meaning card.old) (C.choice card.old))
        (C.Cells.meaning card.old) result (C.Cells.meaning card.new) }
    ensures frame { C.Cells.frame card.new ≡ C.Cells.frame card.old }
{
    let mut slow = Layer::new(Kind::Slow(waits), card);
    let mut processor = Processor::power_up(u32::from(axis), &mut slow).unwrap();
    run(&mut processor, &mut slow, clocks);
    processor
}

// So many clocks, up to the first that is refused.
fn run<C: Card>(processor: &mut Processor, card: &mut C, clocks: u32)
    requires { Steady C.Cells.frame C.choice C.Cells.meaning card.old }
    ensures ran { ClocksTo (C.choice card.old) clocks (config processor.old (C.Cells.meaning card.old))
        (config processor.new (C.Cells.meaning card.new)) }
    ensures frame { C.Cells.frame card.new ≡ C.Cells.frame card.old }
{
    'clocks: for _ in 0..clocks {
        if processor.clock(card).is_err() {
            return;
        }
    }
}
