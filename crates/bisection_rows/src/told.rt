//! A recursion's options, and what it leaves, as texts.
ghost use Rattle.std.specs.Prelude.{IfSome};
ghost use Rattle.bisection.specs.Progress.{AreOptions};

use bisection::{KeptRound, Options};
use rgb_base::Permutation;
use std::alloc::Global;
use std::test::Fail;

/// Up to twenty rounds a halving, where the numbers are in their ranges.
pub(crate) fn options_of(depth: u32, leaf: u32, workers: u32, step: u32) -> Option<Options>
    ensures { IfSome result AreOptions }
{
    if 31 < depth || leaf == 0 || 1000 < leaf {
        return None;
    }
    if workers == 0 || 64 < workers || step == 0 || 31 < step {
        return None;
    }
    Some(Options {
        depth,
        rounds: 20,
        leaf,
        workers,
        step,
    })
}

/// Puts the documents in their new order behind a text.
fn put_order(alloc: Global, numbering: &Permutation, text: &mut String) -> Result<(), Fail> {
    for number in 0..numbering.len() {
        let document = numbering.old_of(number);
        text.push_str(&format!(in alloc; "{document} ")?)?;
    }
    Ok(())
}

/// Puts the level, start, size, pairs and costs of a kept round behind a text.
fn put_round(alloc: Global, round: &KeptRound, text: &mut String) -> Result<(), Fail> {
    let level = round.level;
    let start = round.start;
    let size = round.size;
    let pairs = round.pairs;
    text.push_str(&format!(in alloc; "/ {level} {start} {size} {pairs} ")?)?;
    let before = round.before;
    let after = round.after;
    text.push_str(&format!(in alloc; "{before} {after} ")?)?;
    Ok(())
}

/// The documents in their new order, and then each kept round.
pub(crate) fn told(
    alloc: Global,
    numbering: &Permutation,
    trace: &[KeptRound],
) -> Result<String, Fail> {
    let mut text = String::new(alloc);
    put_order(alloc, numbering, &mut text)?;
    for round in trace {
        put_round(alloc, round, &mut text)?;
    }
    Ok(text)
}
