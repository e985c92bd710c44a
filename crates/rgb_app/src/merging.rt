//! The answers of all readers in the order of the queries.
ghost use Rattle.std.specs.Prelude.{◌≡◌, ℕ, ◌<◌, length, map, slice_get, Some, IfOk};
ghost use Rattle.rgb_app.specs.Prepared.{all_lent};
ghost use Rattle.rgb_app.specs.Turns.{HasTurns, StandsInTurn};
ghost use Rattle.rgb_app.specs.declared.live_answers.LiveAnswer.{LiveAnswer as Told};

use crate::live_answers::LiveAnswer;
use rgb_base::OutOfMemory;
use std::alloc::Global;

/// The answers to so many queries, each that of the reader whose turn it was.
pub(crate) fn in_order<'a>(
    alloc: Global,
    by_reader: &'a [Vec<LiveAnswer>],
    count: usize,
) -> Result<Vec<&'a LiveAnswer>, OutOfMemory>
    requires turns { HasTurns (map (λ answers. answers.items) by_reader.now) count }
    ensures len { IfOk result (λ all. length all.items ≡ count) }
    ensures each { IfOk result (λ all. (place : ℕ) → (answer : Told)
        → slice_get (all_lent all.items) place ≡ Some answer
        → StandsInTurn (map (λ answers. answers.items) by_reader.now) place answer) }
{
    let readers = by_reader.len();
    let mut all = Vec::with_capacity(alloc, count)?;
    for place in 0..count {
        let answers = &by_reader[place % readers];
        all.push(&answers[place / readers])?;
    }
    Ok(all)
}

/// The answers as they are lent.
pub(crate) fn lent<'a>(
    alloc: Global,
    answers: &'a [LiveAnswer],
) -> Result<Vec<&'a LiveAnswer>, OutOfMemory>
    ensures same { IfOk result (λ all. all_lent all.items ≡ answers.now) }
{
    let mut all = Vec::with_capacity(alloc, answers.len())?;
    for answer in answers {
        all.push(answer)?;
    }
    Ok(all)
}
