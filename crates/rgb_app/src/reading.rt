//! What readers do beside a reordering.
ghost use Rattle.std.specs.Prelude.{◌≡◌, ◌+◌, ◌<◌, IfOk};
ghost use Rattle.query_file.specs.View.{seen, all_seen};
ghost use Rattle.live_index.specs.History.{IsOfSame, Continues, IsLast};
ghost use Rattle.rgb_app.specs.Live.{IsLiveAnswer, AreLiveAnswers, AreAt, last_of};
ghost use Rattle.rgb_app.specs.Turns.{AreInTurn};

use crate::live_answers::LiveAnswer;
use crate::plan::SlabPlan;
use live_index::LiveReader;
use query_file::NumberedQuery;
use rgb_base::{OutOfMemory, Pace};
use std::alloc::Global;

/// The answer to a query, at the last version that the reader has then seen.
fn answer_to<'a>(
    alloc: Global,
    reader: &mut LiveReader<'a, SlabPlan>,
    query: &NumberedQuery,
) -> Result<LiveAnswer, OutOfMemory>
    ensures ok { IfOk result (IsLiveAnswer reader.old.plan.options reader.old.base (seen query.now)) }
    ensures last { IfOk result (λ answer. IsLast reader.new answer.version) }
    ensures continues { Continues reader.old reader.new }
{
    let answer = reader.ask(alloc, &query.query)?;
    Ok(LiveAnswer {
        line: query.line,
        version: answer.version,
        ids: answer.ids,
        originals: answer.originals,
    })
}

/// A place as a number: that of a query is far below the largest.
fn number_of(place: usize) -> u32 {
    if place < u32::MAX as usize {
        place as u32
    } else {
        u32::MAX
    }
}

/// What the reader of this number, of so many, is answered: it takes the query at its number and each
/// that comes so many behind.
pub(crate) fn answers_in_turn<'a, P: Pace>(
    alloc: Global,
    reader: &mut LiveReader<'a, SlabPlan>,
    queries: &[NumberedQuery],
    number: u32,
    readers: u32,
    pace: &P,
) -> Result<Vec<LiveAnswer>, OutOfMemory>
    requires some { 0 < readers }
    ensures ok { IfOk result (λ answers. AreInTurn reader.old.plan.options reader.old.base
        (all_seen queries.now) readers number answers.items) }
    ensures same { IsOfSame reader.old reader.new }
{
    let mut answers = Vec::new(alloc);
    let mut place = number as usize;
    'turns: while place < queries.len() {
        let answer = answer_to(alloc, reader, &queries[place])?;
        answers.push(answer)?;
        pace.at_answer(number, number_of(place));
        place += readers as usize;
    }
    Ok(answers)
}

/// The answers to all queries at the last version, which the reader has seen.
pub(crate) fn final_answers<'a>(
    alloc: Global,
    reader: &mut LiveReader<'a, SlabPlan>,
    queries: &[NumberedQuery],
) -> Result<Vec<LiveAnswer>, OutOfMemory>
    requires last { last_of reader.old.plan.options < reader.old.length }
    ensures ok { IfOk result (λ answers. AreLiveAnswers reader.old.plan.options reader.old.base
        (all_seen queries.now) answers.items) }
    ensures at { IfOk result (λ answers. AreAt (last_of reader.old.plan.options) answers.items) }
{
    let mut answers = Vec::new(alloc);
    for query in queries {
        let answer = answer_to(alloc, reader, query)?;
        answers.push(answer)?;
    }
    Ok(answers)
}
