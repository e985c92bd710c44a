//! A reordering with readers beside it: all of the work that takes memory.
ghost use Rattle.std.specs.Prelude.{◌≡◌, ℕ, ◌<◌, ◌≤◌, ◌+◌, length, slice_index_or, All, IfOk};
ghost use Rattle.query_file.specs.View.{all_seen};
ghost use Rattle.bisection.specs.Progress.{AreOptions};
ghost use Rattle.rgb_app.specs.Reordering.{options_of};
ghost use Rattle.rgb_app.specs.Live.{AreLiveAnswers, AreAt, last_of};
ghost use Rattle.rgb_app.specs.Turns.{IsBeside, AreOfSeats, IsLived};
ghost use Rattle.rgb_app.specs.declared.beside.Seat.{Seat as Told};

use crate::beside::{Beside, Published, Seat, ask_beside};
use crate::laws::versions_are_planned;
use crate::live_answers::LiveAnswer;
use crate::plan::SlabPlan;
use crate::reading::final_answers;
use crate::reordering::{Reordered, described, forward_of};
use command_words::Reordering;
use live_index::{Note, open};
use postings_rewrite::renumber;
use query_file::NumberedQuery;
use rgb_base::{Index, OutOfMemory, Pace};
use std::alloc::Global;
use std::sync::Wait;
use std::thread::Threads;

/// What is to be written and printed.
#[derive(Drop)]
pub(crate) struct Lived {
    pub(crate) work: Reordered,
    /// What each reader was answered, by its number.
    pub(crate) by_reader: Vec<Vec<LiveAnswer>>,
    /// The answers to all queries at the last version.
    pub(crate) finals: Vec<LiveAnswer>,
}

/// Publishes the numberings of a reordering while so many readers ask. The forward index and the
/// publisher are gone afterwards.
fn beside<'a, R: Threads + Wait + Sync, P: Pace>(
    rt: &R,
    alloc: Global,
    index: &'a Index,
    queries: &[NumberedQuery],
    options: Reordering,
    readers: u32,
    pace: &P,
) -> Result<Beside<'a>, OutOfMemory>
    requires options { AreOptions (options_of options) }
    requires some { 0 < readers }
    requires few { readers ≤ 16 }
    ensures beside { IfOk result (IsBeside index.now (record { options = options })
        (all_seen queries.now) readers) }
{
    versions_are_planned();
    index.is_sound();
    let forward = forward_of(rt, alloc, index, options)?;
    let plan = SlabPlan { options };
    let (mut publisher, readers) = open(rt, alloc, index, plan, readers, options.workers)?;
    let beside = ask_beside(
        rt,
        alloc,
        &mut publisher,
        readers,
        &forward,
        options,
        queries,
        pace,
    );
    publisher.finish(rt);
    beside
}

/// The answers to all queries at the last version, by the first reader.
fn at_last<'a>(
    alloc: Global,
    seats: &mut [Seat<'a>],
    note: Note<'a, SlabPlan>,
    queries: &[NumberedQuery],
) -> Result<Vec<LiveAnswer>, OutOfMemory>
    requires some { 0 < length seats.old }
    requires base { All (λ seat. seat.reader.base ≡ note.base) seats.old }
    requires plan { All (λ seat. seat.reader.plan ≡ note.plan) seats.old }
    requires last { note.length ≡ last_of note.plan.options + 1 }
    ensures finals { IfOk result (λ answers. AreLiveAnswers note.entry.plan.options note.entry.base
        (all_seen queries.now) answers.items) }
    ensures at { IfOk result (λ answers. AreAt (last_of note.entry.plan.options) answers.items) }
    ensures len { length seats.new ≡ length seats.old }
    ensures answers { (reader : ℕ) (seat : Told) → reader < length seats.old
        → (slice_index_or seats.new reader seat).answers
        ≡ (slice_index_or seats.old reader seat).answers }
{
    let seat = &mut seats[0];
    seat.reader.learn(note);
    final_answers(alloc, &mut seat.reader, queries)
}

/// What the readers were answered, by their numbers.
fn answers_of<'a>(alloc: Global, seats: Vec<Seat<'a>>) -> Result<Vec<Vec<LiveAnswer>>, OutOfMemory>
    ensures each { IfOk result (λ all. AreOfSeats seats.entry.items all.items) }
{
    let mut all = Vec::with_capacity(alloc, seats.len())?;
    for seat in seats {
        let Seat { reader: _, answers } = seat;
        all.push(answers?)?;
    }
    Ok(all)
}

/// Does all of the work that takes memory.
pub(crate) fn live_beside<R: Threads + Wait + Sync, P: Pace>(
    rt: &R,
    alloc: Global,
    index: &Index,
    queries: &[NumberedQuery],
    options: Reordering,
    readers: u32,
    pace: &P,
) -> Result<Lived, OutOfMemory>
    requires options { AreOptions (options_of options) }
    requires some { 0 < readers }
    requires few { readers ≤ 16 }
    ensures lived { IfOk result (IsLived options readers index.now (all_seen queries.now)) }
{
    let Beside {
        published,
        mut seats,
    } = beside(rt, alloc, index, queries, options, readers, pace)?;
    let Published {
        numbering,
        rounds,
        note,
    } = published;
    let finals = at_last(alloc, seats.as_mut_slice(), note, queries)?;
    let by_reader = answers_of(alloc, seats)?;
    let new = renumber(rt, alloc, index, &numbering, options.workers)?;
    let work = described(rt, alloc, index, new, rounds, options.workers)?;
    Ok(Lived {
        work,
        by_reader,
        finals,
    })
}
