//! Readers and the publisher, side by side.
ghost use Rattle.std.specs.Prelude.{◌≡◌, ◌<◌, ◌≤◌, length, All, IfOk};
ghost use Rattle.std.specs.Thread.{IsSync};
ghost use Rattle.query_file.specs.View.{all_seen};
ghost use Rattle.live_index.specs.declared.history.History.{History};
ghost use Rattle.live_index.specs.History.{IsOfSame};
ghost use Rattle.bisection.specs.Progress.{AreOptions};
ghost use Rattle.rgb_app.specs.Reordering.{options_of, IsForwardBy};
ghost use Rattle.rgb_app.specs.Turns.{IsPublished, IsTurn, AreTurns, IsBeside};
ghost use Rattle.rgb_app.specs.declared.plan.SlabPlan.{SlabPlan as Planned};

use crate::live_answers::LiveAnswer;
use crate::plan::SlabPlan;
use crate::publishing::publish_slabs;
use crate::reading::answers_in_turn;
use bisection::TraceList;
use command_words::Reordering;
use forward_index::Forward;
use live_index::{LiveReader, Note, Publisher};
use query_file::NumberedQuery;
use rgb_base::{OutOfMemory, Pace, Permutation};
use std::alloc::{AllocError, Global};
use std::sync::Wait;
use std::thread;
use std::thread::{Threads, join};

/// What the publisher leaves: the last numbering, the kept rounds, and a note of all that was published.
#[derive(Drop)]
pub(crate) struct Published<'a> {
    pub(crate) numbering: Permutation,
    pub(crate) rounds: TraceList,
    pub(crate) note: Note<'a, SlabPlan>,
}

/// A reader, and what it was answered.
#[derive(Drop)]
pub(crate) struct Seat<'a> {
    pub(crate) reader: LiveReader<'a, SlabPlan>,
    pub(crate) answers: Result<Vec<LiveAnswer>, OutOfMemory>,
}

/// What the publisher left, and the readers beside it, each at the place of its number.
#[derive(Drop)]
pub(crate) struct Beside<'a> {
    pub(crate) published: Published<'a>,
    pub(crate) seats: Vec<Seat<'a>>,
}

/// The work of the publisher.
fn publish_all<'a, R: Threads + Wait + Sync, P: Pace>(
    rt: &R,
    alloc: Global,
    publisher: &mut Publisher<'a, SlabPlan>,
    forward: &Forward,
    options: Reordering,
    pace: &P,
) -> Result<Published<'a>, OutOfMemory>
    requires options { AreOptions (options_of options) }
    requires plan { publisher.old.plan.options ≡ options }
    requires forward { IsForwardBy options publisher.old.base forward.now }
    requires opened { publisher.old.length ≡ 1 }
    ensures published { IfOk result (IsPublished publisher.old.base publisher.old.plan) }
{
    let (numbering, rounds) = publish_slabs(rt, alloc, publisher, forward, options, pace)?;
    let note = publisher.note()?;
    Ok(Published {
        numbering,
        rounds,
        note,
    })
}

/// A seat for each reader, before they ask.
fn seated<'a>(
    alloc: Global,
    readers: Vec<LiveReader<'a, SlabPlan>>,
) -> Result<Vec<Seat<'a>>, AllocError>
    ensures len { IfOk result (λ seats. length seats.items ≡ length readers.entry.items) }
    ensures same { (history : History Planned) → All (IsOfSame history) readers.entry.items
        → IfOk result (λ seats. All (λ seat. IsOfSame history seat.reader) seats.items) }
{
    let mut readers = readers;
    let mut seats = Vec::with_capacity(alloc, readers.len())?;
    'readers: while let Some(reader) = readers.pop() {
        seats.push(Seat {
            reader,
            answers: Ok(Vec::new(alloc)),
        })?;
    }
    Ok(seats)
}

/// The work of the reader of this number, of so many.
fn take_turns<'a, P: Pace>(
    alloc: Global,
    seat: &mut Seat<'a>,
    queries: &[NumberedQuery],
    number: u32,
    readers: u32,
    pace: &P,
)
    requires some { 0 < readers }
    ensures turn { IsTurn (all_seen queries.now) readers number seat.old seat.new }
{
    seat.answers = answers_in_turn(alloc, &mut seat.reader, queries, number, readers, pace);
}

/// The work of all readers, each in a thread of its own where one can be made.
fn ask_each<'a, R: Threads + Sync, P: Pace>(
    rt: &R,
    alloc: Global,
    seats: &mut [Seat<'a>],
    queries: &[NumberedQuery],
    pace: &P,
)
    requires some { 0 < length seats.old }
    requires few { length seats.old ≤ 16 }
    ensures turns { AreTurns (all_seen queries.now) seats.old seats.new }
{
    let count = seats.len();
    let readers = count as u32;
    thread::for_each_mut(
        rt,
        seats,
        count,
        &|number, seat: &mut Seat<'_>|
            requires { IsSync P.row × (0 < readers) × (number < 16) }
            ensures { IsTurn (all_seen queries.entry.now) readers number seat.old seat.new }
        { take_turns(alloc, seat, queries, number as u32, readers, pace) },
    );
}

/// The same for seats that are given back.
fn ask_all<'a, R: Threads + Sync, P: Pace>(
    rt: &R,
    alloc: Global,
    seats: Vec<Seat<'a>>,
    queries: &[NumberedQuery],
    pace: &P,
) -> Vec<Seat<'a>>
    requires some { 0 < length seats.items }
    requires few { length seats.items ≤ 16 }
    ensures turns { AreTurns (all_seen queries.now) seats.entry.items result.items }
{
    let mut seats = seats;
    ask_each(rt, alloc, seats.as_mut_slice(), queries, pace);
    seats
}

/// Publishes the numberings after the slabs, while readers ask: each in a thread of its own where one
/// can be made, and else before the first slab or after the last publishing.
pub(crate) fn ask_beside<'a, R: Threads + Wait + Sync, P: Pace>(
    rt: &R,
    alloc: Global,
    publisher: &mut Publisher<'a, SlabPlan>,
    readers: Vec<LiveReader<'a, SlabPlan>>,
    forward: &Forward,
    options: Reordering,
    queries: &[NumberedQuery],
    pace: &P,
) -> Result<Beside<'a>, OutOfMemory>
    requires options { AreOptions (options_of options) }
    requires plan { publisher.old.plan.options ≡ options }
    requires forward { IsForwardBy options publisher.old.base forward.now }
    requires opened { publisher.old.length ≡ 1 }
    requires some { 0 < length readers.items }
    requires few { length readers.items ≤ 16 }
    requires readers { All (IsOfSame publisher.old) readers.items }
    ensures beside { IfOk result (IsBeside publisher.old.base publisher.old.plan (all_seen queries.now)
        (length readers.entry.items)) }
{
    let seats = seated(alloc, readers)?;
    let (published, seats) = join(
        rt,
        || -> Result<Published<'_>, OutOfMemory>
            requires { IsSync R.row × IsSync P.row × AreOptions (options_of options)
                × (publisher.now.plan.options ≡ options)
                × IsForwardBy options publisher.now.base forward.now
                × (publisher.now.length ≡ 1) }
            ensures { IfOk result
                (IsPublished publisher.entry.now.base publisher.entry.now.plan) }
        { publish_all(rt, alloc, publisher, forward, options, pace) },
        || -> Vec<Seat<'_>>
            requires { IsSync R.row × IsSync P.row × (0 < length seats.items)
                × (length seats.items ≤ 16) }
            ensures { AreTurns (all_seen queries.entry.now) seats.entry.items result.items }
        { ask_all(rt, alloc, seats, queries, pace) },
    );
    Ok(Beside {
        published: published?,
        seats,
    })
}
