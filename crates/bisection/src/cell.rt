//! A cell of the recursion, and its halving over its own rows.
ghost use Rattle.std.specs.Prelude.{◌≡◌, ◌++◌, ◌<◌, ◌≤◌, ◌^◌, ℕ, length, map, slice_index, All, IfOk, OnOk};
ghost use Rattle.exchange.specs.Halving.{halves_of, AreHalves};
ghost use Rattle.bisection.specs.Trace.{own_rounds, moved_to};
ghost use Rattle.bisection.specs.Recursion.{all_places};
ghost use Rattle.bisection.specs.Progress.{limits_of};
ghost use Rattle.bisection.specs.Cells.{AreLaws, IsCellIn, IsPartOf, IsSplit};

use crate::options::Options;
use cell_claims::KeptRound;
use degrees::Degrees;
use exchange::{Ground, Kept, KeptList, Scratch, halve};
use fixed_log::LogTable;
use forward_index::Forward;
use rayon::join_mut;
use rgb_base::OutOfMemory;
use std::alloc::{AllocError, Global};
use std::thread::Threads;

/// Rows of fewer documents are not worth a thread.
const FEW: usize = 1024;

/// A cell where it stands in the order: how many documents it has, and its own rows if it is halved
/// further.
#[derive(Drop)]
pub(crate) struct Part {
    pub(crate) len: u32,
    pub(crate) rows: Option<Forward>,
}

/// Cells in their order, and kept rounds.
#[derive(Drop)]
pub(crate) struct Made {
    pub(crate) parts: Vec<Part>,
    pub(crate) trace: Vec<KeptRound>,
}

/// Both parts of a cell that was halved, and its kept rounds.
#[derive(Drop)]
pub(crate) struct Split {
    pub(crate) a: Part,
    pub(crate) b: Part,
    pub(crate) kept: KeptList,
}

/// What the work on a slab's cells stands on: logarithms up to more than the number of documents,
/// and the level at which the slab ends.
#[derive(Clone, Copy)]
pub(crate) struct Slab<'a> {
    pub(crate) logs: &'a LogTable,
    pub(crate) options: Options,
    pub(crate) last: u32,
}

/// Halves a cell over its own rows, puts its documents in the order of the halves, and makes the
/// rows of those halves that are halved further. They have this level.
pub(crate) fn halve_cell<R: Threads + Sync>(
    rt: &R,
    alloc: Global,
    slab: &Slab<'_>,
    rows: &Forward,
    docs: &mut [u32],
    level: u32,
    workers: u32,
) -> Result<Split, OutOfMemory>
    requires laws { AreLaws }
    requires top { length rows.now.rows < slab.now.logs.now }
    requires some { 2 ≤ length rows.now.rows }
    requires len { length docs.old ≡ length rows.now.rows }
    ensures ok { IfOk result (IsSplit rows.now (limits_of slab.now.options)
        slab.now.options.depth level (slice_index docs.old) docs.new) }
{
    let mut places = first_places(alloc, rows.docs())?;
    let kept = halve_places(rt, alloc, slab, rows, &mut places, workers)?;
    arrange(alloc, docs, &places)?;
    let (front, back) = places.split_at(places.len() - places.len() / 2);
    let (a, b) = parts_of(rt, alloc, slab, rows, front, back, level, workers)?;
    Ok(Split { a, b, kept })
}

/// Puts the places of all rows in the order of the halves that a halving leaves. Gives its kept
/// rounds.
fn halve_places<R: Threads + Sync>(
    rt: &R,
    alloc: Global,
    slab: &Slab<'_>,
    rows: &Forward,
    places: &mut [u32],
    workers: u32,
) -> Result<KeptList, OutOfMemory>
    requires top { length rows.now.rows < slab.now.logs.now }
    requires some { 2 ≤ length rows.now.rows }
    requires places { places.old ≡ all_places rows.now }
    ensures ok { IfOk result (AreHalves rows.now (all_places rows.now)
        slab.now.options.rounds (halves_of places.new)) }
{
    let mut degrees = Degrees::new(alloc, rows.terms())?;
    let mut scratch = Scratch::with_terms(alloc, rows.docs(), rows.terms())?;
    let mut kept = KeptList::of(Vec::new(alloc));
    let ground = Ground {
        forward: rows,
        logs: slab.logs,
        workers,
    };
    let rounds = slab.options.rounds;
    halve(
        rt,
        alloc,
        &ground,
        &mut degrees,
        places,
        rounds,
        &mut scratch,
        &mut kept,
    )?;
    Ok(kept)
}

/// The numbers below n, in order.
fn first_places(alloc: Global, n: u32) -> Result<Vec<u32>, AllocError>
    ensures len { IfOk result (λ places. length places.items ≡ n) }
    ensures each { IfOk result (λ places. (k : ℕ) → k < n → slice_index places.items k ≡ k) }
{
    (0..n).collect(alloc)
}

/// Puts the documents in the order of these places.
fn arrange(alloc: Global, docs: &mut [u32], places: &[u32]) -> Result<(), OutOfMemory>
    requires len { length places.now ≡ length docs.old }
    requires below { All (λ place. place < length docs.old) places.now }
    ensures ok { OnOk result (docs.new ≡ map (slice_index docs.old) places.now) }
{
    let moved = looked_up(alloc, docs, places)?;
    docs.copy_from_slice(&moved);
    Ok(())
}

/// What the table has at each of the places.
fn looked_up(alloc: Global, table: &[u32], places: &[u32]) -> Result<Vec<u32>, AllocError>
    requires { All (λ place. place < length table.now) places.now }
    ensures { IfOk result (λ found. found.items ≡ map (slice_index table.now) places.now) }
{
    places
        .iter()
        .map(|place| table[*place as usize])
        .collect(alloc)
}

/// Both parts of a cell, each as below: side by side where there are threads for both.
fn parts_of<R: Threads + Sync>(
    rt: &R,
    alloc: Global,
    slab: &Slab<'_>,
    rows: &Forward,
    front: &[u32],
    back: &[u32],
    level: u32,
    workers: u32,
) -> Result<(Part, Part), OutOfMemory>
    requires few { length front.now < 2 ^ 32 }
    requires few_b { length back.now < 2 ^ 32 }
    requires cell { IsCellIn rows.now front.now }
    requires cell_b { IsCellIn rows.now back.now }
    ensures a { IfOk result (λ parts. IsPartOf rows.now (limits_of slab.now.options)
        slab.now.options.depth level front.now parts.0) }
    ensures b { IfOk result (λ parts. IsPartOf rows.now (limits_of slab.now.options)
        slab.now.options.depth level back.now parts.1) }
{
    if workers < 2 || front.len() < FEW {
        let a = part_of(alloc, slab, rows, front, level)?;
        let b = part_of(alloc, slab, rows, back, level)?;
        return Ok((a, b));
    }
    let (a, b) = join_mut(
        rt,
        &mut || -> Result<Part, OutOfMemory>
            requires { (length front.now < 2 ^ 32) × IsCellIn rows.now front.now }
            ensures { IfOk result (IsPartOf rows.entry.now (limits_of slab.entry.now.options)
                slab.entry.now.options.depth level front.entry.now) }
        { part_of(alloc, slab, rows, front, level) },
        &mut || -> Result<Part, OutOfMemory>
            requires { (length back.now < 2 ^ 32) × IsCellIn rows.now back.now }
            ensures { IfOk result (IsPartOf rows.entry.now (limits_of slab.entry.now.options)
                slab.entry.now.options.depth level back.entry.now) }
        { part_of(alloc, slab, rows, back, level) },
    );
    Ok((a?, b?))
}

/// The part of a cell over its parent's rows, with rows of its own if it is halved further.
fn part_of(
    alloc: Global,
    slab: &Slab<'_>,
    rows: &Forward,
    places: &[u32],
    level: u32,
) -> Result<Part, OutOfMemory>
    requires few { length places.now < 2 ^ 32 }
    requires cell { IsCellIn rows.now places.now }
    ensures ok { IfOk result (IsPartOf rows.now (limits_of slab.now.options)
        slab.now.options.depth level places.now) }
{
    let len = places.len() as u32;
    if slab.options.depth <= level || len <= slab.options.leaf {
        return Ok(Part { len, rows: None });
    }
    let own = rows.cell(alloc, places)?;
    Ok(Part {
        len,
        rows: Some(own),
    })
}

/// Puts the kept rounds of a cell behind the others.
pub(crate) fn append_rounds(
    kept: &[Kept],
    level: u32,
    start: u32,
    size: u32,
    trace: &mut Vec<KeptRound>,
) -> Result<(), OutOfMemory>
    ensures ok { OnOk result (trace.new.items
        ≡ trace.old.items ++ moved_to level start (own_rounds size kept.now)) }
{
    for round in kept {
        trace.push(KeptRound {
            level,
            start,
            size,
            before: round.before,
            after: round.after,
            pairs: round.pairs,
        })?;
    }
    Ok(())
}
