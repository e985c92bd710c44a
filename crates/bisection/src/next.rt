//! One slab more.
ghost use Rattle.std.specs.Prelude.{◌≡◌, ◌+◌, ◌<◌, ◌≤◌, ◌^◌, length, slice_index, sum_by, All, AllPairs, IsPermutation, IfOk, OnOk};
ghost use Rattle.rgb_base.specs.Order.{IsOrder};
ghost use Rattle.forward_index.specs.Forward.{IsForward};
ghost use Rattle.bisection.specs.Trace.{StandsBefore};
ghost use Rattle.bisection.specs.Progress.{AreOptions, limits_of, slabs_of, depth_after};
ghost use Rattle.bisection.specs.Recursion.{all_places};
ghost use Rattle.bisection.specs.Cells.{AreLaws, IsReady, IsMade, CanDescendAll, DescendsAll, RunsFrom, IsStanding, AreApart, output_of};

use crate::cell::{Made, Part, Slab};
use crate::desks::claim_all;
use crate::options::Options;
use crate::slab::{descend_whole, keep_all, still_to_split};
use cell_claims::KeptRound;
use forward_index::Forward;
use rgb_base::laws::faults_exclude;
use rgb_base::{OrderError, OutOfMemory, Pace, Permutation};
use std::alloc::{AllocError, Global};
use std::thread::Threads;

/// What a slab leaves.
#[derive(Drop)]
pub(crate) struct Next {
    pub(crate) numbering: Permutation,
    pub(crate) parts: Vec<Part>,
    pub(crate) trace: Vec<KeptRound>,
}

/// How many slabs there are.
pub(crate) fn slabs(options: &Options) -> u32
    requires { AreOptions options.now }
    ensures same { result ≡ slabs_of options.now }
{
    (options.depth + options.step - 1) / options.step
}

/// How many levels so many slabs have.
pub(crate) fn level_after(options: &Options, slabs: u32) -> u32
    requires { AreOptions options.now }
    ensures same { result ≡ depth_after options.now slabs }
{
    slabs.saturating_mul(options.step).min(options.depth)
}

/// Makes one slab more. What the slabs before left stays as it is.
pub(crate) fn next_slab<R: Threads + Sync, P: Pace>(
    rt: &R,
    alloc: Global,
    pace: &P,
    forward: &Forward,
    slab: &Slab<'_>,
    done: u32,
    numbering: &Permutation,
    parts: &[Part],
    trace: &[KeptRound],
) -> Result<Next, OutOfMemory>
    requires laws { AreLaws }
    requires options { AreOptions slab.now.options }
    requires more { done < slabs_of slab.now.options }
    requires last { slab.now.last ≡ depth_after slab.now.options (done + 1) }
    requires top { length forward.now.rows < slab.now.logs.now }
    requires sound { IsForward forward.now }
    requires standing { IsStanding
        forward.now slab.now.options done numbering.now parts.now trace.now }
    ensures ok { IfOk result (λ next. IsStanding forward.now slab.now.options (done + 1)
        next.numbering next.parts.items next.trace.items) }
{
    let before = order_of(alloc, numbering)?;
    let mut made = Made {
        parts: Vec::new(alloc),
        trace: Vec::from_slice(alloc, trace)?,
    };
    let level = level_after(&slab.options, done);
    let order = run(
        rt, alloc, pace, forward, slab, level, parts, before, &mut made,
    )?;
    let Made { parts, mut trace } = made;
    put_in_order(&mut trace);
    let numbering = numbering_of(alloc, order)?;
    Ok(Next {
        numbering,
        parts,
        trace,
    })
}

/// Makes the levels of a slab that begins at this level. Gives the documents in their new order.
fn run<R: Threads + Sync, P: Pace>(
    rt: &R,
    alloc: Global,
    pace: &P,
    forward: &Forward,
    slab: &Slab<'_>,
    level: u32,
    parts: &[Part],
    docs: Vec<u32>,
    made: &mut Made,
) -> Result<Vec<u32>, OutOfMemory>
    requires laws { AreLaws }
    requires options { AreOptions slab.now.options }
    requires order { level < slab.now.last }
    requires last { slab.now.last ≤ slab.now.options.depth }
    requires len { length docs.items ≡ length forward.now.rows }
    requires top { length forward.now.rows < slab.now.logs.now }
    requires sound { IsForward forward.now }
    requires ready { 0 < level → All (IsReady (limits_of slab.now.options)) parts.now }
    requires total { 0 < level → length docs.items ≡ sum_by (λ part. part.len) parts.now }
    ensures ok { IfOk result (λ order. RunsFrom forward.now (limits_of slab.now.options)
        slab.now.options.depth level slab.now.last parts.now docs.items order.items
        (output_of made.old) (output_of made.new)) }
{
    if level == 0 {
        return run_first(rt, alloc, pace, slab, forward, docs, made);
    }
    run_on(rt, alloc, pace, slab, parts, docs, level, made)
}

/// Makes the levels of the first slab.
fn run_first<R: Threads + Sync, P: Pace>(
    rt: &R,
    alloc: Global,
    pace: &P,
    slab: &Slab<'_>,
    forward: &Forward,
    mut docs: Vec<u32>,
    made: &mut Made,
) -> Result<Vec<u32>, OutOfMemory>
    requires laws { AreLaws }
    requires options { AreOptions slab.now.options }
    requires order { 0 < slab.now.last }
    requires last { slab.now.last ≤ slab.now.options.depth }
    requires len { length docs.items ≡ length forward.now.rows }
    requires top { length forward.now.rows < slab.now.logs.now }
    requires sound { IsForward forward.now }
    ensures ok { IfOk result (λ order. IsMade forward.now (limits_of slab.now.options)
        slab.now.options.depth 0 slab.now.last 0 (all_places forward.now) (slice_index docs.items)
        order.items (output_of made.old) (output_of made.new)) }
{
    descend_whole(rt, alloc, pace, slab, forward, &mut docs, made)?;
    Ok(docs)
}

/// Makes the levels of a slab over the cells of the slab before. There are no more seats than
/// workers, and no more than cells that are still to be split.
fn run_on<R: Threads + Sync, P: Pace>(
    rt: &R,
    alloc: Global,
    pace: &P,
    slab: &Slab<'_>,
    parts: &[Part],
    docs: Vec<u32>,
    level: u32,
    made: &mut Made,
) -> Result<Vec<u32>, OutOfMemory>
    requires laws { AreLaws }
    requires can { CanDescendAll
        slab.now.options slab.now.logs.now slab.now.last level 0 parts.now docs.items }
    ensures ok { IfOk result (λ order. DescendsAll (limits_of slab.now.options)
        slab.now.options.depth level slab.now.last 0 parts.now docs.items order.items
        (output_of made.old) (output_of made.new)) }
{
    let cells = still_to_split(parts);
    if cells == 0 {
        keep_all(slab, parts, &docs, level, made)?;
        return Ok(docs);
    }
    let seats = cells.min(slab.options.workers as usize) as u32;
    claim_all(rt, alloc, pace, slab, parts, &docs, level, seats, made)
}

/// The old number at each new one.
fn order_of(alloc: Global, numbering: &Permutation) -> Result<Vec<u32>, AllocError>
    ensures { IfOk result (λ order. order.items ≡ numbering.now) }
{
    let mut order = Vec::with_capacity(alloc, numbering.len() as usize)?;
    for number in 0..numbering.len() {
        order.push(numbering.old_of(number))?;
    }
    Ok(order)
}

/// The permutation with this order, which lists each document once.
pub(crate) fn numbering_of(alloc: Global, order: Vec<u32>) -> Result<Permutation, OutOfMemory>
    requires { IsOrder order.items }
    ensures { IfOk result (λ numbering. numbering ≡ order.items) }
{
    faults_exclude();
    match Permutation::from_order(alloc, order) {
        Ok(numbering) => Ok(numbering),
        Err(OrderError::OutOfMemory) => Err(OutOfMemory),
        Err(OrderError::NotAPermutation { .. }) => unreachable!(),
    }
}

/// Puts kept rounds in the order of a trace.
fn put_in_order(trace: &mut [KeptRound])
    requires { AllPairs AreApart trace.old }
    ensures same { IsPermutation trace.old trace.new }
    ensures ordered { AllPairs StandsBefore trace.new }
{
    // No two rounds compare equal, so that an unstable sort has one result.
    trace.sort_unstable_by(|x, y| {
        x.start
            .cmp(&y.start)
            .then(x.level.cmp(&y.level))
            .then(y.before.cmp(&x.before))
    });
}
