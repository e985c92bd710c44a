//! A slab: some levels over the cells that the slab before left.
ghost use Rattle.std.specs.Prelude.{◌≡◌, ◌+◌, ◌<◌, ◌≤◌, ◌^◌, length, slice_index, All, OnOk, None};
ghost use Rattle.forward_index.specs.Forward.{IsForward};
ghost use Rattle.bisection.specs.Recursion.{all_places};
ghost use Rattle.bisection.specs.Progress.{AreOptions, limits_of};
ghost use Rattle.bisection.specs.Cells.{AreLaws, CanDescendAll, IsReady, IsMade, Descends, DescendsAll, output_of};

use crate::cell::{Made, Part, Slab, halve_cell};
use crate::descend::go_on;
use forward_index::Forward;
use rgb_base::{OutOfMemory, Pace};
use std::alloc::Global;
use std::thread::Threads;

/// Makes the levels of the first slab over all documents.
pub(crate) fn descend_whole<R: Threads + Sync, P: Pace>(
    rt: &R,
    alloc: Global,
    pace: &P,
    slab: &Slab<'_>,
    forward: &Forward,
    docs: &mut [u32],
    made: &mut Made,
) -> Result<(), OutOfMemory>
    requires laws { AreLaws }
    requires options { AreOptions slab.now.options }
    requires order { 0 < slab.now.last }
    requires last { slab.now.last ≤ slab.now.options.depth }
    requires len { length docs.old ≡ length forward.now.rows }
    requires top { length forward.now.rows < slab.now.logs.now }
    requires sound { IsForward forward.now }
    ensures ok { OnOk result (IsMade forward.now (limits_of slab.now.options)
        slab.now.options.depth 0 slab.now.last 0 (all_places forward.now) (slice_index docs.old)
        docs.new (output_of made.old) (output_of made.new)) }
{
    let len = forward.docs();
    if len <= slab.options.leaf {
        made.parts.push(Part { len, rows: None })?;
        return Ok(());
    }
    pace.at_cell(0, 0);
    let workers = slab.options.workers;
    let split = halve_cell(rt, alloc, slab, forward, docs, 1, workers)?;
    go_on(rt, alloc, pace, slab, split, docs, 0, 0, workers, made)
}

/// Makes the levels of a slab over a cell of the slab before, which stays as it is.
pub(crate) fn descend_lent<R: Threads + Sync, P: Pace>(
    rt: &R,
    alloc: Global,
    pace: &P,
    slab: &Slab<'_>,
    part: &Part,
    docs: &mut [u32],
    level: u32,
    start: u32,
    workers: u32,
    made: &mut Made,
) -> Result<(), OutOfMemory>
    requires laws { AreLaws }
    requires options { AreOptions slab.now.options }
    requires order { level < slab.now.last }
    requires last { slab.now.last ≤ slab.now.options.depth }
    requires len { length docs.old ≡ part.now.len }
    requires top { part.now.len < slab.now.logs.now }
    requires end { start + part.now.len < 2 ^ 31 }
    requires ready { IsReady (limits_of slab.now.options) part.now }
    ensures ok { OnOk result (Descends (limits_of slab.now.options) slab.now.options.depth level
        slab.now.last start part.now docs.old docs.new (output_of made.old)
        (output_of made.new)) }
{
    let len = part.len;
    match &part.rows {
        None => {
            made.parts.push(Part { len, rows: None })?;
            Ok(())
        }
        Some(rows) => {
            let split = halve_cell(rt, alloc, slab, rows, docs, level + 1, workers)?;
            go_on(
                rt, alloc, pace, slab, split, docs, level, start, workers, made,
            )
        }
    }
}

/// How many of the cells are still to be split.
pub(crate) fn still_to_split(parts: &[Part]) -> usize
    ensures most { result ≤ length parts.now }
    ensures none { result ≡ 0 → All (λ part. part.rows ≡ None) parts.now }
{
    let mut cells = 0;
    for part in parts {
        if part.rows.is_some() {
            cells += 1;
        }
    }
    cells
}

/// Keeps the cells of the slab before, of which none is split further, with their documents as they
/// stand.
pub(crate) fn keep_all(
    slab: &Slab<'_>,
    parts: &[Part],
    docs: &[u32],
    level: u32,
    made: &mut Made,
) -> Result<(), OutOfMemory>
    requires can { CanDescendAll
        slab.now.options slab.now.logs.now slab.now.last level 0 parts.now docs.now }
    requires none { All (λ part. part.rows ≡ None) parts.now }
    ensures ok { OnOk result (DescendsAll (limits_of slab.now.options) slab.now.options.depth level
        slab.now.last 0 parts.now docs.now docs.now (output_of made.old) (output_of made.new)) }
{
    for part in parts {
        made.parts.push(Part {
            len: part.len,
            rows: None,
        })?;
    }
    Ok(())
}
