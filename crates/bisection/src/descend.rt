//! The recursion over a cell: each part has rows of its own, and the rows of the whole are dropped
//! as soon as those of its parts are made.
ghost use Rattle.std.specs.Prelude.{◌≡◌, ◌+◌, ◌++◌, [], ◌<◌, ◌≤◌, ◌^◌, length, OnOk};
ghost use Rattle.std.specs.Thread.{IsSync};
ghost use Rattle.bisection.specs.Progress.{AreOptions, limits_of};
ghost use Rattle.bisection.specs.Cells.{AreLaws, IsReady, CanDescend, Descends, DescendsBoth, GoesOn, output_of};

use crate::cell::{Made, Part, Slab, Split, append_rounds, halve_cell};
use rayon::join_mut;
use rgb_base::{OutOfMemory, Pace};
use std::alloc::Global;
use std::thread::Threads;

/// Makes the levels of a slab from this one on over a cell, whose documents stand here and begin at
/// a place of the whole order. The cells that are left and the kept rounds go behind the others,
/// and the part gives up its rows.
#[cycle(descent)]
pub(crate) fn descend<R: Threads + Sync, P: Pace>(
    rt: &R,
    alloc: Global,
    pace: &P,
    slab: &Slab<'_>,
    part: &mut Part,
    docs: &mut [u32],
    level: u32,
    start: u32,
    workers: u32,
    made: &mut Made,
) -> Result<(), OutOfMemory>
    requires laws { AreLaws }
    requires can { CanDescend
        slab.now.options slab.now.logs.now slab.now.last level start part.old docs.old }
    ensures ok { OnOk result (Descends (limits_of slab.now.options) slab.now.options.depth level
        slab.now.last start part.old docs.old docs.new (output_of made.old)
        (output_of made.new)) }
{
    let len = part.len;
    match part.rows.take() {
        None => {
            made.parts.push(Part { len, rows: None })?;
            Ok(())
        }
        Some(rows) => {
            if level == slab.last {
                let rows = Some(rows);
                made.parts.push(Part { len, rows })?;
                return Ok(());
            }
            let split = halve_cell(rt, alloc, slab, &rows, docs, level + 1, workers)?;
            drop(rows);
            go_on(
                rt, alloc, pace, slab, split, docs, level, start, workers, made,
            )
        }
    }
}

/// The same of a cell that was halved.
#[cycle(descent)]
pub(crate) fn go_on<R: Threads + Sync, P: Pace>(
    rt: &R,
    alloc: Global,
    pace: &P,
    slab: &Slab<'_>,
    split: Split,
    docs: &mut [u32],
    level: u32,
    start: u32,
    workers: u32,
    made: &mut Made,
) -> Result<(), OutOfMemory>
    requires laws { AreLaws }
    requires options { AreOptions slab.now.options }
    requires order { level < slab.now.last }
    requires last { slab.now.last ≤ slab.now.options.depth }
    requires len { length docs.old ≡ split.a.len + split.b.len }
    requires top { split.a.len + split.b.len < slab.now.logs.now }
    requires end { start + (split.a.len + split.b.len) < 2 ^ 31 }
    requires ready_a { IsReady (limits_of slab.now.options) split.a }
    requires ready_b { IsReady (limits_of slab.now.options) split.b }
    ensures ok { OnOk result (GoesOn (limits_of slab.now.options) slab.now.options.depth level
        slab.now.last start split docs.old docs.new (output_of made.old) (output_of made.new)) }
{
    let Split { a, b, kept } = split;
    let size = a.len + b.len;
    append_rounds(kept.as_slice(), level, start, size, &mut made.trace)?;
    both(
        rt, alloc, pace, slab, a, b, docs, level, start, workers, made,
    )
}

/// The same of both parts of a cell: side by side where there are threads for both, and else one
/// after the other.
#[cycle(descent)]
fn both<R: Threads + Sync, P: Pace>(
    rt: &R,
    alloc: Global,
    pace: &P,
    slab: &Slab<'_>,
    mut a: Part,
    mut b: Part,
    docs: &mut [u32],
    level: u32,
    start: u32,
    workers: u32,
    made: &mut Made,
) -> Result<(), OutOfMemory>
    requires laws { AreLaws }
    requires options { AreOptions slab.now.options }
    requires order { level < slab.now.last }
    requires last { slab.now.last ≤ slab.now.options.depth }
    requires len { length docs.old ≡ a.len + b.len }
    requires top { a.len + b.len < slab.now.logs.now }
    requires end { start + (a.len + b.len) < 2 ^ 31 }
    requires ready_a { IsReady (limits_of slab.now.options) a }
    requires ready_b { IsReady (limits_of slab.now.options) b }
    ensures ok { OnOk result (DescendsBoth (limits_of slab.now.options) slab.now.options.depth
        (level + 1) slab.now.last start a b docs.old docs.new (output_of made.old)
        (output_of made.new)) }
{
    let below = level + 1;
    let middle = start + a.len;
    let (docs_a, docs_b) = docs.split_at_mut(a.len as usize);
    if workers < 2 {
        descend(
            rt, alloc, pace, slab, &mut a, docs_a, below, start, workers, made,
        )?;
        return descend(
            rt, alloc, pace, slab, &mut b, docs_b, below, middle, workers, made,
        );
    }
    let helpers = workers / 2;
    let others = workers - helpers;
    let mut made_a = nothing(alloc);
    let mut made_b = nothing(alloc);
    let (done_a, done_b) = join_mut(
        rt,
        &mut || -> Result<(), OutOfMemory>
            requires { IsSync R.row × IsSync P.row × AreLaws
                × CanDescend slab.now.options slab.now.logs.now slab.now.last below start a
                docs_a.now }
            ensures { OnOk result (Descends (limits_of slab.entry.now.options)
                slab.entry.now.options.depth below slab.entry.now.last start a.entry
                docs_a.entry.now docs_a.exit.now (output_of made_a.entry)
                (output_of made_a.exit)) }
        {
            pace.at_fork(level, 0);
            descend(
                rt,
                alloc,
                pace,
                slab,
                &mut a,
                docs_a,
                below,
                start,
                helpers,
                &mut made_a,
            )
        },
        &mut || -> Result<(), OutOfMemory>
            requires { IsSync R.row × IsSync P.row × AreLaws
                × CanDescend slab.now.options slab.now.logs.now slab.now.last below middle b
                docs_b.now }
            ensures { OnOk result (Descends (limits_of slab.entry.now.options)
                slab.entry.now.options.depth below slab.entry.now.last middle b.entry
                docs_b.entry.now docs_b.exit.now (output_of made_b.entry)
                (output_of made_b.exit)) }
        {
            pace.at_fork(level, 1);
            descend(
                rt,
                alloc,
                pace,
                slab,
                &mut b,
                docs_b,
                below,
                middle,
                others,
                &mut made_b,
            )
        },
    );
    done_a?;
    done_b?;
    append_made(made, &mut made_a)?;
    append_made(made, &mut made_b)
}

/// No cells, and no kept rounds.
pub(crate) fn nothing(alloc: Global) -> Made
    ensures parts { result.parts.items ≡ [] }
    ensures trace { result.trace.items ≡ [] }
{
    Made {
        parts: Vec::new(alloc),
        trace: Vec::new(alloc),
    }
}

/// Puts cells and kept rounds behind others.
pub(crate) fn append_made(made: &mut Made, more: &mut Made) -> Result<(), OutOfMemory>
    ensures parts { OnOk result
        (made.new.parts.items ≡ made.old.parts.items ++ more.old.parts.items) }
    ensures trace { OnOk result
        (made.new.trace.items ≡ made.old.trace.items ++ more.old.trace.items) }
{
    made.parts.append(&mut more.parts)?;
    made.trace.append(&mut more.trace)?;
    Ok(())
}
