//! What a reordering makes of an index.
ghost use Rattle.std.specs.Prelude.{◌≡◌, ◌<◌, ◌≤◌, length, IfOk, string_bytes};
ghost use Rattle.bisection.specs.Progress.{AreOptions};
ghost use Rattle.rgb_app.specs.Text.{reorder_text};
ghost use Rattle.rgb_app.specs.Prepared.{text_of};
ghost use Rattle.rgb_app.specs.Summary.{IsSummary};
ghost use Rattle.rgb_app.specs.Reordering.{options_of, IsForwardBy, IsNumberingBy, IsReordered};

use crate::text::{cost_lines, index_line, make_text};
use bisection::{Options, TraceList, reorder};
use command_words::Reordering;
use forward_index::{Forward, start_by_name};
use gap_report::Costs;
use postings_rewrite::renumber;
use rgb_base::{Index, NoPace, OutOfMemory, Permutation};
use std::alloc::Global;
use std::thread::Threads;

/// The options as the recursion takes them.
pub(crate) fn options_of(options: Reordering) -> Options
    ensures same { result ≡ options_of options }
{
    Options {
        depth: options.depth,
        rounds: options.rounds,
        leaf: options.leaf,
        workers: options.workers,
        step: options.step,
    }
}

/// The forward index over the start order of the options.
pub(crate) fn forward_of<R: Threads + Sync>(
    rt: &R,
    alloc: Global,
    index: &Index,
    options: Reordering,
) -> Result<Forward, OutOfMemory>
    requires options { AreOptions (options_of options) }
    ensures ok { IfOk result (IsForwardBy options index.now) }
{
    if options.by_name {
        let start = start_by_name(alloc, index)?;
        Forward::build_from(rt, alloc, index, options.min_df, &start, options.workers)
    } else {
        Forward::build(rt, alloc, index, options.min_df, options.workers)
    }
}

/// The numbering of the index's documents, and the kept rounds. The forward index is gone
/// afterwards.
fn numbering_of<R: Threads + Sync>(
    rt: &R,
    alloc: Global,
    index: &Index,
    options: Reordering,
) -> Result<(Permutation, TraceList), OutOfMemory>
    requires options { AreOptions (options_of options) }
    ensures numbering { IfOk result (λ t. IsNumberingBy options index.now t.0 t.1) }
    ensures len { IfOk result (λ t. length t.0 ≡ length index.now.documents) }
{
    let forward = forward_of(rt, alloc, index, options)?;
    reorder(rt, alloc, &forward, options_of(options), &NoPace)
}

/// The index with the numbers that the options give to its documents, and the kept rounds.
fn renumbered<R: Threads + Sync>(
    rt: &R,
    alloc: Global,
    index: &Index,
    options: Reordering,
) -> Result<(Index, TraceList), OutOfMemory>
    requires options { AreOptions (options_of options) }
    ensures ok { IfOk result (λ t. IsReordered options index.now t.0 t.1) }
{
    let (numbering, trace) = numbering_of(rt, alloc, index, options)?;
    let new = renumber(rt, alloc, index, &numbering, options.workers)?;
    Ok((new, trace))
}

/// What is to be written and printed: the new index, and the kept rounds between the first and the
/// last lines of the text.
#[derive(Drop)]
pub(crate) struct Reordered {
    pub(crate) new: Index,
    pub(crate) rounds: TraceList,
    pub(crate) first: String,
    pub(crate) last: String,
}

/// The new index with the text that tells of it.
pub(crate) fn described<R: Threads + Sync>(
    rt: &R,
    alloc: Global,
    index: &Index,
    new: Index,
    rounds: TraceList,
    workers: u32,
) -> Result<Reordered, OutOfMemory>
    requires some { 0 < workers }
    requires most { workers ≤ 64 }
    ensures new { IfOk result (λ work. work.new ≡ new) }
    ensures rounds { IfOk result (λ work. work.rounds ≡ rounds) }
    ensures text { IfOk result (λ work. text_of work ≡ reorder_text index.now new rounds) }
{
    let before = Costs::of(rt, index, workers)?;
    let after = Costs::of(rt, &new, workers)?;
    let first = index_line(alloc, index)?;
    let last = cost_lines(alloc, before, after)?;
    Ok(Reordered {
        new,
        rounds,
        first,
        last,
    })
}

/// Does all of the work that takes memory.
pub(crate) fn prepare<R: Threads + Sync>(
    rt: &R,
    alloc: Global,
    index: &Index,
    options: Reordering,
) -> Result<Reordered, OutOfMemory>
    requires options { AreOptions (options_of options) }
    ensures ok { IfOk result (λ work. IsReordered options index.now work.new work.rounds) }
    ensures text { IfOk result (λ work.
        text_of work ≡ reorder_text index.now work.new work.rounds) }
{
    let (new, rounds) = renumbered(rt, alloc, index, options)?;
    described(rt, alloc, index, new, rounds, options.workers)
}

/// The text of `make` for an index: what its reordering comes to. The new index is gone afterwards.
pub(crate) fn summary<R: Threads + Sync>(
    rt: &R,
    alloc: Global,
    index: &Index,
    options: Reordering,
) -> Result<String, OutOfMemory>
    requires options { AreOptions (options_of options) }
    ensures ok { IfOk result (λ text. IsSummary options index.now (string_bytes text)) }
{
    let (new, rounds) = renumbered(rt, alloc, index, options)?;
    let before = Costs::of(rt, index, options.workers)?;
    let after = Costs::of(rt, &new, options.workers)?;
    let kept = rounds.as_slice().len();
    make_text(alloc, index, kept, before, after)
}
