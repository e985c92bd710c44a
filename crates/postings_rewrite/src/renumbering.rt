//! All lists of an index with the new numbers of the documents.
ghost use Rattle.std.specs.Prelude.{◌≡◌, ℕ, ◌<◌, ◌≤◌, List, length, slice_range, IfOk};
ghost use Rattle.std.specs.Thread.{IsSync};
ghost use Rattle.rgb_base.specs.Parts.{IsIndex, posting_count};
ghost use Rattle.rgb_base.specs.Table.{AreEnds};
ghost use Rattle.postings_rewrite.specs.Renumbering.{IsRenumbered};
ghost use Rattle.postings_rewrite.specs.Tables.{IsTableRenumbered};
ghost use Rattle.postings_rewrite.specs.Pieces.{AreListsRenumbered};

use crate::postings::renumber_list;
use rayon::join_mut;
use rgb_base::laws::numbers_undo_the_order;
use rgb_base::{Index, OutOfMemory, Permutation, Posting};
use std::alloc::Global;
use std::thread::Threads;

/// The index with the new numbers of its documents, made by so many threads. It doesn't depend on
/// how many. Beside the new index it takes no memory.
pub fn renumber<R: Threads + Sync>(
    rt: &R,
    alloc: Global,
    index: &Index,
    by: &Permutation,
    workers: u32,
) -> Result<Index, OutOfMemory>
    requires len { length by.now ≡ length index.now.documents }
    requires some { 0 < workers }
    requires most { workers ≤ 64 }
    ensures ok { IfOk result (IsRenumbered index.now by.now) }
    ensures sound { IfOk result IsIndex }
{
    index.is_sound();
    by.is_sound();
    numbers_undo_the_order();
    let table = renumbered_table(rt, alloc, index, by, workers)?;
    index.with_table(alloc, table, by)
}

/// The postings of all lists with the new numbers, one list behind another as in the index.
pub(crate) fn renumbered_table<R: Threads + Sync>(
    rt: &R,
    alloc: Global,
    index: &Index,
    by: &Permutation,
    workers: u32,
) -> Result<Vec<Posting>, OutOfMemory>
    requires len { length by.now ≡ length index.now.documents }
    requires some { 0 < workers }
    requires most { workers ≤ 64 }
    ensures ok { IfOk result
        (λ table. IsTableRenumbered by.now index.now.lists table.items) }
    ensures stored { IfOk result
        (λ table. (ends : List ℕ) → AreEnds index.now.lists ends
        → AreListsRenumbered index.now by.now ends table.items) }
{
    index.is_sound();
    by.is_sound();
    numbers_undo_the_order();
    let none = Posting { doc: 0, tf: 0 };
    let mut table = vec![in alloc; none; index.total_postings() as usize]?;
    renumber_lists(rt, index, by, 0, index.lists(), &mut table, workers);
    Ok(table)
}

/// Fills the table with the postings of the lists from one on and before another, renumbered, by so
/// many threads, which share the postings evenly.
#[cycle(halves)]
fn renumber_lists<R: Threads + Sync>(
    rt: &R,
    index: &Index,
    by: &Permutation,
    from: u32,
    to: u32,
    table: &mut [Posting],
    workers: u32,
)
    requires order { from ≤ to }
    requires within { to ≤ length index.now.lists }
    requires len { length table.old ≡ posting_count (slice_range index.now.lists from to) }
    requires documents { length by.now ≡ length index.now.documents }
    ensures { IsTableRenumbered by.now (slice_range index.now.lists from to) table.new }
{
    if workers < 2 || to - from < 2 {
        fill(index, by, from, to, table);
        return;
    }
    let helpers = workers / 2;
    let others = workers - helpers;
    let (middle, place) = cut(
        index,
        from,
        to,
        table.len() / workers as usize * helpers as usize,
    );
    let (front, back) = table.split_at_mut(place);
    join_mut(
        rt,
        &mut ||
            requires { IsSync R.row × (from ≤ middle) × (middle ≤ length index.now.lists)
                × (length front.now ≡ posting_count (slice_range index.now.lists from middle))
                × (length by.now ≡ length index.now.documents) }
            ensures { IsTableRenumbered by.entry.now
                (slice_range index.entry.now.lists from middle) front.exit.now }
        { renumber_lists(rt, index, by, from, middle, front, helpers) },
        &mut ||
            requires { IsSync R.row × (middle ≤ to) × (to ≤ length index.now.lists)
                × (length back.now ≡ posting_count (slice_range index.now.lists middle to))
                × (length by.now ≡ length index.now.documents) }
            ensures { IsTableRenumbered by.entry.now
                (slice_range index.entry.now.lists middle to) back.exit.now }
        { renumber_lists(rt, index, by, middle, to, back, others) },
    );
}

/// Fills the table list by list.
fn fill(index: &Index, by: &Permutation, from: u32, to: u32, table: &mut [Posting])
    requires order { from ≤ to }
    requires within { to ≤ length index.now.lists }
    requires len { length table.old ≡ posting_count (slice_range index.now.lists from to) }
    requires documents { length by.now ≡ length index.now.documents }
    ensures { IsTableRenumbered by.now (slice_range index.now.lists from to) table.new }
{
    let mut start = 0;
    for list in from..to {
        let postings = index.postings(list);
        let end = start + postings.len();
        renumber_list(postings, by, &mut table[start..end]);
        start = end;
    }
}

/// The first list from one on at which so many postings don't last, or the other end, and how many
/// postings the lists before it have.
fn cut(index: &Index, from: u32, to: u32, postings: usize) -> (u32, usize)
    requires order { from ≤ to }
    requires within { to ≤ length index.now.lists }
    ensures low { from ≤ result.0 }
    ensures high { result.0 ≤ to }
    ensures place { result.1 ≡ posting_count (slice_range index.now.lists from result.0) }
{
    index.is_sound();
    let mut place = 0;
    for list in from..to {
        let end = place + index.postings(list).len();
        if postings < end {
            return (list, place);
        }
        place = end;
    }
    (to, place)
}
