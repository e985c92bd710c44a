//! The rows written side by side, band by band and list by list.
ghost use Rattle.std.specs.Prelude.{◌≡◌, ◌+◌, ◌*◌, ◌<◌, ◌≤◌, ◌^◌, ℕ, length, take, All, slice_index};
ghost use Rattle.std.specs.Thread.{IsSync};
ghost use Rattle.rgb_base.specs.Parts.{IsPostings};
ghost use Rattle.forward_index.specs.Rows.{times, rows_of, block, IsStart, AreMoved, AreWritten, IsReady, AreFilled};
ghost use Rattle.forward_index.specs.Bands.{IsPassed, ArePassed, band_times, rows_below, AreBegun};

use crate::bands::{Band, band_of, next_band, pass_lists};
use crate::count::{offset_in, share};
use rayon::join_mut;
use rgb_base::laws::numbers_undo_the_order;
use rgb_base::{Index, Permutation, Posting};
use std::thread::Threads;

/// Writes a term at the cursor of each document of a block that has a posting, and moves the cursor
/// on, up to the first posting of a document that isn't below the limit. A cursor is a place of the
/// whole table, of which the entries are the part from the base on. Gives how many postings those
/// are.
fn write_postings(
    postings: &[Posting],
    limit: u32,
    term: u32,
    start: &Permutation,
    first: u32,
    base: u32,
    cursors: &mut [u32],
    entries: &mut [u32],
) -> usize
    requires start { IsStart start.now }
    requires rising { IsPostings (length start.now) postings.now }
    requires within { first + length cursors.old ≤ length start.now }
    requires low { All (λ cursor. base ≤ cursor) cursors.old }
    requires high { (k n : ℕ) → k < length cursors.old
        → All (λ posting. posting.doc < limit) (take n postings.now)
        → slice_index cursors.old k
        + times (slice_index start.now (first + k)) (take n postings.now)
        ≤ base + length entries.old }
    requires small { base + length entries.old < 2 ^ 32 }
    ensures passed { IsPassed limit postings.now result }
    ensures moved { AreMoved
        (λ k. times (slice_index start.now (first + k)) (take result postings.now))
        cursors.old cursors.new }
    ensures written { AreWritten base term cursors.old cursors.new entries.old entries.new }
{
    for passed in 0..postings.len() {
        let document = postings[passed].doc;
        if limit <= document {
            return passed;
        }
        let at = offset_in(start.new_of(document), first);
        if at < cursors.len() {
            let cursor = cursors[at];
            entries[(cursor - base) as usize] = term;
            cursors[at] = cursor + 1;
        }
    }
    postings.len()
}

/// The same of the documents of a band, in a list that has passed the documents before it, if it has
/// enough postings. Gives how many postings it has passed then.
fn write_list(
    postings: &[Posting],
    term: u32,
    min_df: u32,
    start: &Permutation,
    first: u32,
    base: u32,
    cursors: &mut [u32],
    entries: &mut [u32],
    band: Band,
    passed: u32,
) -> u32
    requires start { IsStart start.now }
    requires rising { IsPostings (length start.now) postings.now }
    requires within { first + length cursors.old ≤ length start.now }
    requires few { length postings.now < 2 ^ 32 }
    requires low { All (λ cursor. base ≤ cursor) cursors.old }
    requires high { (k : ℕ) → k < length cursors.old
        → slice_index cursors.old k
        + band_times band min_df (slice_index start.now (first + k)) postings.now
        ≤ base + length entries.old }
    requires small { base + length entries.old < 2 ^ 32 }
    requires order { band.from ≤ band.limit }
    requires before { min_df ≤ length postings.now → IsPassed band.from postings.now passed }
    ensures passed { min_df ≤ length postings.now → IsPassed band.limit postings.now result }
    ensures moved { AreMoved
        (λ k. band_times band min_df (slice_index start.now (first + k)) postings.now)
        cursors.old cursors.new }
    ensures written { AreWritten base term cursors.old cursors.new entries.old entries.new }
{
    if min_df as usize <= postings.len() {
        let rest = &postings[passed as usize..];
        let limit = band.limit;
        passed + write_postings(rest, limit, term, start, first, base, cursors, entries) as u32
    } else {
        passed
    }
}

/// Writes what a band of documents has in the rows of a block, and leaves each cursor behind it.
fn fill_band(
    index: &Index,
    min_df: u32,
    start: &Permutation,
    first: u32,
    base: u32,
    cursors: &mut [u32],
    entries: &mut [u32],
    band: Band,
    table: &mut [u32],
)
    requires documents { length start.now ≡ length index.now.documents }
    requires within { first + length cursors.old ≤ length start.now }
    requires order { band.from ≤ band.limit }
    requires before { ArePassed min_df band.from index.now.lists table.old }
    requires begun { AreBegun base
        (rows_of min_df index.now.lists (block start.now first (length cursors.old)))
        (rows_below band.from min_df index.now.lists
        (block start.now first (length cursors.old)))
        cursors.old entries.old }
    ensures passed { ArePassed min_df band.limit index.now.lists table.new }
    ensures begun { AreBegun base
        (rows_of min_df index.now.lists (block start.now first (length cursors.old)))
        (rows_below band.limit min_df index.now.lists
        (block start.now first (length cursors.old)))
        cursors.new entries.new }
{
    index.is_sound();
    start.is_sound();
    numbers_undo_the_order();
    for list in 0..index.lists() {
        let postings = index.postings(list);
        let passed = table[list as usize];
        let now = write_list(
            postings, list, min_df, start, first, base, cursors, entries, band, passed,
        );
        table[list as usize] = now;
    }
}

/// Writes the rows of a block, whose cursors stand where they begin, and leaves each cursor where
/// its row ends.
fn fill_block(
    index: &Index,
    min_df: u32,
    start: &Permutation,
    first: u32,
    base: u32,
    cursors: &mut [u32],
    entries: &mut [u32],
    width: u32,
    table: &mut [u32],
)
    requires documents { length start.now ≡ length index.now.documents }
    requires within { first + length cursors.old ≤ length start.now }
    requires ready { IsReady base
        (rows_of min_df index.now.lists (block start.now first (length cursors.old)))
        cursors.old entries.old }
    requires some { 0 < width }
    requires lists { length table.old ≡ length index.now.lists }
    ensures filled { AreFilled base
        (rows_of min_df index.now.lists (block start.now first (length cursors.old)))
        cursors.new entries.new }
{
    let whole = band_of(start, first, cursors.len());
    pass_lists(index, min_df, whole.from, table);
    let mut from = whole.from;
    while from < whole.limit {
        let band = next_band(from, whole.limit, width);
        fill_band(
            index, min_df, start, first, base, cursors, entries, band, table,
        );
        from = band.limit;
    }
}

/// The same by so many threads, each with places of its own and a part of the
/// table.
#[cycle(filling)]
pub(crate) fn fill_rows<R: Threads + Sync>(
    rt: &R,
    index: &Index,
    min_df: u32,
    start: &Permutation,
    first: u32,
    base: u32,
    cursors: &mut [u32],
    entries: &mut [u32],
    width: u32,
    table: &mut [u32],
    workers: u32,
)
    requires documents { length start.now ≡ length index.now.documents }
    requires within { first + length cursors.old ≤ length start.now }
    requires ready { IsReady base
        (rows_of min_df index.now.lists (block start.now first (length cursors.old)))
        cursors.old entries.old }
    requires some { 0 < width }
    requires workers { 0 < workers }
    requires lists { workers * length index.now.lists ≤ length table.old }
    ensures filled { AreFilled base
        (rows_of min_df index.now.lists (block start.now first (length cursors.old)))
        cursors.new entries.new }
{
    if workers < 2 || cursors.len() < 2 {
        let (own, _) = table.split_at_mut(index.lists() as usize);
        fill_block(
            index, min_df, start, first, base, cursors, entries, width, own,
        );
        return;
    }
    start.is_sound();
    let helpers = workers / 2;
    let others = workers - helpers;
    let middle = share(cursors.len(), workers, helpers);
    let cut = cursors[middle];
    let (front, back) = cursors.split_at_mut(middle);
    let (near, far) = entries.split_at_mut((cut - base) as usize);
    let (ahead, behind) = table.split_at_mut(helpers as usize * index.lists() as usize);
    let second = first + middle as u32;
    join_mut(
        rt,
        &mut ||
            requires { IsSync R.row × (length start.now ≡ length index.now.documents)
                × (first + length front.now ≤ length start.now)
                × IsReady base
                (rows_of min_df index.now.lists (block start.now first (length front.now)))
                front.now near.now
                × (0 < width) × (0 < helpers)
                × (helpers * length index.now.lists ≤ length ahead.now) }
            ensures { AreFilled base
                (rows_of min_df index.entry.now.lists
                (block start.entry.now first (length front.entry.now)))
                front.exit.now near.exit.now }
        {
            fill_rows(
                rt, index, min_df, start, first, base, front, near, width, ahead, helpers,
            )
        },
        &mut ||
            requires { IsSync R.row × (length start.now ≡ length index.now.documents)
                × (second + length back.now ≤ length start.now)
                × IsReady cut
                (rows_of min_df index.now.lists (block start.now second (length back.now)))
                back.now far.now
                × (0 < width) × (0 < others)
                × (others * length index.now.lists ≤ length behind.now) }
            ensures { AreFilled cut
                (rows_of min_df index.entry.now.lists
                (block start.entry.now second (length back.entry.now)))
                back.exit.now far.exit.now }
        {
            fill_rows(
                rt, index, min_df, start, second, cut, back, far, width, behind, others,
            )
        },
    );
}
