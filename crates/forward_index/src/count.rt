//! How many entries the row of each place gets.
ghost use Rattle.std.specs.Prelude.{◌≡◌, ◌+◌, ◌*◌, ◌<◌, ◌≤◌, ◌^◌, ℕ, length, map, take, All, slice_index};
ghost use Rattle.std.specs.Thread.{IsSync};
ghost use Rattle.rgb_base.specs.Parts.{IsPostings};
ghost use Rattle.forward_index.specs.Rows.{times, rows_of, block, IsStart, AreMoved};
ghost use Rattle.forward_index.specs.Bands.{IsPassed, ArePassed, band_times, rows_below};

use crate::bands::{Band, band_of, next_band, pass_lists};
use rayon::join_mut;
use rgb_base::laws::numbers_undo_the_order;
use rgb_base::{Index, Permutation, Posting};
use std::thread::Threads;

/// How far a place stands behind the first one of a block, and a number that is too large where it
/// stands before it.
#[inline]
pub(crate) fn offset_in(place: u32, first: u32) -> usize
    ensures behind { first ≤ place → first + result ≡ place }
    ensures before { place < first → 2 ^ 32 ≤ result }
{
    (place as usize).wrapping_sub(first as usize)
}

/// The part of `len` places for this many of the workers: less than all, and an even share.
pub(crate) fn share(len: usize, workers: u32, helpers: u32) -> usize
    requires some { 0 < len }
    requires fewer { helpers < workers }
    ensures less { result < len }
{
    len / workers as usize * helpers as usize
}

/// Adds the postings of each document of a block to its number, up to the first one of a document
/// that isn't below the limit: `counts[k]` is that of the document at the k-th place from the first
/// one on. Gives how many postings those are.
fn count_postings(
    postings: &[Posting],
    limit: u32,
    start: &Permutation,
    first: u32,
    counts: &mut [u32],
) -> usize
    requires start { IsStart start.now }
    requires rising { IsPostings (length start.now) postings.now }
    requires within { first + length counts.old ≤ length start.now }
    requires few { (k n : ℕ) → k < length counts.old
        → All (λ posting. posting.doc < limit) (take n postings.now)
        → slice_index counts.old k
        + times (slice_index start.now (first + k)) (take n postings.now) < 2 ^ 32 }
    ensures passed { IsPassed limit postings.now result }
    ensures counted { AreMoved
        (λ k. times (slice_index start.now (first + k)) (take result postings.now))
        counts.old counts.new }
{
    for passed in 0..postings.len() {
        let document = postings[passed].doc;
        if limit <= document {
            return passed;
        }
        let at = offset_in(start.new_of(document), first);
        if at < counts.len() {
            counts[at] += 1;
        }
    }
    postings.len()
}

/// The same of the documents of a band, in a list that has passed the documents before it, if it has
/// enough postings. Gives how many postings it has passed then.
fn count_list(
    postings: &[Posting],
    min_df: u32,
    start: &Permutation,
    first: u32,
    counts: &mut [u32],
    band: Band,
    passed: u32,
) -> u32
    requires start { IsStart start.now }
    requires rising { IsPostings (length start.now) postings.now }
    requires within { first + length counts.old ≤ length start.now }
    requires small { length postings.now < 2 ^ 32 }
    requires few { (k : ℕ) → k < length counts.old
        → slice_index counts.old k
        + band_times band min_df (slice_index start.now (first + k)) postings.now < 2 ^ 32 }
    requires order { band.from ≤ band.limit }
    requires before { min_df ≤ length postings.now → IsPassed band.from postings.now passed }
    ensures passed { min_df ≤ length postings.now → IsPassed band.limit postings.now result }
    ensures counted { AreMoved
        (λ k. band_times band min_df (slice_index start.now (first + k)) postings.now)
        counts.old counts.new }
{
    if min_df as usize <= postings.len() {
        let rest = &postings[passed as usize..];
        passed + count_postings(rest, band.limit, start, first, counts) as u32
    } else {
        passed
    }
}

/// The lengths of the rows of a block after a band of documents, in place of those before it.
fn count_band(
    index: &Index,
    min_df: u32,
    start: &Permutation,
    first: u32,
    counts: &mut [u32],
    band: Band,
    table: &mut [u32],
)
    requires documents { length start.now ≡ length index.now.documents }
    requires within { first + length counts.old ≤ length start.now }
    requires order { band.from ≤ band.limit }
    requires before { ArePassed min_df band.from index.now.lists table.old }
    requires counts { counts.old ≡ map (λ row. length row) (rows_below
        band.from min_df index.now.lists (block start.now first (length counts.old))) }
    ensures passed { ArePassed min_df band.limit index.now.lists table.new }
    ensures same { counts.new ≡ map (λ row. length row) (rows_below
        band.limit min_df index.now.lists (block start.now first (length counts.old))) }
{
    index.is_sound();
    start.is_sound();
    numbers_undo_the_order();
    for list in 0..index.lists() {
        let postings = index.postings(list);
        let passed = table[list as usize];
        let now = count_list(postings, min_df, start, first, counts, band, passed);
        table[list as usize] = now;
    }
}

/// The lengths of the rows of a block, in place of noughts.
fn count_block(
    index: &Index,
    min_df: u32,
    start: &Permutation,
    first: u32,
    counts: &mut [u32],
    width: u32,
    table: &mut [u32],
)
    requires documents { length start.now ≡ length index.now.documents }
    requires within { first + length counts.old ≤ length start.now }
    requires noughts { All (λ count. count ≡ 0) counts.old }
    requires some { 0 < width }
    requires lists { length table.old ≡ length index.now.lists }
    ensures same { counts.new ≡ map (λ row. length row)
        (rows_of min_df index.now.lists (block start.now first (length counts.old))) }
{
    let whole = band_of(start, first, counts.len());
    pass_lists(index, min_df, whole.from, table);
    let mut from = whole.from;
    while from < whole.limit {
        let band = next_band(from, whole.limit, width);
        count_band(index, min_df, start, first, counts, band, table);
        from = band.limit;
    }
}

/// The same by so many threads, each with places of its own and a part of the table.
#[cycle(counting)]
pub(crate) fn count_rows<R: Threads + Sync>(
    rt: &R,
    index: &Index,
    min_df: u32,
    start: &Permutation,
    first: u32,
    counts: &mut [u32],
    width: u32,
    table: &mut [u32],
    workers: u32,
)
    requires documents { length start.now ≡ length index.now.documents }
    requires within { first + length counts.old ≤ length start.now }
    requires noughts { All (λ count. count ≡ 0) counts.old }
    requires some { 0 < width }
    requires workers { 0 < workers }
    requires lists { workers * length index.now.lists ≤ length table.old }
    ensures same { counts.new ≡ map (λ row. length row)
        (rows_of min_df index.now.lists (block start.now first (length counts.old))) }
{
    if workers < 2 || counts.len() < 2 {
        let (own, _) = table.split_at_mut(index.lists() as usize);
        count_block(index, min_df, start, first, counts, width, own);
        return;
    }
    start.is_sound();
    let helpers = workers / 2;
    let others = workers - helpers;
    let middle = share(counts.len(), workers, helpers);
    let (front, back) = counts.split_at_mut(middle);
    let (near, far) = table.split_at_mut(helpers as usize * index.lists() as usize);
    let second = first + middle as u32;
    join_mut(
        rt,
        &mut ||
            requires { IsSync R.row × (length start.now ≡ length index.now.documents)
                × (first + length front.now ≤ length start.now)
                × All (λ count. count ≡ 0) front.now
                × (0 < width) × (0 < helpers)
                × (helpers * length index.now.lists ≤ length near.now) }
            ensures { front.exit.now ≡ map (λ row. length row)
                (rows_of min_df index.entry.now.lists
                (block start.entry.now first (length front.entry.now))) }
        { count_rows(rt, index, min_df, start, first, front, width, near, helpers) },
        &mut ||
            requires { IsSync R.row × (length start.now ≡ length index.now.documents)
                × (second + length back.now ≤ length start.now)
                × All (λ count. count ≡ 0) back.now
                × (0 < width) × (0 < others)
                × (others * length index.now.lists ≤ length far.now) }
            ensures { back.exit.now ≡ map (λ row. length row)
                (rows_of min_df index.entry.now.lists
                (block start.entry.now second (length back.entry.now))) }
        { count_rows(rt, index, min_df, start, second, back, width, far, others) },
    );
}
