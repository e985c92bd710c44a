//! The forward index of an index, over a start order.
ghost use Rattle.std.specs.Prelude.{◌≡◌, ℕ, ◌^◌, ◌*◌, ◌<◌, ◌≤◌, length, take, sum, sum_by, slice_index, All, IfOk};
ghost use Rattle.std.specs.List.{range_with_len};
ghost use Rattle.std.specs.Thread.{IsSync};
ghost use Rattle.forward_index.specs.Forward.{IsForward, IsForwardOf};
ghost use Rattle.forward_index.specs.Rows.{rows_of, begins};

use crate::bands::band_width;
use crate::count::count_rows;
use crate::fill::fill_rows;
use crate::forward::Forward;
use rayon::join_mut;
use rgb_base::laws::numbers_undo_the_order;
use rgb_base::{Index, OutOfMemory, Permutation};
use std::alloc::{AllocError, Global};
use std::thread::Threads;

impl Forward {
    /// The forward index over the documents in the order of their numbers, with the terms of at
    /// least `min_df` postings, made by so many threads. It doesn't depend on how many.
    pub fn build<R: Threads + Sync>(
        rt: &R,
        alloc: Global,
        index: &Index,
        min_df: u32,
        workers: u32,
    ) -> Result<Forward, OutOfMemory>
        requires some { 0 < workers }
        requires most { workers ≤ 64 }
        ensures ok { IfOk result (IsForwardOf
            index.now min_df (range_with_len 0 (length index.now.documents))) }
        ensures sound { IfOk result IsForward }
    {
        index.is_sound();
        numbers_undo_the_order();
        let start = Permutation::identity(alloc, index.documents())?;
        Forward::build_from(rt, alloc, index, min_df, &start, workers)
    }

    /// The same over a start order: the document at place p is `start.old_of(p)`.
    pub fn build_from<R: Threads + Sync>(
        rt: &R,
        alloc: Global,
        index: &Index,
        min_df: u32,
        start: &Permutation,
        workers: u32,
    ) -> Result<Forward, OutOfMemory>
        requires len { length start.now ≡ length index.now.documents }
        requires some { 0 < workers }
        requires most { workers ≤ 64 }
        ensures ok { IfOk result (IsForwardOf index.now min_df start.now) }
        ensures sound { IfOk result IsForward }
    {
        index.is_sound();
        start.is_sound();
        let mut ends = vec![in alloc; 0; start.len() as usize]?;
        let width = band_width(index);
        let mut table = vec![in alloc; 0; workers as usize * index.lists() as usize]?;
        let mut entries = start_tables(
            rt, alloc, index, min_df, start, &mut ends, width, &mut table, workers,
        )?;
        fill_rows(
            rt,
            index,
            min_df,
            start,
            0,
            0,
            &mut ends,
            &mut entries,
            width,
            &mut table,
            workers,
        );
        let documents = documents_of(alloc, start)?;
        Ok(Forward::from_tables(index.lists(), ends, entries, documents))
    }
}

/// Writes where the row of each place begins, in place of noughts. Gives the room for the entries.
fn start_tables<R: Threads + Sync>(
    rt: &R,
    alloc: Global,
    index: &Index,
    min_df: u32,
    start: &Permutation,
    counts: &mut [u32],
    width: u32,
    table: &mut [u32],
    workers: u32,
) -> Result<Vec<u32>, AllocError>
    requires documents { length start.now ≡ length index.now.documents }
    requires len { length counts.old ≡ length start.now }
    requires noughts { All (λ count. count ≡ 0) counts.old }
    requires some { 0 < width }
    requires workers { 0 < workers }
    requires lists { workers * length index.now.lists ≤ length table.old }
    ensures starts { IfOk result (λ _. counts.new
        ≡ begins 0 (rows_of min_df index.now.lists start.now)) }
    ensures room { IfOk result (λ entries. length entries.items
        ≡ sum_by (λ row. length row) (rows_of min_df index.now.lists start.now)) }
{
    let expected = expected_entries(index, min_df);
    // One thread gets the room in a third of the time in which it counts, so that of two threads
    // none is spared for it.
    let (total, room) = if workers < 3 {
        let total = start_rows(rt, index, min_df, start, counts, width, table, workers);
        (total, noughts(alloc, expected))
    } else {
        start_beside(
            rt, alloc, index, min_df, start, counts, width, table, workers, expected,
        )
    };
    let mut entries = room?;
    entries.resize(total as usize, 0)?;
    Ok(entries)
}

/// Where rows begin and how many entries there are, as below, beside room for so many.
fn start_beside<R: Threads + Sync>(
    rt: &R,
    alloc: Global,
    index: &Index,
    min_df: u32,
    start: &Permutation,
    counts: &mut [u32],
    width: u32,
    table: &mut [u32],
    workers: u32,
    expected: usize,
) -> (u32, Result<Vec<u32>, AllocError>)
    requires documents { length start.now ≡ length index.now.documents }
    requires len { length counts.old ≡ length start.now }
    requires noughts { All (λ count. count ≡ 0) counts.old }
    requires some { 0 < width }
    requires workers { 1 < workers }
    requires lists { workers * length index.now.lists ≤ length table.old }
    ensures starts { counts.new ≡ begins 0 (rows_of min_df index.now.lists start.now) }
    ensures total { result.0
        ≡ sum_by (λ row. length row) (rows_of min_df index.now.lists start.now) }
{
    let others = workers - 1;
    join_mut(
        rt,
        &mut || -> u32
            requires { IsSync R.row × (length start.now ≡ length index.now.documents)
                × (length counts.now ≡ length start.now)
                × All (λ count. count ≡ 0) counts.now
                × (0 < width) × (0 < others)
                × (others * length index.now.lists ≤ length table.now) }
            ensures { (counts.exit.now
                ≡ begins 0 (rows_of min_df index.entry.now.lists start.entry.now))
                × (result ≡ sum_by (λ row. length row)
                (rows_of min_df index.entry.now.lists start.entry.now)) }
        { start_rows(rt, index, min_df, start, counts, width, table, others) },
        &mut || -> Result<Vec<u32>, AllocError> { noughts(alloc, expected) },
    )
}

/// So many noughts.
fn noughts(alloc: Global, n: usize) -> Result<Vec<u32>, AllocError>
    ensures { IfOk result (λ numbers. length numbers.items ≡ n) }
{
    vec![in alloc; 0; n]
}

/// How many entries there are going to be: the postings of the lists that have enough.
fn expected_entries(index: &Index, min_df: u32) -> usize {
    let mut entries: usize = 0;
    for list in 0..index.lists() {
        let postings = index.postings(list).len();
        if min_df as usize <= postings {
            entries = entries.saturating_add(postings);
        }
    }
    entries
}

/// Writes where the row of each place begins, in place of noughts. Gives the number of entries.
fn start_rows<R: Threads + Sync>(
    rt: &R,
    index: &Index,
    min_df: u32,
    start: &Permutation,
    counts: &mut [u32],
    width: u32,
    table: &mut [u32],
    workers: u32,
) -> u32
    requires documents { length start.now ≡ length index.now.documents }
    requires len { length counts.old ≡ length start.now }
    requires noughts { All (λ count. count ≡ 0) counts.old }
    requires some { 0 < width }
    requires workers { 0 < workers }
    requires lists { workers * length index.now.lists ≤ length table.old }
    ensures starts { counts.new ≡ begins 0 (rows_of min_df index.now.lists start.now) }
    ensures total { result
        ≡ sum_by (λ row. length row) (rows_of min_df index.now.lists start.now) }
{
    index.is_sound();
    start.is_sound();
    count_rows(rt, index, min_df, start, 0, counts, width, table, workers);
    sums_before(counts)
}

/// Puts the sum of the numbers before it in the place of each. Gives the sum of all.
pub(crate) fn sums_before(numbers: &mut [u32]) -> u32
    requires { sum numbers.old < 2 ^ 32 }
    ensures each { (k : ℕ) → k < length numbers.old
        → slice_index numbers.new k ≡ sum (take k numbers.old) }
    ensures all { result ≡ sum numbers.old }
{
    let mut next = 0;
    for number in numbers.iter_mut() {
        let before = next;
        next += *number;
        *number = before;
    }
    next
}

/// The document at each place.
fn documents_of(alloc: Global, start: &Permutation) -> Result<Vec<u32>, AllocError>
    ensures { IfOk result (λ documents. documents.items ≡ start.now) }
{
    let mut documents = Vec::with_capacity(alloc, start.len() as usize)?;
    for place in 0..start.len() {
        documents.push(start.old_of(place))?;
    }
    Ok(documents)
}
