//! The rows of a cell side by side.
ghost use Rattle.std.specs.Prelude.{◌≡◌, ◌⊎◌, ◌+◌, ◌<◌, ◌≤◌, ◌^◌, ◌++◌, ℕ, [], length, map, slice_index, sum_by, All, Contains, IfOk, OnOk};
ghost use Rattle.std.specs.List.Sorted.{IsStrictlyIncreasing};
ghost use Rattle.forward_index.specs.Forward.{IsForward, row_at};
ghost use Rattle.forward_index.specs.Cell.{IsCellOf};
ghost use Rattle.forward_index.specs.Marks.{AreMarked, AreMarks, AreWrittenRows};

use crate::build::sums_before;
use crate::forward::Forward;
use crate::start::first_numbers;
use rgb_base::OutOfMemory;
use std::alloc::{AllocError, Global};

impl Forward {
    /// The forward index of the documents at these rising places alone: row k is that of
    /// `places[k]`. The terms that occur in it are numbered from 0 on in their old order.
    pub fn cell(&self, alloc: Global, places: &[u32]) -> Result<Forward, OutOfMemory>
        requires rising { IsStrictlyIncreasing places.now }
        requires below { All (λ place. place < length self.now.rows) places.now }
        ensures ok { IfOk result (IsCellOf self.now places.now) }
        ensures sound { IfOk result IsForward }
    {
        self.is_sound();
        let mut numbers = vec![in alloc; 0; self.terms() as usize]?;
        let total = mark_rows(self, places, &mut numbers);
        let terms = sums_before(&mut numbers);
        let mut ends = Vec::with_capacity(alloc, places.len())?;
        let mut entries = Vec::with_capacity(alloc, total as usize)?;
        write_rows(self, places, &numbers, &mut ends, &mut entries)?;
        let documents = first_numbers(alloc, places.len() as u32)?;
        Ok(Forward::from_tables(terms, ends, entries, documents))
    }
}

/// Puts a one at each term of the row.
fn mark_row(row: &[u32], marks: &mut [u32])
    requires below { All (λ term. term < length marks.old) row.now }
    ensures marked { AreMarked row.now marks.old marks.new }
{
    for term in row {
        marks[*term as usize] = 1;
    }
}

/// Puts a one at each term that occurs at the places, where noughts are. Gives how many entries the
/// rows have together.
fn mark_rows(whole: &Forward, places: &[u32], marks: &mut [u32]) -> u32
    requires rising { IsStrictlyIncreasing places.now }
    requires below { All (λ place. place < length whole.now.rows) places.now }
    requires terms { length marks.old ≡ whole.now.terms }
    requires noughts { All (λ mark. mark ≡ 0) marks.old }
    ensures marks { AreMarks whole.now.rows places.now marks.new }
    ensures total { result ≡ sum_by (λ place. length (row_at whole.now.rows place)) places.now }
{
    whole.is_sound();
    let mut total = 0;
    for place in places {
        let row = whole.terms_of(*place);
        mark_row(row, marks);
        total += row.len() as u32;
    }
    total
}

/// Writes the row with its new numbers behind the entries.
fn write_row(row: &[u32], numbers: &[u32], entries: &mut Vec<u32>) -> Result<(), AllocError>
    requires below { All (λ term. term < length numbers.now) row.now }
    ensures ok { OnOk result
        (entries.new.items ≡ entries.old.items ++ map (slice_index numbers.now) row.now) }
{
    for term in row {
        entries.push(numbers[*term as usize])?;
    }
    Ok(())
}

/// Writes the rows at the places with their new numbers, and where each ends.
fn write_rows(
    whole: &Forward,
    places: &[u32],
    numbers: &[u32],
    ends: &mut Vec<u32>,
    entries: &mut Vec<u32>,
) -> Result<(), AllocError>
    requires rising { IsStrictlyIncreasing places.now }
    requires below { All (λ place. place < length whole.now.rows) places.now }
    requires terms { length numbers.now ≡ whole.now.terms }
    requires no_ends { ends.old.items ≡ [] }
    requires no_entries { entries.old.items ≡ [] }
    ensures ok { OnOk result
        (AreWrittenRows whole.now.rows places.now numbers.now ends.new.items entries.new.items) }
{
    whole.is_sound();
    for place in places {
        write_row(whole.terms_of(*place), numbers, entries)?;
        ends.push(entries.len() as u32)?;
    }
    Ok(())
}
