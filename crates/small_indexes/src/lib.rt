//! Small indexes that are written as texts, for the crates of rows worked out by hand.
#![tactic(auto)]

ghost use Rattle.std.specs.Prelude.{◌<◌, All, IfOk, IsTrue};
ghost use Rattle.std.specs.Bool.{OnTrue};
ghost use Rattle.std.specs.List.Sorted.{IsStrictlyIncreasing};
ghost use Rattle.rgb_base.specs.Order.{IsOrder};

use rgb_base::{DocRecord, Header, Index, Permutation, Posting, Postings, TermList, Text};
use std::alloc::{AllocError, Global};
use std::test::Fail;

/// The numbers that digits stand for, one each.
pub fn numbers_of(alloc: Global, digits: &str) -> Result<Vec<u32>, AllocError> {
    let mut numbers = Vec::with_capacity(alloc, digits.len())?;
    for digit in digits.as_bytes() {
        numbers.push(u32::from(digit.wrapping_sub(b'0')))?;
    }
    Ok(numbers)
}

/// A list of the documents with these digits, which are its term too. Its field `df` says nothing of
/// how many there are.
fn list_of(alloc: Global, documents: &str) -> Result<TermList, AllocError> {
    let mut postings = Vec::with_capacity(alloc, documents.len())?;
    for doc in numbers_of(alloc, documents)? {
        postings.push(Posting { doc, tf: 1 })?;
    }
    Ok(TermList {
        term: Text::of(String::from_str(alloc, documents)?),
        df: 7,
        cf: -8,
        postings: Postings::of(postings),
    })
}

/// The index with a list for each word of the first text, whose digits are the list's documents, and a
/// document for each word of the second, which is its name.
pub fn index_of(alloc: Global, lists: &str, names: &str) -> Result<Index, Fail> {
    let mut all = Vec::new(alloc);
    for documents in lists.split_whitespace() {
        all.push(list_of(alloc, documents)?)?;
    }
    let mut records = Vec::new(alloc);
    for name in names.split_whitespace() {
        let name = Text::of(String::from_str(alloc, name)?);
        records.push(DocRecord { name, length: 1 })?;
    }
    let header = Header {
        version: 1,
        total_lists: 4,
        total_docs: 9,
        total_terms: 5,
        average_bits: 9,
        description: Text::of(String::from_str(alloc, "by hand")?),
    };
    Ok(Index::from_parts(alloc, header, all, records)?)
}

/// Whether the numbers strictly rise.
pub fn rise(numbers: &[u32]) -> bool
    ensures { OnTrue result (IsStrictlyIncreasing numbers.now) }
{
    for k in 1..numbers.len() {
        if numbers[k - 1] >= numbers[k] {
            return false;
        }
    }
    true
}

/// Whether the numbers are below a limit.
pub fn are_below(numbers: &[u32], limit: u32) -> bool
    ensures { OnTrue result (All (λ number. number < limit) numbers.now) }
{
    for number in numbers {
        if *number >= limit {
            return false;
        }
    }
    true
}

/// The order of the documents with these digits.
pub fn order_of(alloc: Global, digits: &str) -> Result<Permutation, Fail> {
    let mut numbers = numbers_of(alloc, digits)?;
    numbers.truncate(64);
    Ok(Permutation::from_order(alloc, numbers)?)
}

/// Whether there are fewer than 64 numbers, each below their number and once.
pub fn is_order(alloc: Global, numbers: &[u32]) -> Result<bool, Fail>
    ensures { IfOk result (λ is. IsTrue is → IsOrder numbers.now) }
{
    if 64 <= numbers.len() {
        return Ok(false);
    }
    let order = Permutation::from_order(alloc, numbers.to_vec(alloc)?)?;
    order.is_sound();
    Ok(true)
}
