//! Sets of documents as rising numbers.
ghost use Rattle.std.specs.Prelude.{◌↔◌, ◌<◌, ◌≤◌, length, IfOk, IsTrue, Contains};
ghost use Rattle.std.specs.List.Sorted.{IsStrictlyIncreasing};
ghost use Rattle.postings_rewrite.specs.Stores.{IsFirstFrom};
ghost use Rattle.bool_query.specs.Answers.{AreExactly};
ghost use Rattle.bool_query.specs.Scopes.{AreSifted, IsPassed};

use std::alloc::{AllocError, Global};

/// All documents.
pub fn all_documents(alloc: Global, documents: u32) -> Result<Vec<u32>, AllocError>
    ensures { IfOk result (λ ids. AreExactly (λ doc. doc < documents) ids.items) }
{
    let mut ids = Vec::with_capacity(alloc, documents as usize)?;
    for doc in 0..documents {
        ids.push(doc)?;
    }
    Ok(ids)
}

/// Of rising numbers those that are among others, or those that aren't. They stay where they stand
/// in memory.
pub fn sift(ids: Vec<u32>, others: &[u32], listed: bool) -> Vec<u32>
    requires rising { IsStrictlyIncreasing ids.items }
    requires others { IsStrictlyIncreasing others.now }
    ensures { AreSifted ids.items others.now listed result.items }
{
    let mut ids = ids;
    let mut place = 0;
    let mut kept = 0;
    for i in 0..ids.len() {
        let doc = ids[i];
        if is_next(others, &mut place, doc) == listed {
            ids[kept] = doc;
            kept += 1;
        }
    }
    ids.truncate(kept);
    ids
}

/// Whether the numbers have this one, searched from the place on, which moves along.
fn is_next(numbers: &[u32], place: &mut usize, number: u32) -> bool
    requires rising { IsStrictlyIncreasing numbers.now }
    requires passed { IsPassed numbers.now number place.old }
    ensures listed { IsTrue result ↔ Contains numbers.now number }
    ensures passed { IsPassed numbers.now number place.new }
{
    let at = first_from(numbers, *place, number);
    *place = at;
    numbers.get(at).copied() == Some(number)
}

/// The first place from one on whose number is at least the target, or the end.
fn first_from(numbers: &[u32], from: usize, target: u32) -> usize
    requires { from ≤ length numbers.now }
    ensures { IsFirstFrom numbers.now from target result }
{
    let mut place = from;
    while place < numbers.len() && numbers[place] < target {
        place += 1;
    }
    place
}

/// The numbers, in rising order and each once.
pub fn united(numbers: Vec<u32>) -> Vec<u32>
    ensures { AreExactly (Contains numbers.items) result.items }
{
    let mut ids = numbers;
    ids.sort_unstable();
    ids.dedup();
    ids
}
