//! The start order by name.
ghost use Rattle.std.specs.Prelude.{◌≡◌, ◌<◌, ℕ, length, slice_index, IfOk};
ghost use Rattle.std.specs.Ordering.{nat_cmp, ordering_then};
ghost use Rattle.std.specs.Cmp.Lexicographic.{slice_cmp};
ghost use Rattle.forward_index.specs.Start.{IsStartByName, name_of};

use rgb_base::{Index, OrderError, OutOfMemory, Permutation};
use std::alloc::{AllocError, Global};
use std::cmp::Ordering;

/// The documents by the bytes of their names, and by their numbers where names are equal: the old
/// number at place p is that of the document there.
pub fn start_by_name(alloc: Global, index: &Index) -> Result<Permutation, OutOfMemory>
    ensures ok { IfOk result (IsStartByName index.now) }
{
    index.is_sound();
    let mut order = first_numbers(alloc, index.documents())?;
    // No two documents compare equal, so that an unstable sort has one result.
    order.sort_unstable_by(|a, b| compare(index, *a, *b));
    match Permutation::from_order(alloc, order) {
        Ok(order) => Ok(order),
        Err(OrderError::OutOfMemory) => Err(OutOfMemory),
        Err(OrderError::NotAPermutation { .. }) => unreachable!(),
    }
}

/// By name, and then by number.
fn compare(index: &Index, a: u32, b: u32) -> Ordering
    ensures same { result
        ≡ ordering_then (slice_cmp nat_cmp (name_of index.now a) (name_of index.now b))
        (nat_cmp a b) }
{
    name_at(index, a).cmp(name_at(index, b)).then(a.cmp(&b))
}

/// The name of a document, and the empty name of a number that is none's.
fn name_at(index: &Index, document: u32) -> &str
    ensures same { result.now ≡ name_of index.now document }
{
    if document < index.documents() {
        index.name(document)
    } else {
        ""
    }
}

/// The numbers below n, in order.
pub(crate) fn first_numbers(alloc: Global, n: u32) -> Result<Vec<u32>, AllocError>
    ensures len { IfOk result (λ numbers. length numbers.items ≡ n) }
    ensures each { IfOk result (λ numbers. (k : ℕ) → k < n → slice_index numbers.items k ≡ k) }
{
    (0..n).collect(alloc)
}
