//! The tests that parts pass before they become an index. Each reads its parts once.
ghost use Rattle.std.specs.Prelude.{◌≡◌, ◌+◌, ◌<◌, ◌≤◌, ◌^◌, ◌↔◌, length, All, sum_by, FitsSigned, IsTrue, IfOk, IfErr, IfNone, OnSome, MatchOption};
ghost use Rattle.std.specs.Bool.{OnTrue};
ghost use Rattle.std.specs.Int.{w32};
ghost use Rattle.rgb_base.specs.Parts.{IndexParts, terms_of, posting_count, text_size, IsPostings, AreCounted, AreOrdered, AreDifferent, AreSized, IsIndex, FitsHeader, FitsList, FitsRecord};
ghost use Rattle.rgb_base.specs.Faults.{IsFirstDisorder, IsFirstRepeat, IsPartsFault};
ghost use Rattle.rgb_base.specs.declared.error.PartsError.TheVariants.{OutOfMemory as no_memory};

use crate::error::PartsError;
use crate::parts::{DocRecord, Header, Posting, TermList};
use indexmap::IndexSet;
use std::alloc::{AllocError, Global};

/// Fewer lists than this, and fewer documents.
pub const COUNT_LIMIT: usize = 1 << 31;

/// The most bytes of text.
pub const TEXT_LIMIT: u64 = 1 << 40;

/// Whether the documents strictly rise and lie below their number. `tf` is read for the proof that
/// it lies in the range of its type.
fn rises(documents: u32, postings: &[Posting]) -> bool
    ensures ordered { IsTrue result ↔ IsPostings documents postings.now }
    ensures fits { OnTrue result (All (λ posting. FitsSigned w32 posting.tf) postings.now) }
{
    let mut least = 0;
    for posting in postings {
        let Posting { doc, tf: _tf } = *posting;
        if doc < least || documents <= doc {
            return false;
        }
        least = doc + 1;
    }
    true
}

/// Whether a list is in order. Its other fields are read for the proof that they lie in the ranges
/// of their types.
fn is_ordered(documents: u32, list: &TermList) -> bool
    ensures ordered { IsTrue result ↔ IsPostings documents list.now.postings }
    ensures fits { OnTrue result (FitsList list.now) }
{
    let _term = list.term.as_str();
    let _df = list.df;
    let _cf = list.cf;
    rises(documents, list.postings.as_slice())
}

/// The first list that isn't in order.
fn first_disorder(documents: u32, lists: &[TermList]) -> Option<u32>
    requires { length lists.now < 2 ^ 31 }
    ensures first { MatchOption result (AreOrdered documents lists.now)
        (IsFirstDisorder documents lists.now) }
    ensures fits { IfNone result (All FitsList lists.now) }
{
    for (place, list) in lists.iter().enumerate() {
        if !is_ordered(documents, list) {
            return Some(place as u32);
        }
    }
    None
}

/// The first list whose term an earlier list has.
fn first_repeat(alloc: Global, lists: &[TermList]) -> Result<Option<u32>, AllocError>
    requires { length lists.now < 2 ^ 31 }
    ensures { IfOk result
        (λ found. MatchOption found (AreDifferent (terms_of lists.now))
        (IsFirstRepeat (terms_of lists.now))) }
{
    let mut seen = IndexSet::with_capacity(alloc, lists.len())?;
    for (place, list) in lists.iter().enumerate() {
        if !seen.insert(list.term.as_str())? {
            return Ok(Some(place as u32));
        }
    }
    Ok(None)
}

/// How many postings the lists have, where a `u32` holds it.
fn total_postings(lists: &[TermList]) -> Option<u32>
    ensures { MatchOption result (2 ^ 32 ≤ posting_count lists.now)
        (λ total. total ≡ posting_count lists.now) }
{
    let mut total: u32 = 0;
    for list in lists {
        let count = u32::try_from(list.postings.as_slice().len()).ok()?;
        total = total.checked_add(count)?;
    }
    Some(total)
}

/// What is left of the room after the terms, where they fit.
fn room_after_terms(lists: &[TermList], room: u64) -> Option<u64>
    ensures { MatchOption result
        (room < sum_by (λ list. length list.term) lists.now)
        (λ left. left + sum_by (λ list. length list.term) lists.now ≡ room) }
{
    let mut left = room;
    for list in lists {
        left = left.checked_sub(list.term.as_str().len() as u64)?;
    }
    Some(left)
}

/// What is left of the room after the names, where they fit. Each length is read for the proof that
/// it lies in the range of its type.
fn room_after_names(documents: &[DocRecord], room: u64) -> Option<u64>
    ensures left { MatchOption result
        (room < sum_by (λ document. length document.name) documents.now)
        (λ left. left + sum_by (λ document. length document.name) documents.now ≡ room) }
    ensures fits { OnSome result (All FitsRecord documents.now) }
{
    let mut left = room;
    for document in documents {
        let _length = document.length;
        left = left.checked_sub(document.name.as_str().len() as u64)?;
    }
    Some(left)
}

/// Reads the header once, for the proof that its numbers lie in the ranges of their types.
pub fn header_fits(header: &Header)
    ensures { FitsHeader header.now }
{
    let _version = header.version;
    let _total_lists = header.total_lists;
    let _total_docs = header.total_docs;
    let _total_terms = header.total_terms;
    let _average_bits = header.average_bits;
    let _description = header.description.as_str();
}

/// How many postings there are, where neither they nor the bytes of text are too many.
fn size(header: &Header, lists: &[TermList], documents: &[DocRecord]) -> Option<u32>
    ensures sized { MatchOption result
        (¬ AreSized (record { header = header.now; lists = lists.now; documents = documents.now }))
        (λ total. AreSized
        (record { header = header.now; lists = lists.now; documents = documents.now })) }
    ensures total { MatchOption result (Unit {0}) (λ total. total ≡ posting_count lists.now) }
    ensures header { OnSome result (FitsHeader header.now) }
    ensures documents { OnSome result (All FitsRecord documents.now) }
{
    header_fits(header);
    let total = total_postings(lists)?;
    let room = TEXT_LIMIT.checked_sub(header.description.as_str().len() as u64)?;
    let room = room_after_terms(lists, room)?;
    let _room = room_after_names(documents, room)?;
    Some(total)
}

/// The number of postings of parts that are an index, or the first thing that is wrong with them.
pub fn check(
    alloc: Global,
    header: &Header,
    lists: &[TermList],
    documents: &[DocRecord],
) -> Result<u32, PartsError>
    ensures sound { IfOk result
        (λ total. IsIndex
        (record { header = header.now; lists = lists.now; documents = documents.now })) }
    ensures total { IfOk result (λ total. total ≡ posting_count lists.now) }
    ensures fault { IfErr result
        (IsPartsFault
        (record { header = header.now; lists = lists.now; documents = documents.now })) }
    ensures memory { IfErr result (λ e. e ≡ no_memory
        → AreCounted (record { header = header.now; lists = lists.now; documents = documents.now })
        × AreOrdered (length documents.now) lists.now) }
{
    if COUNT_LIMIT <= lists.len() || COUNT_LIMIT <= documents.len() {
        return Err(PartsError::Counts);
    }
    if let Some(list) = first_disorder(documents.len() as u32, lists) {
        return Err(PartsError::Order { list });
    }
    if let Some(list) = first_repeat(alloc, lists)? {
        return Err(PartsError::Same { list });
    }
    size(header, lists, documents).ok_or(PartsError::Size)
}
