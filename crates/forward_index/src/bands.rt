//! Bands of documents, by which the lists are read: the rows of a band's documents fit a cache.
ghost use Rattle.std.specs.Prelude.{◌≡◌, ◌+◌, ◌<◌, ◌≤◌, ◌^◌, ℕ, length, slice_index};
ghost use Rattle.rgb_base.specs.Parts.{IsPostings};
ghost use Rattle.forward_index.specs.Bands.{IsPassed, ArePassed};

use rgb_base::{Index, Permutation, Posting};

/// How many postings a band is to have, so that its rows and cursors fit a cache.
const BAND_POSTINGS: u64 = 1 << 18;

/// How many postings of a band are to come on each list, so that it costs little to come to a list.
const LIST_POSTINGS: u64 = 8;

/// The documents whose numbers lie from one to below another.
#[derive(Clone, Copy)]
pub(crate) struct Band {
    pub(crate) from: u32,
    pub(crate) limit: u32,
}

/// How many documents a band is to have.
pub(crate) fn band_width(index: &Index) -> u32
    ensures some { 0 < result }
{
    let documents = index.documents().max(1) as u64;
    let average = index.total_postings() as u64 / documents + 1;
    let postings = BAND_POSTINGS.max(LIST_POSTINGS * index.lists() as u64);
    (postings / average).min(documents).max(1) as u32
}

/// The least band with the documents at so many places, from the first one on.
pub(crate) fn band_of(start: &Permutation, first: u32, places: usize) -> Band
    requires within { first + places ≤ length start.now }
    ensures from { (k : ℕ) → k < places → result.from ≤ slice_index start.now (first + k) }
    ensures limit { (k : ℕ) → k < places → slice_index start.now (first + k) < result.limit }
{
    start.is_sound();
    let mut from = start.len();
    let mut limit = 0;
    for place in first..first + places as u32 {
        let document = start.old_of(place);
        from = from.min(document);
        limit = limit.max(document + 1);
    }
    Band { from, limit }
}

/// The band of so many documents from one on, or of those that are left.
pub(crate) fn next_band(from: u32, limit: u32, width: u32) -> Band
    requires left { from < limit }
    requires some { 0 < width }
    ensures from { result.from ≡ from }
    ensures some { from < result.limit }
    ensures within { result.limit ≤ limit }
{
    let left = limit - from;
    Band {
        from,
        limit: from + left.min(width),
    }
}

/// How many of the postings are of documents below the limit.
fn passed_at(postings: &[Posting], documents: u32, limit: u32) -> u32
    requires rising { IsPostings documents postings.now }
    requires few { length postings.now < 2 ^ 32 }
    ensures passed { IsPassed limit postings.now result }
{
    if limit == 0 {
        0
    } else {
        postings.partition_point(|posting| posting.doc < limit) as u32
    }
}

/// Puts the place at which the documents reach the limit in place of the number of each list.
pub(crate) fn pass_lists(index: &Index, min_df: u32, limit: u32, table: &mut [u32])
    requires lists { length table.old ≡ length index.now.lists }
    ensures passed { ArePassed min_df limit index.now.lists table.new }
{
    index.is_sound();
    for list in 0..index.lists() {
        table[list as usize] = passed_at(index.postings(list), index.documents(), limit);
    }
}
