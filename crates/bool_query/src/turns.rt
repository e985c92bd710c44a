//! In which order the parts of a conjunction are worked out. It changes no answer, only how long it
//! takes.
ghost use Rattle.std.specs.Prelude.{◌≡◌, ℕ, ◌<◌, ◌≤◌, length, map, All, IfOk, Contains};

use crate::dictionary::Dictionary;
use crate::query::Query;
use postings_rewrite::PostingStore;
use std::alloc::{AllocError, Global};

/// When a part is worked out: terms and the like before those that are a `NOT`, and those with few
/// documents first.
#[derive(Clone, Copy, Debug, PartialEq, Eq, PartialOrd, Ord)]
struct Turn {
    is_not: bool,
    estimate: u64,
    place: usize,
}

/// The places of the parts in the order in which they are worked out.
pub fn rarest_first<S: PostingStore>(
    alloc: Global,
    parts: &[Query],
    dictionary: &Dictionary,
    store: &S,
) -> Result<Vec<usize>, AllocError>
    requires { length dictionary.now ≤ length (S.stored store.now).lists }
    ensures below { IfOk result
        (λ places. All (λ place. place < length parts.now) places.items) }
    ensures each { IfOk result
        (λ places. (place : ℕ) → place < length parts.now → Contains places.items place) }
{
    let mut turns = Vec::with_capacity(alloc, parts.len())?;
    for place in 0..parts.len() {
        turns.push(Turn {
            is_not: matches!(&parts[place], Query::Not(_)),
            estimate: estimate(&parts[place], dictionary, store),
            place,
        })?;
    }
    turns.sort_unstable();
    places_of(alloc, &turns)
}

/// The places of the parts whose turns these are.
fn places_of(alloc: Global, turns: &[Turn]) -> Result<Vec<usize>, AllocError>
    ensures { IfOk result (λ places. places.items ≡ map (λ turn. turn.place) turns.now) }
{
    turns.iter().map(|turn| turn.place).collect(alloc)
}

/// About how many documents the query means.
#[cycle(estimates)]
fn estimate<S: PostingStore>(query: &Query, dictionary: &Dictionary, store: &S) -> u64
    requires { length dictionary.now ≤ length (S.stored store.now).lists }
{
    match query {
        Query::Term(term) => match dictionary.list_of(term.as_str()) {
            Some(list) => u64::from(store.len(list)),
            None => 0,
        },
        Query::All(parts) => least_estimate(parts.as_slice(), dictionary, store),
        Query::Any(parts) => total_estimate(parts.as_slice(), dictionary, store),
        Query::Not(_) => u64::from(store.documents()),
    }
}

/// About how many documents every part means: no more than each of them.
#[cycle(estimates)]
fn least_estimate<S: PostingStore>(parts: &[Query], dictionary: &Dictionary, store: &S) -> u64
    requires { length dictionary.now ≤ length (S.stored store.now).lists }
{
    let mut least = u64::from(store.documents());
    for i in 0..parts.len() {
        least = least.min(estimate(&parts[i], dictionary, store));
    }
    least
}

/// About how many documents some part means: no more than all of them together.
#[cycle(estimates)]
fn total_estimate<S: PostingStore>(parts: &[Query], dictionary: &Dictionary, store: &S) -> u64
    requires { length dictionary.now ≤ length (S.stored store.now).lists }
{
    let mut total: u64 = 0;
    for i in 0..parts.len() {
        total = total.saturating_add(estimate(&parts[i], dictionary, store));
    }
    total
}
