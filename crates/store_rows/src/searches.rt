//! What searches give, over any store.
use postings_rewrite::{Place, PostingStore};

/// A target, and the entry that a search for it gives.
pub type Search = (u32, Option<u32>);

/// Whether each search gives its entry, from the start of the list on.
pub fn from_the_start<S: PostingStore>(store: &S, list: u32, searches: &[Search]) -> bool {
    if store.lists() <= list {
        return false;
    }
    for (target, wanted) in searches {
        let mut place = Place::start();
        if store.next_geq(list, &mut place, *target) != *wanted {
            return false;
        }
    }
    true
}

/// Whether each search gives its entry, from where the one before it stopped.
pub fn one_after_another<S: PostingStore>(store: &S, list: u32, searches: &[Search]) -> bool {
    if store.lists() <= list {
        return false;
    }
    let mut place = Place::start();
    for (target, wanted) in searches {
        if store.next_geq(list, &mut place, *target) != *wanted {
            return false;
        }
    }
    true
}

/// Whether the store has so many lists and documents, and so many entries in the list.
pub fn has_sizes<S: PostingStore>(
    store: &S,
    lists: u32,
    documents: u32,
    list: u32,
    len: u32,
) -> bool {
    if store.lists() != lists || store.documents() != documents || lists <= list {
        return false;
    }
    store.len(list) == len
}
