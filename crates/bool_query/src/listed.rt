//! The documents of a store's lists.
ghost use Rattle.std.specs.Prelude.{◌≡◌, ◌↔◌, ◌<◌, length, IfOk, IsTrue, Contains};
ghost use Rattle.std.specs.List.Sorted.{IsStrictlyIncreasing};
ghost use Rattle.postings_rewrite.specs.Stores.{list_at};
ghost use Rattle.bool_query.specs.Scopes.{AreSifted, StandsBehind};

use postings_rewrite::{Place, PostingStore};
use std::alloc::{AllocError, Global};

/// The documents of a list.
pub fn documents_of<S: PostingStore>(
    alloc: Global,
    store: &S,
    list: u32,
) -> Result<Vec<u32>, AllocError>
    requires { list < length (S.stored store.now).lists }
    ensures { IfOk result (λ ids. ids.items ≡ list_at (S.stored store.now) list) }
{
    let _documents = store.documents();
    let len = store.len(list);
    let mut ids = Vec::with_capacity(alloc, len as usize)?;
    let mut place = Place::start();
    let mut least = 0;
    for _ in 0..len {
        if let Some(doc) = store.next_geq(list, &mut place, least) {
            ids.push(doc)?;
            least = doc + 1;
        }
    }
    Ok(ids)
}

/// Of rising documents those that the list has, or those that it doesn't have. They stay where they
/// stand in memory. The list is searched from place to place, so a long list costs little.
pub fn sift_listed<S: PostingStore>(ids: Vec<u32>, store: &S, list: u32, listed: bool) -> Vec<u32>
    requires list { list < length (S.stored store.now).lists }
    requires rising { IsStrictlyIncreasing ids.items }
    ensures { AreSifted ids.items (list_at (S.stored store.now) list) listed result.items }
{
    let mut ids = ids;
    let mut place = Place::start();
    let mut kept = 0;
    for i in 0..ids.len() {
        let doc = ids[i];
        if is_next(store, list, &mut place, doc) == listed {
            ids[kept] = doc;
            kept += 1;
        }
    }
    ids.truncate(kept);
    ids
}

/// Whether the list has the document, searched from the place on, which moves along.
fn is_next<S: PostingStore>(store: &S, list: u32, place: &mut Place, doc: u32) -> bool
    requires list { list < length (S.stored store.now).lists }
    requires behind { StandsBehind
        (S.stands store.now list) (list_at (S.stored store.now) list) doc place.old }
    ensures listed { IsTrue result ↔ Contains (list_at (S.stored store.now) list) doc }
    ensures behind { StandsBehind
        (S.stands store.now list) (list_at (S.stored store.now) list) doc place.new }
{
    let _documents = store.documents();
    store.next_geq(list, place, doc) == Some(doc)
}
