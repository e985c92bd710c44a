//! Stores of an index of six documents.
use crate::searches::{Search, from_the_start, has_sizes, one_after_another};
use postings_rewrite::{BlockStore, PlainStore};
use rgb_base::Index;
use small_indexes::{index_of, order_of};
use std::alloc::Global;
use std::test::Fail;
use std::thread::Threads;

/// The first list, which has the documents 0, 1 and 3.
const FIRST: [Search; 5] = [
    (0, Some(0)),
    (1, Some(1)),
    (2, Some(3)),
    (3, Some(3)),
    (4, None),
];

/// The same where the documents 2 and 3 change places, so that it has 0, 1 and 2.
const RENUMBERED: [Search; 4] = [(0, Some(0)), (1, Some(1)), (2, Some(2)), (3, None)];

/// A search for what was given, or for less, stays where it is, and so does one at the end.
const AGAIN: [Search; 6] = [
    (1, Some(1)),
    (1, Some(1)),
    (0, Some(1)),
    (2, Some(3)),
    (4, None),
    (0, None),
];

/// Two lists of three documents each.
fn six(alloc: Global) -> Result<Index, Fail> {
    index_of(alloc, "013 245", "d0 d1 d2 d3 d4 d5")
}

/// What searches in a plain store give, where the documents have this order.
fn plain_by<R: Threads + Sync>(
    rt: &R,
    alloc: Global,
    order: &str,
    searches: &[Search],
) -> Result<bool, Fail> {
    let index = six(alloc)?;
    let by = order_of(alloc, order)?;
    if by.len() != index.documents() {
        return Ok(false);
    }
    for workers in [1, 2, 64] {
        let store = PlainStore::renumbered(rt, alloc, &index, &by, workers)?;
        if !from_the_start(&store, 0, searches) {
            return Ok(false);
        }
    }
    Ok(true)
}

/// The same in a block store.
fn blocks_by<R: Threads + Sync>(
    rt: &R,
    alloc: Global,
    order: &str,
    searches: &[Search],
) -> Result<bool, Fail> {
    let index = six(alloc)?;
    let by = order_of(alloc, order)?;
    if by.len() != index.documents() {
        return Ok(false);
    }
    for workers in [1, 2, 64] {
        let store = BlockStore::renumbered(rt, alloc, &index, &by, workers)?;
        if !from_the_start(&store, 0, searches) {
            return Ok(false);
        }
    }
    Ok(true)
}

#[test]
fn a_plain_store_has_its_sizes(rt: HostRuntime) -> Result<(), Fail> {
    let store = PlainStore::new(rt.alloc(), &six(rt.alloc())?)?;
    assert!(rt; has_sizes(&store, 2, 6, 1, 3));
    Ok(())
}

#[test]
fn a_plain_store_is_searched_from_the_start(rt: HostRuntime) -> Result<(), Fail> {
    let store = PlainStore::new(rt.alloc(), &six(rt.alloc())?)?;
    assert!(rt; from_the_start(&store, 0, &FIRST));
    Ok(())
}

#[test]
fn a_plain_store_is_searched_on(rt: HostRuntime) -> Result<(), Fail> {
    let store = PlainStore::new(rt.alloc(), &six(rt.alloc())?)?;
    assert!(rt; one_after_another(&store, 0, &AGAIN));
    Ok(())
}

#[test]
fn a_plain_store_is_renumbered(rt: HostRuntime) -> Result<(), Fail> {
    assert!(rt; plain_by(&rt, rt.alloc(), "013245", &RENUMBERED)?);
    assert!(rt; plain_by(&rt, rt.alloc(), "012345", &FIRST)?);
    Ok(())
}

#[test]
fn a_block_store_has_its_sizes(rt: HostRuntime) -> Result<(), Fail> {
    let store = BlockStore::new(rt.alloc(), &six(rt.alloc())?)?;
    assert!(rt; has_sizes(&store, 2, 6, 1, 3));
    Ok(())
}

#[test]
fn a_block_store_is_searched_from_the_start(rt: HostRuntime) -> Result<(), Fail> {
    let store = BlockStore::new(rt.alloc(), &six(rt.alloc())?)?;
    assert!(rt; from_the_start(&store, 0, &FIRST));
    Ok(())
}

#[test]
fn a_block_store_is_searched_on(rt: HostRuntime) -> Result<(), Fail> {
    let store = BlockStore::new(rt.alloc(), &six(rt.alloc())?)?;
    assert!(rt; one_after_another(&store, 0, &AGAIN));
    Ok(())
}

#[test]
fn a_block_store_is_renumbered(rt: HostRuntime) -> Result<(), Fail> {
    assert!(rt; blocks_by(&rt, rt.alloc(), "013245", &RENUMBERED)?);
    assert!(rt; blocks_by(&rt, rt.alloc(), "012345", &FIRST)?);
    Ok(())
}
