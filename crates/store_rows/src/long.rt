//! Stores of a list of 300 documents: more than two blocks of 128.
use crate::searches::{Search, from_the_start};
use postings_rewrite::{BlockStore, Place, PlainStore, PostingStore};
use rgb_base::{DocRecord, Header, Index, Posting, Postings, TermList, Text};
use std::alloc::{AllocError, Global};
use std::test::Fail;

/// How many documents there are.
const DOCUMENTS: u32 = 900;

/// Targets at the last entry of the first block, behind it, and at the last entry of all.
const AT_BLOCKS: [Search; 6] = [
    (381, Some(381)),
    (382, Some(384)),
    (384, Some(384)),
    (385, Some(387)),
    (897, Some(897)),
    (898, None),
];

/// A list of the documents 0, 3, 6 up to 897.
fn multiples(alloc: Global) -> Result<TermList, AllocError> {
    let mut postings = Vec::new(alloc);
    for number in 0..300 {
        postings.push(Posting {
            doc: number * 3,
            tf: 1,
        })?;
    }
    Ok(TermList {
        term: Text::of(String::from_str(alloc, "three")?),
        df: 300,
        cf: 300,
        postings: Postings::of(postings),
    })
}

/// An index of that list.
fn long(alloc: Global) -> Result<Index, Fail> {
    let mut lists = Vec::new(alloc);
    lists.push(multiples(alloc)?)?;
    let mut documents = Vec::new(alloc);
    for _ in 0..DOCUMENTS {
        let name = Text::of(String::from_str(alloc, "d")?);
        documents.push(DocRecord { name, length: 1 })?;
    }
    let header = Header {
        version: 1,
        total_lists: 1,
        total_docs: 900,
        total_terms: 300,
        average_bits: 9,
        description: Text::of(String::from_str(alloc, "multiples of three")?),
    };
    Ok(Index::from_parts(alloc, header, lists, documents)?)
}

/// The least multiple of three that is at least the target, if it is in the list.
fn least_multiple(target: u32) -> Option<u32> {
    let rest = target % 3;
    let least = if rest == 0 {
        target
    } else {
        target.saturating_add(3 - rest)
    };
    if least < DOCUMENTS { Some(least) } else { None }
}

/// Whether a search for each target, from the start of the first list on, gives its least multiple.
fn finds_each<S: PostingStore>(store: &S) -> bool {
    if store.lists() == 0 {
        return false;
    }
    for target in 0..DOCUMENTS + 2 {
        let mut place = Place::start();
        if store.next_geq(0, &mut place, target) != least_multiple(target) {
            return false;
        }
    }
    true
}

/// The same where each search goes on where the one before stopped.
fn finds_each_in_turn<S: PostingStore>(store: &S, step: u32) -> bool {
    if store.lists() == 0 {
        return false;
    }
    let mut place = Place::start();
    for number in 0..DOCUMENTS {
        let target = number.saturating_mul(step);
        if store.next_geq(0, &mut place, target) != least_multiple(target) {
            return false;
        }
    }
    true
}

#[test]
fn a_plain_store_is_searched_at_the_blocks(rt: HostRuntime) -> Result<(), Fail> {
    let store = PlainStore::new(rt.alloc(), &long(rt.alloc())?)?;
    assert!(rt; from_the_start(&store, 0, &AT_BLOCKS));
    Ok(())
}

#[test]
fn a_plain_store_finds_each_target(rt: HostRuntime) -> Result<(), Fail> {
    let store = PlainStore::new(rt.alloc(), &long(rt.alloc())?)?;
    assert!(rt; finds_each(&store));
    Ok(())
}

#[test]
fn a_plain_store_finds_each_target_in_turn(rt: HostRuntime) -> Result<(), Fail> {
    let store = PlainStore::new(rt.alloc(), &long(rt.alloc())?)?;
    assert!(rt; finds_each_in_turn(&store, 1) && finds_each_in_turn(&store, 200));
    Ok(())
}

#[test]
fn a_block_store_is_searched_at_the_blocks(rt: HostRuntime) -> Result<(), Fail> {
    let store = BlockStore::new(rt.alloc(), &long(rt.alloc())?)?;
    assert!(rt; from_the_start(&store, 0, &AT_BLOCKS));
    Ok(())
}

#[test]
fn a_block_store_finds_each_target(rt: HostRuntime) -> Result<(), Fail> {
    let store = BlockStore::new(rt.alloc(), &long(rt.alloc())?)?;
    assert!(rt; finds_each(&store));
    Ok(())
}

#[test]
fn a_block_store_finds_each_target_in_turn(rt: HostRuntime) -> Result<(), Fail> {
    let store = BlockStore::new(rt.alloc(), &long(rt.alloc())?)?;
    assert!(rt; finds_each_in_turn(&store, 1) && finds_each_in_turn(&store, 200));
    Ok(())
}
