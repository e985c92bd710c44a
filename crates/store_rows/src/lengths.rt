//! Block stores of lists that end at a block's end, before it and behind it, and of wide gaps.
use crate::searches::{Search, from_the_start};
use postings_rewrite::{BlockStore, Place, PostingStore};
use rgb_base::{DocRecord, Header, Index, Posting, Postings, TermList, Text};
use std::alloc::{AllocError, Global};
use std::test::Fail;

/// How many documents there are: 17 bits, so that a gap may take three bytes.
const DOCUMENTS: u32 = 70000;

/// Numbers of entries around the ends of blocks of 128.
const LENGTHS: [u32; 6] = [127, 128, 129, 256, 257, 385];

/// A list that has each document of a step, so many of them.
fn steps(alloc: Global, step: u32, len: u32) -> Result<TermList, AllocError> {
    let mut postings = Vec::new(alloc);
    for number in 0..len {
        postings.push(Posting {
            doc: number.saturating_mul(step),
            tf: 1,
        })?;
    }
    Ok(TermList {
        term: Text::of(String::from_str(alloc, "step")?),
        df: 1,
        cf: 1,
        postings: Postings::of(postings),
    })
}

/// An index of that list.
fn index_of_steps(alloc: Global, step: u32, len: u32) -> Result<Index, Fail> {
    let mut lists = Vec::new(alloc);
    lists.push(steps(alloc, step, len)?)?;
    let mut documents = Vec::new(alloc);
    for _ in 0..DOCUMENTS {
        let name = Text::of(String::from_str(alloc, "")?);
        documents.push(DocRecord { name, length: 1 })?;
    }
    let header = Header {
        version: 1,
        total_lists: 1,
        total_docs: 1,
        total_terms: 1,
        average_bits: 1,
        description: Text::of(String::from_str(alloc, "steps")?),
    };
    Ok(Index::from_parts(alloc, header, lists, documents)?)
}

/// The first entry that is at least the target, in a list of each document of a step.
fn first_step(step: u32, len: u32, target: u32) -> Option<u32> {
    for number in 0..len {
        let doc = number.saturating_mul(step);
        if doc >= target {
            return Some(doc);
        }
    }
    None
}

/// Whether a search from the start finds each entry of the first list, and what is next to it.
fn finds_steps<S: PostingStore>(store: &S, step: u32, len: u32) -> bool {
    if store.lists() == 0 {
        return false;
    }
    for number in 0..len.saturating_add(1) {
        let doc = number.saturating_mul(step);
        for target in [doc.saturating_sub(1), doc, doc.saturating_add(1)] {
            let mut place = Place::start();
            if store.next_geq(0, &mut place, target) != first_step(step, len, target) {
                return false;
            }
        }
    }
    store.len(0) == len
}

/// Whether a block store of such a list finds its entries.
fn store_finds_steps(alloc: Global, step: u32, len: u32) -> Result<bool, Fail> {
    let index = index_of_steps(alloc, step, len)?;
    let store = BlockStore::new(alloc, &index)?;
    Ok(finds_steps(&store, step, len))
}

#[test]
fn lists_end_around_the_ends_of_blocks(rt: HostRuntime) -> Result<(), Fail> {
    for len in LENGTHS {
        assert!(rt; store_finds_steps(rt.alloc(), 1, len)?);
        assert!(rt; store_finds_steps(rt.alloc(), 181, len)?);
    }
    Ok(())
}

/// Targets in a list of the documents 0, 16500, 33000, 49500 and 66000.
const WIDE: [Search; 6] = [
    (0, Some(0)),
    (1, Some(16500)),
    (16501, Some(33000)),
    (49500, Some(49500)),
    (66000, Some(66000)),
    (66001, None),
];

#[test]
fn gaps_take_three_bytes(rt: HostRuntime) -> Result<(), Fail> {
    let store = BlockStore::new(rt.alloc(), &index_of_steps(rt.alloc(), 16500, 5)?)?;
    assert!(rt; from_the_start(&store, 0, &WIDE));
    Ok(())
}
