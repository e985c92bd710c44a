//! Indexes with their forward indexes and start orders.
ghost use Rattle.std.specs.Prelude.{◌<◌, ◌≤◌};

use crate::told::told;
use forward_index::{Forward, start_by_name};
use rgb_base::{Index, Permutation};
use small_indexes::{index_of, order_of};
use std::alloc::Global;
use std::test::Fail;
use std::thread::Threads;

/// An index, over which documents in which order, and the terms of at least how many postings: what
/// its forward index is.
#[derive(Clone, Copy)]
struct Build<'a> {
    lists: &'a str,
    names: &'a str,
    start: &'a str,
    min_df: u32,
    told: &'a str,
}

/// Two lists of three documents, whose terms have three postings each.
const OF_TWO_LISTS: [Build<'static>; 3] = [
    Build {
        lists: "013 245",
        names: "d0 d1 d2 d3 d4 d5",
        start: "012345",
        min_df: 1,
        told: "2 0:0 1:0 2:1 3:0 4:1 5:1",
    },
    Build {
        lists: "013 245",
        names: "d0 d1 d2 d3 d4 d5",
        start: "543210",
        min_df: 3,
        told: "2 5:1 4:1 3:0 2:1 1:0 0:0",
    },
    Build {
        lists: "013 245",
        names: "d0 d1 d2 d3 d4 d5",
        start: "012345",
        min_df: 4,
        told: "2 0 1 2 3 4 5",
    },
];

/// Four lists, of two and three documents, and documents of no list.
const OF_MORE: [Build<'static>; 3] = [
    Build {
        lists: "02 13 012 123",
        names: "d0 d1 d2 d3",
        start: "2031",
        min_df: 1,
        told: "4 2:0,2,3 0:0,2 3:1,3 1:1,2,3",
    },
    Build {
        lists: "02 13 012 123",
        names: "d0 d1 d2 d3",
        start: "2031",
        min_df: 3,
        told: "4 2:2,3 0:2 3:3 1:2,3",
    },
    Build {
        lists: "013 245",
        names: "a b c d e f g h i",
        start: "876543210",
        min_df: 0,
        told: "2 8 7 6 5:1 4:1 3:0 2:1 1:0 0:0",
    },
];

/// Halves of the documents each, and documents of no list behind them.
const OF_OTHERS: [Build<'static>; 3] = [
    Build {
        lists: "02 13",
        names: "d0 d1 d2 d3",
        start: "0123",
        min_df: 1,
        told: "2 0:0 1:1 2:0 3:1",
    },
    Build {
        lists: "013 24",
        names: "d0 d1 d2 d3 d4",
        start: "01234",
        min_df: 3,
        told: "2 0:0 1:0 2 3:0 4",
    },
    Build {
        lists: "013 245",
        names: "a b c d e f g h i j k l",
        start: "0123456789:;",
        min_df: 1,
        told: "2 0:0 1:0 2:1 3:0 4:1 5:1 6 7 8 9 10 11",
    },
];

/// Whether the forward index over a start order, made by so many threads, is this text.
fn is_told<R: Threads + Sync>(
    rt: &R,
    alloc: Global,
    index: &Index,
    start: &Permutation,
    row: &Build<'_>,
    workers: u32,
) -> Result<bool, Fail>
    requires some { 0 < workers }
    requires most { workers ≤ 64 }
{
    if start.len() != index.documents() {
        return Ok(false);
    }
    let forward = Forward::build_from(rt, alloc, index, row.min_df, start, workers)?;
    Ok(told(alloc, &forward)?.as_str() == row.told)
}

/// Whether it is by each of some numbers of threads.
fn is_met<R: Threads + Sync>(rt: &R, alloc: Global, row: &Build<'_>) -> Result<bool, Fail> {
    let index = index_of(alloc, row.lists, row.names)?;
    let start = order_of(alloc, row.start)?;
    for workers in 1..5 {
        if !is_told(rt, alloc, &index, &start, row, workers)? {
            return Ok(false);
        }
    }
    is_told(rt, alloc, &index, &start, row, 64)
}

/// Whether all rows are met.
fn are_met<R: Threads + Sync>(rt: &R, alloc: Global, rows: &[Build<'_>]) -> Result<bool, Fail> {
    for row in rows {
        if !is_met(rt, alloc, row)? {
            return Ok(false);
        }
    }
    Ok(true)
}

#[test]
fn a_row_has_the_lists_of_its_document(rt: HostRuntime) -> Result<(), Fail> {
    assert!(rt; are_met(&rt, rt.alloc(), &OF_TWO_LISTS)?);
    Ok(())
}

#[test]
fn a_place_has_the_document_of_the_start_order(rt: HostRuntime) -> Result<(), Fail> {
    assert!(rt; are_met(&rt, rt.alloc(), &OF_MORE)?);
    Ok(())
}

#[test]
fn few_and_no_lists(rt: HostRuntime) -> Result<(), Fail> {
    assert!(rt; are_met(&rt, rt.alloc(), &OF_OTHERS)?);
    Ok(())
}

/// Whether the forward index over the numbers in order is the text, by each of some numbers of threads.
fn is_built<R: Threads + Sync>(rt: &R, alloc: Global, index: &Index) -> Result<bool, Fail> {
    for workers in 1..4 {
        let forward = Forward::build(rt, alloc, index, 2, workers)?;
        if told(alloc, &forward)?.as_str() != "3 0:0 1 2:0,2 3:2" {
            return Ok(false);
        }
    }
    Ok(true)
}

#[test]
fn numbers_stand_in_order(rt: HostRuntime) -> Result<(), Fail> {
    let index = index_of(rt.alloc(), "02 1 23", "d0 d1 d2 d3")?;
    assert!(rt; is_built(&rt, rt.alloc(), &index)?);
    Ok(())
}

/// Whether the start order by name is this one.
fn is_start(alloc: Global, names: &str, start: &str) -> Result<bool, Fail> {
    let index = index_of(alloc, "013", names)?;
    let order = start_by_name(alloc, &index)?;
    let mut text = String::new(alloc);
    for place in 0..order.len() {
        text.push_str(&format!(in alloc; "{}", order.old_of(place))?)?;
    }
    Ok(text.as_str() == start)
}

#[test]
fn names_stand_by_their_bytes(rt: HostRuntime) -> Result<(), Fail> {
    assert!(rt; is_start(rt.alloc(), "b a ab a B é", "413205")?);
    Ok(())
}
