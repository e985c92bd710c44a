//! Whole recursions, by several numbers of threads and in slabs of several sizes.
ghost use Rattle.bisection.specs.Progress.{AreOptions};

use crate::told::{options_of, told};
use bisection::{Options, reorder};
use forward_index::Forward;
use rgb_base::NoPace;
use small_indexes::{index_of, order_of};
use std::alloc::Global;
use std::test::Fail;
use std::thread::Threads;

/// An index with its documents in a start order, and what the recursion to a depth leaves.
#[derive(Clone, Copy)]
struct Recursion<'a> {
    lists: &'a str,
    names: &'a str,
    start: &'a str,
    depth: u32,
    leaf: u32,
    told: &'a str,
}

/// By how many threads, and how many levels are a slab.
#[derive(Clone, Copy)]
struct Share {
    workers: u32,
    step: u32,
}

/// By one thread, by several and by the most, in slabs of one level, of more and of all.
const SHARES: [Share; 5] = [
    Share {
        workers: 1,
        step: 4,
    },
    Share {
        workers: 1,
        step: 1,
    },
    Share {
        workers: 2,
        step: 1,
    },
    Share {
        workers: 3,
        step: 31,
    },
    Share {
        workers: 64,
        step: 2,
    },
];

const SIX: &str = "a b c d e f";

const TWELVE: &str = "a b c d e f g h i j k l";

const KEPT: [Recursion<'static>; 5] = [
    Recursion {
        lists: "013 245",
        names: SIX,
        start: "012345",
        depth: 1,
        leaf: 1,
        told: "0 1 3 2 4 5 / 0 0 6 1 76672 -163200 ",
    },
    // Both cells of three are refused.
    Recursion {
        lists: "013 245",
        names: SIX,
        start: "012345",
        depth: 31,
        leaf: 1,
        told: "0 1 3 2 4 5 / 0 0 6 1 76672 -163200 ",
    },
    Recursion {
        lists: "013 24",
        names: "a b c d e",
        start: "01234",
        depth: 1,
        leaf: 4,
        told: "0 1 3 2 4 / 0 0 5 1 38336 -158272 ",
    },
    Recursion {
        lists: "02 13 012 123",
        names: "a b c d",
        start: "0123",
        depth: 1,
        leaf: 3,
        told: "0 2 1 3 / 0 0 4 1 -153344 -306688 ",
    },
    // The whole is still, and its first half goes as the whole of six documents does.
    Recursion {
        lists: "013 245",
        names: TWELVE,
        start: "0123456789:;",
        depth: 3,
        leaf: 1,
        told: "0 1 3 2 4 5 6 7 8 9 10 11 / 1 0 6 1 76672 -163200 ",
    },
];

const MORE: [Recursion<'static>; 5] = [
    // The second half goes so, and begins behind the first.
    Recursion {
        lists: "679 8:;",
        names: TWELVE,
        start: "0123456789:;",
        depth: 2,
        leaf: 1,
        told: "0 1 2 3 4 5 6 7 9 8 10 11 / 1 6 6 1 76672 -163200 ",
    },
    // The start order stands for the numbers.
    Recursion {
        lists: "245 013",
        names: SIX,
        start: "543210",
        depth: 2,
        leaf: 1,
        told: "5 4 2 3 1 0 / 0 0 6 1 76672 -163200 ",
    },
    Recursion {
        lists: "013 245",
        names: SIX,
        start: "012345",
        depth: 0,
        leaf: 1,
        told: "0 1 2 3 4 5 ",
    },
    // A cell of as many documents as a leaf has isn't halved.
    Recursion {
        lists: "013 245",
        names: SIX,
        start: "012345",
        depth: 3,
        leaf: 6,
        told: "0 1 2 3 4 5 ",
    },
    Recursion {
        lists: "",
        names: "",
        start: "",
        depth: 3,
        leaf: 1,
        told: "",
    },
];

/// What the recursion by these options leaves, as a text.
fn told_by<R: Threads + Sync>(
    rt: &R,
    alloc: Global,
    forward: &Forward,
    options: Options,
) -> Result<String, Fail>
    requires { AreOptions options }
{
    let (numbering, trace) = reorder(rt, alloc, forward, options, &NoPace)?;
    told(alloc, &numbering, trace.as_slice())
}

/// Whether the recursion by these shares leaves the row's text.
fn is_left<R: Threads + Sync>(
    rt: &R,
    alloc: Global,
    forward: &Forward,
    row: &Recursion<'_>,
    share: Share,
) -> Result<bool, Fail> {
    let Some(options) = options_of(row.depth, row.leaf, share.workers, share.step) else {
        return Ok(false);
    };
    Ok(told_by(rt, alloc, forward, options)?.as_str() == row.told)
}

/// Whether the recursion by each share leaves the row's text.
fn are_left<R: Threads + Sync>(
    rt: &R,
    alloc: Global,
    forward: &Forward,
    row: &Recursion<'_>,
    shares: &[Share],
) -> Result<bool, Fail> {
    for share in shares {
        if !is_left(rt, alloc, forward, row, *share)? {
            return Ok(false);
        }
    }
    Ok(true)
}

/// The forward index over the row's start order, where it has as many documents as the index.
fn forward_of<R: Threads + Sync>(
    rt: &R,
    alloc: Global,
    row: &Recursion<'_>,
) -> Result<Option<Forward>, Fail> {
    let index = index_of(alloc, row.lists, row.names)?;
    let start = order_of(alloc, row.start)?;
    if start.len() != index.documents() {
        return Ok(None);
    }
    Ok(Some(Forward::build_from(rt, alloc, &index, 1, &start, 1)?))
}

/// Whether each recursion leaves its row's text.
fn is_met<R: Threads + Sync>(rt: &R, alloc: Global, row: &Recursion<'_>) -> Result<bool, Fail> {
    let Some(forward) = forward_of(rt, alloc, row)? else {
        return Ok(false);
    };
    are_left(rt, alloc, &forward, row, &SHARES)
}

/// Whether all rows are met.
fn are_met<R: Threads + Sync>(rt: &R, alloc: Global, rows: &[Recursion<'_>]) -> Result<bool, Fail> {
    for row in rows {
        if !is_met(rt, alloc, row)? {
            return Ok(false);
        }
    }
    Ok(true)
}

#[test]
fn recursions_with_a_kept_round(rt: HostRuntime) -> Result<(), Fail> {
    assert!(rt; are_met(&rt, rt.alloc(), &KEPT)?);
    Ok(())
}

#[test]
fn other_recursions(rt: HostRuntime) -> Result<(), Fail> {
    assert!(rt; are_met(&rt, rt.alloc(), &MORE)?);
    Ok(())
}
