//! Halvings by hand, with `lg(2) = 65536`, `lg(3) = 103872`, `lg(4) = 131072`, `lg(6) = 169408`.
ghost use Rattle.std.specs.Prelude.{◌<◌, ◌≤◌, length, All};
ghost use Rattle.std.specs.List.Sorted.{IsStrictlyIncreasing};

use crate::given::forward_of;
use degrees::Degrees;
use exchange::{Ground, Kept, KeptList, Scratch, halve};
use fixed_log::LogTable;
use forward_index::Forward;
use small_indexes::{are_below, numbers_of, rise};
use std::alloc::Global;
use std::test::Fail;
use std::thread::Threads;

/// A cell of an index, how many rounds are made at most, and what its halving leaves.
#[derive(Clone, Copy)]
struct Halving<'a> {
    lists: &'a str,
    cell: &'a str,
    rounds: u32,
    left: &'a str,
    /// The costs before and after each kept round, and its pairs.
    kept: &'a str,
}

/// Names of twelve documents.
const NAMES: &str = "d d d d d d d d d d d d";

/// Halves a cell of up to sixteen documents by so many threads, and gives its kept rounds.
fn kept_of<R: Threads + Sync>(
    rt: &R,
    alloc: Global,
    forward: &Forward,
    docs: &mut [u32],
    rounds: u32,
    workers: u32,
) -> Result<KeptList, Fail>
    requires documents { length forward.now.rows < 16 }
    requires some { 2 ≤ length docs.old }
    requires few { length docs.old ≤ 16 }
    requires rising { IsStrictlyIncreasing docs.old }
    requires below { All (λ doc. doc < length forward.now.rows) docs.old }
{
    forward.is_sound();
    let logs = LogTable::new(alloc, 16)?;
    let mut scratch = Scratch::new(alloc, 16)?;
    let mut degrees = Degrees::new(alloc, forward.terms())?;
    let mut kept = KeptList::of(Vec::new(alloc));
    let ground = Ground {
        forward,
        logs: &logs,
        workers,
    };
    halve(
        rt,
        alloc,
        &ground,
        &mut degrees,
        docs,
        rounds,
        &mut scratch,
        &mut kept,
    )?;
    Ok(kept)
}

/// The same, or nothing where there are too few or too many documents, or the places don't rise or
/// aren't below the number of documents.
pub(crate) fn halved<R: Threads + Sync>(
    rt: &R,
    alloc: Global,
    forward: &Forward,
    docs: &mut [u32],
    rounds: u32,
    workers: u32,
) -> Result<Option<KeptList>, Fail> {
    if 16 <= forward.docs() || docs.len() < 2 || 16 < docs.len() {
        return Ok(None);
    }
    if !rise(docs) || !are_below(docs, forward.docs()) {
        return Ok(None);
    }
    Ok(Some(kept_of(rt, alloc, forward, docs, rounds, workers)?))
}

/// Kept rounds as a text.
fn told(alloc: Global, kept: &[Kept]) -> Result<String, Fail> {
    let mut text = String::new(alloc);
    for round in kept {
        let before = round.before;
        let after = round.after;
        let pairs = round.pairs;
        text.push_str(&format!(in alloc; "{before} {after} {pairs}\n")?)?;
    }
    Ok(text)
}

/// What a halving keeps, as a text.
fn told_of<R: Threads + Sync>(
    rt: &R,
    alloc: Global,
    forward: &Forward,
    docs: &mut [u32],
    rounds: u32,
    workers: u32,
) -> Result<String, Fail> {
    match halved(rt, alloc, forward, docs, rounds, workers)? {
        Some(kept) => told(alloc, kept.as_slice()),
        None => Ok(String::from_str(alloc, "none")?),
    }
}

/// Whether the halving by so many threads leaves what it has to leave.
fn is_left<R: Threads + Sync>(
    rt: &R,
    alloc: Global,
    forward: &Forward,
    row: &Halving<'_>,
    workers: u32,
) -> Result<bool, Fail> {
    let mut docs = numbers_of(alloc, row.cell)?;
    let kept = told_of(rt, alloc, forward, &mut docs, row.rounds, workers)?;
    let left = numbers_of(alloc, row.left)?;
    Ok(docs.as_slice() == left.as_slice() && kept.as_str() == row.kept)
}

/// Whether the row is met, by one thread and by three.
fn is_met<R: Threads + Sync>(rt: &R, alloc: Global, row: &Halving<'_>) -> Result<bool, Fail> {
    let forward = forward_of(rt, alloc, row.lists, NAMES)?;
    if !is_left(rt, alloc, &forward, row, 1)? {
        return Ok(false);
    }
    is_left(rt, alloc, &forward, row, 3)
}

/// Whether all rows are met.
fn are_met<R: Threads + Sync>(rt: &R, alloc: Global, rows: &[Halving<'_>]) -> Result<bool, Fail> {
    for row in rows {
        if !is_met(rt, alloc, row)? {
            return Ok(false);
        }
    }
    Ok(true)
}

/// The first list's documents come to stand together.
const KEPT: [Halving<'static>; 4] = [
    Halving {
        lists: "013 245",
        cell: "012345",
        rounds: 20,
        left: "013245",
        kept: "76672 -163200 1\n",
    },
    Halving {
        lists: "013 245",
        cell: "012345",
        rounds: 1,
        left: "013245",
        kept: "76672 -163200 1\n",
    },
    // The exchange of both pairs costs as much as before, and that of one pair less.
    Halving {
        lists: "013 24",
        cell: "01234",
        rounds: 20,
        left: "01324",
        kept: "38336 -158272 1\n",
    },
    // After the kept round one pair gains something, and its exchange costs more.
    Halving {
        lists: "02 13 012 123",
        cell: "0123",
        rounds: 20,
        left: "0213",
        kept: "-153344 -306688 1\n",
    },
];

/// Nothing is exchanged.
const LEFT: [Halving<'static>; 8] = [
    Halving {
        lists: "013 245",
        cell: "012345",
        rounds: 0,
        left: "012345",
        kept: "",
    },
    // The exchange of the only pair costs as much as before.
    Halving {
        lists: "013 245",
        cell: "013",
        rounds: 20,
        left: "013",
        kept: "",
    },
    Halving {
        lists: "013 245",
        cell: "245",
        rounds: 20,
        left: "245",
        kept: "",
    },
    // All gains are equal.
    Halving {
        lists: "02 13",
        cell: "0123",
        rounds: 20,
        left: "0123",
        kept: "",
    },
    // The second half has no term: no pair gains anything.
    Halving {
        lists: "013 245",
        cell: "0123456789:;",
        rounds: 20,
        left: "0123456789:;",
        kept: "",
    },
    Halving {
        lists: "013 245",
        cell: "6789:;",
        rounds: 20,
        left: "6789:;",
        kept: "",
    },
    // One document in each half.
    Halving {
        lists: "013 245",
        cell: "02",
        rounds: 20,
        left: "02",
        kept: "",
    },
    Halving {
        lists: "013 245",
        cell: "01",
        rounds: 20,
        left: "01",
        kept: "",
    },
];

#[test]
fn kept_rounds(rt: HostRuntime) -> Result<(), Fail> {
    assert!(rt; are_met(&rt, rt.alloc(), &KEPT)?);
    Ok(())
}

#[test]
fn halves_that_stay(rt: HostRuntime) -> Result<(), Fail> {
    assert!(rt; are_met(&rt, rt.alloc(), &LEFT)?);
    Ok(())
}
