//! Single rounds by hand.
ghost use Rattle.std.specs.Prelude.{◌<◌, ◌≤◌, length};
ghost use Rattle.rgb_base.specs.Order.{AreNumbers};

use crate::loaded::{forward_of, table_of};
use exchange::{Ground, Round, Scratch, one_round};
use fixed_log::LogTable;
use forward_index::Forward;
use small_indexes::{is_order, numbers_of};
use std::alloc::Global;
use std::test::Fail;
use std::thread::Threads;

/// An index, all its documents by the halves, and the round of these.
#[derive(Clone, Copy)]
struct OneRound<'a> {
    lists: &'a str,
    names: &'a str,
    halves: &'a str,
    round: &'a str,
    left: &'a str,
}

/// What a round answers, as a text.
fn told(alloc: Global, round: Round) -> Result<String, Fail> {
    let (word, costs) = match round {
        Round::Still => return Ok(String::from_str(alloc, "still")?),
        Round::Kept(costs) => ("kept", costs),
        Round::Refused(costs) => ("refused", costs),
    };
    let before = costs.before;
    let after = costs.after;
    let pairs = costs.pairs;
    Ok(format!(in alloc; "{word} {before} {after} {pairs}")?)
}

/// The round of the halves of these documents.
fn round_of<R: Threads + Sync>(
    rt: &R,
    alloc: Global,
    forward: &Forward,
    docs: &mut [u32],
) -> Result<Round, Fail>
    requires documents { length forward.now.rows < 16 }
    requires numbers { AreNumbers (length forward.now.rows) docs.old }
    requires some { 2 ≤ length docs.old }
    requires few { length docs.old ≤ 16 }
{
    let logs = LogTable::new(alloc, 16)?;
    let mut scratch = Scratch::new(alloc, 16)?;
    let mut table = table_of(alloc, forward, docs)?;
    let ground = Ground {
        forward,
        logs: &logs,
        workers: 2,
    };
    Ok(one_round(rt, &ground, &mut table, docs, &mut scratch))
}

/// The round of the halves of these documents as a text, where there are as many as in the index.
fn told_of<R: Threads + Sync>(
    rt: &R,
    alloc: Global,
    forward: &Forward,
    docs: &mut [u32],
) -> Result<String, Fail> {
    if !is_order(alloc, docs)? || docs.len() != forward.docs() as usize {
        return Ok(String::new(alloc));
    }
    if docs.len() < 2 || 16 <= docs.len() {
        return Ok(String::new(alloc));
    }
    let round = round_of(rt, alloc, forward, docs)?;
    told(alloc, round)
}

/// Whether the round is the row's.
fn is_met<R: Threads + Sync>(rt: &R, alloc: Global, row: &OneRound<'_>) -> Result<bool, Fail> {
    let forward = forward_of(rt, alloc, row.lists, row.names)?;
    let mut docs = numbers_of(alloc, row.halves)?;
    let round = told_of(rt, alloc, &forward, &mut docs)?;
    let left = numbers_of(alloc, row.left)?;
    Ok(docs.as_slice() == left.as_slice() && round.as_str() == row.round)
}

/// Whether all rows are met.
fn are_met<R: Threads + Sync>(rt: &R, alloc: Global, rows: &[OneRound<'_>]) -> Result<bool, Fail> {
    for row in rows {
        if !is_met(rt, alloc, row)? {
            return Ok(false);
        }
    }
    Ok(true)
}

const ROWS: [OneRound<'static>; 7] = [
    OneRound {
        lists: "013 245",
        names: "a b c d e f",
        halves: "012345",
        round: "kept 76672 -163200 1",
        left: "013245",
    },
    OneRound {
        lists: "013 245",
        names: "a b c d e f",
        halves: "013245",
        round: "still",
        left: "013245",
    },
    OneRound {
        lists: "02 13",
        names: "a b c d",
        halves: "0123",
        round: "refused 0 0 2",
        left: "0123",
    },
    OneRound {
        lists: "013 24",
        names: "a b c d e",
        halves: "01234",
        round: "kept 38336 -158272 1",
        left: "01324",
    },
    OneRound {
        lists: "013 24",
        names: "a b c d e",
        halves: "01324",
        round: "still",
        left: "01324",
    },
    OneRound {
        lists: "02 13 012 123",
        names: "a b c d",
        halves: "0123",
        round: "kept -153344 -306688 1",
        left: "0213",
    },
    OneRound {
        lists: "02 13 012 123",
        names: "a b c d",
        halves: "0213",
        round: "refused -306688 -153344 1",
        left: "0213",
    },
];

#[test]
fn rounds_by_hand(rt: HostRuntime) -> Result<(), Fail> {
    assert!(rt; are_met(&rt, rt.alloc(), &ROWS)?);
    Ok(())
}
