//! Rounds that are kept, and those that aren't.
use crate::files::{FIVE, FIVE_REORDERED, FOUR, FOUR_LISTS, FOUR_LISTS_REORDERED};
use rgb_runs::{ALL_WELL, ONE, Row, SIX, SIX_REORDERED, TWELVE, TWELVE_REORDERED, is_met};
use std::test::Fail;
use std::thread::Threads;

/// The bytes of IN, the options, the bytes of OUT, and what is printed.
#[derive(Clone, Copy)]
pub(crate) struct Reordered<'a> {
    pub(crate) input: &'a str,
    pub(crate) words: &'a str,
    pub(crate) output: &'a str,
    pub(crate) printed: &'a str,
}

/// Whether all rows are met.
pub(crate) fn are_met<R: Threads + Sync + AllocGlobal>(
    rt: &R,
    rows: &[Reordered<'_>],
) -> Result<bool, Fail> {
    for row in rows {
        let row = Row {
            words: row.words,
            input: row.input,
            setting: ALL_WELL,
            status: 0,
            output: Some(row.output),
            printed: row.printed,
            warned: "",
        };
        if !is_met(rt, &row)? {
            return Ok(false);
        }
    }
    Ok(true)
}

pub(crate) const OF_SIX: &str = "documents 6 lists 2 postings 6\nround 0 0 6 1 76672 -163200\n\
    before gamma 12 delta 15 bytes 6\nafter gamma 10 delta 10 bytes 6\n";

pub(crate) const SIX_AS_IT_WAS: &str = "documents 6 lists 2 postings 6\n\
    before gamma 12 delta 15 bytes 6\nafter gamma 12 delta 15 bytes 6\n";

const KEPT: [Reordered<'static>; 5] = [
    Reordered {
        input: SIX,
        words: "reorder in out --depth 1 --leaf 1",
        output: SIX_REORDERED,
        printed: OF_SIX,
    },
    // Both cells of three are refused.
    Reordered {
        input: SIX,
        words: "reorder in out --depth 2 --leaf 1",
        output: SIX_REORDERED,
        printed: OF_SIX,
    },
    // The first try costs as much as before, and the second, of one pair, is kept.
    Reordered {
        input: FIVE,
        words: "reorder in out --depth 1 --leaf 1",
        output: FIVE_REORDERED,
        printed: "documents 5 lists 2 postings 5\nround 0 0 5 1 38336 -158272\n\
            before gamma 11 delta 14 bytes 5\nafter gamma 9 delta 9 bytes 5\n",
    },
    Reordered {
        input: FOUR_LISTS,
        words: "reorder in out --depth 1 --leaf 1",
        output: FOUR_LISTS_REORDERED,
        printed: "documents 4 lists 4 postings 10\nround 0 0 4 1 -153344 -306688\n\
            before gamma 18 delta 22 bytes 10\nafter gamma 14 delta 16 bytes 10\n",
    },
    // The whole is still, and its first half goes as the whole of six documents does.
    Reordered {
        input: TWELVE,
        words: "reorder in out --depth 2 --leaf 1 --step 1",
        output: TWELVE_REORDERED,
        printed: "documents 12 lists 2 postings 6\nround 1 0 6 1 76672 -163200\n\
            before gamma 12 delta 15 bytes 6\nafter gamma 10 delta 10 bytes 6\n",
    },
];

const LEFT: [Reordered<'static>; 5] = [
    // Both pairs are exchanged, which costs as much as before: refused.
    Reordered {
        input: FOUR,
        words: "reorder in out --depth 1 --leaf 1",
        output: FOUR,
        printed: "documents 4 lists 2 postings 4\n\
            before gamma 10 delta 13 bytes 4\nafter gamma 10 delta 13 bytes 4\n",
    },
    Reordered {
        input: SIX,
        words: "reorder in out --depth 0",
        output: SIX,
        printed: SIX_AS_IT_WAS,
    },
    Reordered {
        input: SIX,
        words: "reorder in out --leaf 6",
        output: SIX,
        printed: SIX_AS_IT_WAS,
    },
    Reordered {
        input: SIX,
        words: "reorder in out --leaf 1 --rounds 0",
        output: SIX,
        printed: SIX_AS_IT_WAS,
    },
    Reordered {
        input: "00",
        words: "reorder in out",
        output: "00",
        printed: "documents 0 lists 0 postings 0\n\
            before gamma 0 delta 0 bytes 0\nafter gamma 0 delta 0 bytes 0\n",
    },
];

const BY_MANY: [Reordered<'static>; 6] = [
    Reordered {
        input: SIX,
        words: "reorder in out --depth 2 --leaf 1 --workers 1",
        output: SIX_REORDERED,
        printed: OF_SIX,
    },
    Reordered {
        input: SIX,
        words: "reorder in out --depth 2 --leaf 1 --workers 2",
        output: SIX_REORDERED,
        printed: OF_SIX,
    },
    Reordered {
        input: SIX,
        words: "reorder in out --depth 2 --leaf 1 --workers 3 --step 1",
        output: SIX_REORDERED,
        printed: OF_SIX,
    },
    Reordered {
        input: SIX,
        words: "reorder in out --depth 2 --leaf 1 --workers 64",
        output: SIX_REORDERED,
        printed: OF_SIX,
    },
    // One slab.
    Reordered {
        input: SIX,
        words: "reorder in out --depth 3 --step 31 --leaf 1",
        output: SIX_REORDERED,
        printed: OF_SIX,
    },
    Reordered {
        input: ONE,
        words: "reorder in out --workers 64",
        output: ONE,
        printed: "documents 1 lists 1 postings 1\n\
            before gamma 1 delta 1 bytes 1\nafter gamma 1 delta 1 bytes 1\n",
    },
];

#[test]
fn kept_rounds(rt: HostRuntime) -> Result<(), Fail> {
    assert!(rt; are_met(&rt, &KEPT)?);
    Ok(())
}

#[test]
fn indexes_that_stay(rt: HostRuntime) -> Result<(), Fail> {
    assert!(rt; are_met(&rt, &LEFT)?);
    Ok(())
}

#[test]
fn many_workers(rt: HostRuntime) -> Result<(), Fail> {
    assert!(rt; are_met(&rt, &BY_MANY)?);
    Ok(())
}
