//! Rare terms, the start by name, and words that are none.
use crate::rounds::{OF_SIX, Reordered, SIX_AS_IT_WAS, are_met};
use rgb_runs::{ALL_WELL, Row, SIX, SIX_REORDERED, is_met};
use std::test::Fail;
use std::thread::Threads;

const ROWS: [Reordered<'static>; 5] = [
    Reordered {
        input: SIX,
        words: "reorder in out --depth 1 --leaf 1 --min-df 4",
        output: SIX,
        printed: SIX_AS_IT_WAS,
    },
    Reordered {
        input: SIX,
        words: "reorder --min-df 3 in --depth 1 out --leaf 1",
        output: SIX_REORDERED,
        printed: OF_SIX,
    },
    Reordered {
        input: SIX_REORDERED,
        words: "reorder in out --start name --depth 0",
        output: SIX,
        printed: "documents 6 lists 2 postings 6\n\
            before gamma 10 delta 10 bytes 6\nafter gamma 12 delta 15 bytes 6\n",
    },
    Reordered {
        input: SIX_REORDERED,
        words: "reorder in out --start name --depth 1 --leaf 1",
        output: SIX_REORDERED,
        printed: "documents 6 lists 2 postings 6\nround 0 0 6 1 76672 -163200\n\
            before gamma 10 delta 10 bytes 6\nafter gamma 10 delta 10 bytes 6\n",
    },
    Reordered {
        input: SIX_REORDERED,
        words: "reorder in out --start number --depth 0",
        output: SIX_REORDERED,
        printed: "documents 6 lists 2 postings 6\n\
            before gamma 10 delta 10 bytes 6\nafter gamma 10 delta 10 bytes 6\n",
    },
];

#[test]
fn rare_terms_and_starts(rt: HostRuntime) -> Result<(), Fail> {
    assert!(rt; are_met(&rt, &ROWS)?);
    Ok(())
}

const REFUSED: [&str; 16] = [
    "reorder in",
    "reorder in out more",
    "reorder in out --depth 32",
    "reorder in out --depth=3",
    "reorder in out --depth 1 --depth 1",
    "reorder in out --depth",
    "reorder in out --rounds 101",
    "reorder in out --leaf 0",
    "reorder in out --leaf 2147483648",
    "reorder in out --workers 0",
    "reorder in out --workers 65",
    "reorder in out --step 0",
    "reorder in out --step 32",
    "reorder in out --min-df 0",
    "reorder in out --start doc",
    "reorder in out --readers 2",
];

/// Whether the words are refused with nothing done.
fn are_refused<R: Threads + Sync + AllocGlobal>(rt: &R, all: &[&str]) -> Result<bool, Fail> {
    for words in all {
        let row = Row {
            words,
            input: SIX,
            setting: ALL_WELL,
            status: 2,
            output: None,
            printed: "",
            warned: "usage\n",
        };
        if !is_met(rt, &row)? {
            return Ok(false);
        }
    }
    Ok(true)
}

#[test]
fn words_that_are_no_command(rt: HostRuntime) -> Result<(), Fail> {
    assert!(rt; are_refused(&rt, &REFUSED)?);
    Ok(())
}
