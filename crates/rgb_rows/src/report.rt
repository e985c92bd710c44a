//! Rows of `report`. The costs were worked out by hand.
use rgb_runs::{ALL_WELL, ONE, Row, SIX, is_met};
use std::test::Fail;

const OF_NOTHING: &str = "documents 0 lists 0 postings 0\ngamma 0 delta 0 bytes 0\n";

const OF_ONE: &str = "documents 1 lists 1 postings 1\ngamma 1 delta 1 bytes 1\n";

const OF_SIX: &str = "documents 6 lists 2 postings 6\ngamma 12 delta 15 bytes 6\n";

/// The bytes of IN, the words, and what is printed.
const ROWS: [(&str, &str, &str); 8] = [
    ("00", "report in", OF_NOTHING),
    (ONE, "report in", OF_ONE),
    (SIX, "report in", OF_SIX),
    (SIX, "report in --workers 01", OF_SIX),
    (SIX, "report --workers 2 in", OF_SIX),
    (SIX, "report in --workers 3", OF_SIX),
    (SIX, "report in --workers 64", OF_SIX),
    (ONE, "report in --workers 64", OF_ONE),
];

fn reported<'a>(input: &'a str, words: &'a str, printed: &'a str) -> Row<'a> {
    Row {
        words,
        input,
        setting: ALL_WELL,
        status: 0,
        output: None,
        printed,
        warned: "",
    }
}

#[test]
fn costs_of_small_files(rt: HostRuntime) -> Result<(), Fail> {
    for (input, words, printed) in ROWS {
        assert!(rt; is_met(&rt, &reported(input, words, printed))?, "{words}");
    }
    Ok(())
}
