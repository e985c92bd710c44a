//! Rows of words that are no command.
use rgb_runs::{ALL_WELL, ONE, Row, is_met};
use std::test::Fail;

const ROWS: [&str; 16] = [
    "",
    "Copy in out",
    "copy in",
    "copy in out --depth 1",
    "copy --in out",
    "copy in --",
    "copy in out more",
    "copy in --workers 1 out",
    "report",
    "report in out",
    "report in --workers 0",
    "report in --workers 65",
    "report in --workers 1 --workers 1",
    "report in --workers",
    // What only the call that may wait does.
    "live in out queries",
    "live in out queries --readers 1",
];

fn refused(words: &str) -> Row<'_> {
    Row {
        words,
        input: ONE,
        setting: ALL_WELL,
        status: 2,
        output: None,
        printed: "",
        warned: "usage\n",
    }
}

#[test]
fn words_that_are_no_command(rt: HostRuntime) -> Result<(), Fail> {
    for words in ROWS {
        assert!(rt; is_met(&rt, &refused(words))?, "{words}");
    }
    Ok(())
}
