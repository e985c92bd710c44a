//! Generated indexes: their files, what is printed of them, and words that are refused.
use rgb_runs::{ALL_WELL, MADE_THREE, OF_MADE_THREE, ONE, Row, is_met, run};
use std::test::Fail;
use std::thread::Threads;

/// A command over `ONE`, the bytes of OUT, and what is printed.
#[derive(Clone, Copy)]
struct Made<'a> {
    words: &'a str,
    output: &'a str,
    printed: &'a str,
}

/// Whether all rows are met.
fn are_met<R: Threads + Sync + AllocGlobal>(rt: &R, rows: &[Made<'_>]) -> Result<bool, Fail> {
    for row in rows {
        let row = Row {
            words: row.words,
            input: ONE,
            setting: ALL_WELL,
            status: 0,
            output: Some(row.output),
            printed: row.printed,
            warned: "",
        };
        if !is_met(rt, &row)? {
            return Ok(false);
        }
    }
    Ok(true)
}

/// A header alone.
const MADE_NONE: &str =
    "18 08 01 39 00 00 00 00 00 00 34 40 42 0b 6d 61 64 65 20 62 79 20 72 67 62";

const OF_MADE_NONE: &str = "documents 0 lists 0 postings 0\nkept 0\n\
    before gamma 0 delta 0 bytes 0\nafter gamma 0 delta 0 bytes 0\n";

/// The bytes of three documents are those of another program.
const ROWS: [Made<'static>; 4] = [
    Made {
        words: "make 0 out",
        output: MADE_NONE,
        printed: OF_MADE_NONE,
    },
    Made {
        words: "make --number 7 0 out --workers 64",
        output: MADE_NONE,
        printed: OF_MADE_NONE,
    },
    Made {
        words: "make 3 out",
        output: MADE_THREE,
        printed: OF_MADE_THREE,
    },
    Made {
        words: "make --workers 4 --number 1 03 out",
        output: MADE_THREE,
        printed: OF_MADE_THREE,
    },
];

#[test]
fn small_indexes(rt: HostRuntime) -> Result<(), Fail> {
    assert!(rt; are_met(&rt, &ROWS)?);
    Ok(())
}

/// What is printed of two thousand documents, by another program.
const OF_MADE_MANY: &str = "documents 2000 lists 2000 postings 35236\nkept 737\n\
    before gamma 420626 delta 385021 bytes 45840\nafter gamma 225888 delta 220064 bytes 40597\n";

/// The last lines of `reorder` over them.
const MANY_REORDERED: &str =
    "before gamma 420626 delta 385021 bytes 45840\nafter gamma 225888 delta 220064 bytes 40597\n";

/// Whether both are the same bytes.
fn are_same(one: &[u8], other: &[u8]) -> bool {
    one == other
}

#[test]
fn two_thousand_documents(rt: HostRuntime) -> Result<(), Fail> {
    let (status, one) = run(&rt, "make 2000 out", b"", ALL_WELL)?;
    assert_eq!(rt; status, 0);
    assert!(rt; are_same(one.printed(), OF_MADE_MANY.as_bytes()));
    let made = one.file("out").unwrap_or(b"");
    assert_eq!(rt; made.len(), 278767);
    let (status, four) = run(&rt, "make 2000 out --workers 4", b"", ALL_WELL)?;
    assert_eq!(rt; status, 0);
    assert!(rt; are_same(four.printed(), OF_MADE_MANY.as_bytes()));
    assert!(rt; are_same(four.file("out").unwrap_or(b""), made));
    let (status, moved) = run(&rt, "reorder in out --workers 4", made, ALL_WELL)?;
    assert_eq!(rt; status, 0);
    assert!(rt; moved.printed().ends_with(MANY_REORDERED.as_bytes()));
    Ok(())
}

const REFUSED: [&str; 8] = [
    "make x out",
    "make out 3",
    "make 3",
    "make 3 out more",
    "make 1000001 out",
    "make 3 out --number 4294967296",
    "make 3 out --depth 32",
    "make 3 out --readers 2",
];

/// Whether the words are refused with nothing done.
fn are_refused<R: Threads + Sync + AllocGlobal>(rt: &R, all: &[&str]) -> Result<bool, Fail> {
    for words in all {
        let row = Row {
            words,
            input: ONE,
            setting: ALL_WELL,
            status: 2,
            output: None,
            printed: "",
            warned: "usage\n",
        };
        if !is_met(rt, &row)? {
            return Ok(false);
        }
    }
    Ok(true)
}

#[test]
fn words_that_are_no_command(rt: HostRuntime) -> Result<(), Fail> {
    assert!(rt; are_refused(&rt, &REFUSED)?);
    Ok(())
}
