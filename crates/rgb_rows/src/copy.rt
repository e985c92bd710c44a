//! Rows of `copy`: what it writes and prints. The expected bytes were worked out by hand from the
//! encoding's rules.
use rgb_runs::{ALL_WELL, ONE, Row, SIX, Setting, is_met};
use std::test::Fail;

/// `df` 5 over one posting, and `tf` -1.
const NEGATIVE: &str =
    "06 08 01 10 01 18 01 12 0a 01 61 10 05 22 0b 10 ff ff ff ff ff ff ff ff ff 01 00";

const LINE_OF_ONE: &str = "documents 1 lists 1 postings 1\n";

/// The bytes of IN, those of OUT, and the line.
const CANONICAL: [(&str, &str, &str); 7] = [
    ("00", "00", "documents 0 lists 0 postings 0\n"),
    (ONE, ONE, LINE_OF_ONE),
    (SIX, SIX, "documents 6 lists 2 postings 6\n"),
    (NEGATIVE, NEGATIVE, LINE_OF_ONE),
    // The same `tf` in five bytes.
    (
        "06 08 01 10 01 18 01 0d 0a 01 61 10 05 22 06 10 ff ff ff ff 0f 00",
        NEGATIVE,
        LINE_OF_ONE,
    ),
    // Fields reversed, defaults written, and an unknown field.
    (
        "08 18 01 10 01 08 01 78 05 0d 22 04 10 02 08 00 18 02 10 01 0a 01 61 07 18 02 12 01 78 08 00",
        ONE,
        LINE_OF_ONE,
    ),
    // Two documents, the second one first.
    (
        "02 18 02 02 08 01 00",
        "02 18 02 00 02 08 01",
        "documents 2 lists 0 postings 0\n",
    ),
];

fn copied<'a>(input: &'a str, output: &'a str, line: &'a str) -> Row<'a> {
    Row {
        words: "copy in out",
        input,
        setting: ALL_WELL,
        status: 0,
        output: Some(output),
        printed: line,
        warned: "",
    }
}

#[test]
fn the_canonical_file(rt: HostRuntime) -> Result<(), Fail> {
    for (input, output, line) in CANONICAL {
        assert!(rt; is_met(&rt, &copied(input, output, line))?, "{input}");
    }
    Ok(())
}

const CREATION_FAILS: Setting<'static> = Setting {
    failing_reads: &[],
    failing_writes: &[1],
    most: 65536,
};

const ONTO_ITSELF: Row<'static> = Row {
    words: "copy in in",
    input: ONE,
    setting: ALL_WELL,
    status: 0,
    output: None,
    printed: LINE_OF_ONE,
    warned: "",
};

const NOT_CREATED: Row<'static> = Row {
    words: "copy in in",
    input: ONE,
    setting: CREATION_FAILS,
    status: 5,
    output: None,
    printed: "",
    warned: "write fault\n",
};

#[test]
fn a_file_onto_itself(rt: HostRuntime) -> Result<(), Fail> {
    assert!(rt; is_met(&rt, &ONTO_ITSELF)?);
    assert!(rt; is_met(&rt, &NOT_CREATED)?);
    Ok(())
}

fn not_there(words: &str) -> Row<'_> {
    Row {
        words,
        input: "00",
        setting: ALL_WELL,
        status: 4,
        output: None,
        printed: "",
        warned: "read fault\n",
    }
}

#[test]
fn a_file_that_is_not_there(rt: HostRuntime) -> Result<(), Fail> {
    for words in ["copy no out", "report no"] {
        assert!(rt; is_met(&rt, &not_there(words))?, "{words}");
    }
    Ok(())
}
