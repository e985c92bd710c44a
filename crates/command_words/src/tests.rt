//! Lines of words, each with the command that it spells.
use crate::command::{Command, command_of};
use crate::number::meaning;
use crate::part::{follow, operand, value_of};
use crate::reordering::Reordering;
use crate::table::{OptionRow, Row, Values};
use std::alloc::Global;
use std::test::Fail;

fn words_of(alloc: Global, words: &[&str]) -> Result<Vec<String>, Fail> {
    let mut all = Vec::new(alloc);
    for word in words {
        all.push(String::from_str(alloc, *word)?)?;
    }
    Ok(all)
}

#[test]
fn words_that_are_a_command(rt: HostRuntime) -> Result<(), Fail> {
    let copy = |input, output| Command::Copy { input, output };
    let report = |input, workers| Command::Report { input, workers };
    let query = |input, queries| Command::Query { input, queries };
    let rows: [(&[&str], Command<'_>); 13] = [
        (&["copy", "a", "b"], copy("a", "b")),
        (&["copy", "a", "a"], copy("a", "a")),
        (&["copy", "", "-b"], copy("", "-b")),
        (&["copy", "copy", "report"], copy("copy", "report")),
        (&["query", "a", "b"], query("a", "b")),
        (&["query", "a", "a"], query("a", "a")),
        (&["query", "", "-"], query("", "-")),
        (&["report", "a"], report("a", 1)),
        (&["report", "a", "--workers", "01"], report("a", 1)),
        (&["report", "a", "--workers", "64"], report("a", 64)),
        (&["report", "--workers", "7", "a"], report("a", 7)),
        (&["report", "a", "--workers", "0000000012"], report("a", 12)),
        (&["report", "7", "--workers", "7"], report("7", 7)),
    ];
    for (words, command) in rows {
        let words = words_of(rt.alloc(), words)?;
        assert_eq!(rt; command_of(&words), Some(command), "{words:?}");
    }
    Ok(())
}

#[test]
fn words_that_are_no_command(rt: HostRuntime) -> Result<(), Fail> {
    let rows: [&[&str]; 24] = [
        &[],
        &["Copy", "a", "b"],
        &["copy"],
        &["copy", "a"],
        &["copy", "a", "b", "c"],
        &["copy", "--a", "b"],
        &["copy", "a", "--"],
        &["copy", "a", "b", "--depth", "1"],
        &["copy", "a", "b", "--workers", "1"],
        &["Query", "a", "b"],
        &["query"],
        &["query", "a"],
        &["query", "a", "b", "c"],
        &["query", "a", "b", "--workers", "1"],
        &["query", "a", "b", "--"],
        &["a", "copy", "b"],
        &["--workers", "1", "report", "a"],
        &["report"],
        &["report", "a", "b"],
        &["report", "--workers", "1"],
        &["report", "a", "--workers"],
        &["report", "a", "--workers=1"],
        &["report", "a", "--workers", "1", "--workers", "1"],
        &["report", "a", "--workers", "1", "--workers"],
    ];
    for words in rows {
        let words = words_of(rt.alloc(), words)?;
        assert_eq!(rt; command_of(&words), None, "{words:?}");
    }
    Ok(())
}

#[test]
fn values_that_are_no_number_of_the_range(rt: HostRuntime) -> Result<(), Fail> {
    let values = [
        "0",
        "65",
        "",
        "+1",
        "-1",
        " 1",
        "1 ",
        "1a",
        "0x1",
        "a",
        "--workers",
        // Eleven digits; 2^32 + 1 and 2^64 + 1; a digit that isn't ASCII.
        "00000000001",
        "4294967297",
        "18446744073709551617",
        "\u{661}",
    ];
    for value in values {
        let words = words_of(rt.alloc(), &["report", "a", "--workers", value])?;
        assert_eq!(rt; command_of(&words), None, "{value}");
    }
    Ok(())
}

/// What a reordering is where nothing is said.
const PLAIN: Reordering = Reordering {
    depth: 31,
    rounds: 20,
    leaf: 16,
    workers: 1,
    step: 4,
    min_df: 1,
    by_name: false,
};

#[test]
fn words_that_are_a_reordering(rt: HostRuntime) -> Result<(), Fail> {
    let all: &[&str] = &[
        "reorder",
        "--start",
        "name",
        "--min-df",
        "7",
        "a",
        "--step",
        "6",
        "--workers",
        "5",
        "--leaf",
        "4",
        "b",
        "--rounds",
        "3",
        "--depth",
        "2",
    ];
    let options = Reordering {
        depth: 2,
        rounds: 3,
        leaf: 4,
        workers: 5,
        step: 6,
        min_df: 7,
        by_name: true,
    };
    let rows: [(&[&str], &str, &str, Reordering); 4] = [
        (&["reorder", "a", "b"], "a", "b", PLAIN),
        (&["reorder", "b", "b"], "b", "b", PLAIN),
        (
            &["reorder", "name", "--start", "number", "number"],
            "name",
            "number",
            PLAIN,
        ),
        (all, "a", "b", options),
    ];
    for (words, input, output, options) in rows {
        let words = words_of(rt.alloc(), words)?;
        let command = Command::Reorder {
            input,
            output,
            options,
        };
        assert_eq!(rt; command_of(&words), Some(command), "{words:?}");
    }
    Ok(())
}

#[test]
fn ends_of_the_ranges_of_a_reordering(rt: HostRuntime) -> Result<(), Fail> {
    let rows: [(&str, &str, Reordering); 12] = [
        ("--depth", "0", Reordering { depth: 0, ..PLAIN }),
        ("--depth", "31", Reordering { depth: 31, ..PLAIN }),
        ("--rounds", "0", Reordering { rounds: 0, ..PLAIN }),
        (
            "--rounds",
            "100",
            Reordering {
                rounds: 100,
                ..PLAIN
            },
        ),
        ("--leaf", "1", Reordering { leaf: 1, ..PLAIN }),
        (
            "--leaf",
            "2147483647",
            Reordering {
                leaf: 2147483647,
                ..PLAIN
            },
        ),
        (
            "--workers",
            "1",
            Reordering {
                workers: 1,
                ..PLAIN
            },
        ),
        (
            "--workers",
            "64",
            Reordering {
                workers: 64,
                ..PLAIN
            },
        ),
        ("--step", "1", Reordering { step: 1, ..PLAIN }),
        ("--step", "31", Reordering { step: 31, ..PLAIN }),
        ("--min-df", "1", Reordering { min_df: 1, ..PLAIN }),
        (
            "--min-df",
            "2147483647",
            Reordering {
                min_df: 2147483647,
                ..PLAIN
            },
        ),
    ];
    for (name, value, options) in rows {
        let words = words_of(rt.alloc(), &["reorder", "a", "b", name, value])?;
        let command = Command::Reorder {
            input: "a",
            output: "b",
            options,
        };
        assert_eq!(rt; command_of(&words), Some(command), "{name} {value}");
    }
    Ok(())
}

#[test]
fn words_that_are_no_reordering(rt: HostRuntime) -> Result<(), Fail> {
    let values = [
        ("--depth", "32"),
        ("--depth", "-1"),
        ("--rounds", "101"),
        ("--leaf", "0"),
        ("--leaf", "2147483648"),
        ("--workers", "0"),
        ("--workers", "65"),
        ("--step", "0"),
        ("--step", "32"),
        ("--min-df", "0"),
        ("--min-df", "2147483648"),
        ("--start", "0"),
        ("--start", "Name"),
        ("--start", ""),
        ("--readers", "2"),
        ("--number", "1"),
        ("--min_df", "1"),
        ("--depth=3", "3"),
    ];
    for (name, value) in values {
        let words = words_of(rt.alloc(), &["reorder", "a", "b", name, value])?;
        assert_eq!(rt; command_of(&words), None, "{name} {value}");
    }
    let rows: [&[&str]; 9] = [
        &["reorder"],
        &["reorder", "a"],
        &["reorder", "a", "b", "c"],
        &["Reorder", "a", "b"],
        &["reorder", "a", "b", "--depth"],
        &["reorder", "a", "b", "--depth=3"],
        &["reorder", "a", "b", "--depth", "1", "--depth", "1"],
        &["reorder", "--start", "name", "a", "b", "--start", "number"],
        &["reorder", "a", "--step", "b"],
    ];
    for words in rows {
        let words = words_of(rt.alloc(), words)?;
        assert_eq!(rt; command_of(&words), None, "{words:?}");
    }
    Ok(())
}

/// The words of `make` and of its options, and what they come to.
#[test]
fn words_that_are_a_generated_index(rt: HostRuntime) -> Result<(), Fail> {
    let rows: [(&[&str], u32, &str, u32); 6] = [
        (&["make", "0", "b"], 0, "b", 1),
        (&["make", "1000000", "7"], 1000000, "7", 1),
        (&["make", "0000000012", "b"], 12, "b", 1),
        (&["make", "--number", "0", "3", "b"], 3, "b", 0),
        (
            &["make", "3", "--number", "4294967295", "b"],
            3,
            "b",
            u32::MAX,
        ),
        (
            &["make", "3", "b", "--leaf", "16", "--number", "5"],
            3,
            "b",
            5,
        ),
    ];
    for (words, documents, output, number) in rows {
        let words = words_of(rt.alloc(), words)?;
        let command = Command::Make {
            documents,
            output,
            number,
            options: PLAIN,
        };
        assert_eq!(rt; command_of(&words), Some(command), "{words:?}");
    }
    Ok(())
}

#[test]
fn words_that_are_no_generated_index(rt: HostRuntime) -> Result<(), Fail> {
    let rows: [&[&str]; 12] = [
        &["make"],
        &["make", "3"],
        &["make", "x", "b"],
        &["make", "", "b"],
        &["make", "-1", "b"],
        &["make", "1000001", "b"],
        &["make", "00000000003", "b"],
        &["make", "b", "3"],
        &["make", "3", "b", "c"],
        &["make", "3", "b", "--number", "4294967296"],
        &["make", "3", "b", "--depth", "32"],
        &["make", "3", "b", "--number", "1", "--number", "1"],
    ];
    for words in rows {
        let words = words_of(rt.alloc(), words)?;
        assert_eq!(rt; command_of(&words), None, "{words:?}");
    }
    Ok(())
}

/// A row with an operand and two options.
const SAMPLE: Row = Row {
    name: "sample",
    operands: 1,
    options: &[COUNT, START],
};

const COUNT: OptionRow = OptionRow {
    name: "--count",
    values: Values::Numbers {
        least: 0,
        most: u32::MAX,
    },
    default: 5,
};

const START: OptionRow = OptionRow {
    name: "--start",
    values: Values::Either("number", "name"),
    default: 0,
};

#[test]
fn options_of_a_row_in_any_order(rt: HostRuntime) -> Result<(), Fail> {
    let rows: [(&[&str], Option<u32>, Option<u32>); 6] = [
        (&["a"], Some(5), Some(0)),
        (&["--count", "0", "a", "--start", "name"], Some(0), Some(1)),
        (
            &["--start", "number", "--count", "4294967295", "a"],
            Some(u32::MAX),
            Some(0),
        ),
        (&["--count", "4294967296", "a"], None, Some(0)),
        (&["a", "--start", "Name"], Some(5), None),
        (&["--start", "name", "a", "--start", "name"], Some(5), None),
    ];
    for (words, count, start) in rows {
        let words = words_of(rt.alloc(), words)?;
        assert!(rt; follow(&words, &SAMPLE), "{words:?}");
        assert_eq!(rt; operand(&words, 0), Some("a"), "{words:?}");
        assert_eq!(rt; value_of(&words, &COUNT), count, "{words:?}");
        assert_eq!(rt; value_of(&words, &START), start, "{words:?}");
    }
    assert_eq!(rt; meaning(START.values, "number"), Some(0));
    Ok(())
}

/// The words of `live`, and what they come to.
#[test]
fn words_that_are_a_live_reordering(rt: HostRuntime) -> Result<(), Fail> {
    let options = Reordering {
        depth: 2,
        by_name: true,
        ..PLAIN
    };
    let rows: [(&[&str], &str, Reordering, u32); 6] = [
        (&["live", "a", "b", "c"], "c", PLAIN, 2),
        (&["live", "a", "b", "b"], "b", PLAIN, 2),
        (&["live", "--readers", "1", "a", "b", "c"], "c", PLAIN, 1),
        (&["live", "a", "--readers", "16", "b", "c"], "c", PLAIN, 16),
        (&["live", "a", "b", "c", "--readers", "003"], "c", PLAIN, 3),
        (
            &[
                "live",
                "a",
                "--start",
                "name",
                "b",
                "--readers",
                "7",
                "c",
                "--depth",
                "2",
            ],
            "c",
            options,
            7,
        ),
    ];
    for (words, queries, options, readers) in rows {
        let words = words_of(rt.alloc(), words)?;
        let command = Command::Live {
            input: "a",
            output: "b",
            queries,
            options,
            readers,
        };
        assert_eq!(rt; command_of(&words), Some(command), "{words:?}");
    }
    Ok(())
}

#[test]
fn words_that_are_no_live_reordering(rt: HostRuntime) -> Result<(), Fail> {
    let rows: [&[&str]; 12] = [
        &["live"],
        &["live", "a", "b"],
        &["live", "a", "b", "c", "d"],
        &["Live", "a", "b", "c"],
        &["live", "a", "b", "c", "--readers"],
        &["live", "a", "b", "c", "--readers", "0"],
        &["live", "a", "b", "c", "--readers", "17"],
        &["live", "a", "b", "--readers", "c"],
        &["live", "a", "b", "c", "--number", "1"],
        &["live", "a", "b", "c", "--depth", "32"],
        &["live", "a", "b", "c", "--readers", "1", "--readers", "1"],
        &["reorder", "a", "b", "--readers", "2"],
    ];
    for words in rows {
        let words = words_of(rt.alloc(), words)?;
        assert_eq!(rt; command_of(&words), None, "{words:?}");
    }
    Ok(())
}
