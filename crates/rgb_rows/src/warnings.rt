//! Rows in which warnings fail: the status and everything else stay as they are.
use rgb_app::{WordsFault, run_words};
use rgb_base::NoPace;
use rgb_host::MemoryHost;
use rgb_runs::{
    ALL_WELL, ONE, Row, Setting, bytes_of, has_file, has_told, host_with, is_met, words_of,
};
use std::alloc::Global;
use std::test::Fail;

/// The words, the bytes of `in`, the writes that fail, the status, and what was warned by then.
const ROWS: [(&str, &str, &[u64], u8, &str); 8] = [
    ("copy in", ONE, &[1], 2, ""),
    ("copy in", ONE, &[2], 2, "usag"),
    ("copy in out", "", &[1], 3, ""),
    ("copy in out", "", &[3], 3, "malforme"),
    ("copy no out", ONE, &[1], 4, ""),
    ("copy no out", ONE, &[2], 4, "read"),
    // Call 1 creates.
    ("copy in out", ONE, &[1, 2], 5, ""),
    ("copy in out", ONE, &[1, 4], 5, "write fa"),
];

/// The writes of these numbers fail, and a call takes four bytes.
fn failing(failing_writes: &[u64]) -> Setting<'_> {
    Setting {
        failing_reads: &[],
        failing_writes,
        most: 4,
    }
}

fn warned<'a>(row: (&'a str, &'a str, &'a [u64], u8, &'a str)) -> Row<'a> {
    let (words, input, writes, status, warned) = row;
    Row {
        words,
        input,
        setting: failing(writes),
        status,
        output: None,
        printed: "",
        warned,
    }
}

#[test]
fn a_failing_warning_for_each_status(rt: HostRuntime) -> Result<(), Fail> {
    for row in ROWS {
        assert!(rt; is_met(&rt, &warned(row))?);
    }
    Ok(())
}

/// The status, whether it is want of memory, the writes that fail, and what was warned by then.
const FAULTS: [(u8, bool, &[u64], &str); 4] = [
    (2, false, &[], "usage\n"),
    (2, false, &[1], ""),
    (6, true, &[], "memory\n"),
    (6, true, &[2], "memo"),
];

fn host_of_one(alloc: Global, setting: Setting<'_>) -> Result<MemoryHost, Fail> {
    let one = bytes_of(alloc, ONE)?;
    host_with(alloc, &one, setting)
}

#[test]
fn words_that_the_system_does_not_give(rt: HostRuntime) -> Result<(), Fail> {
    for (status, is_memory, writes, warned) in FAULTS {
        let fault = if is_memory {
            WordsFault::OutOfMemory
        } else {
            WordsFault::NotText
        };
        let mut host = host_of_one(rt.alloc(), failing(writes))?;
        let ended = run_words(&rt, rt.alloc(), Err(fault), &mut host, &NoPace);
        assert!(rt; ended == status && has_told(&host, "", warned));
    }
    Ok(())
}

#[test]
fn words_that_the_system_gives(rt: HostRuntime) -> Result<(), Fail> {
    let one = bytes_of(rt.alloc(), ONE)?;
    let words = words_of(rt.alloc(), "copy in out")?;
    let mut host = host_of_one(rt.alloc(), ALL_WELL)?;
    let ended = run_words(&rt, rt.alloc(), Ok(words), &mut host, &NoPace);
    assert!(rt; ended == 0 && has_file(&host, "out", Some(&one)));
    Ok(())
}
