//! Runs of `live` that end with what they read: a file that is missing or refused.
use rgb_base::NoPace;
use rgb_runs::{ALL_WELL, SIX, bytes_of, has_file, has_told, run_at_pace};
use std::sync::Wait;
use std::test::Fail;
use std::thread::Threads;

const WORDS: &str = "live in out queries --readers 3";

/// Whether `live` over these files ends with this status and line, and nothing is created or printed.
fn ends_so<R: Threads + Wait + Sync + AllocGlobal>(
    rt: &R,
    files: &[(&str, &[u8])],
    status: u8,
    line: &str,
) -> Result<bool, Fail> {
    let (ended, host) = run_at_pace(rt, WORDS, files, ALL_WELL, &NoPace)?;
    Ok(ended == status && has_told(&host, "", line) && has_file(&host, "out", None))
}

#[test]
fn what_is_missing(rt: HostRuntime) -> Result<(), Fail> {
    let six = bytes_of(rt.alloc(), SIX)?;
    assert!(rt; ends_so(&rt, &[], 4, "read fault\n")?);
    assert!(rt; ends_so(&rt, &[("queries", b"a b")], 4, "read fault\n")?);
    assert!(rt; ends_so(&rt, &[("in", &six)], 4, "read fault\n")?);
    Ok(())
}

/// The index comes first, whatever the queries are.
#[test]
fn an_index_that_is_none(rt: HostRuntime) -> Result<(), Fail> {
    let mut six = bytes_of(rt.alloc(), SIX)?;
    six.push(7)?;
    let line = "malformed 109 Trailing\n";
    assert!(rt; ends_so(&rt, &[("in", &six)], 3, line)?);
    assert!(rt; ends_so(&rt, &[("in", &six), ("queries", b"a")], 3, line)?);
    assert!(rt; ends_so(&rt, &[("in", &six), ("queries", b"a b")], 3, line)?);
    Ok(())
}

const BAD: [(&[u8], &str); 6] = [
    (b"a\n\na b\n", "query 3 2 Unexpected\n"),
    (b"a AND", "query 1 5 Ended\n"),
    (b"a \"b", "query 1 2 OpenQuote\n"),
    (b"a\r\n((a\n", "query 2 1 OpenParen\n"),
    (b"\n\xff\n", "query 2 0 NotText\n"),
    (
        b"((((((((((((((((((((((((((((((((((((((((((((((((((((((((((((((((((a",
        "query 1 64 TooDeep\n",
    ),
];

#[test]
fn queries_that_are_none(rt: HostRuntime) -> Result<(), Fail> {
    let six = bytes_of(rt.alloc(), SIX)?;
    for (queries, line) in BAD {
        assert!(rt;
            ends_so(&rt, &[("in", &six), ("queries", queries)], 7, line)?,
            "{line}"
        );
    }
    Ok(())
}

#[test]
fn too_many_bytes_of_queries(rt: HostRuntime) -> Result<(), Fail> {
    let six = bytes_of(rt.alloc(), SIX)?;
    let queries = vec![in rt.alloc(); b'\n'; 0x100_0001]?;
    let line = "queries too long\n";
    assert!(rt; ends_so(&rt, &[("in", &six), ("queries", &queries)], 8, line)?);
    Ok(())
}
