//! Files of queries over small indexes: what is printed of them, and which are refused.
use rgb_runs::{ALL_WELL, SIX, bytes_of, has_file, has_told, run_over};
use std::test::Fail;
use std::thread::Threads;

/// How a run has to end: its status, and what is printed and warned.
#[derive(Clone, Copy)]
pub(crate) struct End<'a> {
    pub(crate) status: u8,
    pub(crate) printed: &'a str,
    pub(crate) warned: &'a str,
}

/// Whether the queries over the index end so, and both files stay.
pub(crate) fn ends_so<R: Threads + Sync + AllocGlobal>(
    rt: &R,
    index: &[u8],
    queries: &[u8],
    end: End<'_>,
) -> Result<bool, Fail> {
    let files = [("in", index), ("queries", queries)];
    let (status, host) = run_over(rt, "query in queries", &files, ALL_WELL)?;
    Ok(
        status == end.status
            && has_told(&host, end.printed, end.warned)
            && has_file(&host, "in", Some(index))
            && has_file(&host, "queries", Some(queries)),
    )
}

/// Whether each file of queries is answered by the text beside it.
fn are_answered<R: Threads + Sync + AllocGlobal>(
    rt: &R,
    index: &str,
    rows: &[(&[u8], &str)],
) -> Result<bool, Fail> {
    let index = bytes_of(rt.alloc(), index)?;
    for (queries, printed) in rows {
        let end = End {
            status: 0,
            printed: *printed,
            warned: "",
        };
        if !ends_so(rt, &index, *queries, end)? {
            return Ok(false);
        }
    }
    Ok(true)
}

/// Whether each file of queries is refused by the line beside it.
fn are_refused<R: Threads + Sync + AllocGlobal>(
    rt: &R,
    rows: &[(&[u8], &str)],
) -> Result<bool, Fail> {
    let index = bytes_of(rt.alloc(), SIX)?;
    for (queries, warned) in rows {
        let end = End {
            status: 7,
            printed: "",
            warned: *warned,
        };
        if !ends_so(rt, &index, *queries, end)? {
            return Ok(false);
        }
    }
    Ok(true)
}

/// Over two lists, `a` of the documents 0, 1 and 3, and `b` of 2, 4 and 5.
const MEANINGS: [(&[u8], &str); 9] = [
    (b"a AND NOT b", "query 1 matches 3\n0 d0\n1 d1\n3 d3\n"),
    (b"NOT a\n", "query 1 matches 3\n2 d2\n4 d4\n5 d5\n"),
    (b"zzz\n\"AND\"\n", "query 1 matches 0\nquery 2 matches 0\n"),
    (b"NOT NOT a", "query 1 matches 3\n0 d0\n1 d1\n3 d3\n"),
    (b"a AND b", "query 1 matches 0\n"),
    (b"a OR b AND zzz", "query 1 matches 3\n0 d0\n1 d1\n3 d3\n"),
    (b"(a OR b) AND zzz", "query 1 matches 0\n"),
    (
        b"\"a\" AND NOT \"\" AND NOT \"a b\"",
        "query 1 matches 3\n0 d0\n1 d1\n3 d3\n",
    ),
    (
        b"NOT zzz",
        "query 1 matches 6\n0 d0\n1 d1\n2 d2\n3 d3\n4 d4\n5 d5\n",
    ),
];

#[test]
fn what_queries_mean(rt: HostRuntime) -> Result<(), Fail> {
    assert!(rt; are_answered(&rt, SIX, &MEANINGS)?);
    Ok(())
}

const LINES: [(&[u8], &str); 9] = [
    (b"", ""),
    (b"\n \t \r\n\t\n", ""),
    (
        b"\n\na AND b\n \nb AND a",
        "query 3 matches 0\nquery 5 matches 0\n",
    ),
    (
        b"a\r\nb\r\n",
        "query 1 matches 3\n0 d0\n1 d1\n3 d3\nquery 2 matches 3\n2 d2\n4 d4\n5 d5\n",
    ),
    (b"\ta\tAND\tb\t\n", "query 1 matches 0\n"),
    // A carriage return that no line feed follows is a character of a word.
    (b"a\r", "query 1 matches 0\n"),
    (b"\r", "query 1 matches 0\n"),
    // One of two is dropped.
    (b"a\r\r\n", "query 1 matches 0\n"),
    (b"a\rb\n", "query 1 matches 0\n"),
];

#[test]
fn lines(rt: HostRuntime) -> Result<(), Fail> {
    assert!(rt; are_answered(&rt, SIX, &LINES)?);
    Ok(())
}

/// Two documents without names, and no lists.
const TWO: &str = "02 18 02 00 02 08 01";

#[test]
fn names_as_they_stand(rt: HostRuntime) -> Result<(), Fail> {
    let rows: [(&[u8], &str); 2] = [
        (b"NOT a", "query 1 matches 2\n0 \n1 \n"),
        (b"a", "query 1 matches 0\n"),
    ];
    assert!(rt; are_answered(&rt, TWO, &rows)?);
    Ok(())
}

const FAULTS: [(&[u8], &str); 12] = [
    (b"((a", "query 1 1 OpenParen\n"),
    (b"a\n\na b", "query 3 2 Unexpected\n"),
    (b"a AND", "query 1 5 Ended\n"),
    (b"a AND\r\n", "query 1 5 Ended\n"),
    (b"a AND\r", "query 1 2 Unexpected\n"),
    (b"a \"b", "query 1 2 OpenQuote\n"),
    (b"a \"b\n\"", "query 1 2 OpenQuote\n"),
    (b"\xff", "query 1 0 NotText\n"),
    (b"a\n b \xc3\n", "query 2 0 NotText\n"),
    (b") \xff", "query 1 0 NotText\n"),
    (b"a b\n\xff", "query 1 2 Unexpected\n"),
    (b"\n\n\r\n)", "query 4 0 Unexpected\n"),
];

#[test]
fn faults(rt: HostRuntime) -> Result<(), Fail> {
    assert!(rt; are_refused(&rt, &FAULTS)?);
    Ok(())
}

/// Commands over a file `in` that is no index, with other queries or none.
#[test]
fn first_the_index(rt: HostRuntime) -> Result<(), Fail> {
    let bad: &[u8] = b"";
    let files = [("in", bad)];
    let (status, host) = run_over(&rt, "query in queries", &files, ALL_WELL)?;
    assert_eq!(rt; status, 3);
    assert!(rt; has_told(&host, "", "malformed 0 CutShort\n"));
    let files = [("in", bad), ("queries", b"a b".as_slice())];
    let (status, host) = run_over(&rt, "query in queries", &files, ALL_WELL)?;
    assert_eq!(rt; status, 3);
    assert!(rt; has_told(&host, "", "malformed 0 CutShort\n"));
    Ok(())
}

#[test]
fn what_is_missing(rt: HostRuntime) -> Result<(), Fail> {
    let six = bytes_of(rt.alloc(), SIX)?;
    let files = [("in", six.as_slice())];
    let (status, host) = run_over(&rt, "query in queries", &files, ALL_WELL)?;
    assert_eq!(rt; status, 4);
    assert!(rt; has_told(&host, "", "read fault\n"));
    let files = [("queries", b"a b".as_slice())];
    let (status, host) = run_over(&rt, "query in queries", &files, ALL_WELL)?;
    assert_eq!(rt; status, 4);
    assert!(rt; has_told(&host, "", "read fault\n"));
    Ok(())
}

const REFUSED_WORDS: [&str; 5] = [
    "query",
    "query in",
    "query in queries more",
    "query in queries --workers 1",
    "Query in queries",
];

#[test]
fn refused_words(rt: HostRuntime) -> Result<(), Fail> {
    let six = bytes_of(rt.alloc(), SIX)?;
    let files = [("in", six.as_slice()), ("queries", b"a".as_slice())];
    for words in REFUSED_WORDS {
        let (status, host) = run_over(&rt, words, &files, ALL_WELL)?;
        assert_eq!(rt; status, 2);
        assert!(rt; has_told(&host, "", "usage\n"));
    }
    Ok(())
}
