//! Indexes and files of queries with little or nothing in them, and OUT over what was read.
use crate::rows::{Row, is_met};
use rgb_base::NoPace;
use rgb_live_runs::{Live, OF_TWELVE};
use rgb_runs::{ALL_WELL, TWELVE, TWELVE_REORDERED, bytes_of, has_file, has_told, run_at_pace};
use std::test::Fail;
use std::thread::Threads;

/// What is printed of no document.
const OF_NONE: &str = "documents 0 lists 0 postings 0\n\
    before gamma 0 delta 0 bytes 0\nafter gamma 0 delta 0 bytes 0\n";

/// No document at any of nine versions: 31 levels are eight slabs.
const NONE: Live<'static> = Live {
    reordered: OF_NONE,
    readers: 2,
    queries: &[],
    versions: 9,
    documents: 0,
    orders: &[],
    names: "",
};

#[test]
fn no_documents(rt: HostRuntime) -> Result<(), Fail> {
    let row = Row {
        words: "live in out queries",
        input: "00",
        queries: b"",
        output: "00",
    };
    assert!(rt; is_met(&rt, &row, &NONE)?);
    let row = Row {
        queries: b"\nNOT a\n",
        ..row
    };
    let live = Live {
        queries: &[(2, 0)],
        ..NONE
    };
    assert!(rt; is_met(&rt, &row, &live)?);
    Ok(())
}

/// What is printed where no query is asked.
const UNASKED: &str = "documents 12 lists 2 postings 6\nround 1 0 6 1 76672 -163200\n\
    before gamma 12 delta 15 bytes 6\nafter gamma 10 delta 10 bytes 6\nreaders 16\n";

#[test]
fn no_queries(rt: HostRuntime) -> Result<(), Fail> {
    let twelve = bytes_of(rt.alloc(), TWELVE)?;
    let written = bytes_of(rt.alloc(), TWELVE_REORDERED)?;
    for queries in [b"".as_slice(), b"\n", b" \t\r\n\n\t"] {
        let files = [("in", twelve.as_slice()), ("queries", queries)];
        let words = "live --readers 16 --leaf 1 in out queries";
        let (status, host) = run_at_pace(&rt, words, &files, ALL_WELL, &NoPace)?;
        assert_eq!(rt; status, 0);
        assert!(rt; has_told(&host, UNASKED, ""));
        assert!(rt; has_file(&host, "out", Some(&written)));
    }
    Ok(())
}

/// OUT may be IN or QUERIES, which were read before it is created.
#[test]
fn written_over_what_was_read(rt: HostRuntime) -> Result<(), Fail> {
    let twelve = bytes_of(rt.alloc(), TWELVE)?;
    let written = bytes_of(rt.alloc(), TWELVE_REORDERED)?;
    let live = Live {
        reordered: OF_TWELVE,
        readers: 1,
        queries: &[(1, 0b1011)],
        versions: 2,
        documents: 12,
        orders: rgb_live_runs::TWELVE_IN_ONE_SLAB,
        names: rgb_live_runs::TWELVE_NAMES,
    };
    for out in ["in", "queries"] {
        let files = [("in", twelve.as_slice()), ("queries", b"a".as_slice())];
        let words = format!(in rt.alloc(); "live in {out} queries --depth 2 --leaf 1 --readers 1")?;
        let (status, host) = run_at_pace(&rt, &words, &files, ALL_WELL, &NoPace)?;
        assert_eq!(rt; status, 0);
        assert!(rt; live.is_text(rt.alloc(), host.printed())?);
        assert!(rt; has_file(&host, out, Some(&written)));
    }
    Ok(())
}
