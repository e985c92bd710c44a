//! Rows worked out by hand: twelve documents, and a start by name.
use rgb_base::NoPace;
use rgb_host::MemoryHost;
use rgb_live_runs::{Live, OF_TWELVE, TWELVE_BY_SLAB, TWELVE_NAMES, TWELVE_QUERIES, TWELVE_WORDS};
use rgb_runs::{
    ALL_WELL, SIX, SIX_REORDERED, TWELVE, TWELVE_REORDERED, bytes_of, has_file, run_at_pace,
};
use std::alloc::Global;
use std::sync::Wait;
use std::test::Fail;
use std::thread::Threads;

/// The words, the bytes of `in` and of `queries`, and the bytes of `out` afterwards.
#[derive(Clone, Copy)]
pub(crate) struct Row<'a> {
    pub(crate) words: &'a str,
    pub(crate) input: &'a str,
    pub(crate) queries: &'a [u8],
    pub(crate) output: &'a str,
}

/// Whether the files stand as they have to, and nothing was warned.
fn is_left(alloc: Global, row: &Row<'_>, host: &MemoryHost) -> Result<bool, Fail> {
    let input = bytes_of(alloc, row.input)?;
    let output = bytes_of(alloc, row.output)?;
    Ok(
        has_file(host, "in", Some(&input))
            && has_file(host, "queries", Some(row.queries))
            && has_file(host, "out", Some(&output))
            && host.warned().is_empty(),
    )
}

/// Whether the row is met with such a text.
pub(crate) fn is_met<R: Threads + Wait + Sync + AllocGlobal>(
    rt: &R,
    row: &Row<'_>,
    live: &Live<'_>,
) -> Result<bool, Fail> {
    let input = bytes_of(rt.alloc(), row.input)?;
    let queries = Vec::from_slice(rt.alloc(), row.queries)?;
    let files = [("in", input.as_slice()), ("queries", queries.as_slice())];
    let (status, host) = run_at_pace(rt, row.words, &files, ALL_WELL, &NoPace)?;
    Ok(status == 0 && is_left(rt.alloc(), row, &host)? && live.is_text(rt.alloc(), host.printed())?)
}

#[test]
fn twelve_documents(rt: HostRuntime) -> Result<(), Fail> {
    let row = Row {
        words: TWELVE_WORDS,
        input: TWELVE,
        queries: b"a\nNOT a",
        output: TWELVE_REORDERED,
    };
    let live = Live {
        reordered: OF_TWELVE,
        readers: 2,
        queries: &TWELVE_QUERIES,
        versions: 3,
        documents: 12,
        orders: TWELVE_BY_SLAB,
        names: TWELVE_NAMES,
    };
    assert!(rt; is_met(&rt, &row, &live)?);
    Ok(())
}

/// The names of the six documents in their other order.
const NAMES: &str = "d0 d1 d3 d2 d4 d5";

/// They start in the order of their names, which is version 1.
#[test]
fn a_start_by_name(rt: HostRuntime) -> Result<(), Fail> {
    let row = Row {
        words: "live in out queries --start name --depth 1 --leaf 1",
        input: SIX_REORDERED,
        queries: b"a",
        output: SIX_REORDERED,
    };
    let live = Live {
        reordered: "documents 6 lists 2 postings 6\nround 0 0 6 1 76672 -163200\n\
            before gamma 10 delta 10 bytes 6\nafter gamma 10 delta 10 bytes 6\n",
        readers: 2,
        queries: &[(1, 0b111)],
        versions: 3,
        documents: 6,
        orders: &[0, 1, 2, 3, 4, 5, 0, 1, 3, 2, 4, 5, 0, 1, 2, 3, 4, 5],
        names: NAMES,
    };
    assert!(rt; is_met(&rt, &row, &live)?);
    Ok(())
}

/// And the last, where no level is made.
#[test]
fn a_start_by_name_alone(rt: HostRuntime) -> Result<(), Fail> {
    let row = Row {
        words: "live in --start name out --depth 0 queries --readers 1",
        input: SIX_REORDERED,
        queries: b"a\nb OR a\n",
        output: SIX,
    };
    let live = Live {
        reordered: "documents 6 lists 2 postings 6\n\
            before gamma 10 delta 10 bytes 6\nafter gamma 12 delta 15 bytes 6\n",
        readers: 1,
        queries: &[(1, 0b111), (2, 0b11_1111)],
        versions: 2,
        documents: 6,
        orders: &[0, 1, 2, 3, 4, 5, 0, 1, 3, 2, 4, 5],
        names: NAMES,
    };
    assert!(rt; is_met(&rt, &row, &live)?);
    Ok(())
}
