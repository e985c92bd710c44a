//! Files of queries at their limits: their size, and how much may be open at once.
use crate::rows::{End, ends_so};
use rgb_runs::{SIX, bytes_of};
use std::alloc::Global;
use std::test::Fail;
use std::thread::Threads;

/// The byte, so many times.
fn repeated(alloc: Global, byte: u8, count: usize) -> Result<Vec<u8>, Fail> {
    Ok(vec![in alloc; byte; count]?)
}

/// Whether the queries over `SIX` end so.
fn ends_over_six<R: Threads + Sync + AllocGlobal>(
    rt: &R,
    queries: &[u8],
    end: End<'_>,
) -> Result<bool, Fail> {
    let six = bytes_of(rt.alloc(), SIX)?;
    ends_so(rt, &six, queries, end)
}

/// The queries are answered by this text.
fn answered(printed: &str) -> End<'_> {
    End {
        status: 0,
        printed,
        warned: "",
    }
}

/// The queries are too long.
const TOO_LONG: End<'static> = End {
    status: 8,
    printed: "",
    warned: "queries too long\n",
};

/// They have a parenthesis too many.
const TOO_DEEP: End<'static> = End {
    status: 7,
    printed: "",
    warned: "query 1 64 TooDeep\n",
};

#[test]
fn as_many_bytes_as_may_be(rt: HostRuntime) -> Result<(), Fail> {
    let feeds = repeated(rt.alloc(), b'\n', 0x100_0000)?;
    assert!(rt; ends_over_six(&rt, &feeds, answered(""))?);
    Ok(())
}

#[test]
fn one_line_of_as_many_bytes(rt: HostRuntime) -> Result<(), Fail> {
    let word = repeated(rt.alloc(), b'a', 0x100_0000)?;
    assert!(rt; ends_over_six(&rt, &word, answered("query 1 matches 0\n"))?);
    Ok(())
}

#[test]
fn one_byte_more(rt: HostRuntime) -> Result<(), Fail> {
    let feeds = repeated(rt.alloc(), b'\n', 0x100_0001)?;
    assert!(rt; ends_over_six(&rt, &feeds, TOO_LONG)?);
    // Whatever the bytes are.
    let bytes = repeated(rt.alloc(), 0xff, 0x100_0001)?;
    assert!(rt; ends_over_six(&rt, &bytes, TOO_LONG)?);
    Ok(())
}

/// A term in so many parentheses.
fn nested(alloc: Global, count: usize) -> Result<Vec<u8>, Fail> {
    let mut query = repeated(alloc, b'(', count)?;
    query.push(b'a')?;
    query.extend_from_slice(&repeated(alloc, b')', count)?)?;
    Ok(query)
}

#[test]
fn open_at_once(rt: HostRuntime) -> Result<(), Fail> {
    let query = nested(rt.alloc(), 64)?;
    let printed = "query 1 matches 3\n0 d0\n1 d1\n3 d3\n";
    assert!(rt; ends_over_six(&rt, &query, answered(printed))?);
    let query = nested(rt.alloc(), 65)?;
    assert!(rt; ends_over_six(&rt, &query, TOO_DEEP)?);
    Ok(())
}
