//! Several queries by several numbers of readers and of workers, beside `reorder` of the same words.
use rgb_base::NoPace;
use rgb_host::MemoryHost;
use rgb_live_runs::{Live, TWELVE_BY_SLAB, TWELVE_IN_ONE_SLAB, TWELVE_NAMES};
use rgb_runs::{ALL_WELL, TWELVE, bytes_of, has_file, run_at_pace, run_over};
use std::alloc::Global;
use std::str;
use std::sync::Wait;
use std::test::Fail;
use std::thread::Threads;

const QUERIES: &[u8] = b"a\n\nNOT a\nb\n \t\na AND b\r\na OR b\nNOT zzz\n\"a\"";

/// Their lines, and a bit for each document that they mean.
const MEANT: [(u32, u32); 7] = [
    (1, 0b1011),
    (3, 0b1111_1111_0100),
    (4, 0b11_0100),
    (6, 0),
    (7, 0b11_1111),
    (8, 0b1111_1111_1111),
    (9, 0b1011),
];

/// Whether a run beside so many readers leaves what the reordering left and prints such a text.
fn is_as_reordered(
    alloc: Global,
    host: &MemoryHost,
    reordered: &MemoryHost,
    readers: usize,
    versions: usize,
    orders: &[u32],
) -> Result<bool, Fail> {
    let live = Live {
        reordered: str::from_utf8(reordered.printed())?,
        readers,
        queries: &MEANT,
        versions,
        documents: 12,
        orders,
        names: TWELVE_NAMES,
    };
    Ok(
        host.file("out") == reordered.file("out")
            && has_file(host, "queries", Some(QUERIES))
            && host.warned().is_empty()
            && live.is_text(alloc, host.printed())?,
    )
}

/// Whether the options lead to such a text, beside so many readers.
fn is_beside<R: Threads + Wait + Sync + AllocGlobal>(
    rt: &R,
    options: &str,
    readers: usize,
    versions: usize,
    orders: &[u32],
) -> Result<bool, Fail> {
    let twelve = bytes_of(rt.alloc(), TWELVE)?;
    let files = [("in", twelve.as_slice()), ("queries", QUERIES)];
    let words = format!(in rt.alloc(); "reorder in out {options}")?;
    let (plain, reordered) = run_over(rt, &words, &files, ALL_WELL)?;
    let words = format!(in rt.alloc(); "live in out queries {options} --readers {readers}")?;
    let (status, host) = run_at_pace(rt, &words, &files, ALL_WELL, &NoPace)?;
    Ok(
        plain == 0
            && status == 0
            && is_as_reordered(rt.alloc(), &host, &reordered, readers, versions, orders)?,
    )
}

const READERS: [usize; 4] = [1, 2, 3, 16];

/// Whether the options lead to such a text, beside each number of readers.
fn are_beside<R: Threads + Wait + Sync + AllocGlobal>(
    rt: &R,
    options: &str,
    versions: usize,
    orders: &[u32],
) -> Result<bool, Fail> {
    for readers in READERS {
        if !is_beside(rt, options, readers, versions, orders)? {
            return Ok(false);
        }
    }
    Ok(true)
}

#[test]
fn by_one_worker(rt: HostRuntime) -> Result<(), Fail> {
    let options = "--depth 2 --leaf 1 --step 1 --workers 1";
    assert!(rt; are_beside(&rt, options, 3, TWELVE_BY_SLAB)?);
    Ok(())
}

#[test]
fn by_four_workers(rt: HostRuntime) -> Result<(), Fail> {
    let options = "--depth 2 --leaf 1 --step 1 --workers 4";
    assert!(rt; are_beside(&rt, options, 3, TWELVE_BY_SLAB)?);
    Ok(())
}

#[test]
fn in_one_slab(rt: HostRuntime) -> Result<(), Fail> {
    let options = "--depth 2 --leaf 1 --workers 4";
    assert!(rt; are_beside(&rt, options, 2, TWELVE_IN_ONE_SLAB)?);
    Ok(())
}

/// Version 0 alone.
const NO_SLAB: &[u32] = &[0, 1, 2, 3, 4, 5, 6, 7, 8, 9, 10, 11];

/// With no level, version 0 is the last.
#[test]
fn without_a_slab(rt: HostRuntime) -> Result<(), Fail> {
    assert!(rt; are_beside(&rt, "--depth 0", 1, NO_SLAB)?);
    Ok(())
}
