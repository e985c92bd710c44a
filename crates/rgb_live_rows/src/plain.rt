//! Words of other commands, by the call that does every command and by the one that does the plain ones.
use rgb_base::NoPace;
use rgb_host::MemoryHost;
use rgb_runs::{ALL_WELL, SIX, bytes_of, run_at_pace, run_over};
use std::sync::Wait;
use std::test::Fail;
use std::thread::Threads;

/// Whether two hosts hold the same files and texts.
fn are_alike(one: &MemoryHost, other: &MemoryHost) -> bool {
    one.printed() == other.printed()
        && one.warned() == other.warned()
        && one.file("in") == other.file("in")
        && one.file("queries") == other.file("queries")
        && one.file("out") == other.file("out")
}

/// Whether both calls end alike.
fn end_alike<R: Threads + Wait + Sync + AllocGlobal>(
    rt: &R,
    words: &str,
    files: &[(&str, &[u8])],
) -> Result<bool, Fail> {
    let (status, host) = run_at_pace(rt, words, files, ALL_WELL, &NoPace)?;
    let (plain, other) = run_over(rt, words, files, ALL_WELL)?;
    Ok(status == plain && are_alike(&host, &other))
}

const WORDS: [&str; 15] = [
    "",
    "copy in out",
    "copy in in",
    "copy in",
    "copy no out",
    "copy queries out",
    "report in --workers 3",
    "report in --workers 65",
    "reorder in out --depth 1 --leaf 1",
    "reorder in out --readers 2",
    "query in queries",
    "query in no",
    "query in queries --readers 2",
    "make 3 out --workers 2",
    "make x out",
];

#[test]
fn other_commands(rt: HostRuntime) -> Result<(), Fail> {
    let six = bytes_of(rt.alloc(), SIX)?;
    for queries in [b"a\nNOT a".as_slice(), b"a b"] {
        let files = [("in", six.as_slice()), ("queries", queries)];
        for words in WORDS {
            assert!(rt; end_alike(&rt, words, &files)?, "{words}");
        }
    }
    Ok(())
}
