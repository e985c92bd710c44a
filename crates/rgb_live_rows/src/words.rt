//! Words of `live` that are no command.
use rgb_base::NoPace;
use rgb_host::MemoryHost;
use rgb_runs::{ALL_WELL, SIX, bytes_of, has_file, has_told, run_at_pace};
use std::test::Fail;

const REFUSED: [&str; 22] = [
    "live",
    "live in",
    "live in out",
    "live in out queries more",
    "Live in out queries",
    "live in out queries --readers 0",
    "live in out queries --readers 17",
    "live in out queries --readers 2 --readers 2",
    "live in out queries --readers",
    "live in out queries --readers two",
    "live in out queries --readers=2",
    "live in out --readers 2",
    "live in out queries --number 1",
    "live in out queries --workers 65",
    "live in out queries --workers 0",
    "live in out queries --depth 32",
    "live in out queries --rounds 101",
    "live in out queries --leaf 0",
    "live in out queries --step 0",
    "live in out queries --step 32",
    "live in out queries --min-df 0",
    "live in out queries --start doc",
];

/// Whether the line of refused words was warned, and nothing else was done.
fn is_left(host: &MemoryHost, six: &[u8]) -> bool {
    has_told(host, "", "usage\n")
        && has_file(host, "in", Some(six))
        && has_file(host, "out", None)
        && has_file(host, "queries", Some(b"a"))
}

#[test]
fn words_that_are_no_command(rt: HostRuntime) -> Result<(), Fail> {
    let six = bytes_of(rt.alloc(), SIX)?;
    let files = [("in", six.as_slice()), ("queries", b"a".as_slice())];
    for words in REFUSED {
        let (status, host) = run_at_pace(&rt, words, &files, ALL_WELL, &NoPace)?;
        assert_eq!(rt; status, 2, "{words}");
        assert!(rt; is_left(&host, &six), "{words}");
    }
    Ok(())
}

const ACCEPTED: [&str; 5] = [
    "live in out queries --readers 1",
    "live in out queries --readers 0000000016",
    "live --workers 64 in --step 31 out --rounds 0 queries",
    "live in out --start number queries --min-df 2147483647",
    "live in out queries --depth 31 --leaf 2147483647",
];

#[test]
fn words_at_the_ends_of_their_ranges(rt: HostRuntime) -> Result<(), Fail> {
    let six = bytes_of(rt.alloc(), SIX)?;
    let files = [("in", six.as_slice()), ("queries", b"a".as_slice())];
    for words in ACCEPTED {
        let (status, _) = run_at_pace(&rt, words, &files, ALL_WELL, &NoPace)?;
        assert_eq!(rt; status, 0, "{words}");
    }
    Ok(())
}
