//! Runs of `live` in which the warning fails: the status and everything else stay as they are.
use rgb_base::NoPace;
use rgb_runs::{SIX, Setting, bytes_of, has_file, has_told, run_at_pace};
use std::test::Fail;

/// The words, the queries, the writes that fail, the status, and what was warned by then.
const ROWS: [(&str, &[u8], &[u64], u8, &str); 7] = [
    ("live in out queries --readers 17", b"a", &[1], 2, ""),
    ("live queries out queries", b"a", &[2], 3, "malf"),
    ("live in out no", b"a", &[1], 4, ""),
    ("live no out queries", b"a", &[3], 4, "read fau"),
    ("live in out queries", b"a", &[1, 2], 5, ""),
    ("live in out queries", b"a AND", &[2], 7, "quer"),
    ("live in out queries", b"a\n)", &[1], 7, ""),
];

#[test]
fn a_failing_warning_for_each_status(rt: HostRuntime) -> Result<(), Fail> {
    let six = bytes_of(rt.alloc(), SIX)?;
    for (words, queries, failing_writes, status, warned) in ROWS {
        let files = [("in", six.as_slice()), ("queries", queries)];
        let setting = Setting {
            failing_reads: &[],
            failing_writes,
            most: 4,
        };
        let (ended, host) = run_at_pace(&rt, words, &files, setting, &NoPace)?;
        assert_eq!(rt; ended, status, "{words}");
        assert!(rt; has_told(&host, "", warned), "{words}");
        assert!(rt; has_file(&host, "out", None), "{words}");
    }
    Ok(())
}
