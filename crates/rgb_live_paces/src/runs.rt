//! Runs over the index of twelve documents.
use rgb_base::Pace;
use rgb_live_runs::{Live, OF_TWELVE, TWELVE_BY_SLAB, TWELVE_NAMES, TWELVE_WORDS};
use rgb_runs::{ALL_WELL, TWELVE, TWELVE_REORDERED, bytes_of, has_file, run_at_pace};
use std::sync::Wait;
use std::test::Fail;
use std::thread::Threads;

/// The versions at which queries are answered beside two levels, each a slab, where the run ends as it
/// has to.
pub(crate) fn versions_at<R: Threads + Wait + Sync + AllocGlobal, P: Pace>(
    rt: &R,
    queries: &[u8],
    meant: &[(u32, u32)],
    pace: &P,
) -> Result<Option<Vec<usize>>, Fail> {
    let twelve = bytes_of(rt.alloc(), TWELVE)?;
    let written = bytes_of(rt.alloc(), TWELVE_REORDERED)?;
    let asked = Vec::from_slice(rt.alloc(), queries)?;
    let files = [("in", twelve.as_slice()), ("queries", asked.as_slice())];
    let (status, host) = run_at_pace(rt, TWELVE_WORDS, &files, ALL_WELL, pace)?;
    if status != 0 || !has_file(&host, "out", Some(&written)) {
        return Ok(None);
    }
    let live = Live {
        reordered: OF_TWELVE,
        readers: 2,
        queries: meant,
        versions: 3,
        documents: 12,
        orders: TWELVE_BY_SLAB,
        names: TWELVE_NAMES,
    };
    live.versions_of(rt.alloc(), host.printed())
}
