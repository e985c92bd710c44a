//! What rows start from.
use forward_index::Forward;
use small_indexes::index_of;
use std::alloc::Global;
use std::test::Fail;
use std::thread::Threads;

/// The forward index of a small index.
pub(crate) fn forward_of<R: Threads + Sync>(
    rt: &R,
    alloc: Global,
    lists: &str,
    names: &str,
) -> Result<Forward, Fail> {
    let index = index_of(alloc, lists, names)?;
    Ok(Forward::build(rt, alloc, &index, 1, 1)?)
}
