//! What exchanges stand on.
use fixed_log::LogTable;
use forward_index::Forward;

/// Halves of fewer documents are not worth a thread each.
pub(crate) const MANY: usize = 8192;

/// A forward index, the logarithms up to more than its number of documents, and how many threads
/// share the work.
#[derive(Clone, Copy)]
pub struct Ground<'a> {
    pub forward: &'a Forward,
    pub logs: &'a LogTable,
    pub workers: u32,
}
