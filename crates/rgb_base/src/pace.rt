//! Where a caller may hold the work of other threads: tests order threads with it, the program
//! doesn't.

/// Calls made between the steps of the work. Each returns and promises nothing.
pub trait Pace: Sync {
    /// Before a version is published.
    fn at_publish(&self, version: u32);

    /// After a reader answered a query while the work went on.
    fn at_answer(&self, reader: u32, query: u32);

    /// At the start of each branch, 0 and 1, of a fork at a level of the recursion.
    fn at_fork(&self, level: u32, branch: u32);

    /// After a cell was claimed, named by its level and its place in its slab, before its work.
    fn at_cell(&self, level: u32, place: u32);
}

/// Holds nothing.
#[derive(Clone, Copy, Debug, Default, PartialEq, Eq)]
pub struct NoPace;

impl Pace for NoPace {
    fn at_publish(&self, _version: u32) {}

    fn at_answer(&self, _reader: u32, _query: u32) {}

    fn at_fork(&self, _level: u32, _branch: u32) {}

    fn at_cell(&self, _level: u32, _place: u32) {}
}
