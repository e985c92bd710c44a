//! How an index is to be reordered.

/// The options of a reordering, each in its range.
#[derive(Clone, Copy, Debug, PartialEq, Eq)]
pub struct Reordering {
    /// How many levels of halving are made at most: 0 to 31.
    pub depth: u32,
    /// How many rounds of exchanges a halving makes at most: 0 to 100.
    pub rounds: u32,
    /// A cell of so many documents or fewer isn't halved: 1 to 2147483647.
    pub leaf: u32,
    /// How many threads share the work: 1 to 64.
    pub workers: u32,
    /// How many levels a slab has: 1 to 31.
    pub step: u32,
    /// A list of fewer postings has no part in costs and gains: 1 to 2147483647.
    pub min_df: u32,
    /// Whether the documents stand in the order of their names at the start, or of their numbers.
    pub by_name: bool,
}
