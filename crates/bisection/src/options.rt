//! What a recursion is made with.

/// How a recursion is made. Contracts want each number in its range.
#[derive(Clone, Copy, Debug, PartialEq, Eq)]
pub struct Options {
    /// How many levels of halving are made at most: 0 to 31.
    pub depth: u32,
    /// How many rounds of exchanges a halving makes at most: 0 to 100.
    pub rounds: u32,
    /// A cell of so many documents or fewer isn't halved: 1 to 2147483647.
    pub leaf: u32,
    /// How many threads share the work: 1 to 64. No result depends on it.
    pub workers: u32,
    /// How many levels a slab has: 1 to 31. No result depends on it.
    pub step: u32,
}
