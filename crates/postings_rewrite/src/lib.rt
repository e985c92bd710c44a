//! An index whose documents get other numbers, and stores of the documents of its lists.
#![tactic(auto)]

mod block_tables;
mod blocks;
pub mod laws;
mod plain;
mod postings;
mod region;
mod renumbering;
mod room;
mod search;
mod store;
mod varints;

pub use blocks::BlockStore;
pub use plain::PlainStore;
pub use renumbering::renumber;
pub use store::{Place, PostingStore};

#[cfg(test)]
mod tests;
