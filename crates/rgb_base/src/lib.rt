//! The types that every crate shares: texts, postings, an index and a permutation of its documents.
#![tactic(auto)]

mod builder;
mod checks;
mod columns;
mod error;
mod index;
pub mod laws;
mod lists_and_texts;
mod marks;
mod pace;
mod parts;
mod permutation;

pub use builder::IndexBuilder;
pub use error::{BuildError, OrderError, OutOfMemory, PartsError};
pub use index::Index;
pub use lists_and_texts::{Ids, Postings, Text};
pub use pace::{NoPace, Pace};
pub use parts::{DocRecord, Header, Posting, Side, TermList};
pub use permutation::Permutation;

#[cfg(test)]
mod builder_tests;
#[cfg(test)]
mod table_tests;
#[cfg(test)]
mod tests;
