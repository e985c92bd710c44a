//! Files of queries: a query a line, numbered from 1.
#![tactic(auto)]

mod bytes;
mod error;
pub mod laws;
mod lines;
mod queries;

pub use error::{LineCause, LineFault, QueriesError};
pub use queries::{NumberedQuery, read_queries};

#[cfg(test)]
mod tests;
