//! Boolean queries over the terms of an index: their grammar, their faults and their meaning.
#![tactic(auto)]

pub mod answer_laws;
mod dictionary;
mod error;
mod evaluation;
pub mod laws;
mod level;
mod listed;
mod merge;
mod parser;
mod parsing;
mod query;
mod token;
mod turns;

pub use dictionary::Dictionary;
pub use error::{ParseError, QueryCause, QueryFault};
pub use evaluation::evaluate;
pub use parsing::parse;
pub use query::{Parts, Query};

#[cfg(test)]
mod tests;
