//! The forward index: the documents of an index as lists of their terms.
#![tactic(auto)]

mod bands;
mod build;
mod cell;
mod count;
mod fill;
mod forward;
pub mod laws;
mod start;

pub use forward::Forward;
pub use start::start_by_name;
