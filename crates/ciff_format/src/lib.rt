//! The definitions of the files that are accepted, refused and written, for the crates that read and write them.
#![tactic(auto)]

mod cause;
pub mod laws;
pub mod rows;

pub use cause::Cause;
