//! An index of any size that is the same on every machine: generated from a number.
#![tactic(auto)]

mod cursor;
mod draws;
mod index;
mod labels;
pub mod laws;
mod passes;

pub use index::generate;
