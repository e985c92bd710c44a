//! How often each term stands in the two halves of a cell, and what the halves cost.
#![tactic(auto)]

mod counts;
pub mod laws;
mod pair;
mod table;

pub use table::Degrees;

#[cfg(test)]
mod tests;
