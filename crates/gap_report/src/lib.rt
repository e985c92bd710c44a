//! What the gaps of an index cost in Elias's gamma and delta codes and as varints.
#![tactic(auto)]

mod costs;
pub mod laws;
mod tally;

pub use costs::Costs;
pub use tally::Tally;

#[cfg(test)]
mod tests;
