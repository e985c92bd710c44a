//! The logarithm in fixed point, over which costs and gains are whole numbers.
#![tactic(auto)]

pub mod laws;
mod log;
mod table;

pub use log::lg;
pub use table::LogTable;

#[cfg(test)]
mod tests;
