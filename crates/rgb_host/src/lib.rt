//! The outside as the program sees it: a trait, a host in memory that tells everything, and the
//! real one.
#![tactic(auto)]

mod file_map;
mod host;
pub mod laws;
mod memory;
mod numbers;
mod real;
mod write;

pub use file_map::FileMap;
pub use host::{Failed, Host};
pub use memory::MemoryHost;
pub use numbers::Numbers;
pub use real::RealHost;
pub use write::{print_all, warn_all, write_all};

#[cfg(test)]
mod real_tests;
#[cfg(test)]
mod tests;
