//! Writing an index as its canonical file, through one buffer and without memory.
#![tactic(auto)]

mod buffer;
mod error;
mod sizes;
mod write;

pub use error::WriteError;
pub use write::write_index;

#[cfg(test)]
mod tests;
