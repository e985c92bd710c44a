//! The command that words spell: a table of commands, and the reading of a line by its row.
#![tactic(auto)]

mod command;
mod number;
mod part;
mod reordering;
mod table;

pub use command::{Command, command_of};
pub use reordering::Reordering;

#[cfg(test)]
mod tests;
