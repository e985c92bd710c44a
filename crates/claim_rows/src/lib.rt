//! Cells claimed by one seat, by several in turn, and by several threads.
#![tactic(auto)]

#[cfg(test)]
mod tests;
mod turns;
