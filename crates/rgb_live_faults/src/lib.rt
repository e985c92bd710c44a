//! Rows of `live` in which each call of the host fails in turn.
#![tactic(auto)]

#[cfg(test)]
mod faults;
#[cfg(test)]
mod warnings;
