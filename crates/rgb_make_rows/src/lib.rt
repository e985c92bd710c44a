//! Rows of `make`.
#![tactic(auto)]

#[cfg(test)]
mod rows;
