//! Rows of `query`.
#![tactic(auto)]

#[cfg(test)]
mod rows;
#[cfg(test)]
mod sizes;
