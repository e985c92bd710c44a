//! Rows of `reorder`, worked out by hand.
#![tactic(auto)]

#[cfg(test)]
mod files;
#[cfg(test)]
mod options;
#[cfg(test)]
mod rounds;
