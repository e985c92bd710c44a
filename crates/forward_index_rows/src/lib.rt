//! Forward indexes worked out by hand.
#![tactic(auto)]

#[cfg(test)]
mod builds;
#[cfg(test)]
mod cells;
#[cfg(test)]
mod told;
