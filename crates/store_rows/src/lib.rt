//! Searches in stores, worked out by hand.
#![tactic(auto)]

#[cfg(test)]
mod lengths;
#[cfg(test)]
mod long;
#[cfg(test)]
mod searches;
#[cfg(test)]
mod short;
