//! Recursions worked out by hand.
#![tactic(auto)]

#[cfg(test)]
mod holding;
#[cfg(test)]
mod meeting;
#[cfg(test)]
mod recursions;
#[cfg(test)]
mod slabs;
#[cfg(test)]
mod told;
