//! Gains and rounds of exchanges worked out by hand.
#![tactic(auto)]

#[cfg(test)]
mod gains;
#[cfg(test)]
mod loaded;
#[cfg(test)]
mod rounds;
