//! Rows of many files: refused, cut, changed in a byte, and spelled in another way.
#![tactic(auto)]

#[cfg(test)]
mod changed_bytes;
#[cfg(test)]
mod cuts;
#[cfg(test)]
mod loose;
#[cfg(test)]
mod malformed;
