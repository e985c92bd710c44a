//! The worked rows of the commands, run over a host in memory.
#![tactic(auto)]

#[cfg(test)]
mod copy;
#[cfg(test)]
mod fields;
#[cfg(test)]
mod renumbering;
#[cfg(test)]
mod report;
#[cfg(test)]
mod warnings;
#[cfg(test)]
mod words;
