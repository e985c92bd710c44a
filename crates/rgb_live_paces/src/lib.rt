//! Readers ask beside the publishing, and the branches of a fork run at the same time: runs of `live`
//! that only come to their end where a call which is held is let go by another.
#![tactic(auto)]

#[cfg(test)]
mod answers;
#[cfg(test)]
mod flag;
#[cfg(test)]
mod forks;
#[cfg(test)]
mod later;
#[cfg(test)]
mod publishings;
#[cfg(test)]
mod runs;
#[cfg(test)]
mod start;
