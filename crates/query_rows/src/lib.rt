//! Answers to queries over both kinds of store, worked out by hand.
#![tactic(auto)]

#[cfg(test)]
mod answers;
