//! A live index whose readers ask in threads of their own while it is renumbered, beside plain sets.
#![tactic(auto)]

#[cfg(test)]
mod asking;
#[cfg(test)]
mod rows;
