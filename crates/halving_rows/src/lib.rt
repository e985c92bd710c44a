//! Halvings of cells worked out by hand, and of made indexes beside a plain program.
#![tactic(auto)]

#[cfg(test)]
mod given;
#[cfg(test)]
mod halvings;
#[cfg(test)]
mod made;
#[cfg(test)]
mod plain;
