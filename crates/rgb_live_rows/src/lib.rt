//! Rows of `live`.
#![tactic(auto)]

#[cfg(test)]
mod ends;
#[cfg(test)]
mod many;
#[cfg(test)]
mod plain;
#[cfg(test)]
mod rows;
#[cfg(test)]
mod small;
#[cfg(test)]
mod texts;
#[cfg(test)]
mod words;
