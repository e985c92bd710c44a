//! Reading a CIFF file as an index, piece by piece as the host gives it.
#![tactic(auto)]

mod content;
mod costs;
mod counted;
mod documents;
mod end;
mod error;
mod front;
mod gaps;
mod header;
mod heading;
mod list;
mod lists;
mod message;
mod open_list;
mod posting;
mod read;
mod record;
mod records;
mod run;
mod short;
mod short_record;
mod waiting;
mod window;

pub use costs::{IndexCosts, read_costs};
pub use error::ReadError;
pub use read::read_index;

#[cfg(test)]
mod list_tests;
#[cfg(test)]
mod record_tests;
#[cfg(test)]
mod short_tests;
#[cfg(test)]
mod test_files;
#[cfg(test)]
mod tests;
