//! A live index: readers answer queries over the newest numbering that they have seen, while one
//! publisher puts new numberings of the documents in place of the old ones.
#![tactic(auto)]

mod answer;
mod entering;
mod history;
pub mod laws;
mod note;
mod opening;
mod plan;
mod publisher;
mod reader;
mod rule;
mod view;
mod writing;

pub use answer::Answer;
pub use history::History;
pub use note::Note;
pub use opening::open;
pub use plan::{Listed, Plan};
pub use publisher::Publisher;
pub use reader::LiveReader;

#[cfg(test)]
mod tests;
