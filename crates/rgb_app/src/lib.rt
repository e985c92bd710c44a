//! The commands of the program, over a host.
#![tactic(auto)]

mod answers;
mod beside;
pub mod laws;
mod live_answers;
mod living;
mod merging;
mod plan;
mod printing;
mod publishing;
mod reading;
mod reordering;
mod running;
mod status;
mod text;

pub use running::{WordsFault, run, run_plain, run_words};
