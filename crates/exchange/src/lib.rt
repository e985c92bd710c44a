//! One round of exchanges between the halves of a cell, and the halving of a cell.
#![tactic(auto)]

mod entry;
mod ground;
mod halves;
mod halving;
pub mod laws;
mod moves;
mod round;
mod scratch;
mod tries;

pub use ground::Ground;
pub use halving::{KeptList, halve};
pub use moves::{gain, gains};
pub use round::{Kept, Round, one_round};
pub use scratch::Scratch;
