//! Cells that threads claim, each once, and what becomes of them.
#![tactic(auto)]

mod cell;
mod claims;
mod rule;
mod seat;
mod trace;

pub use cell::{CellDone, CellWork};
pub use claims::Claims;
pub use seat::ClaimSeat;
pub use trace::{KeptRound, TraceList};
