//! Recursive graph bisection: the numbering of the documents of a forward index.
#![tactic(auto)]

mod bisector;
mod cell;
mod descend;
mod desk;
mod desks;
pub mod laws;
mod next;
mod options;
mod recursion;
mod slab;

pub use bisector::Bisector;
pub use cell_claims::{CellDone, CellWork, ClaimSeat, Claims, KeptRound, TraceList};
pub use options::Options;
pub use recursion::reorder;
