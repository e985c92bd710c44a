//! What runs of `live` print, told from the versions that they name, for the crates of its rows.
#![tactic(auto)]

mod indexes;
mod live;
mod versions;

pub use indexes::{
    OF_TWELVE, TWELVE_BY_SLAB, TWELVE_IN_ONE_SLAB, TWELVE_NAMES, TWELVE_QUERIES, TWELVE_WORDS,
};
pub use live::Live;
