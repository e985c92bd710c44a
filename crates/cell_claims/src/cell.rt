//! What is claimed, and what is given back.
use crate::trace::TraceList;
use rgb_base::Ids;

/// A cell to be worked on.
#[derive(Drop)]
pub struct CellWork {
    /// Its place among the cells, from 0.
    pub place: u32,
    /// How many levels lie above it.
    pub level: u32,
    /// The place of its first document in the whole order.
    pub start: u32,
    /// Its documents, in the order in which they stand.
    pub docs: Ids,
}

/// A cell that was worked on.
#[derive(Drop)]
pub struct CellDone {
    /// The place of the cell that was claimed.
    pub place: u32,
    /// Its documents, in their new order.
    pub docs: Ids,
    /// The rounds that were kept in it.
    pub kept: TraceList,
}

/// What lies in the slot of a place.
#[derive(Drop)]
pub(crate) enum Slot {
    /// Nobody claimed the cell.
    Ready(CellWork),
    /// Whoever claimed the cell works on it.
    Away,
    /// The cell was given back.
    Done(CellDone),
}
