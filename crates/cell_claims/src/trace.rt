//! The kept rounds of a recursion.
ghost use Rattle.std.specs.Prelude.{◌≡◌};

use std::marker::Model;

/// A round of exchanges that was kept.
#[derive(Clone, Copy, Debug, PartialEq, Eq)]
pub struct KeptRound {
    /// The level of its cell: 0 for all documents.
    pub level: u32,
    /// The place of the cell's first document in the order.
    pub start: u32,
    /// How many documents the cell has.
    pub size: u32,
    /// What the cell's halves cost before the round.
    pub before: i128,
    /// What they cost after it.
    pub after: i128,
    /// How many pairs of documents changed places.
    pub pairs: u32,
}

/// The kept rounds of a recursion. Contracts see the list of them.
#[derive(Drop)]
pub struct TraceList {
    value: Vec<KeptRound>,
}

impl Model for TraceList {
    ghost use Rattle.std.specs.Prelude.{List};
    ghost use Rattle.cell_claims.specs.declared.trace.KeptRound.{KeptRound};

    ghost Value = { List KeptRound };

    ghost view = { λ t. t.value.items };
}

impl TraceList {
    /// The kept rounds of a vector, which keeps its room.
    pub fn of(value: Vec<KeptRound>) -> TraceList
        ensures same { result ≡ value.items }
    {
        TraceList { value }
    }

    /// Lends the kept rounds.
    pub fn as_slice(&self) -> &[KeptRound]
        ensures same { result.now ≡ self.now }
    {
        &self.value
    }
}
