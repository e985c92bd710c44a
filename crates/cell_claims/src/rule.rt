//! What each seat knows, and what each step tells it.
use crate::cell::{CellDone, CellWork, Slot};
use atomic_table::{Join, Play, Split, TableRule};
use std::collections::LinkedList;
use std::snapshot::Snapshot;

/// What a seat knows: the cells, its shares, the numbers that it drew and the cells that it gave
/// back. No value of it is made.
pub(crate) struct Hand {
    pub(crate) cells: LinkedList<CellWork>,
    pub(crate) shares: u64,
    pub(crate) drawn: LinkedList<u64>,
    pub(crate) given: LinkedList<CellDone>,
}

/// Each cell is claimed once.
pub(crate) struct ClaimRule;

impl TableRule<Slot, Hand, Snapshot<Vec<CellWork>>> for ClaimRule {
    ghost use Rattle.cell_claims.specs.Rule.{IsRuled, first_hand};

    ghost holds = { λ cells state. IsRuled cells.value.items state.words state.homes state.views };

    ghost first = { λ cells. first_hand cells.value.items };
}

/// A seat draws the next number.
pub(crate) struct Draws;

impl Play<Slot, Hand> for Draws {
    ghost use Rattle.cell_claims.specs.Rule.{HasDrawn};

    ghost then = { λ step before found after. HasDrawn before found after };
}

/// A seat lets go of the slot of a cell that is done.
pub(crate) struct Returns;

impl Play<Slot, Hand> for Returns {
    ghost use Rattle.cell_claims.specs.Rule.{HasReturned};

    ghost then = { λ step before found after. HasReturned before after };
}

/// A seat gives up one of its shares to a new seat.
pub(crate) struct OneShare;

impl Split<Hand> for OneShare {
    ghost use Rattle.cell_claims.specs.Rule.{one_less, one_share};

    ghost left = { one_less };

    ghost right = { one_share };
}

/// A seat takes in what another knows.
pub(crate) struct Both;

impl Join<Hand> for Both {
    ghost use Rattle.cell_claims.specs.Rule.{both_hands, empty_hand};

    ghost both = { both_hands };

    ghost spent = { empty_hand };
}
