//! A seat: what one thread claims cells with.
ghost use Rattle.std.specs.Prelude.{◌≡◌, ◌<◌, [], IfSome, IfNone, Some, None};
ghost use Rattle.cell_claims.specs.Claims.{IsSeat, IsSeatOf, HasClaimed, HasEnded, fresh, gave};
ghost use Rattle.cell_claims.specs.Rule.{hand};
ghost use Rattle.cell_claims.specs.Kept.{hand_of};

use crate::cell::{CellDone, CellWork, Slot};
use crate::claims::Claims;
use crate::rule::Hand;
use atomic_table::Seat;
use std::marker::Model;

/// A seat of claims. Contracts see the numbers that it drew, the place of the cell that it holds
/// and the cells that it gave back.
#[derive(Drop)]
pub struct ClaimSeat {
    pub(crate) seat: Seat<Slot, Hand>,
    /// It drew a number for which there is no cell.
    pub(crate) over: bool,
}

impl Model for ClaimSeat {
    ghost use Rattle.cell_claims.specs.Claims.{Seated};

    ghost Value = { Seated };

    ghost use Rattle.cell_claims.specs.Kept.{seated_in, IsKept};

    ghost view = { seated_in };

    ghost invariant = { IsKept };
}

impl ClaimSeat {
    /// A seat that drew nothing.
    pub(crate) fn fresh(seat: Seat<Slot, Hand>) -> ClaimSeat
        requires share { 0 < seat.me.0.shares }
        requires none { seat.me ≡ (hand seat.me.0.cells seat.me.0.shares [] [], []) }
        ensures same { result ≡ fresh seat.table_id seat.me.0.cells seat.me.0.shares }
    {
        ClaimSeat { seat, over: false }
    }

    /// What is left of a seat that holds no cell.
    pub(crate) fn into_seat(self) -> Seat<Slot, Hand>
        requires free { self.held ≡ None }
        ensures id { result.table_id ≡ self.id }
        ensures same { result.me ≡ (hand_of self, []) }
        ensures sound { IsSeat self }
    {
        let ClaimSeat { seat, over: _ } = self;
        seat
    }

    /// What each seat keeps.
    pub fn is_sound(&self)
        ensures sound { IsSeat self.now }
    {
        let _ = &self.over;
    }

    /// Claims the next cell, or none where all were claimed.
    pub fn claim(&mut self, claims: &Claims) -> Option<CellWork>
        requires seat { IsSeatOf claims.now self.old }
        requires free { self.old.held ≡ None }
        ensures some { IfSome result (HasClaimed self.old self.new) }
        ensures none { IfNone result (HasEnded self.old self.new) }
    {
        if self.over {
            return None;
        }
        let number = claims.draw(&mut self.seat);
        if number >= claims.len() as u64 {
            self.over = true;
            return None;
        }
        Some(claims.take(&mut self.seat, number as usize))
    }

    /// Gives back the cell that it holds.
    pub fn give(&mut self, claims: &Claims, done: CellDone)
        requires seat { IsSeatOf claims.now self.old }
        requires held { self.old.held ≡ Some done.place }
        ensures given { self.new ≡ gave self.old done }
    {
        claims.put(&mut self.seat, done);
    }
}
