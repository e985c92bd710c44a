//! Seats that take turns.
ghost use Rattle.std.specs.Prelude.{◌≡◌, ◌<◌, ◌≤◌, length, IfOk, IfSome, IfNone, None};
ghost use Rattle.cell_claims.specs.Numbers.{late};
ghost use Rattle.cell_claims.specs.Claims.{AreInPlace, IsSeatOf, AreBack, drawn_by};

use cell_claims::{CellDone, CellWork, ClaimSeat, Claims, TraceList};
use rgb_base::{Ids, OutOfMemory};
use std::alloc::Global;

/// So many cells, which begin at their places and have no documents.
pub(crate) fn cells(alloc: Global, count: u32) -> Result<Vec<CellWork>, OutOfMemory>
    ensures places { IfOk result (λ cells. AreInPlace cells.items) }
    ensures len { IfOk result (λ cells. length cells.items ≡ count) }
{
    let mut cells = Vec::with_capacity(alloc, count as usize)?;
    for place in 0..count {
        cells.push(CellWork {
            place,
            level: 2,
            start: place,
            docs: Ids::of(Vec::new(alloc)),
        })?;
    }
    Ok(cells)
}

/// A seat claims the next cell and gives it back. The answer is the cell's place.
fn step(alloc: Global, claims: &Claims, seat: &mut ClaimSeat) -> Option<u32>
    requires cells { AreInPlace claims.now.cells }
    requires seat { IsSeatOf claims.now seat.old }
    requires free { seat.old.held ≡ None }
    ensures seat { IsSeatOf claims.now seat.new }
    ensures free { seat.new.held ≡ None }
    ensures shares { seat.new.shares ≡ seat.old.shares }
    ensures over { IfNone result (0 < late (length claims.now.cells) seat.new.drawn) }
{
    match seat.claim(claims) {
        None => None,
        Some(CellWork { place, docs, .. }) => {
            let kept = TraceList::of(Vec::new(alloc));
            seat.give(claims, CellDone { place, docs, kept });
            Some(place)
        }
    }
}

/// One of the seats claims the next cell and gives it back. The answer is the cell's place.
pub(crate) fn turn(
    alloc: Global,
    claims: &Claims,
    seats: &mut Vec<ClaimSeat>,
    seat: usize,
) -> Option<u32>
    requires cells { AreInPlace claims.now.cells }
    requires within { seat < length seats.old.items }
    requires back { AreBack claims.now seats.old.items }
    ensures back { AreBack claims.now seats.new.items }
    ensures len { length seats.new.items ≡ length seats.old.items }
    ensures over { IfNone result
        (0 < late (length claims.now.cells) (drawn_by seats.new.items)) }
{
    step(alloc, claims, &mut seats[seat])
}
