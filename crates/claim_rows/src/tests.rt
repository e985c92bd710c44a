//! Which places seats claim that take turns, and what is left of the cells.
ghost use Rattle.std.specs.Prelude.{◌≡◌, ◌<◌, ◌≤◌, length};
ghost use Rattle.cell_claims.specs.Numbers.{late};
ghost use Rattle.cell_claims.specs.Claims.{AreInPlace, AreBack, drawn_by};

use crate::turns::{cells, turn};
use cell_claims::{ClaimSeat, Claims};
use std::alloc::{AllocError, Global};
use std::test::Fail;

/// Adds a place to a text, or a dash.
fn tell(alloc: Global, place: Option<u32>, text: &mut String) -> Result<(), AllocError> {
    match place {
        Some(place) => text.push_str(&format!(in alloc; "{place} ")?),
        None => text.push_str("- "),
    }
}

/// Lets seats take turns, and tells the place of each turn. A seat that isn't there has none.
fn take_turns(
    alloc: Global,
    claims: &Claims,
    seats: &mut Vec<ClaimSeat>,
    turns: &[usize],
) -> Result<String, AllocError>
    requires cells { AreInPlace claims.now.cells }
    requires back { AreBack claims.now seats.old.items }
    ensures back { AreBack claims.now seats.new.items }
    ensures len { length seats.new.items ≡ length seats.old.items }
{
    let mut text = String::new(alloc);
    for seat in turns {
        if *seat < seats.len() {
            let place = turn(alloc, claims, seats, *seat);
            tell(alloc, place, &mut text)?;
        }
    }
    Ok(text)
}

/// Lets so many seats of so many cells take these turns, and the first seat one turn more. Tells the
/// place of each turn, and then the places that closing gives, unless the last turn had a cell.
fn told(alloc: Global, count: u32, seats: u32, turns: &[usize]) -> Result<String, Fail>
    requires some { 0 < seats }
    requires most { seats ≤ 64 }
{
    let (claims, mut seats) = Claims::new(alloc, cells(alloc, count)?, seats)?;
    let mut text = take_turns(alloc, &claims, &mut seats, turns)?;
    if turn(alloc, &claims, &mut seats, 0).is_some() {
        return Ok(text);
    }
    text.push_str("/ ")?;
    for done in claims.close(alloc, seats)? {
        tell(alloc, Some(done.place), &mut text)?;
    }
    Ok(text)
}

#[test]
fn one_seat_has_all_cells_in_order(rt: HostRuntime) -> Result<(), Fail> {
    let text = told(rt.alloc(), 3, 1, &[0, 0, 0, 0])?;
    assert_eq!(rt; text.as_str(), "0 1 2 - / 0 1 2 ");
    Ok(())
}

#[test]
fn two_seats_share_the_cells(rt: HostRuntime) -> Result<(), Fail> {
    let text = told(rt.alloc(), 3, 2, &[1, 0, 0, 1, 1, 0])?;
    assert_eq!(rt; text.as_str(), "0 1 2 - - - / 0 1 2 ");
    Ok(())
}

#[test]
fn seats_without_a_cell(rt: HostRuntime) -> Result<(), Fail> {
    let text = told(rt.alloc(), 1, 4, &[3, 2, 1, 0])?;
    assert_eq!(rt; text.as_str(), "0 - - - / 0 ");
    Ok(())
}

#[test]
fn no_cells(rt: HostRuntime) -> Result<(), Fail> {
    let text = told(rt.alloc(), 0, 64, &[5, 63])?;
    assert_eq!(rt; text.as_str(), "- - / ");
    Ok(())
}
