//! Cells of a forward index over their own rows.
use crate::told::told;
use forward_index::Forward;
use small_indexes::{are_below, index_of, numbers_of, rise};
use std::alloc::Global;
use std::test::Fail;
use std::thread::Threads;

/// The cell of the places with these digits.
fn cell_of(alloc: Global, whole: &Forward, places: &str) -> Result<Option<Forward>, Fail> {
    let places = numbers_of(alloc, places)?;
    if !rise(&places) || !are_below(&places, whole.docs()) {
        return Ok(None);
    }
    Ok(Some(whole.cell(alloc, &places)?))
}

/// Whether the cell of these places of an index, and the cell of those places of it, are these texts.
fn are_cells<R: Threads + Sync>(
    rt: &R,
    alloc: Global,
    lists: &str,
    outer: (&str, &str),
    inner: (&str, &str),
) -> Result<bool, Fail> {
    let index = index_of(alloc, lists, "d0 d1 d2 d3 d4 d5 d6 d7")?;
    let whole = Forward::build(rt, alloc, &index, 1, 2)?;
    let Some(cell) = cell_of(alloc, &whole, outer.0)? else {
        return Ok(false);
    };
    let Some(part) = cell_of(alloc, &cell, inner.0)? else {
        return Ok(false);
    };
    Ok(told(alloc, &cell)?.as_str() == outer.1 && told(alloc, &part)?.as_str() == inner.1)
}

const FOUR_LISTS: &str = "02 13 012 123";

#[test]
fn a_cell_of_all_places_is_the_whole(rt: HostRuntime) -> Result<(), Fail> {
    let all = ("0123", "4 0:0,2 1:1,2,3 2:0,2,3 3:1,3");
    assert!(rt; are_cells(&rt, rt.alloc(), FOUR_LISTS, all, ("", "0"))?);
    Ok(())
}

#[test]
fn a_cell_has_its_own_terms(rt: HostRuntime) -> Result<(), Fail> {
    let two = ("13", "3 0:0,1,2 1:0,2");
    assert!(rt; are_cells(&rt, rt.alloc(), FOUR_LISTS, two, ("1", "2 0:0,1"))?);
    Ok(())
}

#[test]
fn a_cell_of_empty_rows_has_no_terms(rt: HostRuntime) -> Result<(), Fail> {
    let empty = ("67", "0 0 1");
    assert!(rt; are_cells(&rt, rt.alloc(), "013 245", empty, ("0", "0 0"))?);
    Ok(())
}
