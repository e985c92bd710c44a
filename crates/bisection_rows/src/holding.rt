//! While the work on a cell of a slab is held, the other cells of the slab are claimed.

use crate::meeting::is_set;
use crate::told::options_of;
use bisection::reorder;
use forward_index::Forward;
use rgb_base::Pace;
use small_indexes::index_of;
use std::alloc::Global;
use std::sync::atomic::{AtomicBool, Ordering};
use std::test::Fail;
use std::thread::Threads;

/// The cell of one place at level 2 is held until those of the three other places were claimed.
#[derive(Drop)]
struct Holding {
    held: u32,
    claimed: [AtomicBool; 4],
    missed: AtomicBool,
}

impl Holding {
    /// Whether the cells of all places are claimed before the wait for one is given up.
    fn all_are_claimed(&self) -> bool {
        for flag in &self.claimed {
            if !is_set(flag) {
                return false;
            }
        }
        true
    }
}

impl Pace for Holding {
    fn at_publish(&self, _version: u32) {}

    fn at_answer(&self, _reader: u32, _query: u32) {}

    fn at_fork(&self, _level: u32, _branch: u32) {}

    fn at_cell(&self, level: u32, place: u32) {
        if level != 2 {
            return;
        }
        let Some(own) = self.claimed.get(place as usize) else {
            return;
        };
        own.store(true, Ordering::SeqCst);
        if place == self.held && !self.all_are_claimed() {
            self.missed.store(true, Ordering::SeqCst);
        }
    }
}

/// Whether all cells of the second slab are claimed by two threads while that of this place is held.
fn others_go_on<R: Threads + Sync>(rt: &R, alloc: Global, held: u32) -> Result<bool, Fail> {
    let Some(options) = options_of(3, 1, 2, 2) else {
        return Ok(false);
    };
    let index = index_of(alloc, "013 245", "d0 d1 d2 d3 d4 d5 d6 d7 d8 d9 d10 d11")?;
    let forward = Forward::build(rt, alloc, &index, 1, 1)?;
    let holding = Holding {
        held,
        claimed: [
            AtomicBool::new(false),
            AtomicBool::new(false),
            AtomicBool::new(false),
            AtomicBool::new(false),
        ],
        missed: AtomicBool::new(false),
    };
    reorder(rt, alloc, &forward, options, &holding)?;
    Ok(holding.all_are_claimed() && !holding.missed.load(Ordering::SeqCst))
}

#[test]
fn first_cell_is_held(rt: HostRuntime) -> Result<(), Fail> {
    assert!(rt; others_go_on(&rt, rt.alloc(), 0)?);
    Ok(())
}

#[test]
fn second_cell_is_held(rt: HostRuntime) -> Result<(), Fail> {
    assert!(rt; others_go_on(&rt, rt.alloc(), 1)?);
    Ok(())
}

#[test]
fn third_cell_is_held(rt: HostRuntime) -> Result<(), Fail> {
    assert!(rt; others_go_on(&rt, rt.alloc(), 2)?);
    Ok(())
}

#[test]
fn fourth_cell_is_held(rt: HostRuntime) -> Result<(), Fail> {
    assert!(rt; others_go_on(&rt, rt.alloc(), 3)?);
    Ok(())
}
