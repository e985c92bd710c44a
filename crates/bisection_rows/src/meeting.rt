//! Both branches of a fork run at the same time.
ghost use Rattle.bisection.specs.Progress.{AreOptions};

use crate::told::options_of;
use bisection::{Options, reorder};
use forward_index::Forward;
use rgb_base::Pace;
use small_indexes::index_of;
use std::alloc::Global;
use std::sync::atomic::{AtomicBool, Ordering};
use std::test::Fail;
use std::thread::Threads;

/// How often a flag is looked at before the wait is given up.
const LOOKS: u32 = 200_000_000;

/// Each branch of the fork at level 0 is held until the other was called.
#[derive(Drop)]
struct Meeting {
    first: AtomicBool,
    second: AtomicBool,
    missed: AtomicBool,
}

/// Whether the flag is set before so many looks are over.
pub(crate) fn is_set(flag: &AtomicBool) -> bool {
    for _ in 0..LOOKS {
        if flag.load(Ordering::SeqCst) {
            return true;
        }
    }
    false
}

impl Meeting {
    // Sets the own flag, and waits for the other.
    fn meet(&self, own: &AtomicBool, other: &AtomicBool) {
        own.store(true, Ordering::SeqCst);
        if !is_set(other) {
            self.missed.store(true, Ordering::SeqCst);
        }
    }
}

impl Pace for Meeting {
    fn at_publish(&self, _version: u32) {}

    fn at_answer(&self, _reader: u32, _query: u32) {}

    fn at_fork(&self, level: u32, branch: u32) {
        if level != 0 {
            return;
        }
        if branch == 0 {
            self.meet(&self.first, &self.second);
        } else {
            self.meet(&self.second, &self.first);
        }
    }

    fn at_cell(&self, _level: u32, _place: u32) {}
}

/// Whether the branches of a recursion by these options met.
fn have_met<R: Threads + Sync>(
    rt: &R,
    alloc: Global,
    forward: &Forward,
    options: Options,
) -> Result<bool, Fail>
    requires { AreOptions options }
{
    let meeting = Meeting {
        first: AtomicBool::new(false),
        second: AtomicBool::new(false),
        missed: AtomicBool::new(false),
    };
    reorder(rt, alloc, forward, options, &meeting)?;
    Ok(meeting.second.load(Ordering::SeqCst) && !meeting.missed.load(Ordering::SeqCst))
}

/// Whether the branches of a recursion by two threads meet.
fn meet<R: Threads + Sync>(rt: &R, alloc: Global) -> Result<bool, Fail> {
    let Some(options) = options_of(2, 1, 2, 4) else {
        return Ok(false);
    };
    let index = index_of(alloc, "013 245", "a b c d e f")?;
    let forward = Forward::build(rt, alloc, &index, 1, 1)?;
    have_met(rt, alloc, &forward, options)
}

#[test]
fn both_branches_meet(rt: HostRuntime) -> Result<(), Fail> {
    assert!(rt; meet(&rt, rt.alloc())?);
    Ok(())
}
