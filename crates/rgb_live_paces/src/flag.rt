//! A flag that one call sets and another waits for.
use std::sync::atomic::{AtomicBool, Ordering};

/// How often a flag is looked at before the wait is given up.
const LOOKS: u32 = 200_000_000;

/// A call that was made, and whether a wait for it was given up.
#[derive(Drop)]
pub(crate) struct Flag {
    made: AtomicBool,
    missed: AtomicBool,
}

impl Flag {
    pub(crate) fn new() -> Flag {
        Flag {
            made: AtomicBool::new(false),
            missed: AtomicBool::new(false),
        }
    }

    /// The call is made.
    pub(crate) fn set(&self) {
        self.made.store(true, Ordering::SeqCst);
    }

    /// Holds the caller until the call is made.
    pub(crate) fn hold(&self) {
        for _ in 0..LOOKS {
            if self.made.load(Ordering::SeqCst) {
                return;
            }
        }
        self.missed.store(true, Ordering::SeqCst);
    }

    /// Whether the call was made, and no wait for it was given up.
    pub(crate) fn is_met(&self) -> bool {
        self.made.load(Ordering::SeqCst) && !self.missed.load(Ordering::SeqCst)
    }
}
