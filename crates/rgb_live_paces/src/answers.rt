//! The first reader that answered is held until the publishing of version 1 begins.
use crate::flag::Flag;
use crate::runs::versions_at;
use rgb_base::Pace;
use rgb_live_runs::TWELVE_QUERIES;
use std::sync::atomic::{AtomicBool, Ordering};
use std::test::Fail;

/// Whether version 1 is published, and a reader answered.
#[derive(Drop)]
struct AnswerWaits {
    published: Flag,
    answered: AtomicBool,
}

impl Pace for AnswerWaits {
    fn at_publish(&self, version: u32) {
        if version == 1 {
            self.published.set();
        }
    }

    fn at_answer(&self, _reader: u32, _query: u32) {
        if !self.answered.swap(true, Ordering::SeqCst) {
            self.published.hold();
        }
    }

    fn at_fork(&self, _level: u32, _branch: u32) {}

    fn at_cell(&self, _level: u32, _place: u32) {}
}

#[test]
fn answer_waits(rt: HostRuntime) -> Result<(), Fail> {
    let pace = AnswerWaits {
        published: Flag::new(),
        answered: AtomicBool::new(false),
    };
    assert!(rt; versions_at(&rt, b"a\nNOT a", &TWELVE_QUERIES, &pace)?.is_some());
    assert!(rt; pace.published.is_met());
    assert!(rt; pace.answered.load(Ordering::SeqCst));
    Ok(())
}
