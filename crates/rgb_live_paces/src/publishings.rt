//! The publishing of version 1 is held until a reader answered.
use crate::flag::Flag;
use crate::runs::versions_at;
use rgb_base::Pace;
use rgb_live_runs::TWELVE_QUERIES;
use std::test::Fail;

/// Whether a reader answered.
#[derive(Drop)]
struct PublishWaits {
    answered: Flag,
}

impl Pace for PublishWaits {
    fn at_publish(&self, version: u32) {
        if version == 1 {
            self.answered.hold();
        }
    }

    fn at_answer(&self, _reader: u32, _query: u32) {
        self.answered.set();
    }

    fn at_fork(&self, _level: u32, _branch: u32) {}

    fn at_cell(&self, _level: u32, _place: u32) {}
}

/// So that answer is of version 0.
#[test]
fn publish_waits(rt: HostRuntime) -> Result<(), Fail> {
    let pace = PublishWaits {
        answered: Flag::new(),
    };
    let versions = versions_at(&rt, b"a\nNOT a", &TWELVE_QUERIES, &pace)?.ok_or("another run")?;
    assert!(rt; pace.answered.is_met());
    assert!(rt; versions.contains(&0));
    Ok(())
}
