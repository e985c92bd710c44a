//! Both branches of a fork of the recursion run at the same time.
use crate::flag::Flag;
use rgb_base::Pace;
use rgb_live_runs::OF_TWELVE;
use rgb_runs::{ALL_WELL, TWELVE, TWELVE_REORDERED, bytes_of, has_file, has_told, run_at_pace};
use std::test::Fail;

/// Whether each branch of the fork at level 0 was called, which the other is held for.
#[derive(Drop)]
struct ForkMeets {
    first: Flag,
    second: Flag,
}

impl Pace for ForkMeets {
    fn at_publish(&self, _version: u32) {}

    fn at_answer(&self, _reader: u32, _query: u32) {}

    fn at_fork(&self, level: u32, branch: u32) {
        if level != 0 {
            return;
        }
        if branch == 0 {
            self.first.set();
            self.second.hold();
        } else {
            self.second.set();
            self.first.hold();
        }
    }

    fn at_cell(&self, _level: u32, _place: u32) {}
}

const WORDS: &str = "live in out queries --workers 2 --depth 2 --leaf 1 --step 4";

#[test]
fn fork_meets(rt: HostRuntime) -> Result<(), Fail> {
    let pace = ForkMeets {
        first: Flag::new(),
        second: Flag::new(),
    };
    let twelve = bytes_of(rt.alloc(), TWELVE)?;
    let written = bytes_of(rt.alloc(), TWELVE_REORDERED)?;
    let files = [("in", twelve.as_slice()), ("queries", b"".as_slice())];
    let (status, host) = run_at_pace(&rt, WORDS, &files, ALL_WELL, &pace)?;
    let printed = format!(in rt.alloc(); "{OF_TWELVE}readers 2\n")?;
    assert_eq!(rt; status, 0);
    assert!(rt; has_told(&host, &printed, "") && has_file(&host, "out", Some(&written)));
    assert!(rt; pace.first.is_met() && pace.second.is_met());
    Ok(())
}
