//! Where the documents start in the order of their names, that order is version 1: a reader is held
//! until it is published, and the next publishing until the reader asked once more.
use crate::flag::Flag;
use rgb_base::Pace;
use rgb_live_runs::Live;
use rgb_runs::{ALL_WELL, SIX_REORDERED, bytes_of, run_at_pace};
use std::test::Fail;

/// Whether version 1 is published, and the second query was answered.
#[derive(Drop)]
struct StartIsAsked {
    published: Flag,
    answered: Flag,
}

impl Pace for StartIsAsked {
    fn at_publish(&self, version: u32) {
        if version == 2 {
            self.published.set();
            self.answered.hold();
        }
    }

    fn at_answer(&self, _reader: u32, query: u32) {
        if query == 0 {
            self.published.hold();
        } else {
            self.answered.set();
        }
    }

    fn at_fork(&self, _level: u32, _branch: u32) {}

    fn at_cell(&self, _level: u32, _place: u32) {}
}

const WORDS: &str = "live in out queries --start name --depth 1 --leaf 1 --readers 1";

/// Documents 2 and 3 stand in each other's place, and both queries are `a`.
const BY_NAME: Live<'static> = Live {
    reordered: "documents 6 lists 2 postings 6\nround 0 0 6 1 76672 -163200\n\
        before gamma 10 delta 10 bytes 6\nafter gamma 10 delta 10 bytes 6\n",
    readers: 1,
    queries: &[(1, 0b111), (2, 0b111)],
    versions: 3,
    documents: 6,
    orders: &[0, 1, 2, 3, 4, 5, 0, 1, 3, 2, 4, 5, 0, 1, 2, 3, 4, 5],
    names: "d0 d1 d3 d2 d4 d5",
};

#[test]
fn start_is_asked(rt: HostRuntime) -> Result<(), Fail> {
    let pace = StartIsAsked {
        published: Flag::new(),
        answered: Flag::new(),
    };
    let six = bytes_of(rt.alloc(), SIX_REORDERED)?;
    let files = [("in", six.as_slice()), ("queries", b"a\na".as_slice())];
    let (status, host) = run_at_pace(&rt, WORDS, &files, ALL_WELL, &pace)?;
    assert_eq!(rt; status, 0);
    let versions = BY_NAME
        .versions_of(rt.alloc(), host.printed())?
        .ok_or("another run")?;
    assert!(rt; pace.published.is_met() && pace.answered.is_met());
    assert_eq!(rt; versions.get(1).copied(), Some(1));
    Ok(())
}
