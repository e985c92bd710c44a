//! Each reader is held after its first answer until version 1 is published, and asks once more.
use crate::flag::Flag;
use crate::runs::versions_at;
use rgb_base::Pace;
use std::test::Fail;

/// Whether the publishing of version 2 begins: version 1 is published then.
#[derive(Drop)]
struct LaterAnswer {
    published: Flag,
}

impl Pace for LaterAnswer {
    fn at_publish(&self, version: u32) {
        if version == 2 {
            self.published.set();
        }
    }

    fn at_answer(&self, _reader: u32, query: u32) {
        if query < 2 {
            self.published.hold();
        }
    }

    fn at_fork(&self, _level: u32, _branch: u32) {}

    fn at_cell(&self, _level: u32, _place: u32) {}
}

/// The queries `a`, `NOT a`, `a` and `b`.
const MEANT: [(u32, u32); 4] = [
    (1, 0b1011),
    (2, 0b1111_1111_0100),
    (3, 0b1011),
    (4, 0b11_0100),
];

#[test]
fn later_answer(rt: HostRuntime) -> Result<(), Fail> {
    let pace = LaterAnswer {
        published: Flag::new(),
    };
    let versions = versions_at(&rt, b"a\nNOT a\na\nb", &MEANT, &pace)?.ok_or("another run")?;
    assert!(rt; pace.published.is_met());
    assert_eq!(rt; versions.len(), 4);
    assert!(rt; 1 <= versions[2]);
    assert!(rt; 1 <= versions[3]);
    Ok(())
}
