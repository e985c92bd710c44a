//! Logarithms worked out by hand, and a small table.
use super::{LogTable, lg};
use std::test::Fail;

#[test]
fn logarithms(rt: HostRuntime) {
    let rows = [
        (1u64, 0u32),
        (2, 65536),
        (3, 103872),
        (5, 152169),
        (6, 169408),
        (7, 183982),
        ((1 << 33) - 1, 2162687),
    ];
    for (x, log) in rows {
        assert!(rt; 0 < x && x < 1 << 33);
        assert_eq!(rt; lg(x), log, "of {x}");
    }
}

#[test]
fn table_of_seven(rt: HostRuntime) -> Result<(), Fail> {
    let table = LogTable::new(rt.alloc(), 7)?;
    assert_eq!(rt; table.top(), 7);
    assert_eq!(rt; table.lg(1), 0);
    assert_eq!(rt; table.lg(7), 183982);
    assert_eq!(rt; table.growth(0), 0);
    assert_eq!(rt; table.growth(1), 65536);
    assert_eq!(rt; table.growth(2), 142208);
    assert_eq!(rt; table.growth(7), 272364);
    Ok(())
}

#[test]
fn table_of_many(rt: HostRuntime) -> Result<(), Fail> {
    let table = LogTable::new(rt.alloc(), 100_000)?;
    assert_eq!(rt; table.top(), 100_000);
    assert_eq!(rt; table.lg(65536), 16 * 65536);
    for x in [3u32, 999, 1001, 65535, 99_999, 100_000] {
        assert_eq!(rt; table.lg(x), lg(u64::from(x)), "of {x}");
    }
    Ok(())
}
