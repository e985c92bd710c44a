//! A row of `copy`: the same index in another spelling.
use rgb_runs::{ALL_WELL, Row, SIX, is_met};
use std::test::Fail;

/// `SIX` with its fields and its records reversed, each varint one byte longer, and an unknown field
/// of each wire type in each message, as a program in another language wrote it.
const LOOSE: &str =
    "c0 00 c2 00 80 00 b9 00 00 00 00 00 00 00 00 00 b0 00 80 00 a8 00 80 00 a0 00 80 00 98 00 86 00 \
    90 00 82 00 88 00 81 00 f8 00 85 00 f1 00 31 32 33 34 35 36 37 38 ea 00 82 00 7a 7a e5 00 31 32 \
    33 34 99 81 00 a2 00 a2 00 90 00 81 00 f8 00 85 00 f1 00 31 32 33 34 35 36 37 38 ea 00 82 00 7a \
    7a e5 00 31 32 33 34 88 00 80 00 a2 00 a2 00 90 00 81 00 f8 00 85 00 f1 00 31 32 33 34 35 36 37 \
    38 ea 00 82 00 7a 7a e5 00 31 32 33 34 88 00 81 00 a2 00 a2 00 90 00 81 00 f8 00 85 00 f1 00 31 \
    32 33 34 35 36 37 38 ea 00 82 00 7a 7a e5 00 31 32 33 34 88 00 82 00 f8 00 85 00 f1 00 31 32 33 \
    34 35 36 37 38 ea 00 82 00 7a 7a e5 00 31 32 33 34 98 00 83 00 90 00 83 00 8a 00 81 00 61 99 81 \
    00 a2 00 a2 00 90 00 81 00 f8 00 85 00 f1 00 31 32 33 34 35 36 37 38 ea 00 82 00 7a 7a e5 00 31 \
    32 33 34 88 00 82 00 a2 00 a2 00 90 00 81 00 f8 00 85 00 f1 00 31 32 33 34 35 36 37 38 ea 00 82 \
    00 7a 7a e5 00 31 32 33 34 88 00 82 00 a2 00 a2 00 90 00 81 00 f8 00 85 00 f1 00 31 32 33 34 35 \
    36 37 38 ea 00 82 00 7a 7a e5 00 31 32 33 34 88 00 81 00 f8 00 85 00 f1 00 31 32 33 34 35 36 37 \
    38 ea 00 82 00 7a 7a e5 00 31 32 33 34 98 00 83 00 90 00 83 00 8a 00 81 00 62 a8 00 f8 00 85 00 \
    f1 00 31 32 33 34 35 36 37 38 ea 00 82 00 7a 7a e5 00 31 32 33 34 98 00 81 00 92 00 82 00 64 35 \
    88 00 85 00 a8 00 f8 00 85 00 f1 00 31 32 33 34 35 36 37 38 ea 00 82 00 7a 7a e5 00 31 32 33 34 \
    98 00 81 00 92 00 82 00 64 34 88 00 84 00 a8 00 f8 00 85 00 f1 00 31 32 33 34 35 36 37 38 ea 00 \
    82 00 7a 7a e5 00 31 32 33 34 98 00 81 00 92 00 82 00 64 33 88 00 83 00 a8 00 f8 00 85 00 f1 00 \
    31 32 33 34 35 36 37 38 ea 00 82 00 7a 7a e5 00 31 32 33 34 98 00 81 00 92 00 82 00 64 32 88 00 \
    82 00 a8 00 f8 00 85 00 f1 00 31 32 33 34 35 36 37 38 ea 00 82 00 7a 7a e5 00 31 32 33 34 98 00 \
    81 00 92 00 82 00 64 31 88 00 81 00 a8 00 f8 00 85 00 f1 00 31 32 33 34 35 36 37 38 ea 00 82 00 \
    7a 7a e5 00 31 32 33 34 98 00 81 00 92 00 82 00 64 30 88 00 80 00";

const SPELT_ANEW: Row<'static> = Row {
    words: "copy in out",
    input: LOOSE,
    setting: ALL_WELL,
    status: 0,
    output: Some(SIX),
    printed: "documents 6 lists 2 postings 6\n",
    warned: "",
};

#[test]
fn another_spelling(rt: HostRuntime) -> Result<(), Fail> {
    assert!(rt; is_met(&rt, &SPELT_ANEW)?);
    Ok(())
}
