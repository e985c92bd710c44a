//! Rows of files that are refused: their place and their cause, worked out by hand.
use rgb_runs::{bytes_of, is_refused};
use std::test::Fail;

const ROWS: [(&str, &str); 17] = [
    ("", "malformed 0 CutShort\n"),
    // A length of eight groups that is more than 2^41, and one that doesn't end.
    ("ff ff ff ff ff ff ff ff 7f", "malformed 0 BadLength\n"),
    ("ff ff ff ff ff ff ff ff ff ff", "malformed 0 BadLength\n"),
    // A group, and a version that is a text.
    ("01 0b", "malformed 0 BadField\n"),
    ("02 0a 00", "malformed 0 BadField\n"),
    ("03 42 01 ff", "malformed 0 BadText\n"),
    (
        "0b 10 ff ff ff ff ff ff ff ff ff 01",
        "malformed 0 BadCount\n",
    ),
    // A second gap of 0, and document 1 of one.
    (
        "06 08 01 10 01 18 02 07 0a 01 61 22 00 22 00",
        "malformed 7 BadGap\n",
    ),
    (
        "06 08 01 10 01 18 01 07 0a 01 61 22 02 08 01",
        "malformed 7 BadGap\n",
    ),
    (
        "04 08 01 10 02 03 0a 01 61 03 0a 01 61",
        "malformed 9 SameTerm\n",
    ),
    ("04 08 01 10 02 00 00", "malformed 6 SameTerm\n"),
    ("04 08 01 18 02 00 00", "malformed 6 BadDoc\n"),
    ("00 00", "malformed 1 Trailing\n"),
    // A list of 2^40 bytes, and 2^31 - 1 documents, of which none is there.
    (
        "06 08 01 10 01 18 01 80 80 80 80 80 20",
        "malformed 7 CutShort\n",
    ),
    ("08 08 01 18 ff ff ff ff 07", "malformed 9 CutShort\n"),
    // A text that isn't UTF-8 before a good one, and behind it.
    ("06 42 01 ff 42 01 61", "malformed 0 BadText\n"),
    ("06 42 01 61 42 01 ff", "malformed 0 BadText\n"),
];

#[test]
fn files_that_are_refused(rt: HostRuntime) -> Result<(), Fail> {
    for (text, line) in ROWS {
        let bytes = bytes_of(rt.alloc(), text)?;
        assert!(rt; is_refused(&rt, "copy in out", &bytes, line)?, "{text}");
        assert!(rt; is_refused(&rt, "report in", &bytes, line)?, "{text}");
    }
    Ok(())
}
