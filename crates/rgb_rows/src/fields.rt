//! Rows of `copy` on files whose fields have other values: each file is canonical, and comes out
//! unchanged. The bytes were made by an encoder in another language.
use rgb_runs::{ALL_WELL, Row, bytes_of, has_file, has_told, is_met, run};
use std::alloc::Global;
use std::test::Fail;
use std::thread::Threads;

/// All eight fields of the header with different values: version 7, one list, one document, 300 lists and
/// -1 documents and 2^40 terms of the whole collection, an average of 1.5, and `ab`. Then the term `t` with
/// a `df` of 128, a `cf` of -2 and a `tf` of 16384, and the document `n` of length 300.
const ALL_FIELDS: &str =
    "28 08 07 10 01 18 01 20 ac 02 28 ff ff ff ff ff ff ff ff ff 01 30 80 80 80 80 80 20 39 00 00 00 \
    00 00 00 f8 3f 42 02 61 62 17 0a 01 74 10 80 01 18 fe ff ff ff ff ff ff ff ff 01 22 04 10 80 80 \
    01 06 12 01 6e 18 ac 02";

const NOTHING: &str = "documents 0 lists 0 postings 0\n";

const LIST: &str = "documents 0 lists 1 postings 0\n";

const DOCUMENT: &str = "documents 1 lists 0 postings 0\n";

const ROWS: [(&str, &str); 3] = [
    (ALL_FIELDS, "documents 1 lists 1 postings 1\n"),
    ("02 18 01 00", DOCUMENT),
    ("02 10 01 00", LIST),
];

fn unchanged<'a>(file: &'a str, printed: &'a str) -> Row<'a> {
    Row {
        words: "copy in out",
        input: file,
        setting: ALL_WELL,
        status: 0,
        output: Some(file),
        printed,
        warned: "",
    }
}

#[test]
fn other_values_and_counts(rt: HostRuntime) -> Result<(), Fail> {
    for (file, printed) in ROWS {
        assert!(rt; is_met(&rt, &unchanged(file, printed))?, "{file}");
    }
    Ok(())
}

/// The bytes before a text of so many bytes, and the line.
const LONG: [(&str, usize, &str); 10] = [
    // A description.
    ("85 01 08 01 42 80 01", 128, NOTHING),
    ("b1 02 08 01 42 ac 02", 300, NOTHING),
    ("a6 9c 01 08 01 42 a0 9c 01", 20_000, NOTHING),
    // The same in more than one piece of a read.
    ("f6 a2 04 08 01 42 f0 a2 04", 70_000, NOTHING),
    // A term.
    ("02 10 01 83 01 0a 80 01", 128, LIST),
    ("02 10 01 af 02 0a ac 02", 300, LIST),
    ("02 10 01 a4 9c 01 0a a0 9c 01", 20_000, LIST),
    // A document's name.
    ("02 18 01 83 01 12 80 01", 128, DOCUMENT),
    ("02 18 01 af 02 12 ac 02", 300, DOCUMENT),
    ("02 18 01 a4 9c 01 12 a0 9c 01", 20_000, DOCUMENT),
];

// These bytes and then a text of so many bytes.
fn with_text(alloc: Global, front: &str, len: usize) -> Result<Vec<u8>, Fail> {
    let mut bytes = bytes_of(alloc, front)?;
    bytes.resize(bytes.len().saturating_add(len), b'x')?;
    Ok(bytes)
}

// Whether the file comes out unchanged, and this line is printed.
fn is_copied<R: Threads + Sync + AllocGlobal>(
    rt: &R,
    bytes: &[u8],
    line: &str,
) -> Result<bool, Fail> {
    let (status, host) = run(rt, "copy in out", bytes, ALL_WELL)?;
    Ok(status == 0 && has_told(&host, line, "") && has_file(&host, "out", Some(bytes)))
}

#[test]
fn long_texts(rt: HostRuntime) -> Result<(), Fail> {
    for (front, len, line) in LONG {
        let bytes = with_text(rt.alloc(), front, len)?;
        assert!(rt; is_copied(&rt, &bytes, line)?, "{front}");
    }
    Ok(())
}
