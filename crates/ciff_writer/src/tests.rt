//! Files byte by byte, over hosts that take few bytes a call or fail at a listed one. The expected bytes
//! were made by a program of another language.
use crate::{WriteError, write_index};
use rgb_base::{DocRecord, Header, Index, Posting, Postings, TermList, Text};
use rgb_host::{FileMap, Host, MemoryHost, Numbers};
use std::alloc::Global;
use std::collections::BTreeMap;
use std::test::Fail;

/// The term `a` in the one document, twice, and the document `x` of two tokens.
const ONE: [u8; 25] = [
    0x06, 0x08, 0x01, 0x10, 0x01, 0x18, 0x01, 0x0b, 0x0a, 0x01, 0x61, 0x10, 0x01, 0x18, 0x02, 0x22,
    0x02, 0x10, 0x02, 0x05, 0x12, 0x01, 0x78, 0x18, 0x02,
];

/// The term `a` in the documents 0, 1 and 3, and `b` in 2, 4 and 5, named `d0` to `d5`.
const SIX: [u8; 109] = [
    0x06, 0x08, 0x01, 0x10, 0x02, 0x18, 0x06, 0x17, 0x0a, 0x01, 0x61, 0x10, 0x03, 0x18, 0x03, 0x22,
    0x02, 0x10, 0x01, 0x22, 0x04, 0x08, 0x01, 0x10, 0x01, 0x22, 0x04, 0x08, 0x02, 0x10, 0x01, 0x19,
    0x0a, 0x01, 0x62, 0x10, 0x03, 0x18, 0x03, 0x22, 0x04, 0x08, 0x02, 0x10, 0x01, 0x22, 0x04, 0x08,
    0x02, 0x10, 0x01, 0x22, 0x04, 0x08, 0x01, 0x10, 0x01, 0x06, 0x12, 0x02, 0x64, 0x30, 0x18, 0x01,
    0x08, 0x08, 0x01, 0x12, 0x02, 0x64, 0x31, 0x18, 0x01, 0x08, 0x08, 0x02, 0x12, 0x02, 0x64, 0x32,
    0x18, 0x01, 0x08, 0x08, 0x03, 0x12, 0x02, 0x64, 0x33, 0x18, 0x01, 0x08, 0x08, 0x04, 0x12, 0x02,
    0x64, 0x34, 0x18, 0x01, 0x08, 0x08, 0x05, 0x12, 0x02, 0x64, 0x35, 0x18, 0x01,
];

/// A header whose every field is there, the numbers at their ends, and its message behind its length.
const FULL_HEADER: [u8; 54] = [
    0x35, 0x08, 0xff, 0xff, 0xff, 0xff, 0xff, 0xff, 0xff, 0xff, 0xff, 0x01, 0x20, 0xff, 0xff, 0xff,
    0xff, 0x07, 0x28, 0x80, 0x80, 0x80, 0x80, 0xf8, 0xff, 0xff, 0xff, 0xff, 0x01, 0x30, 0x80, 0x80,
    0x80, 0x80, 0x80, 0x80, 0x80, 0x80, 0x80, 0x01, 0x39, 0x00, 0x00, 0x00, 0x00, 0x00, 0x00, 0x34,
    0x40, 0x42, 0x03, 0x61, 0x62, 0x63,
];

/// A header for 33324 documents, and a list of postings of gaps 0, 1, 127, 128, 300, 16383 and 16384
/// with the frequencies 0, 1, 127, 128, -1, 1 and 0.
const GAPS: [u8; 68] = [
    0x08, 0x08, 0x01, 0x10, 0x01, 0x18, 0xac, 0x84, 0x02, 0x3a, 0x0a, 0x01, 0x61, 0x10, 0x07, 0x18,
    0x05, 0x22, 0x00, 0x22, 0x04, 0x08, 0x01, 0x10, 0x01, 0x22, 0x04, 0x08, 0x7f, 0x10, 0x7f, 0x22,
    0x06, 0x08, 0x80, 0x01, 0x10, 0x80, 0x01, 0x22, 0x0e, 0x08, 0xac, 0x02, 0x10, 0xff, 0xff, 0xff,
    0xff, 0xff, 0xff, 0xff, 0xff, 0xff, 0x01, 0x22, 0x05, 0x08, 0xff, 0x7f, 0x10, 0x01, 0x22, 0x04,
    0x08, 0x80, 0x80, 0x01,
];

/// A header for 12000 documents, and the front of a list of all of them, each with the frequency 1.
const MANY: [u8; 24] = [
    0x07, 0x08, 0x01, 0x10, 0x01, 0x18, 0xe0, 0x5d, 0xc7, 0xb2, 0x04, 0x0a, 0x01, 0x61, 0x10, 0xe0,
    0x5d, 0x18, 0xe0, 0x5d, 0x22, 0x02, 0x10, 0x01,
];

fn text(alloc: Global, text: &str) -> Result<Text, Fail> {
    Ok(Text::of(String::from_str(alloc, text)?))
}

/// A text of one letter so many times.
fn long(alloc: Global, letter: char, times: u32) -> Result<Text, Fail> {
    let mut text = String::new(alloc);
    for _ in 0..times {
        text.push(letter)?;
    }
    Ok(Text::of(text))
}

/// A header of version 1, with nothing else in it.
fn plain(alloc: Global) -> Result<Header, Fail> {
    Ok(Header {
        version: 1,
        total_lists: 0,
        total_docs: 0,
        total_terms: 0,
        average_bits: 0,
        description: text(alloc, "")?,
    })
}

fn list(
    alloc: Global,
    term: &str,
    counts: [i64; 2],
    docs: &[(u32, i32)],
) -> Result<TermList, Fail> {
    let mut postings = Vec::new(alloc);
    for (doc, tf) in docs {
        postings.push(Posting { doc: *doc, tf: *tf })?;
    }
    let [df, cf] = counts;
    Ok(TermList {
        term: text(alloc, term)?,
        df,
        cf,
        postings: Postings::of(postings),
    })
}

/// Documents without a name and without a token.
fn empty_documents(alloc: Global, count: u32) -> Result<Vec<DocRecord>, Fail> {
    let mut documents = Vec::new(alloc);
    for _ in 0..count {
        documents.push(DocRecord {
            name: text(alloc, "")?,
            length: 0,
        })?;
    }
    Ok(documents)
}

fn one(alloc: Global) -> Result<Index, Fail> {
    let lists = vec![in alloc; list(alloc, "a", [1, 2], &[(0, 2)])?]?;
    let documents = vec![in alloc;
        DocRecord {
            name: text(alloc, "x")?,
            length: 2
        },
    ]?;
    Ok(Index::from_parts(alloc, plain(alloc)?, lists, documents)?)
}

fn six(alloc: Global) -> Result<Index, Fail> {
    let mut lists = Vec::new(alloc);
    lists.push(list(alloc, "a", [3, 3], &[(0, 1), (1, 1), (3, 1)])?)?;
    lists.push(list(alloc, "b", [3, 3], &[(2, 1), (4, 1), (5, 1)])?)?;
    let mut documents = Vec::new(alloc);
    for name in ["d0", "d1", "d2", "d3", "d4", "d5"] {
        documents.push(DocRecord {
            name: text(alloc, name)?,
            length: 1,
        })?;
    }
    Ok(Index::from_parts(alloc, plain(alloc)?, lists, documents)?)
}

/// An index with texts of 128, 300, 20,000 and 70,000 bytes.
fn long_texts(alloc: Global) -> Result<Index, Fail> {
    let mut header = plain(alloc)?;
    header.description = long(alloc, 'd', 128)?;
    let mut list = list(alloc, "", [0, 0], &[])?;
    list.term = long(alloc, 't', 300)?;
    let lists = vec![in alloc; list]?;
    let mut documents = empty_documents(alloc, 0)?;
    documents.push(DocRecord {
        name: long(alloc, 'n', 20_000)?,
        length: 2,
    })?;
    documents.push(DocRecord {
        name: long(alloc, 'm', 70_000)?,
        length: -1,
    })?;
    Ok(Index::from_parts(alloc, header, lists, documents)?)
}

/// Some bytes, and a letter so many times.
fn push(file: &mut Vec<u8>, front: &[u8], letter: u8, times: u32) -> Result<(), Fail> {
    file.extend_from_slice(front)?;
    for _ in 0..times {
        file.push(letter)?;
    }
    Ok(())
}

/// The file of the index with long texts.
fn long_file(alloc: Global) -> Result<Vec<u8>, Fail> {
    let mut file = Vec::new(alloc);
    push(
        &mut file,
        b"\x89\x01\x08\x01\x10\x01\x18\x02\x42\x80\x01",
        b'd',
        128,
    )?;
    push(&mut file, b"\xaf\x02\x0a\xac\x02", b't', 300)?;
    push(&mut file, b"\xa6\x9c\x01\x12\xa0\x9c\x01", b'n', 20_000)?;
    push(
        &mut file,
        b"\x18\x02\x81\xa3\x04\x08\x01\x12\xf0\xa2\x04",
        b'm',
        70_000,
    )?;
    push(
        &mut file,
        b"\x18\xff\xff\xff\xff\xff\xff\xff\xff\xff\x01",
        b' ',
        0,
    )?;
    Ok(file)
}

/// A host that takes at most so many bytes a call, and fails at one write call.
fn host(alloc: Global, most: u32, failing: u64) -> Result<MemoryHost, Fail> {
    let files = FileMap::of(BTreeMap::new(alloc));
    let reads = Numbers::of(Vec::new(alloc));
    let writes = Numbers::of(vec![in alloc; failing]?);
    Ok(MemoryHost::new(alloc, files, reads, writes, most.max(1)))
}

/// What the call answers, and what stands in the file then. The file was created by write call 1.
fn written(
    alloc: Global,
    index: &Index,
    most: u32,
    failing: u64,
) -> Result<(Result<u64, WriteError>, Vec<u8>), Fail> {
    let mut host = host(alloc, most, failing)?;
    host.create("out")?;
    let answer = write_index(index, &mut host, "out");
    let file = host.file("out").unwrap_or(&[]);
    Ok((answer, file.to_vec(alloc)?))
}

#[test]
fn small_indexes(rt: HostRuntime) -> Result<(), Fail> {
    let alloc = rt.alloc();
    for most in [1, 4, 65536] {
        let (answer, file) = written(alloc, &one(alloc)?, most, 0)?;
        assert_eq!(rt; answer, Ok(25), "most {most}");
        assert!(rt; file.as_slice() == ONE.as_slice(), "most {most}");
        let (answer, file) = written(alloc, &six(alloc)?, most, 0)?;
        assert_eq!(rt; answer, Ok(109), "most {most}");
        assert!(rt; file.as_slice() == SIX.as_slice(), "most {most}");
    }
    Ok(())
}

#[test]
fn a_full_header(rt: HostRuntime) -> Result<(), Fail> {
    let alloc = rt.alloc();
    let header = Header {
        version: -1,
        total_lists: i32::MAX,
        total_docs: i32::MIN,
        total_terms: i64::MIN,
        average_bits: 0x4034_0000_0000_0000,
        description: text(alloc, "abc")?,
    };
    let index = Index::from_parts(alloc, header, Vec::new(alloc), Vec::new(alloc))?;
    let (answer, file) = written(alloc, &index, 65536, 0)?;
    assert_eq!(rt; answer, Ok(54));
    assert!(rt; file.as_slice() == FULL_HEADER.as_slice());
    Ok(())
}

#[test]
fn gaps_and_frequencies(rt: HostRuntime) -> Result<(), Fail> {
    let alloc = rt.alloc();
    let docs = [
        (0, 0),
        (1, 1),
        (128, 127),
        (256, 128),
        (556, -1),
        (16939, 1),
        (33323, 0),
    ];
    let lists = vec![in alloc; list(alloc, "a", [7, 5], &docs)?]?;
    let documents = empty_documents(alloc, 33324)?;
    let index = Index::from_parts(alloc, plain(alloc)?, lists, documents)?;
    let (answer, file) = written(alloc, &index, 65536, 0)?;
    assert_eq!(rt; answer, Ok(file.len() as u64));
    assert!(rt; file.starts_with(&GAPS));
    Ok(())
}

#[test]
fn more_postings_than_a_piece_holds(rt: HostRuntime) -> Result<(), Fail> {
    let alloc = rt.alloc();
    let mut docs = Vec::new(alloc);
    let mut front = MANY.to_vec(alloc)?;
    for doc in 0..12_000u32 {
        docs.push((doc, 1))?;
        if doc > 0 {
            front.extend_from_slice(&[0x22, 0x04, 0x08, 0x01, 0x10, 0x01])?;
        }
    }
    let lists = vec![in alloc; list(alloc, "a", [12_000, 12_000], &docs)?]?;
    let documents = empty_documents(alloc, 12_000)?;
    let index = Index::from_parts(alloc, plain(alloc)?, lists, documents)?;
    for most in [4096, 65536] {
        let (answer, file) = written(alloc, &index, most, 0)?;
        assert_eq!(rt; answer, Ok(file.len() as u64));
        assert_eq!(rt; front.len(), 72_018);
        assert!(rt; file.starts_with(&front));
    }
    Ok(())
}

#[test]
fn texts_longer_than_a_piece(rt: HostRuntime) -> Result<(), Fail> {
    let alloc = rt.alloc();
    let index = long_texts(alloc)?;
    let expected = long_file(alloc)?;
    for most in [4, 1000, 65536] {
        let (answer, file) = written(alloc, &index, most, 0)?;
        assert_eq!(rt; answer, Ok(90_473), "most {most}");
        assert!(rt; file == expected, "most {most}");
    }
    Ok(())
}

#[test]
fn each_write_failing(rt: HostRuntime) -> Result<(), Fail> {
    let alloc = rt.alloc();
    // Call 1 creates, and 109 bytes by four take 28 more.
    let index = six(alloc)?;
    for call in 2..=30u64 {
        let (answer, file) = written(alloc, &index, 4, call)?;
        if call == 30 {
            assert_eq!(rt; answer, Ok(109));
        } else {
            assert_eq!(rt; answer, Err(WriteError::Fault), "write {call}");
            assert_eq!(rt; file.len() as u64 + 8, 4 * call, "write {call}");
        }
        assert!(rt; SIX.starts_with(&file), "write {call}");
    }
    Ok(())
}

#[test]
fn a_piece_is_one_call(rt: HostRuntime) -> Result<(), Fail> {
    let alloc = rt.alloc();
    // What stands before the longest name, the name by two calls, and what follows it.
    let index = long_texts(alloc)?;
    let expected = long_file(alloc)?;
    for (call, stands) in [(2, 0), (3, 20_462), (4, 85_998), (5, 90_462)] {
        let (answer, file) = written(alloc, &index, 65536, call)?;
        assert_eq!(rt; answer, Err(WriteError::Fault), "write {call}");
        assert_eq!(rt; file.len(), stands, "write {call}");
        assert!(rt; expected.starts_with(&file), "write {call}");
    }
    let (answer, file) = written(alloc, &index, 65536, 6)?;
    assert_eq!(rt; answer, Ok(90_473));
    assert!(rt; file == expected);
    Ok(())
}
