//! What the tests share: hosts of one file, and a file of one posting.
use crate::{ReadError, read_index};
use ciff_format::Cause;
use rgb_base::{Index, Posting};
use rgb_host::{FileMap, MemoryHost, Numbers};
use std::alloc::Global;
use std::collections::BTreeMap;
use std::test::Fail;

/// The term `a` in the one document, twice, and the document `x` of two tokens.
pub const ONE: [u8; 25] = [
    0x06, 0x08, 0x01, 0x10, 0x01, 0x18, 0x01, 0x0b, 0x0a, 0x01, 0x61, 0x10, 0x01, 0x18, 0x02, 0x22,
    0x02, 0x10, 0x02, 0x05, 0x12, 0x01, 0x78, 0x18, 0x02,
];

/// A host that holds one file, gives at most so many bytes a call, and fails at one read call.
pub fn host(alloc: Global, file: &[u8], most: u32, failing: u64) -> Result<MemoryHost, Fail> {
    let mut files = BTreeMap::new(alloc);
    files.insert(String::from_str(alloc, "in")?, file.to_vec(alloc)?)?;
    let reads = Numbers::of(vec![in alloc; failing]?);
    let writes = Numbers::of(Vec::new(alloc));
    Ok(MemoryHost::new(alloc, FileMap::of(files), reads, writes, most.max(1)))
}

/// What reading a file of these bytes gives, by at most so many bytes a call.
pub fn read(alloc: Global, file: &[u8], most: u32) -> Result<Result<Index, ReadError>, Fail> {
    let mut host = host(alloc, file, most, 0)?;
    Ok(read_index(alloc, &mut host, "in"))
}

/// The place and the cause for which a file of these bytes is refused, if it is.
pub fn refusal(alloc: Global, file: &[u8], most: u32) -> Result<Option<(u64, Cause)>, Fail> {
    Ok(match read(alloc, file, most)? {
        Err(ReadError::Malformed { place, cause }) => Some((place, cause)),
        _ => None,
    })
}

/// An index as a text: the header's numbers and description, the lists with their postings, the records.
pub fn told(alloc: Global, index: &Index) -> Result<String, Fail> {
    let header = index.header();
    let mut text = format!(in alloc;
        "{} {} {} {} {} {}",
        header.version,
        header.total_lists,
        header.total_docs,
        header.total_terms,
        header.average_bits,
        header.description.as_str()
    )?;
    for list in 0..index.lists() {
        let (term, df, cf) = (index.term(list), index.df(list), index.cf(list));
        text.push_str(&format!(in alloc; " | {term} {df} {cf}")?)?;
        for posting in index.postings(list) {
            let Posting { doc, tf } = *posting;
            text.push_str(&format!(in alloc; " {doc}:{tf}")?)?;
        }
    }
    for doc in 0..index.documents() {
        let (name, length) = (index.name(doc), index.length(doc));
        text.push_str(&format!(in alloc; " / {name} {length}")?)?;
    }
    Ok(text)
}

/// What a file of these bytes is accepted as, or `refused`.
pub fn accepted(alloc: Global, file: &[u8], most: u32) -> Result<String, Fail> {
    match read(alloc, file, most)? {
        Ok(index) => told(alloc, &index),
        Err(_) => Ok(String::from_str(alloc, "refused")?),
    }
}
