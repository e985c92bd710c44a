//! An index of 24 documents, queries with the plain sets that they mean, and readers that ask them.
use bool_query::{Query, parse};
use live_index::{Answer, LiveReader, Plan};
use rgb_base::{
    DocRecord, Header, Index, OutOfMemory, Permutation, Posting, Postings, TermList, Text,
};
use std::alloc::{AllocError, Global};
use std::sync::atomic::{AtomicU64, Ordering};
use std::test::Fail;

/// How many documents there are.
pub const DOCUMENTS: u32 = 24;

// A bit for each document.
const ALL: u32 = 0xff_ffff;

// The documents of the lists, a bit each. The last list is empty.
const A: u32 = 0x9c_31d5;

const B: u32 = 0x4f_00e7;

const C: u32 = 0x00_0001;

const D: u32 = 0xff_fffe;

const LISTS: [(&str, u32); 5] = [("a", A), ("b", B), ("c", C), ("d", D), ("e", 0)];

const QUERIES: [(&str, u32); 8] = [
    ("a", A),
    ("NOT a", ALL & !A),
    ("a AND b", A & B),
    ("a OR b AND NOT d", A | (B & !D)),
    ("NOT (a OR c)", ALL & !(A | C)),
    ("e", 0),
    ("NOT e", ALL),
    ("c OR \"f\"", C),
];

fn text(alloc: Global, value: &str) -> Result<Text, AllocError> {
    Ok(Text::of(String::from_str(alloc, value)?))
}

fn is_in(documents: u32, doc: u32) -> bool {
    doc < 32 && (documents >> doc) & 1 == 1
}

fn list(alloc: Global, term: &str, documents: u32) -> Result<TermList, AllocError> {
    let mut postings = Vec::new(alloc);
    for doc in 0..DOCUMENTS {
        if is_in(documents, doc) {
            postings.push(Posting { doc, tf: 1 })?;
        }
    }
    Ok(TermList {
        term: text(alloc, term)?,
        df: 0,
        cf: 0,
        postings: Postings::of(postings),
    })
}

/// The index of the lists.
pub fn index(alloc: Global) -> Result<Index, Fail> {
    let header = Header {
        version: 1,
        total_lists: 5,
        total_docs: 24,
        total_terms: 0,
        average_bits: 0,
        description: text(alloc, "")?,
    };
    let mut lists = Vec::new(alloc);
    for (term, documents) in LISTS {
        lists.push(list(alloc, term, documents)?)?;
    }
    let mut documents = Vec::new(alloc);
    for _ in 0..DOCUMENTS {
        let name = text(alloc, "")?;
        documents.push(DocRecord { name, length: 1 })?;
    }
    Ok(Index::from_parts(alloc, header, lists, documents)?)
}

fn query(alloc: Global, text: &str) -> Result<Query, OutOfMemory> {
    if 100 < text.len() {
        return Err(OutOfMemory);
    }
    parse(alloc, text).map_err(|_| OutOfMemory)
}

// Whether the numbers rise and are, place by place, those of the originals under the numbering, which
// are these documents.
fn is_right(answer: &Answer, numbering: &Permutation, documents: u32) -> bool {
    let (ids, originals) = (answer.ids.as_slice(), answer.originals.as_slice());
    let mut found = 0;
    for (place, id) in ids.iter().enumerate() {
        let Some(original) = originals.get(place) else {
            return false;
        };
        if numbering.len() <= *original || numbering.new_of(*original) != *id {
            return false;
        }
        if 0 < place && *id <= ids[place - 1] || 31 < *original {
            return false;
        }
        found |= 1u32 << *original;
    }
    found == documents && originals.len() == ids.len()
}

/// What readers found together.
#[derive(Drop)]
pub struct Found {
    /// How many answers there were.
    pub answers: AtomicU64,
    /// How many of them were wrong, or older than one before.
    pub wrong: AtomicU64,
    /// How many readers came to the last version.
    pub last: AtomicU64,
}

// Asks each query once, and tells the version of the last answer.
fn ask_all<K: Plan>(
    alloc: Global,
    reader: &mut LiveReader<'_, K>,
    numberings: &[Permutation],
    found: &Found,
) -> Result<u32, OutOfMemory> {
    for (text, documents) in QUERIES {
        let front = reader.front();
        let answer = reader.ask(alloc, &query(alloc, text)?)?;
        let right = match numberings.get(answer.version as usize) {
            Some(numbering) => is_right(&answer, numbering, documents),
            None => false,
        };
        if !right || answer.version < front || reader.front() != answer.version {
            found.wrong.fetch_add(1, Ordering::SeqCst);
        }
        found.answers.fetch_add(1, Ordering::SeqCst);
    }
    Ok(reader.front())
}

/// Asks the queries over and over, until the last version is seen.
pub fn ask_on<K: Plan>(
    alloc: Global,
    mut reader: LiveReader<'_, K>,
    numberings: &[Permutation],
    found: &Found,
) {
    for _ in 0..100_000 {
        match ask_all(alloc, &mut reader, numberings, found) {
            Ok(version) => {
                if numberings.len() <= version as usize + 1 {
                    found.last.fetch_add(1, Ordering::SeqCst);
                    return;
                }
            }
            Err(_) => {
                found.wrong.fetch_add(1, Ordering::SeqCst);
                return;
            }
        }
    }
}
