//! The parts of an index, as CIFF's messages give them.
use crate::lists_and_texts::{Postings, Text};

/// One document of a list: CIFF's `Posting`, with the document's number in place of the gap.
#[derive(Clone, Copy, Debug, PartialEq, Eq)]
pub struct Posting {
    /// The number of the document, from 0 on.
    pub doc: u32,
    /// The term frequency: how often the term stands in the document.
    pub tf: i32,
}

/// A term with its postings: CIFF's `PostingsList`.
#[derive(Debug, Drop)]
pub struct TermList {
    pub term: Text,
    /// The document frequency, carried as it was read: in how many documents the term stands.
    pub df: i64,
    /// The collection frequency, carried as it was read: how often it stands in all of them.
    pub cf: i64,
    /// By rising document.
    pub postings: Postings,
}

/// A document: CIFF's `DocRecord`.
#[derive(Debug, Drop)]
pub struct DocRecord {
    /// Its name in its collection (`collection_docid`).
    pub name: Text,
    /// Its length in tokens (`doclength`).
    pub length: i32,
}

/// What CIFF's `Header` says of the whole collection, carried as it was read. The numbers of lists
/// and documents of the file itself are those of the index.
#[derive(Debug, Drop)]
pub struct Header {
    pub version: i32,
    /// The number of lists of the whole collection (`total_postings_lists`).
    pub total_lists: i32,
    /// The number of documents of the whole collection.
    pub total_docs: i32,
    /// The number of tokens of the whole collection (`total_terms_in_collection`).
    pub total_terms: i64,
    /// The average length of a document (`average_doclength`): the bits of an IEEE double, of which
    /// the file has the low byte first.
    pub average_bits: u64,
    pub description: Text,
}

/// One of the two halves of a list of documents.
#[derive(Clone, Copy, Debug, PartialEq, Eq)]
pub enum Side {
    A,
    B,
}
