//! Renumbered indexes worked out by hand.
ghost use Rattle.std.specs.Prelude.{◌<◌, ◌^◌, length};

use super::renumber;
use rgb_base::{DocRecord, Header, Index, Permutation, Posting, Postings, TermList, Text};
use std::alloc::{AllocError, Global};
use std::test::Fail;
use std::thread::Threads;

/// The documents' names and lengths. A length is the document's number.
const DOCUMENTS: [(&str, i32); 6] = [
    ("d0", 0),
    ("d1", 1),
    ("d2", 2),
    ("d3", 3),
    ("d4", 4),
    ("d5", 5),
];

fn posting(doc: u32, tf: i32) -> Posting {
    Posting { doc, tf }
}

fn text(alloc: Global, text: &str) -> Result<Text, AllocError> {
    Ok(Text::of(String::from_str(alloc, text)?))
}

fn list_of(alloc: Global, term: &str, postings: &[Posting]) -> Result<TermList, AllocError> {
    Ok(TermList {
        term: text(alloc, term)?,
        df: 7,
        cf: -8,
        postings: Postings::of(postings.to_vec(alloc)?),
    })
}

/// An index of six documents with these two lists.
fn index_of(alloc: Global, a: &[Posting], b: &[Posting]) -> Result<Index, Fail> {
    let mut lists = Vec::new(alloc);
    lists.push(list_of(alloc, "a", a)?)?;
    lists.push(list_of(alloc, "b", b)?)?;
    let mut documents = Vec::new(alloc);
    for (name, length) in DOCUMENTS {
        let name = text(alloc, name)?;
        documents.push(DocRecord { name, length })?;
    }
    let header = Header {
        version: 1,
        total_lists: 2,
        total_docs: 6,
        total_terms: 5,
        average_bits: 9,
        description: text(alloc, "six")?,
    };
    Ok(Index::from_parts(alloc, header, lists, documents)?)
}

/// Whether the two lists have these postings, and all else but the records is as it was made.
fn has_lists(index: &Index, a: &[Posting], b: &[Posting]) -> bool {
    if index.lists() != 2 {
        return false;
    }
    let header = index.header();
    let whole = header.total_docs == 6 && header.average_bits == 9;
    let terms = index.term(0) == "a" && index.term(1) == "b";
    let counts = index.df(0) == 7 && index.cf(1) == -8;
    whole && terms && counts && index.postings(0) == a && index.postings(1) == b
}

/// Whether the record at each number is that of the old one in this order.
fn has_records(index: &Index, order: &[u32]) -> bool {
    if index.documents() as usize != order.len() {
        return false;
    }
    for (number, old) in order.iter().enumerate() {
        if i64::from(index.length(number as u32)) != i64::from(*old) {
            return false;
        }
    }
    true
}

/// Whether the index renumbered has these lists and the records in this order, at each number of
/// threads.
fn comes_to<R: Threads + Sync>(
    rt: &R,
    alloc: Global,
    index: &Index,
    order: &[u32],
    a: &[Posting],
    b: &[Posting],
) -> Result<bool, Fail>
    requires { length order.now < 2 ^ 31 }
{
    let by = Permutation::from_order(alloc, order.to_vec(alloc)?)?;
    if by.len() != index.documents() {
        return Ok(false);
    }
    for workers in [1, 2, 3, 64] {
        let new = renumber(rt, alloc, index, &by, workers)?;
        if !has_lists(&new, a, b) || !has_records(&new, order) {
            return Ok(false);
        }
    }
    Ok(true)
}

#[test]
fn two_documents_change_places(rt: HostRuntime) -> Result<(), Fail> {
    let p = posting;
    let a = [p(0, 1), p(1, 1), p(3, 1)];
    let b = [p(2, 1), p(4, 1), p(5, 1)];
    let new_a = [p(0, 1), p(1, 1), p(2, 1)];
    let new_b = [p(3, 1), p(4, 1), p(5, 1)];
    let index = index_of(rt.alloc(), &a, &b)?;
    let order = [0, 1, 3, 2, 4, 5];
    assert!(rt; comes_to(&rt, rt.alloc(), &index, &order, &new_a, &new_b)?);
    let order = [0, 1, 2, 3, 4, 5];
    assert!(rt; comes_to(&rt, rt.alloc(), &index, &order, &a, &b)?);
    Ok(())
}

#[test]
fn frequencies_go_with_their_documents(rt: HostRuntime) -> Result<(), Fail> {
    let p = posting;
    let a = [p(0, 2), p(1, -3), p(5, 4)];
    let index = index_of(rt.alloc(), &a, &[])?;
    let turned = [p(0, 4), p(4, -3), p(5, 2)];
    assert!(rt; comes_to(&rt, rt.alloc(), &index, &[5, 4, 3, 2, 1, 0], &turned, &[])?);
    let one_up = [p(0, 4), p(1, 2), p(2, -3)];
    assert!(rt; comes_to(&rt, rt.alloc(), &index, &[5, 0, 1, 2, 3, 4], &one_up, &[])?);
    Ok(())
}
