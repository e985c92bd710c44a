//! Answers worked out by hand.
ghost use Rattle.std.specs.Prelude.{◌<◌, ◌^◌, length};

use super::*;
use std::alloc::{AllocError, Global};
use std::test::Fail;

/// A list of these documents, each with one occurrence.
fn list_of(alloc: Global, term: &str, documents: &[u32]) -> Result<TermList, AllocError> {
    let mut postings = Vec::new(alloc);
    for doc in documents {
        postings.push(Posting { doc: *doc, tf: 1 })?;
    }
    Ok(TermList {
        term: Text::of(String::from_str(alloc, term)?),
        df: 1,
        cf: 1,
        postings: Postings::of(postings),
    })
}

fn header_of(alloc: Global) -> Result<Header, AllocError> {
    Ok(Header {
        version: 1,
        total_lists: 2,
        total_docs: 3,
        total_terms: 9,
        average_bits: 7,
        description: Text::of(String::from_str(alloc, "few")?),
    })
}

fn record_of(alloc: Global, name: &str, length: i32) -> Result<DocRecord, AllocError> {
    let name = Text::of(String::from_str(alloc, name)?);
    Ok(DocRecord { name, length })
}

/// An index of three documents, or its fault.
fn index_of(
    alloc: Global,
    lists: &[(&str, &[u32])],
) -> Result<Result<Index, PartsError>, AllocError> {
    let mut made = Vec::new(alloc);
    for (term, documents) in lists {
        made.push(list_of(alloc, *term, *documents)?)?;
    }
    let mut documents = Vec::new(alloc);
    documents.push(record_of(alloc, "x", 5)?)?;
    documents.push(record_of(alloc, "yy", -1)?)?;
    documents.push(record_of(alloc, "x", 0)?)?;
    Ok(Index::from_parts(alloc, header_of(alloc)?, made, documents))
}

#[test]
fn names_the_first_fault(rt: HostRuntime) -> Result<(), Fail> {
    let none: &[u32] = &[];
    let equal: &[u32] = &[0, 1, 1];
    let falling: &[u32] = &[2, 0];
    let high: &[u32] = &[0, 3];
    let full: &[u32] = &[0, 1, 2];
    let order = |list| Some(PartsError::Order { list });
    let same = |list| Some(PartsError::Same { list });
    let rows: [(&[(&str, &[u32])], Option<PartsError>); 8] = [
        (&[("a", none), ("a", none)], same(1)),
        (
            &[("a", full), ("b", none), ("", full), ("b", full)],
            same(3),
        ),
        (
            &[("a", full), ("b", full), ("b", none), ("a", none)],
            same(2),
        ),
        (&[("a", full), ("b", equal)], order(1)),
        (&[("a", high), ("b", full)], order(0)),
        (&[("a", full), ("b", falling), ("c", high)], order(1)),
        (&[("a", full), ("a", full), ("a", falling)], order(2)),
        (&[("a", full), ("", none), ("aa", full)], None),
    ];
    for (lists, want) in rows {
        let got = index_of(rt.alloc(), lists)?.err();
        assert_eq!(rt; got, want);
    }
    Ok(())
}

#[test]
fn lends_its_lists(rt: HostRuntime) -> Result<(), Fail> {
    let index = index_of(rt.alloc(), &[("ab", &[0, 2]), ("c", &[])])??;
    assert_eq!(rt; index.lists(), 2);
    assert_eq!(rt; index.total_postings(), 2);
    assert_eq!(rt; index.term(0), "ab");
    assert_eq!(rt; index.term(1), "c");
    assert_eq!(rt; (index.df(1), index.cf(1)), (1, 1));
    let want = [Posting { doc: 0, tf: 1 }, Posting { doc: 2, tf: 1 }];
    assert_eq!(rt; index.postings(0), want.as_slice());
    assert_eq!(rt; index.postings(1).len(), 0);
    Ok(())
}

#[test]
fn lends_its_documents(rt: HostRuntime) -> Result<(), Fail> {
    let index = index_of(rt.alloc(), &[])??;
    assert_eq!(rt; index.lists(), 0);
    assert_eq!(rt; index.total_postings(), 0);
    assert_eq!(rt; index.documents(), 3);
    assert_eq!(rt; index.name(1), "yy");
    assert_eq!(rt; (index.length(0), index.length(1)), (5, -1));
    let header = index.header();
    assert_eq!(rt; (header.total_lists, header.total_docs), (2, 3));
    assert_eq!(rt; header.description.as_str(), "few");
    Ok(())
}

/// Whether these are the old numbers in the new order, and those the new ones in the old order.
fn has(permutation: &Permutation, order: &[u32], places: &[u32]) -> bool {
    let len = permutation.len() as usize;
    if len != order.len() || len != places.len() {
        return false;
    }
    for (at, (old, new)) in order.iter().zip(places).enumerate() {
        if permutation.old_of(at as u32) != *old || permutation.new_of(at as u32) != *new {
            return false;
        }
    }
    true
}

fn permutation_of(alloc: Global, order: &[u32]) -> Result<Permutation, Fail>
    requires { length order.now < 2 ^ 31 }
{
    Ok(Permutation::from_order(alloc, order.to_vec(alloc)?)?)
}

#[test]
fn names_the_first_bad_place(rt: HostRuntime) -> Result<(), Fail> {
    let rows = [
        (
            [2, 0, 0],
            Some(OrderError::NotAPermutation { place: 2, value: 0 }),
        ),
        (
            [0, 3, 1],
            Some(OrderError::NotAPermutation { place: 1, value: 3 }),
        ),
        (
            [4, 4, 4],
            Some(OrderError::NotAPermutation { place: 0, value: 4 }),
        ),
        (
            [1, 1, 3],
            Some(OrderError::NotAPermutation { place: 1, value: 1 }),
        ),
        ([2, 0, 1], None),
    ];
    for (order, want) in rows {
        let got = Permutation::from_order(rt.alloc(), order.to_vec(rt.alloc())?).err();
        assert_eq!(rt; got, want);
    }
    Ok(())
}

#[test]
fn exchanges_two(rt: HostRuntime) -> Result<(), Fail> {
    let order = [0, 1, 3, 2, 4, 5];
    let exchange = permutation_of(rt.alloc(), &order)?;
    assert!(rt; has(&exchange, &order, &order));
    assert!(rt; has(&exchange.inverse(rt.alloc())?, &order, &order));
    assert!(rt; has(&exchange.copy(rt.alloc())?, &order, &order));
    let numbers = [0, 1, 2, 3, 4, 5];
    assert!(rt; has(&exchange.after(rt.alloc(), &exchange)?, &numbers, &numbers));
    assert!(rt; has(&Permutation::identity(rt.alloc(), 6)?, &numbers, &numbers));
    Ok(())
}

#[test]
fn turns_three(rt: HostRuntime) -> Result<(), Fail> {
    let turn = permutation_of(rt.alloc(), &[1, 2, 0])?;
    assert!(rt; has(&turn, &[1, 2, 0], &[2, 0, 1]));
    assert!(rt; has(&turn.inverse(rt.alloc())?, &[2, 0, 1], &[1, 2, 0]));
    assert!(rt;
        has(
            &turn.copy(rt.alloc())?.into_inverse(),
            &[2, 0, 1],
            &[1, 2, 0]
        )
    );
    let exchange = permutation_of(rt.alloc(), &[0, 2, 1])?;
    assert_eq!(rt; turn.len(), exchange.len());
    assert!(rt; has(&exchange.after(rt.alloc(), &turn)?, &[1, 0, 2], &[1, 0, 2]));
    assert!(rt; has(&turn.after(rt.alloc(), &exchange)?, &[2, 1, 0], &[2, 1, 0]));
    Ok(())
}

#[test]
fn leaves_many(rt: HostRuntime) -> Result<(), Fail> {
    let identity = Permutation::identity(rt.alloc(), 100_000)?;
    assert_eq!(rt; identity.len(), 100_000);
    for number in 0..identity.len() {
        assert_eq!(rt;
            (identity.old_of(number), identity.new_of(number)),
            (number, number)
        );
    }
    Ok(())
}
