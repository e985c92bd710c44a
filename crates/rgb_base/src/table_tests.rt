//! The table of postings with its ends, and an index in another order.
ghost use Rattle.std.specs.Prelude.{◌≡◌, length};

use super::*;
use std::alloc::{AllocError, Global};
use std::test::Fail;

fn list_of(alloc: Global, term: &str, documents: &[u32]) -> Result<TermList, AllocError> {
    let mut postings = Vec::new(alloc);
    for doc in documents {
        postings.push(Posting { doc: *doc, tf: 2 })?;
    }
    Ok(TermList {
        term: Text::of(String::from_str(alloc, term)?),
        df: 10,
        cf: -20,
        postings: Postings::of(postings),
    })
}

fn record_of(alloc: Global, name: &str, length: i32) -> Result<DocRecord, AllocError> {
    let name = Text::of(String::from_str(alloc, name)?);
    Ok(DocRecord { name, length })
}

/// Three lists and three documents.
fn three_lists(alloc: Global) -> Result<Index, PartsError> {
    let header = Header {
        version: 1,
        total_lists: 2,
        total_docs: 3,
        total_terms: 4,
        average_bits: 5,
        description: Text::of(String::new(alloc)),
    };
    let mut lists = Vec::new(alloc);
    lists.push(list_of(alloc, "a", &[0, 2])?)?;
    lists.push(list_of(alloc, "b", &[])?)?;
    lists.push(list_of(alloc, "c", &[1])?)?;
    let mut documents = Vec::new(alloc);
    documents.push(record_of(alloc, "null", 0)?)?;
    documents.push(record_of(alloc, "één", 1)?)?;
    documents.push(record_of(alloc, "zwei", 2)?)?;
    Index::from_parts(alloc, header, lists, documents)
}

#[test]
fn lends_its_table(rt: HostRuntime) -> Result<(), Fail> {
    let index = three_lists(rt.alloc())?;
    let want = [
        Posting { doc: 0, tf: 2 },
        Posting { doc: 2, tf: 2 },
        Posting { doc: 1, tf: 2 },
    ];
    assert_eq!(rt; index.table(), want.as_slice());
    assert_eq!(rt; index.ends(), [2, 2, 3].as_slice());
    Ok(())
}

/// The same index with its records in another order.
fn moved(alloc: Global, index: &Index, order: &Permutation) -> Result<Index, OutOfMemory>
    requires { length order.now ≡ length index.now.documents }
{
    index.is_sound();
    laws::parts_of_the_table();
    let table = Vec::from_slice(alloc, index.table())?;
    index.with_table(alloc, table, order)
}

/// The index of three lists with its records in the order 1, 2, 0.
fn turned(alloc: Global) -> Result<Index, Fail> {
    let index = three_lists(alloc)?;
    let order = Permutation::from_order(alloc, [1, 2, 0].to_vec(alloc)?)?;
    if order.len() != index.documents() {
        return Ok(index);
    }
    Ok(moved(alloc, &index, &order)?)
}

#[test]
fn takes_records_in_order(rt: HostRuntime) -> Result<(), Fail> {
    let index = turned(rt.alloc())?;
    assert_eq!(rt; index.documents(), 3);
    assert_eq!(rt; index.name(0), "één");
    assert_eq!(rt; index.name(1), "zwei");
    assert_eq!(rt; index.name(2), "null");
    assert_eq!(rt; (index.length(0), index.length(2)), (1, 0));
    Ok(())
}

#[test]
fn keeps_lists_in_another_order(rt: HostRuntime) -> Result<(), Fail> {
    let index = turned(rt.alloc())?;
    assert_eq!(rt; index.lists(), 3);
    assert_eq!(rt; index.term(2), "c");
    assert_eq!(rt; (index.df(2), index.cf(2)), (10, -20));
    assert_eq!(rt; index.ends(), [2, 2, 3].as_slice());
    Ok(())
}
