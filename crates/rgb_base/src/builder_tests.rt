//! Pieces that a builder takes and refuses, and what stands after them.
use super::*;
use std::alloc::{AllocError, Global};
use std::test::Fail;

fn header_of(alloc: Global, description: &str) -> Result<Header, AllocError> {
    Ok(Header {
        version: 1,
        total_lists: 2,
        total_docs: 3,
        total_terms: 4,
        average_bits: 5,
        description: Text::of(String::from_str(alloc, description)?),
    })
}

#[test]
fn refuses_a_posting_and_goes_on(rt: HostRuntime) -> Result<(), Fail> {
    let order = Some(BuildError::Order);
    let rows = [(3, order), (0, None), (0, order), (2, None), (1, order)];
    let mut builder = IndexBuilder::new(rt.alloc(), header_of(rt.alloc(), "few")?, 3)?;
    for (doc, want) in rows {
        let got = builder.push_posting(Posting { doc, tf: 1 }).err();
        assert_eq!(rt; got, want);
    }
    Ok(())
}

#[test]
fn refuses_a_list_and_goes_on(rt: HostRuntime) -> Result<(), Fail> {
    let same = Some(BuildError::Same);
    let rows = [
        ("b", None),
        ("b", same),
        ("", None),
        ("", same),
        ("bé", None),
    ];
    let mut builder = IndexBuilder::new(rt.alloc(), header_of(rt.alloc(), "few")?, 3)?;
    for (term, want) in rows {
        let got = builder.close_list(term, 7, -7).err();
        assert_eq!(rt; got, want);
    }
    assert_eq!(rt; builder.lists(), 3);
    assert_eq!(rt; builder.text(), 7);
    assert!(rt; builder.has_term("bé"));
    assert!(rt; !builder.has_term("é"));
    Ok(())
}

#[test]
fn refuses_a_record_too_many(rt: HostRuntime) -> Result<(), Fail> {
    let rows = [("x", None), ("", None), ("x", Some(BuildError::Counts))];
    let mut builder = IndexBuilder::new(rt.alloc(), header_of(rt.alloc(), "few")?, 2)?;
    for (name, want) in rows {
        let got = builder.push_record(name, -1).err();
        assert_eq!(rt; got, want);
    }
    assert_eq!(rt; builder.records(), 2);
    assert_eq!(rt; builder.documents(), 2);
    Ok(())
}

#[test]
fn begins_below_the_limit(rt: HostRuntime) -> Result<(), Fail> {
    let rows = [
        (0, None),
        (2_147_483_647, None),
        (2_147_483_648, Some(BuildError::Counts)),
    ];
    for (documents, want) in rows {
        let begun = IndexBuilder::new(rt.alloc(), header_of(rt.alloc(), "")?, documents);
        assert_eq!(rt; begun.err(), want);
    }
    Ok(())
}

/// The index of a builder that is whole.
fn finished(builder: IndexBuilder) -> Result<Index, BuildError> {
    if builder.is_whole() {
        Ok(builder.finish())
    } else {
        Err(BuildError::Counts)
    }
}

/// Two lists and two documents, with texts that end in characters of several bytes.
fn two_lists(alloc: Global) -> Result<Index, BuildError> {
    let mut builder = IndexBuilder::new(alloc, header_of(alloc, "zwei ü")?, 2)?;
    builder.push_posting(Posting { doc: 0, tf: 3 })?;
    builder.push_posting(Posting { doc: 1, tf: -3 })?;
    builder.close_list("tür€", 8, 9)?;
    builder.close_list("", -8, -9)?;
    builder.push_record("𝄞", 5)?;
    builder.push_record("", -5)?;
    finished(builder)
}

#[test]
fn ends_with_its_lists(rt: HostRuntime) -> Result<(), Fail> {
    let index = two_lists(rt.alloc())?;
    assert_eq!(rt; index.lists(), 2);
    assert_eq!(rt; index.term(0), "tür€");
    assert_eq!(rt; index.term(1), "");
    assert_eq!(rt; (index.df(0), index.cf(1)), (8, -9));
    let want = [Posting { doc: 0, tf: 3 }, Posting { doc: 1, tf: -3 }];
    assert_eq!(rt; index.postings(0), want.as_slice());
    assert_eq!(rt; index.postings(1).len(), 0);
    Ok(())
}

#[test]
fn ends_with_its_records(rt: HostRuntime) -> Result<(), Fail> {
    let index = two_lists(rt.alloc())?;
    assert_eq!(rt; index.documents(), 2);
    assert_eq!(rt; index.name(0), "𝄞");
    assert_eq!(rt; index.name(1), "");
    assert_eq!(rt; (index.length(0), index.length(1)), (5, -5));
    assert_eq!(rt; index.header().description.as_str(), "zwei ü");
    Ok(())
}
