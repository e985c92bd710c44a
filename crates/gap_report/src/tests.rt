//! Costs worked out by hand.
use super::Costs;
use rgb_base::{DocRecord, Header, Index, Posting, Postings, TermList, Text};
use std::alloc::{AllocError, Global};
use std::test::Fail;

/// A list of these documents, each with one occurrence.
fn list_of(alloc: Global, term: &str, documents: &[u32]) -> Result<TermList, AllocError> {
    let mut postings = Vec::new(alloc);
    for doc in documents {
        postings.push(Posting { doc: *doc, tf: 1 })?;
    }
    Ok(TermList {
        term: Text::of(String::from_str(alloc, term)?),
        df: 1,
        cf: 1,
        postings: Postings::of(postings),
    })
}

/// An index of so many documents with these lists.
fn index_of(alloc: Global, documents: u32, lists: &[(&str, &[u32])]) -> Result<Index, Fail> {
    let mut made = Vec::new(alloc);
    for (term, docs) in lists {
        made.push(list_of(alloc, *term, *docs)?)?;
    }
    let mut records = Vec::new(alloc);
    for _ in 0..documents {
        let name = Text::of(String::new(alloc));
        records.push(DocRecord { name, length: 1 })?;
    }
    let header = Header {
        version: 1,
        total_lists: 0,
        total_docs: 0,
        total_terms: 0,
        average_bits: 0,
        description: Text::of(String::new(alloc)),
    };
    Ok(Index::from_parts(alloc, header, made, records)?)
}

fn costs(postings: u128, gamma: u128, delta: u128, bytes: u128) -> Costs {
    Costs {
        postings,
        gamma,
        delta,
        bytes,
    }
}

#[test]
fn costs_of_small_indexes(rt: HostRuntime) -> Result<(), Fail> {
    let rows: [(u32, &[(&str, &[u32])], Costs); 8] = [
        (
            6,
            &[("a", &[0, 1, 3]), ("b", &[2, 4, 5])],
            costs(6, 12, 15, 6),
        ),
        (
            6,
            &[("a", &[0, 1, 2]), ("b", &[3, 4, 5])],
            costs(6, 10, 10, 6),
        ),
        (4, &[("a", &[0, 2]), ("b", &[1, 3])], costs(4, 10, 13, 4)),
        (5, &[("a", &[0, 1, 3]), ("b", &[2, 4])], costs(5, 11, 14, 5)),
        (0, &[], costs(0, 0, 0, 0)),
        (3, &[("a", &[]), ("b", &[]), ("c", &[])], costs(0, 0, 0, 0)),
        // Gaps of 127, 128 and 16384: 2 * 6 + 1, 2 * 7 + 1 and 2 * 14 + 1 bits of the gamma code,
        // 6 + 5, 7 + 7 and 14 + 7 bits of the delta code, and one, two and three bytes.
        (20000, &[("", &[126, 254, 16638])], costs(3, 57, 46, 6)),
        (
            300,
            &[("x", &[299]), ("", &[]), ("y", &[0, 299])],
            costs(3, 35, 31, 5),
        ),
    ];
    for (documents, lists, want) in rows {
        let index = index_of(rt.alloc(), documents, lists)?;
        for workers in [1, 2, 3, 64] {
            assert_eq!(rt; Costs::of(&rt, &index, workers)?, want, "at {workers}");
        }
    }
    Ok(())
}
