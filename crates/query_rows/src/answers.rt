//! What queries mean over plain stores and block stores of the same index.
ghost use Rattle.std.specs.Prelude.{◌≤◌, length};

use bool_query::{Dictionary, evaluate, parse};
use postings_rewrite::{BlockStore, PlainStore, PostingStore};
use rgb_base::Index;
use small_indexes::{index_of, numbers_of};
use std::alloc::Global;
use std::test::Fail;

/// The longest text that is read as a query.
const LONGEST: usize = 1 << 24;

/// Queries over three lists, whose terms are their documents, and over seven documents, the last of
/// which has no posting; and the documents that they mean.
const MEANT: [(&str, &str); 19] = [
    ("0135", "0135"),
    ("0135 AND 0245", "05"),
    ("0135 AND 15", "15"),
    ("0135 AND NOT 15", "03"),
    ("NOT 15 AND 0135", "03"),
    ("15 AND 0245 AND 0135", "5"),
    ("NOT 0135", "246"),
    ("NOT 0135 AND NOT 0245", "6"),
    ("(0135 OR 0245) AND NOT 15", "0234"),
    ("0135 OR 0245 OR 15", "012345"),
    ("15 OR 0245 AND 0135", "015"),
    ("NOT (0135 OR 0245)", "6"),
    ("NOT NOT 0245", "0245"),
    ("0135 AND (0245 OR NOT 0245)", "0135"),
    ("0135 AND NOT (0245 AND 15)", "013"),
    ("zzz", ""),
    ("0135 AND zzz", ""),
    ("0135 OR \"01 35\"", "0135"),
    ("NOT zzz", "0123456"),
];

/// Whether the query means these documents over the store.
fn means<S: PostingStore>(
    alloc: Global,
    dictionary: &Dictionary,
    store: &S,
    text: &str,
    documents: &str,
) -> Result<bool, Fail>
    requires lists { length dictionary.now ≤ length (S.stored store.now).lists }
{
    if LONGEST < text.len() {
        return Ok(false);
    }
    let Ok(query) = parse(alloc, text) else {
        return Ok(false);
    };
    let ids = evaluate(alloc, &query, dictionary, store)?;
    let wanted = numbers_of(alloc, documents)?;
    Ok(ids.as_slice() == wanted.as_slice())
}

/// How many of the queries mean their documents over the store.
fn count_right<S: PostingStore>(
    alloc: Global,
    dictionary: &Dictionary,
    store: &S,
) -> Result<usize, Fail>
    requires lists { length dictionary.now ≤ length (S.stored store.now).lists }
{
    let mut count: usize = 0;
    for (text, documents) in MEANT {
        if means(alloc, dictionary, store, text, documents)? {
            count = count.saturating_add(1);
        }
    }
    Ok(count)
}

/// The three lists.
fn lists(alloc: Global) -> Result<Index, Fail> {
    index_of(alloc, "0135 0245 15", "d0 d1 d2 d3 d4 d5 d6")
}

/// How many of the queries mean their documents over the plain store of an index.
fn count_over_plain(alloc: Global, index: &Index) -> Result<usize, Fail> {
    let dictionary = Dictionary::new(alloc, index)?;
    let store = PlainStore::new(alloc, index)?;
    count_right(alloc, &dictionary, &store)
}

/// The same over its block store.
fn count_over_blocks(alloc: Global, index: &Index) -> Result<usize, Fail> {
    let dictionary = Dictionary::new(alloc, index)?;
    let store = BlockStore::new(alloc, index)?;
    count_right(alloc, &dictionary, &store)
}

#[test]
fn queries_over_a_plain_store(rt: HostRuntime) -> Result<(), Fail> {
    let index = lists(rt.alloc())?;
    assert_eq!(rt; count_over_plain(rt.alloc(), &index)?, 19);
    Ok(())
}

#[test]
fn queries_over_a_block_store(rt: HostRuntime) -> Result<(), Fail> {
    let index = lists(rt.alloc())?;
    assert_eq!(rt; count_over_blocks(rt.alloc(), &index)?, 19);
    Ok(())
}
