//! Files of queries over a host in memory.
use crate::error::{LineCause, LineFault, QueriesError};
use crate::queries::read_queries;
use bool_query::{Query, QueryCause};
use rgb_host::{FileMap, MemoryHost, Numbers};
use std::alloc::Global;
use std::collections::BTreeMap;
use std::test::Fail;

/// A host whose file `q` has these bytes.
fn host_of(alloc: Global, bytes: &[u8]) -> Result<MemoryHost, Fail> {
    let mut files = BTreeMap::new(alloc);
    files.insert(String::from_str(alloc, "q")?, bytes.to_vec(alloc)?)?;
    let none = Numbers::of(Vec::new(alloc));
    Ok(MemoryHost::new(
        alloc,
        FileMap::of(files),
        none,
        Numbers::of(Vec::new(alloc)),
        3,
    ))
}

/// The term of a query that is one alone.
fn term_of(query: &Query) -> &str {
    match query {
        Query::Term(term) => term.as_str(),
        _ => "",
    }
}

#[test]
fn queries_with_their_lines(rt: HostRuntime) -> Result<(), Fail> {
    let mut host = host_of(rt.alloc(), b"\nabcd\r\n \t\n\"e f\"")?;
    let queries = read_queries(rt.alloc(), &mut host, "q")?;
    assert_eq!(rt; queries.len(), 2);
    assert_eq!(rt; queries[0].line, 2);
    assert_eq!(rt; term_of(&queries[0].query), "abcd");
    assert_eq!(rt; queries[1].line, 4);
    assert_eq!(rt; term_of(&queries[1].query), "e f");
    Ok(())
}

#[test]
fn first_faults(rt: HostRuntime) -> Result<(), Fail> {
    let rows: [(&[u8], u32, u32, LineCause); 3] = [
        (b"a\n\xff\n(", 2, 0, LineCause::NotText),
        (
            b"\n(a\r\n\xff",
            2,
            0,
            LineCause::NoQuery(QueryCause::OpenParen),
        ),
        (
            b"a\n\t\na b",
            3,
            2,
            LineCause::NoQuery(QueryCause::Unexpected),
        ),
    ];
    for (bytes, line, at, cause) in rows {
        let mut host = host_of(rt.alloc(), bytes)?;
        let error = read_queries(rt.alloc(), &mut host, "q").err();
        let fault = LineFault { line, at, cause };
        assert_eq!(rt; error, Some(QueriesError::BadLine(fault)));
    }
    Ok(())
}
