//! The queries of a file.
ghost use Rattle.std.specs.Prelude.{◌≡◌, ◌^◌, ◌≤◌, length, option_map, IfOk, IfErr, OnOk};
ghost use Rattle.bool_query.specs.View.{tree_of};
ghost use Rattle.query_file.specs.Queries.{Asks, AreQueries};
ghost use Rattle.query_file.specs.Reading.{OfFile, Explains, IsRefusal};
ghost use Rattle.query_file.specs.Steps.{IsLineRefusal, IsTaken};
ghost use Rattle.query_file.specs.View.{all_seen};

use crate::bytes::read_bytes;
use crate::error::{LineCause, LineFault, QueriesError};
use crate::lines::{first_line, is_blank};
use bool_query::{ParseError, Query, parse};
use rgb_host::Host;
use std::alloc::Global;
use std::str;

/// A query of a file.
#[derive(Debug, Drop)]
pub struct NumberedQuery {
    /// The number of its line, from 1 on. Lines without a query have numbers too.
    pub line: u32,
    pub query: Query,
}

/// The queries of the named file in order, which is read from its first byte to its last, or to the
/// first that is too much.
pub fn read_queries<H: Host>(
    alloc: Global,
    host: &mut H,
    name: &str,
) -> Result<Vec<NumberedQuery>, QueriesError>
    ensures ok { IfOk result (λ queries.
        OfFile (H.seen host.old) name.now (λ file. AreQueries file (all_seen queries.items))) }
    ensures same { OnOk result (H.seen host.new ≡ H.seen host.old) }
    ensures error { IfErr result (λ error.
        Explains error name.now (H.seen host.old) (H.seen host.new)) }
{
    match read_bytes(alloc, host, name) {
        Ok(bytes) => queries_of(alloc, &bytes),
        Err(error) => Err(error),
    }
}

/// The queries of a file of these bytes.
fn queries_of(alloc: Global, bytes: &[u8]) -> Result<Vec<NumberedQuery>, QueriesError>
    requires few { length bytes.now ≤ 2 ^ 24 }
    ensures ok { IfOk result (λ queries. AreQueries bytes.now (all_seen queries.items)) }
    ensures error { IfErr result (IsRefusal bytes.now) }
{
    let mut queries = Vec::new(alloc);
    let mut left = bytes;
    let mut count: u32 = 0;
    'lines: loop {
        let (line, rest) = first_line(left);
        count += 1;
        match take_line(alloc, line, count, &mut queries) {
            Ok(()) => {}
            Err(error) => return Err(error),
        }
        match rest {
            Some(rest) => left = rest,
            None => return Ok(queries),
        }
    }
}

/// Puts the query of a line, if it has one, behind the others.
fn take_line(
    alloc: Global,
    line: &[u8],
    number: u32,
    queries: &mut Vec<NumberedQuery>,
) -> Result<(), QueriesError>
    requires few { length line.now ≤ 2 ^ 24 }
    ensures ok { OnOk result
        (IsTaken line.now number (all_seen queries.old.items) (all_seen queries.new.items)) }
    ensures error { IfErr result (IsLineRefusal line.now number) }
{
    match query_of(alloc, line, number) {
        Ok(Some(query)) => {
            queries.push(NumberedQuery {
                line: number,
                query,
            })?;
            Ok(())
        }
        Ok(None) => Ok(()),
        Err(error) => Err(error),
    }
}

/// The query of the line of this number, or nothing where it is blank.
fn query_of(alloc: Global, line: &[u8], number: u32) -> Result<Option<Query>, QueriesError>
    requires few { length line.now ≤ 2 ^ 24 }
    ensures ok { IfOk result (λ found. Asks line.now (option_map tree_of found)) }
    ensures error { IfErr result (IsLineRefusal line.now number) }
{
    if is_blank(line) {
        return Ok(None);
    }
    let Ok(text) = str::from_utf8(line) else {
        return Err(QueriesError::BadLine(LineFault {
            line: number,
            at: 0,
            cause: LineCause::NotText,
        }));
    };
    match parse(alloc, text) {
        Ok(query) => Ok(Some(query)),
        Err(ParseError::Fault(fault)) => Err(QueriesError::BadLine(LineFault {
            line: number,
            at: fault.at,
            cause: LineCause::NoQuery(fault.cause),
        })),
        Err(ParseError::OutOfMemory) => Err(QueriesError::OutOfMemory),
    }
}
