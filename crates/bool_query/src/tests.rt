//! Texts with the queries that they spell, and with their first faults.
use crate::error::{ParseError, QueryCause, QueryFault};
use crate::parsing::parse;
use crate::query::Query;
use std::alloc::Global;
use std::test::Fail;

// The longest text that is read.
const LONGEST: usize = 1 << 24;

fn read(alloc: Global, text: &str) -> Result<Query, ParseError> {
    if LONGEST < text.len() {
        return Err(ParseError::OutOfMemory);
    }
    parse(alloc, text)
}

// The first fault of a text, if it has one.
fn fault_of(alloc: Global, text: &str) -> Option<QueryFault> {
    match read(alloc, text) {
        Err(ParseError::Fault(fault)) => Some(fault),
        _ => None,
    }
}

// The query of a text as `Debug` writes it, and nothing where it is none.
fn shown(alloc: Global, text: &str) -> Result<String, Fail> {
    match read(alloc, text) {
        Ok(query) => Ok(format!(in alloc; "{query:?}")?),
        Err(_) => Ok(String::new(alloc)),
    }
}

const FAULTS: [(&str, u32, QueryCause); 26] = [
    ("a b", 2, QueryCause::Unexpected),
    ("a AND", 5, QueryCause::Ended),
    ("a \"b", 2, QueryCause::OpenQuote),
    ("((a", 1, QueryCause::OpenParen),
    ("", 0, QueryCause::Ended),
    (" \t ", 3, QueryCause::Ended),
    ("(", 1, QueryCause::Ended),
    ("NOT", 3, QueryCause::Ended),
    ("(a) OR ", 7, QueryCause::Ended),
    (")", 0, QueryCause::Unexpected),
    ("a)", 1, QueryCause::Unexpected),
    ("()", 1, QueryCause::Unexpected),
    ("(a (", 3, QueryCause::Unexpected),
    ("(a)(b)", 3, QueryCause::Unexpected),
    ("OR", 0, QueryCause::Unexpected),
    ("NOT AND a", 4, QueryCause::Unexpected),
    ("a NOT b", 2, QueryCause::Unexpected),
    ("a AND OR b", 6, QueryCause::Unexpected),
    ("é )", 3, QueryCause::Unexpected),
    ("a\"b\"", 1, QueryCause::Unexpected),
    ("a ) \"", 2, QueryCause::Unexpected),
    ("\"", 0, QueryCause::OpenQuote),
    ("a AND \"b\" \"c", 10, QueryCause::OpenQuote),
    ("(a) OR (b AND (c) ", 7, QueryCause::OpenParen),
    (
        "(((((((((((((((((((((((((((((((((((((((((((((((((((((((((((((((((a",
        64,
        QueryCause::TooDeep,
    ),
    (
        "NOT ((((((((((((((((((((((((((((((((((((((((((((((((((((((((((((((((a",
        67,
        QueryCause::TooDeep,
    ),
];

#[test]
fn first_faults(rt: HostRuntime) -> Result<(), Fail> {
    for (text, at, cause) in FAULTS {
        assert_eq!(rt;
            fault_of(rt.alloc(), text),
            Some(QueryFault { at, cause }),
            "{text}"
        );
    }
    Ok(())
}

const QUERIES: [(&str, &str); 11] = [
    ("a", "Term(Text { value: \"a\" })"),
    ("\tNOT (a)", "Not(Term(Text { value: \"a\" }))"),
    ("NOT NOT or", "Not(Not(Term(Text { value: \"or\" })))"),
    ("\"a (b\"", "Term(Text { value: \"a (b\" })"),
    ("\"AND\"", "Term(Text { value: \"AND\" })"),
    ("\"\"", "Term(Text { value: \"\" })"),
    ("éü", "Term(Text { value: \"éü\" })"),
    (
        "a OR b AND NOT c",
        "Any(Parts { value: [Term(Text { value: \"a\" }), All(Parts { value: \
            [Term(Text { value: \"b\" }), Not(Term(Text { value: \"c\" }))] })] })",
    ),
    (
        "(a AND b)AND c",
        "All(Parts { value: [All(Parts { value: [Term(Text { value: \"a\" }), \
            Term(Text { value: \"b\" })] }), Term(Text { value: \"c\" })] })",
    ),
    (
        "NOT a AND(b OR c OR d)",
        "All(Parts { value: [Not(Term(Text { value: \"a\" })), Any(Parts { value: [Term(Text { \
            value: \"b\" }), Term(Text { value: \"c\" }), Term(Text { value: \"d\" })] })] })",
    ),
    (
        "((((((((((((((((((((((((((((((((((((((((((((((((((((((((((((((((a\
            ))))))))))))))))))))))))))))))))))))))))))))))))))))))))))))))))",
        "Term(Text { value: \"a\" })",
    ),
];

#[test]
fn queries_of_texts(rt: HostRuntime) -> Result<(), Fail> {
    for (text, query) in QUERIES {
        assert_eq!(rt; shown(rt.alloc(), text)?.as_str(), query, "{text}");
    }
    Ok(())
}
