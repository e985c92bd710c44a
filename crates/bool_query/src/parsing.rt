//! Queries are read from their text.
ghost use Rattle.std.specs.Prelude.{◌≤◌, ◌^◌, length, IfOk, IfErr};
ghost use Rattle.bool_query.specs.Fault.{IsQueryOf, IsAnswer};
ghost use Rattle.bool_query.specs.View.{tree_of};
ghost use Rattle.bool_query.specs.Scanned.{token_seen};
ghost use Rattle.bool_query.specs.Parser.{IsWaiting, IsWhole, IsBehind};
ghost use Rattle.bool_query.specs.Parser.{Leads, Refuses, Means, Fails};

use crate::error::{ParseError, QueryCause};
use crate::parser::{Parser, Waiting, Whole, fault};
use crate::query::Query;
use crate::token::{Scanned, Token, next_token};
use std::alloc::Global;

// The state behind one token more, where an operand is needed.
fn needed(alloc: Global, waiting: Waiting, token: Token<'_>, at: u32) -> Result<Parser, ParseError>
    ensures ok { IfOk result (λ next.
        Leads (IsWaiting waiting) (token_seen token.entry at) (IsBehind next)) }
    ensures fault { IfErr result (Refuses (IsWaiting waiting) (token_seen token.entry at)) }
{
    match token {
        Token::Term(word) => Ok(Parser::Holds(waiting.operand(alloc, word)?)),
        Token::OpenParen => Ok(Parser::Waits(waiting.open(alloc, false, at)?)),
        Token::Not => Ok(Parser::Waits(waiting.open(alloc, true, at)?)),
        Token::CloseParen | Token::And | Token::Or => Err(fault(at, QueryCause::Unexpected)),
    }
}

// The state behind one token more, where an operand is whole.
fn joined(alloc: Global, whole: Whole, token: Token<'_>, at: u32) -> Result<Parser, ParseError>
    ensures ok { IfOk result (λ next.
        Leads (IsWhole whole) (token_seen token.entry at) (IsBehind next)) }
    ensures fault { IfErr result (Refuses (IsWhole whole) (token_seen token.entry at)) }
{
    match token {
        Token::And => Ok(Parser::Waits(whole.join_and()?)),
        Token::Or => Ok(Parser::Waits(whole.join_or(alloc)?)),
        Token::CloseParen => Ok(Parser::Holds(whole.close(alloc, at)?)),
        Token::Term(_) | Token::OpenParen | Token::Not => Err(fault(at, QueryCause::Unexpected)),
    }
}

// The state behind one token more.
fn step(alloc: Global, state: Parser, token: Token<'_>, at: u32) -> Result<Parser, ParseError>
    ensures ok { IfOk result (λ next.
        Leads (IsBehind state) (token_seen token.entry at) (IsBehind next)) }
    ensures fault { IfErr result (Refuses (IsBehind state) (token_seen token.entry at)) }
{
    match state {
        Parser::Waits(waiting) => needed(alloc, waiting, token, at),
        Parser::Holds(whole) => joined(alloc, whole, token, at),
    }
}

// What the tokens mean that are all of a text of this length.
fn finish(state: Parser, end: u32) -> Result<Query, ParseError>
    ensures ok { IfOk result (Means (IsBehind state)) }
    ensures fault { IfErr result (Fails (IsBehind state) end) }
{
    match state {
        Parser::Waits(_) => Err(fault(end, QueryCause::Ended)),
        Parser::Holds(whole) => whole.finish(),
    }
}

/// The query that a line of text spells, or its first fault from the left.
pub fn parse(alloc: Global, text: &str) -> Result<Query, ParseError>
    requires few { length text.now ≤ 2 ^ 24 }
    ensures ok { IfOk result (λ query. IsQueryOf text.now (tree_of query)) }
    ensures fault { IfErr result (IsAnswer text.now) }
{
    let mut state = Parser::Waits(Waiting::new(alloc));
    let mut rest = text;
    'tokens: loop {
        match next_token(rest, text.len() - rest.len()) {
            Scanned::Token { token, at, behind } => {
                state = step(alloc, state, token, at as u32)?;
                rest = behind;
            }
            Scanned::OpenQuote { at } => return Err(fault(at as u32, QueryCause::OpenQuote)),
            Scanned::End => return finish(state, text.len() as u32),
        }
    }
}
