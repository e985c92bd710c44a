//! How far a query is read, and what the next token does to that.
ghost use Rattle.std.specs.Prelude.{◌≡◌, ℕ, ◌<◌, true, List, [], length, IfOk, IfErr, IsOkUnless};
ghost use Rattle.bool_query.specs.Token.{Token, term, close_paren, and_word, or_word};
ghost use Rattle.bool_query.specs.Parser.{opener, negates, IsWaiting, IsHolding, IsWhole};
ghost use Rattle.bool_query.specs.Parser.{Leads, Refuses, Means, Fails};

use crate::error::{ParseError, QueryCause, QueryFault};
use crate::level::Level;
use crate::query::Query;
use rgb_base::Text;
use std::alloc::Global;

/// A `(` or `NOT` that is open, its place, and the operands before it at its level.
#[derive(Drop)]
pub(crate) struct Open {
    negates: bool,
    at: u32,
    level: Level,
}

/// An operand is needed behind the open tokens and these operands.
#[derive(Drop)]
pub(crate) struct Waiting {
    outer: Vec<Open>,
    level: Level,
}

/// A whole operand stands behind the open tokens and these operands.
#[derive(Drop)]
pub(crate) struct Whole {
    outer: Vec<Open>,
    level: Level,
    operand: Query,
}

/// The state behind some tokens.
#[derive(Drop)]
pub(crate) enum Parser {
    Waits(Waiting),
    Holds(Whole),
}

/// A fault of this cause at a byte.
pub(crate) fn fault(at: u32, cause: QueryCause) -> ParseError
    ensures { result ≡ ParseError.Fault (record { at = at; cause = cause }) }
{
    ParseError::Fault(QueryFault { at, cause })
}

impl Waiting {
    /// The state before the first token.
    pub(crate) fn new(alloc: Global) -> Waiting
        ensures { IsWaiting result [] }
    {
        Waiting {
            outer: Vec::new(alloc),
            level: Level::new(alloc),
        }
    }

    /// The state behind a `NOT` or a `(` more.
    pub(crate) fn open(self, alloc: Global, negates: bool, at: u32) -> Result<Waiting, ParseError>
        ensures ok { IfOk result (λ next.
            Leads (IsWaiting self) (opener negates at) (IsWaiting next)) }
        ensures fault { IfErr result (Refuses (IsWaiting self) (opener negates at)) }
    {
        if self.outer.len() == 64 {
            return Err(fault(at, QueryCause::TooDeep));
        }
        let mut outer = self.outer;
        outer.push(Open {
            negates,
            at,
            level: self.level,
        })?;
        Ok(Waiting {
            outer,
            level: Level::new(alloc),
        })
    }

    /// The state behind a term.
    pub(crate) fn operand(self, alloc: Global, word: &str) -> Result<Whole, ParseError>
        ensures ok { IfOk result (λ whole. (at : ℕ)
            → Leads (IsWaiting self) (term word.now at) (IsWhole whole)) }
        ensures memory { IsOkUnless result ParseError.OutOfMemory }
    {
        let word = Text::of(String::from_str(alloc, word)?);
        let whole = Whole {
            outer: self.outer,
            level: self.level,
            operand: Query::Term(word),
        };
        whole.settled(alloc)
    }
}

impl Whole {
    // Whether a `NOT` waits for the operand.
    fn is_negated(&self) -> bool
        ensures { result ≡ negates self.now }
    {
        match self.outer.last() {
            None => false,
            Some(last) => last.negates,
        }
    }

    // The state with the last `NOT` and its operand as one.
    fn negated(self, alloc: Global) -> Result<Whole, ParseError>
        requires waits { negates self ≡ true }
        ensures ok { IfOk result (λ whole. (tokens : List Token)
            → IsHolding self tokens → IsHolding whole tokens) }
        ensures shorter { IfOk result (λ whole.
            length whole.outer.items < length self.outer.items) }
        ensures memory { IsOkUnless result ParseError.OutOfMemory }
    {
        let mut outer = self.outer;
        match outer.pop() {
            None => Ok(Whole {
                outer,
                level: self.level,
                operand: self.operand,
            }),
            Some(last) => Ok(Whole {
                outer,
                level: last.level,
                operand: Query::Not(Box::new(alloc, self.operand)?),
            }),
        }
    }

    // The state with each `NOT` that waits and its operand as one.
    fn settled(self, alloc: Global) -> Result<Whole, ParseError>
        ensures ok { IfOk result (λ whole. (tokens : List Token)
            → IsHolding self tokens → IsWhole whole tokens) }
        ensures memory { IsOkUnless result ParseError.OutOfMemory }
    {
        let mut whole = self;
        while whole.is_negated() {
            whole = whole.negated(alloc)?;
        }
        Ok(whole)
    }

    /// The state behind an `AND`.
    pub(crate) fn join_and(self) -> Result<Waiting, ParseError>
        ensures ok { IfOk result (λ next. (at : ℕ)
            → Leads (IsWhole self) (and_word at) (IsWaiting next)) }
        ensures memory { IsOkUnless result ParseError.OutOfMemory }
    {
        Ok(Waiting {
            outer: self.outer,
            level: self.level.and(self.operand)?,
        })
    }

    /// The state behind an `OR`.
    pub(crate) fn join_or(self, alloc: Global) -> Result<Waiting, ParseError>
        ensures ok { IfOk result (λ next. (at : ℕ)
            → Leads (IsWhole self) (or_word at) (IsWaiting next)) }
        ensures memory { IsOkUnless result ParseError.OutOfMemory }
    {
        Ok(Waiting {
            outer: self.outer,
            level: self.level.or(alloc, self.operand)?,
        })
    }

    /// The state behind a `)` at this place.
    pub(crate) fn close(self, alloc: Global, at: u32) -> Result<Whole, ParseError>
        ensures ok { IfOk result (λ whole. Leads (IsWhole self) (close_paren at) (IsWhole whole)) }
        ensures fault { IfErr result (Refuses (IsWhole self) (close_paren at)) }
    {
        let mut outer = self.outer;
        match outer.pop() {
            None => Err(fault(at, QueryCause::Unexpected)),
            Some(last) => {
                let operand = self.level.whole(self.operand)?;
                let whole = Whole {
                    outer,
                    level: last.level,
                    operand,
                };
                whole.settled(alloc)
            }
        }
    }

    /// What the tokens mean that are all of a text.
    pub(crate) fn finish(self) -> Result<Query, ParseError>
        ensures ok { IfOk result (Means (IsWhole self)) }
        ensures fault { IfErr result (λ error. (end : ℕ) → Fails (IsWhole self) end error) }
    {
        match self.outer.last() {
            None => self.level.whole(self.operand),
            Some(last) => Err(fault(last.at, QueryCause::OpenParen)),
        }
    }
}
