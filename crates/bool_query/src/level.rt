//! The operands of one level of a query before the one that is missing.
ghost use Rattle.std.specs.Prelude.{◌≡◌, [], ◌∷◌, ◌++◌, IfOk, IsOkUnless};
ghost use Rattle.bool_query.specs.Tree.{conjoined, disjoined};
ghost use Rattle.bool_query.specs.View.{tree_of, trees};
ghost use Rattle.bool_query.specs.State.{whole_all, whole_any};

use crate::error::ParseError;
use crate::query::{Parts, Query};
use std::alloc::Global;

/// The operands that stand before the last `OR` of a level, and behind it before the last `AND`.
#[derive(Drop)]
pub(crate) struct Level {
    pub(crate) alls: Vec<Query>,
    pub(crate) nots: Vec<Query>,
}

// The operands joined by `AND`.
fn conjoined(nots: Vec<Query>, operand: Query) -> Result<Query, ParseError>
    ensures ok { IfOk result (λ query.
        tree_of query ≡ conjoined (trees nots.items ++ tree_of operand ∷ [])) }
    ensures memory { IsOkUnless result ParseError.OutOfMemory }
{
    if nots.is_empty() {
        return Ok(operand);
    }
    let mut parts = nots;
    parts.push(operand)?;
    Ok(Query::All(Parts::of(parts)))
}

// The operands joined by `OR`.
fn disjoined(alls: Vec<Query>, operand: Query) -> Result<Query, ParseError>
    ensures ok { IfOk result (λ query.
        tree_of query ≡ disjoined (trees alls.items ++ tree_of operand ∷ [])) }
    ensures memory { IsOkUnless result ParseError.OutOfMemory }
{
    if alls.is_empty() {
        return Ok(operand);
    }
    let mut parts = alls;
    parts.push(operand)?;
    Ok(Query::Any(Parts::of(parts)))
}

impl Level {
    /// A level with no operand.
    pub(crate) fn new(alloc: Global) -> Level
        ensures alls { result.alls.items ≡ [] }
        ensures nots { result.nots.items ≡ [] }
    {
        Level {
            alls: Vec::new(alloc),
            nots: Vec::new(alloc),
        }
    }

    /// The level behind this operand and an `AND`.
    pub(crate) fn and(self, operand: Query) -> Result<Level, ParseError>
        ensures alls { IfOk result (λ level. trees level.alls.items ≡ trees self.alls.items) }
        ensures nots { IfOk result (λ level.
            trees level.nots.items ≡ trees self.nots.items ++ tree_of operand ∷ []) }
        ensures memory { IsOkUnless result ParseError.OutOfMemory }
    {
        let mut nots = self.nots;
        nots.push(operand)?;
        Ok(Level {
            alls: self.alls,
            nots,
        })
    }

    /// The level behind this operand and an `OR`.
    pub(crate) fn or(self, alloc: Global, operand: Query) -> Result<Level, ParseError>
        ensures alls { IfOk result (λ level. trees level.alls.items
            ≡ trees self.alls.items ++ whole_all (trees self.nots.items) (tree_of operand) ∷ []) }
        ensures nots { IfOk result (λ level. trees level.nots.items ≡ []) }
        ensures memory { IsOkUnless result ParseError.OutOfMemory }
    {
        let all = conjoined(self.nots, operand)?;
        let mut alls = self.alls;
        alls.push(all)?;
        Ok(Level {
            alls,
            nots: Vec::new(alloc),
        })
    }

    /// What the level is with this operand as its last.
    pub(crate) fn whole(self, operand: Query) -> Result<Query, ParseError>
        ensures ok { IfOk result (λ query. tree_of query
            ≡ whole_any (trees self.alls.items) (trees self.nots.items) (tree_of operand)) }
        ensures memory { IsOkUnless result ParseError.OutOfMemory }
    {
        let all = conjoined(self.nots, operand)?;
        disjoined(self.alls, all)
    }
}
