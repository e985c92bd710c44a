//! Which documents a query means.
ghost use Rattle.std.specs.Prelude.{◌≡◌, ◌<◌, ◌≤◌, length, map, IfOk, Contains};
ghost use Rattle.postings_rewrite.specs.Stores.{AreDocuments, list_at};
ghost use Rattle.bool_query.specs.Tree.{of_term, disjunction, conjunction, row};
ghost use Rattle.bool_query.specs.View.{tree_of};
ghost use Rattle.bool_query.specs.Answers.{AreExactly, IsMeantInStore, IsAnswerTo};
ghost use Rattle.bool_query.specs.Scopes.{InScope, IsScope};

use crate::dictionary::Dictionary;
use crate::listed::{documents_of, sift_listed};
use crate::merge::{all_documents, sift, united};
use crate::query::Query;
use crate::turns::rarest_first;
use postings_rewrite::PostingStore;
use rgb_base::{Ids, OutOfMemory};
use std::alloc::{AllocError, Global};

/// The documents that the query means over the lists of the store, which have the dictionary's terms.
pub fn evaluate<S: PostingStore>(
    alloc: Global,
    query: &Query,
    dictionary: &Dictionary,
    store: &S,
) -> Result<Ids, OutOfMemory>
    requires lists { length dictionary.now ≤ length (S.stored store.now).lists }
    ensures ok { IfOk result (IsAnswerTo dictionary.now (S.stored store.now) (tree_of query.now)) }
{
    let _documents = store.documents();
    let ids = within(alloc, None, query, dictionary, store)?;
    Ok(Ids::of(ids))
}

/// The documents of the scope that the query means.
#[cycle(answers)]
fn within<S: PostingStore>(
    alloc: Global,
    scope: Option<Vec<u32>>,
    query: &Query,
    dictionary: &Dictionary,
    store: &S,
) -> Result<Vec<u32>, AllocError>
    requires lists { length dictionary.now ≤ length (S.stored store.now).lists }
    requires scope { IsScope (S.stored store.now).documents scope }
    ensures { IfOk result (λ ids. AreExactly
        (λ doc. InScope (S.stored store.now).documents scope doc
        × IsMeantInStore dictionary.now (S.stored store.now) (tree_of query.now) doc) ids.items) }
{
    match query {
        Query::Term(term) => with_term(alloc, scope, term.as_str(), dictionary, store),
        Query::All(parts) => in_every(alloc, scope, parts.as_slice(), dictionary, store),
        Query::Any(parts) => {
            let found = in_some(alloc, parts.as_slice(), dictionary, store)?;
            Ok(shared(scope, found, store.documents()))
        }
        Query::Not(part) => match part.as_ref() {
            Query::Term(term) => without_term(alloc, scope, term.as_str(), dictionary, store),
            part => {
                let left_out = within(alloc, None, part, dictionary, store)?;
                let ids = whole(alloc, scope, store.documents())?;
                Ok(sift(ids, &left_out, false))
            }
        },
    }
}

/// The documents of the scope that every part means. Each part is looked for among the documents that
/// those before it left, the rarest part first.
#[cycle(answers)]
fn in_every<S: PostingStore>(
    alloc: Global,
    scope: Option<Vec<u32>>,
    parts: &[Query],
    dictionary: &Dictionary,
    store: &S,
) -> Result<Vec<u32>, AllocError>
    requires lists { length dictionary.now ≤ length (S.stored store.now).lists }
    requires scope { IsScope (S.stored store.now).documents scope }
    ensures { IfOk result (λ ids. AreExactly
        (λ doc. InScope (S.stored store.now).documents scope doc
        × IsMeantInStore dictionary.now (S.stored store.now)
        (conjunction (row (map tree_of parts.now))) doc) ids.items) }
{
    let places = rarest_first(alloc, parts, dictionary, store)?;
    let mut left = scope;
    for i in 0..places.len() {
        let part = &parts[places[i]];
        left = Some(within(alloc, left, part, dictionary, store)?);
    }
    whole(alloc, left, store.documents())
}

/// The documents that some part means.
#[cycle(answers)]
fn in_some<S: PostingStore>(
    alloc: Global,
    parts: &[Query],
    dictionary: &Dictionary,
    store: &S,
) -> Result<Vec<u32>, AllocError>
    requires lists { length dictionary.now ≤ length (S.stored store.now).lists }
    ensures { IfOk result (λ ids. AreExactly
        (IsMeantInStore dictionary.now (S.stored store.now)
        (disjunction (row (map tree_of parts.now)))) ids.items) }
{
    let _documents = store.documents();
    let mut ids = Vec::new(alloc);
    for i in 0..parts.len() {
        let more = within(alloc, None, &parts[i], dictionary, store)?;
        ids.extend_from_slice(&more)?;
    }
    Ok(united(ids))
}

/// The documents of the scope, as numbers.
fn whole(alloc: Global, scope: Option<Vec<u32>>, documents: u32) -> Result<Vec<u32>, AllocError>
    requires scope { IsScope documents scope }
    ensures { IfOk result (λ ids. AreExactly (InScope documents scope) ids.items) }
{
    match scope {
        Some(ids) => Ok(ids),
        None => all_documents(alloc, documents),
    }
}

/// Those of the numbers that are in the scope.
fn shared(scope: Option<Vec<u32>>, found: Vec<u32>, documents: u32) -> Vec<u32>
    requires scope { IsScope documents scope }
    requires found { AreDocuments documents found.items }
    ensures { AreExactly
        (λ doc. InScope documents scope doc × Contains found.items doc) result.items }
{
    let _documents = documents;
    match scope {
        Some(ids) => sift(ids, &found, true),
        None => found,
    }
}

/// The documents of the scope that have the term.
fn with_term<S: PostingStore>(
    alloc: Global,
    scope: Option<Vec<u32>>,
    term: &str,
    dictionary: &Dictionary,
    store: &S,
) -> Result<Vec<u32>, AllocError>
    requires lists { length dictionary.now ≤ length (S.stored store.now).lists }
    requires scope { IsScope (S.stored store.now).documents scope }
    ensures { IfOk result (λ ids. AreExactly
        (λ doc. InScope (S.stored store.now).documents scope doc
        × IsMeantInStore dictionary.now (S.stored store.now) (of_term term.now) doc) ids.items) }
{
    let _documents = store.documents();
    match dictionary.list_of(term) {
        Some(list) => match scope {
            Some(ids) => Ok(sift_listed(ids, store, list, true)),
            None => documents_of(alloc, store, list),
        },
        None => Ok(Vec::new(alloc)),
    }
}

/// The documents of the scope that don't have the term.
fn without_term<S: PostingStore>(
    alloc: Global,
    scope: Option<Vec<u32>>,
    term: &str,
    dictionary: &Dictionary,
    store: &S,
) -> Result<Vec<u32>, AllocError>
    requires lists { length dictionary.now ≤ length (S.stored store.now).lists }
    requires scope { IsScope (S.stored store.now).documents scope }
    ensures { IfOk result (λ ids. AreExactly
        (λ doc. InScope (S.stored store.now).documents scope doc
        × (¬ IsMeantInStore dictionary.now (S.stored store.now) (of_term term.now) doc)) ids.items) }
{
    let ids = whole(alloc, scope, store.documents())?;
    match dictionary.list_of(term) {
        Some(list) => Ok(sift_listed(ids, store, list, false)),
        None => Ok(ids),
    }
}
