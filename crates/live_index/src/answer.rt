//! Answers to queries.
ghost use Rattle.std.specs.Prelude.{◌≡◌, ◌<◌, All, length, map, slice_index, IfOk};
ghost use Rattle.rgb_base.specs.Parts.{terms_of};
ghost use Rattle.postings_rewrite.specs.Laws.{IsOrderOf};
ghost use Rattle.postings_rewrite.specs.Stores.{IsStoredRenumbered};
ghost use Rattle.bool_query.specs.View.{tree_of};
ghost use Rattle.live_index.specs.Answers.{IsAnswerUnder};

use crate::view::View;
use bool_query::answer_laws::{answers_are_renumbered, store_answers_as_the_index};
use bool_query::{Dictionary, Query, evaluate};
use postings_rewrite::PostingStore;
use rgb_base::laws::numbers_undo_the_order;
use rgb_base::{Ids, Index, OutOfMemory, Permutation};
use std::alloc::{AllocError, Global};

/// The documents that a query means, at a version.
#[derive(Debug, Drop)]
pub struct Answer {
    /// The version under whose numbering the documents are named.
    pub version: u32,
    /// The numbers of the documents at that version, rising.
    pub ids: Ids,
    /// At each place the number in the base of the document whose number stands there in `ids`.
    pub originals: Ids,
}

/// The documents that the query means at the version of a view.
pub(crate) fn answer_from(
    alloc: Global,
    base: &Index,
    dictionary: &Dictionary,
    view: &View,
    query: &Query,
) -> Result<Answer, OutOfMemory>
    requires terms { dictionary.now ≡ terms_of base.now.lists }
    requires order { IsOrderOf base.now view.now.numbering }
    requires stored { IsStoredRenumbered base.now view.now.numbering view.now.store }
    ensures version { IfOk result (λ answer. answer.version ≡ view.now.version) }
    ensures ok { IfOk result (λ answer. IsAnswerUnder
        base.now view.now.numbering (tree_of query.now) answer.ids answer.originals) }
{
    base.is_sound();
    answers_are_renumbered();
    store_answers_as_the_index();
    numbers_undo_the_order();
    // That the store's numbers lie below the number of documents: for the proof.
    let _documents = view.store.documents();
    let ids = evaluate(alloc, query, dictionary, &view.store)?;
    let originals = originals_of(alloc, ids.as_slice(), &view.numbering)?;
    Ok(Answer {
        version: view.version,
        ids,
        originals,
    })
}

/// The old number of each of the new ones.
fn originals_of(alloc: Global, ids: &[u32], numbering: &Permutation) -> Result<Ids, AllocError>
    requires { All (λ id. id < length numbering.now) ids.now }
    ensures { IfOk result
        (λ originals. originals ≡ map (λ id. slice_index numbering.now id) ids.now) }
{
    let mut originals = Vec::with_capacity(alloc, ids.len())?;
    for id in ids {
        originals.push(numbering.old_of(*id))?;
    }
    Ok(Ids::of(originals))
}
