//! Laws of what queries mean and of their answers, for the proofs of the crates above. Each call
//! does nothing.
ghost use Rattle.bool_query.specs.AnswerLaws.{AnswersAreRenumbered, MeantIsBelow, AnswerIsOne, StoreAnswersAsTheIndex};

use rgb_base::laws::numbers_undo_the_order;

/// Over an index that was renumbered by an order, a query means the images of the documents that it
/// means over the index. What it means over an index lies below the number of documents.
pub fn answers_are_renumbered()
    ensures law { AnswersAreRenumbered }
    ensures below { MeantIsBelow }
{
    numbers_undo_the_order();
}

/// A query has one answer.
pub fn answer_is_one()
    ensures law { AnswerIsOne }
{}

/// Over the lists that are stored of an index a query means what it means over the index.
pub fn store_answers_as_the_index()
    ensures law { StoreAnswersAsTheIndex }
{}
