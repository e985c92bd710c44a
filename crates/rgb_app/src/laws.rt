//! Laws of what commands come to. Each call does nothing.
ghost use Rattle.rgb_app.specs.Laws.{OneOutcome, AlikeOutcomes, VersionsTellTheWork, SomeOutcome, VersionsArePlanned, FirstVersionIsIdentity};

use bisection::laws::{bisection_is_one, each_document_once, numbering_of_is_there};
use bool_query::answer_laws::{answer_is_one, answers_are_renumbered, store_answers_as_the_index};
use ciff_format::laws::{every_file_is_read, file_is_one_index, never_both, refusal_is_one};
use forward_index::laws::{forward_is_one, start_by_name_is_one};
use generated_index::laws::generated_is_index;
use postings_rewrite::laws::renumbering_is_one;
use query_file::laws::{every_file_has_verdict, queries_are_one};
use rgb_base::laws::numbers_undo_the_order;

/// A command over files of bytes comes to some outcome, and to exactly one, but for `live`: its work
/// isn't fixed before the versions of its answers are, apart from the file that is written.
pub fn exactly_one_outcome()
    ensures one { OneOutcome }
    ensures alike { AlikeOutcomes }
    ensures versions { VersionsTellTheWork }
    ensures some { SomeOutcome }
{
    file_is_one_index();
    refusal_is_one();
    never_both();
    every_file_is_read();
    answer_is_one();
    answers_are_renumbered();
    store_answers_as_the_index();
    queries_are_one();
    every_file_has_verdict();
    generated_is_index();
    forward_is_one();
    start_by_name_is_one();
    bisection_is_one();
    each_document_once();
    numbering_of_is_there();
    renumbering_is_one();
    numbers_undo_the_order();
}

/// Each version of a reordering is planned to be one numbering, and the first leaves each document where
/// it is.
pub fn versions_are_planned()
    ensures one { VersionsArePlanned }
    ensures first { FirstVersionIsIdentity }
{
    forward_is_one();
    start_by_name_is_one();
    bisection_is_one();
    each_document_once();
    numbering_of_is_there();
    renumbering_is_one();
    numbers_undo_the_order();
}
