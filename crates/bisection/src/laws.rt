//! What holds of the recursion, as the contracts of functions that do nothing.
ghost use Rattle.bisection.specs.Laws.{BisectionIsOne, NumberingIsOne, EachDocumentOnce};
ghost use Rattle.bisection.specs.Laws.{RoundsStandInOrder, BisectionOverTheCell};
ghost use Rattle.bisection.specs.Laws.{LevelsAddUp, SlabsAreOneRecursion};
ghost use Rattle.forward_index.specs.Laws.{ForwardIsThere, StartIsThere};
ghost use Rattle.bisection.specs.There.{BisectionIsThere, NumberingIsThere, NumberingOfIsThere};
ghost use Rattle.bisection.specs.Cells.{AreLaws};

use exchange::laws::{
    halves_are_there, halves_keep_documents, halves_over_the_cell, halving_is_one,
    kept_rounds_are_a_chain,
};
use forward_index::laws::{cell_of_a_cell, forward_is_there, start_by_name_is_there};

/// A cell comes to one list of cells and one trace, and a forward index to one numbering.
pub fn bisection_is_one()
    ensures law { BisectionIsOne }
    ensures numbering { NumberingIsOne }
{
    halving_is_one();
}

/// Each document of a cell stands once in the order.
pub fn each_document_once()
    ensures law { EachDocumentOnce }
{
    halves_keep_documents();
}

/// Each kept round of a trace costs less, and the trace stands in order.
pub fn rounds_stand_in_order()
    ensures law { RoundsStandInOrder }
{
    halves_keep_documents();
    kept_rounds_are_a_chain();
}

/// The recursion over a cell's own rows is the recursion over the whole forward index.
pub fn bisection_over_the_cell()
    ensures law { BisectionOverTheCell }
{
    halves_keep_documents();
    halves_over_the_cell();
}

/// Slabs of levels, one after the other, are one recursion.
pub fn slabs_are_one_recursion()
    ensures levels { LevelsAddUp }
    ensures law { SlabsAreOneRecursion }
{
    halves_keep_documents();
    kept_rounds_are_a_chain();
}

/// Each cell comes to cells and a trace, and each forward index to a numbering.
pub fn numbering_is_there()
    ensures law { BisectionIsThere }
    ensures numbering { NumberingIsThere }
{
    halves_are_there();
    halves_keep_documents();
}

/// Each index has a forward index over each start order, a start order by name, and so a numbering.
pub fn numbering_of_is_there()
    ensures forward { ForwardIsThere }
    ensures start { StartIsThere }
    ensures law { NumberingOfIsThere }
{
    forward_is_there();
    start_by_name_is_there();
    numbering_is_there();
}

/// Those on which the recursion's proof stands.
pub(crate) fn laws_of_recursion()
    ensures laws { AreLaws }
{
    halves_keep_documents();
    cell_of_a_cell();
    bisection_over_the_cell();
    each_document_once();
    rounds_stand_in_order();
    slabs_are_one_recursion();
}
