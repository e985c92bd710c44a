//! What holds of rounds and halvings, as the contracts of functions that do nothing.
ghost use Rattle.exchange.specs.Laws.{PairsAreOne, KeptRoundIsOne, HalvingIsOne, HalvesAreOne};
ghost use Rattle.exchange.specs.Laws.{PairsAreThere, RoundIsThere, HalvesAreThere};
ghost use Rattle.exchange.specs.Laws.{KeptRoundsAreAChain, HalvesKeepDocuments, HalvesOverTheCell};

use degrees::laws::cost_over_the_cell;

/// Two halves have one list of pairs, one kept round at most, and then no other round.
pub fn round_is_one()
    ensures pairs { PairsAreOne }
    ensures law { KeptRoundIsOne }
{}

/// A cell has one halving, and so one pair of halves that it leaves and one list of kept rounds.
pub fn halving_is_one()
    ensures law { HalvingIsOne }
    ensures halves { HalvesAreOne }
{}

/// Two halves have pairs and a round, and a cell has a halving.
pub fn halves_are_there()
    ensures pairs { PairsAreThere }
    ensures round { RoundIsThere }
    ensures law { HalvesAreThere }
{}

/// Each kept round costs less, each begins where the one before ended, and the halves that are left
/// cost no more than the opening ones.
pub fn kept_rounds_are_a_chain()
    ensures law { KeptRoundsAreAChain }
{}

/// The halves that are left have the documents of the cell, in start order and in the same sizes.
pub fn halves_keep_documents()
    ensures law { HalvesKeepDocuments }
{}

/// Halving over a cell's own rows is halving over the whole forward index.
pub fn halves_over_the_cell()
    ensures law { HalvesOverTheCell }
{
    cost_over_the_cell();
}
