//! What holds of degrees and costs, as the contracts of functions that do nothing.
ghost use Rattle.degrees.specs.Laws.{CostOverTheCell, DegreesOverTheCell, CostOfLoaded};

/// Degrees and cost over a cell's own rows are those over the whole forward index.
pub fn cost_over_the_cell()
    ensures law { CostOverTheCell }
    ensures degrees { DegreesOverTheCell }
{}

/// A table that is loaded with two halves costs what they cost.
pub fn cost_of_loaded()
    ensures law { CostOfLoaded }
{}
