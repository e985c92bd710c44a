//! What holds of permutations, tables and faults, as the contracts of functions that do nothing.
ghost use Rattle.rgb_base.specs.Laws.{NewNumbersTellTheOrder, InverseOfInverse, InverseBothWays, AfterIdentity, IdentityAfter, NumbersUndoTheOrder, PartsOfTheTable, ListsOfTheCut, CutOfTheTable, PartsFaultsExclude, IndexHasNoFault, OrderFaultsExclude, OrderHasNoFault};

/// The new numbers tell the whole permutation.
pub fn new_numbers_tell_the_order()
    ensures law { NewNumbersTellTheOrder }
{}

/// The inverse of the inverse is the permutation, and each of the two is the inverse of the other.
pub fn inverse_of_inverse()
    ensures law { InverseOfInverse }
    ensures both_ways { InverseBothWays }
{}

/// A permutation after the identity is that permutation, and so is the identity after it.
pub fn after_identity()
    ensures law { AfterIdentity }
    ensures other_way { IdentityAfter }
{}

/// The new numbers and the order undo each other.
pub fn numbers_undo_the_order()
    ensures law { NumbersUndoTheOrder }
{}

/// Where a list's postings stand in the table of all, and in one that is cut anew.
pub fn parts_of_the_table()
    ensures law { PartsOfTheTable }
    ensures cut { ListsOfTheCut }
    ensures same { CutOfTheTable }
{}

/// The cases of what is wrong exclude each other, and exclude that nothing is wrong.
pub fn faults_exclude()
    ensures parts { PartsFaultsExclude }
    ensures index { IndexHasNoFault }
    ensures orders { OrderFaultsExclude }
    ensures order { OrderHasNoFault }
{}
