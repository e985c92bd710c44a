//! Laws of renumbered indexes, for the proofs of the crates above. Each call does nothing.
ghost use Rattle.postings_rewrite.specs.Laws.{RenumberedIsThere, RenumberingIsOne, IdentityLeaves, TwiceIsOnce};

use rgb_base::laws::numbers_undo_the_order;

/// An index renumbered by an order of its documents is there, and is one index.
pub fn renumbering_is_one()
    ensures there { RenumberedIsThere }
    ensures one { RenumberingIsOne }
{
    numbers_undo_the_order();
}

/// Renumbering by the identity leaves the index as it is.
pub fn identity_leaves()
    ensures law { IdentityLeaves }
{
    numbers_undo_the_order();
}

/// Renumbering by one order and then by another is renumbering by the second after the first.
pub fn twice_is_once()
    ensures law { TwiceIsOnce }
{
    numbers_undo_the_order();
}
