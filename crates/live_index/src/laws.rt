//! Laws of plans, for the callers of `open`. Each call does nothing.
ghost use Rattle.live_index.specs.Listed.{ListedIsPlan, ListedBegins};

/// A list of numberings is a plan. Where its first numbering leaves each document of a base where it is,
/// it begins with the identity.
pub fn listed_is_plan()
    ensures law { ListedIsPlan }
    ensures begins { ListedBegins }
{}
