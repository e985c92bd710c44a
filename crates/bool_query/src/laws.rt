//! Laws of queries, for the proofs of the crates above. Each call does nothing.
ghost use Rattle.bool_query.specs.Laws.{QueryIsOne, FaultIsOne, NeverBoth, QueryOrFault};

/// A text is one query at most, or has one first fault of one cause at most, and never both.
pub fn query_is_one()
    ensures query { QueryIsOne }
    ensures fault { FaultIsOne }
    ensures never_both { NeverBoth }
{}

/// Every text is a query or has a fault, whatever its bytes and its length.
pub fn query_or_fault()
    ensures some { QueryOrFault }
{}
