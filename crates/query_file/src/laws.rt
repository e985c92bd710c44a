//! Laws of files of queries, for the proofs of the crates above. Each call does nothing.
ghost use Rattle.query_file.specs.Laws.{QueriesAreOne, FirstFaultIsOne, AcceptedHasNoFault, EveryFileHasVerdict};

use bool_query::laws::{query_is_one, query_or_fault};

/// A file is accepted as one list of queries at most, or has one first fault at most, and never
/// both.
pub fn queries_are_one()
    ensures queries { QueriesAreOne }
    ensures fault { FirstFaultIsOne }
    ensures never_both { AcceptedHasNoFault }
{
    query_is_one();
}

/// Every file is accepted, is too long or has a first fault, whatever its bytes.
pub fn every_file_has_verdict()
    ensures some { EveryFileHasVerdict }
{
    query_or_fault();
}
