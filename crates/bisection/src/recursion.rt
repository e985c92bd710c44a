//! The whole recursion.
ghost use Rattle.std.specs.Prelude.{◌≡◌, length, IfOk};
ghost use Rattle.bisection.specs.Trace.{IsTrace};
ghost use Rattle.bisection.specs.Recursion.{IsNumbered};
ghost use Rattle.bisection.specs.Progress.{AreOptions, limits_of};

use crate::bisector::Bisector;
use crate::laws::laws_of_recursion;
use crate::options::Options;
use cell_claims::TraceList;
use forward_index::Forward;
use rgb_base::{OutOfMemory, Pace, Permutation};
use std::alloc::Global;
use std::thread::Threads;

/// The numbering of the documents and the kept rounds, at the full depth of the options: the new
/// number of a document is its place in the order that the recursion leaves.
pub fn reorder<R: Threads + Sync, P: Pace>(
    rt: &R,
    alloc: Global,
    forward: &Forward,
    options: Options,
    pace: &P,
) -> Result<(Permutation, TraceList), OutOfMemory>
    requires options { AreOptions options }
    ensures ok { IfOk result (λ t.
        IsNumbered forward.now (limits_of options) options.depth t.0 t.1) }
    ensures len { IfOk result (λ t. length t.0 ≡ length forward.now.rows) }
    ensures trace { IfOk result (λ t. IsTrace t.1) }
{
    laws_of_recursion();
    let mut bisector = Bisector::prepare(alloc, forward, options)?;
    while let Some(_) = bisector.advance(rt, alloc, pace)? {}
    Ok(bisector.into_parts())
}
