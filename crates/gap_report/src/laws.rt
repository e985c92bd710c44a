//! Laws of the codes, for the proofs of the crates above. Each call does nothing.
ghost use Rattle.gap_report.specs.Laws.{FloorLogIsGreatest};

/// The floor of the logarithm is the exponent of the greatest power of two that is not above the
/// number.
pub fn floor_log_is_greatest()
    ensures greatest { FloorLogIsGreatest }
{}
