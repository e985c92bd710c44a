//! Laws of the logarithm, for the proofs of the crates above. Each call does nothing.
ghost use Rattle.fixed_log.specs.Log.{ExponentIsGreatest, LogIsLog, LogNeverFalls, LogOfPower, LogIsSmall};
ghost use Rattle.fixed_log.specs.Growth.{GrowthIsSmall};

/// The logarithm is bounded by powers from both sides.
pub fn log_is_log()
    ensures exponent { ExponentIsGreatest }
    ensures power { LogIsLog }
{}

/// The logarithm never falls as its number grows.
pub fn log_never_falls()
    ensures never_falls { LogNeverFalls }
{}

/// The logarithm of a power of two is its exponent.
pub fn log_of_power()
    ensures power { LogOfPower }
{}

/// The logarithm is below 2^22.
pub fn log_is_small()
    ensures small { LogIsSmall }
{}

/// The growth at a count lies between -2^53 and 2^53.
pub fn growth_is_small()
    ensures small { GrowthIsSmall }
{}
