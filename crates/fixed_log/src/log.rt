//! The logarithm of one number.
ghost use Rattle.std.specs.Prelude.{◌≡◌, ◌<◌, ◌≤◌, ◌^◌};
ghost use Rattle.fixed_log.specs.Log.{IsLog, lg, square};

/// The bits of a logarithm behind its point.
const FRACTION_BITS: u32 = 16;

/// The bits of a number of [1, 2) behind its point.
const UNIT_BITS: u32 = 62;

/// The logarithm of x to base two, times 65536 and rounded down. Where it is less than about
/// 2^-28 above a whole number, the result may be one less.
pub fn lg(x: u64) -> u32
    requires some { 0 < x }
    requires most { x < 2 ^ 33 }
    ensures same { result ≡ lg x }
    ensures power { IsLog x result }
{
    let exponent = x.ilog2();
    let mut unit = x << (UNIT_BITS - exponent);
    let mut log = exponent << FRACTION_BITS;
    for place in (0..FRACTION_BITS).rev() {
        let squared = square(unit);
        let bit = squared >> (UNIT_BITS + 1);
        unit = squared >> bit;
        log += (bit as u32) << place;
    }
    log
}

/// The square of a number of [1, 2), which is one of [1, 4).
fn square(unit: u64) -> u64
    requires low { 2 ^ 62 ≤ unit }
    requires high { unit < 2 ^ 63 }
    ensures same { result ≡ square unit }
{
    let wide = u128::from(unit);
    (wide * wide >> UNIT_BITS) as u64
}
