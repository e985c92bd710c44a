//! The counts of one term in both halves.
ghost use Rattle.std.specs.Prelude.{◌≡◌, ◌↔◌, ◌+◌, ◌-◌, ◌^◌, ◌<◌, IsTrue};
ghost use Rattle.degrees.specs.Steps.{count_in, count_across};

use rgb_base::Side;

/// The counts of a term, side by side.
#[derive(Clone, Copy)]
pub struct Pair {
    pub a: u32,
    pub b: u32,
}

/// The counts of a term that no half has.
pub const NONE: Pair = Pair { a: 0, b: 0 };

impl Pair {
    /// Whether both counts are 0.
    #[inline]
    pub fn is_none(self) -> bool
        ensures same { IsTrue result ↔ self.a + self.b ≡ 0 }
    {
        self.a == 0 && self.b == 0
    }

    /// With one more in a half.
    #[inline]
    pub fn with_more(self, side: Side) -> Pair
        requires { count_in side self < 2 ^ 31 }
        ensures half { count_in side result ≡ count_in side self + 1 }
        ensures other { count_across side result ≡ count_across side self }
    {
        match side {
            Side::A => Pair {
                a: self.a + 1,
                b: self.b,
            },
            Side::B => Pair {
                a: self.a,
                b: self.b + 1,
            },
        }
    }

    /// With one taken from a half and added in the other.
    #[inline]
    pub fn shifted(self, from: Side) -> Pair
        requires some { 0 < count_in from self }
        requires few { count_across from self < 2 ^ 31 }
        ensures half { count_in from result ≡ count_in from self - 1 }
        ensures other { count_across from result ≡ count_across from self + 1 }
    {
        match from {
            Side::A => Pair {
                a: self.a - 1,
                b: self.b + 1,
            },
            Side::B => Pair {
                a: self.a + 1,
                b: self.b - 1,
            },
        }
    }
}
