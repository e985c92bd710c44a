//! Sums over gaps, in 64 bits, which grow list by list.
ghost use Rattle.std.specs.Prelude.{◌≡◌, ◌+◌, ◌*◌, ◌<◌, ◌≤◌, ◌^◌, length};
ghost use Rattle.gap_report.specs.Codes.{floor_log};

use rgb_base::{Index, Posting};

/// The floor of the logarithm to base two.
#[inline]
fn floor_log(number: u32) -> u32
    requires { 0 < number }
    ensures same { result ≡ floor_log number }
    ensures most { result < 32 }
{
    // Nothing changes, but the processor's own search for the highest bit is then good for any number.
    number.max(1).ilog2()
}

/// Sums over gaps that were seen, from which their costs follow. A gap's exponent is the floor of
/// its logarithm.
#[derive(Clone, Copy)]
pub struct Tally {
    pub postings: u64,
    /// The sum of the exponents.
    pub exponents: u64,
    /// The sum of the floors of the logarithms of the exponents plus 1.
    pub lengths: u64,
    /// The sum of the numbers of whole groups of seven bits below each highest bit.
    pub groups: u64,
    ghost exponents_most: { exponents ≤ 32 * postings },
    ghost lengths_most: { lengths ≤ 32 * postings },
    ghost groups_most: { groups ≤ 32 * postings },
}

impl Tally {
    ghost use Rattle.std.specs.Prelude.{List, [], ◌∷◌, ◌++◌, All, slice_range};
    ghost use Rattle.std.specs.List.Sorted.{IsStrictlyIncreasing};
    ghost use Rattle.rgb_base.specs.declared.parts.TermList.{TermList};
    ghost use Rattle.gap_report.specs.Codes.{docs_of, coded_gaps};
    ghost use Rattle.gap_report.specs.Tally.{Adds, IsTallyOf, IsSumOf};

    /// Before any gap.
    pub fn none() -> Tally
        ensures { IsTallyOf result [] }
    {
        Tally {
            postings: 0,
            exponents: 0,
            lengths: 0,
            groups: 0,
        }
    }

    /// The sums with one more gap.
    #[inline]
    fn with_gap(self, gap: u32) -> Tally
        requires some { 0 < gap }
        requires room { self.postings < 2 ^ 32 }
        ensures { Adds self result (gap ∷ []) }
    {
        let exponent = floor_log(gap);
        Tally {
            postings: self.postings + 1,
            exponents: self.exponents + u64::from(exponent),
            lengths: self.lengths + u64::from(floor_log(exponent + 1)),
            // A seventh, by a multiplication.
            groups: self.groups + u64::from(exponent * 37 / 256),
        }
    }

    /// The sums with the gaps of a list, whose postings these are.
    pub fn with_list(self, postings: &[Posting]) -> Tally
        requires rising { IsStrictlyIncreasing (docs_of postings.now) }
        requires below { All (λ posting. posting.doc < 2 ^ 31) postings.now }
        requires room { self.postings + length postings.now < 2 ^ 32 }
        ensures adds { Adds self result (coded_gaps postings.now) }
        ensures count { result.postings ≡ self.postings + length postings.now }
        ensures more { (lists : List TermList) (list : TermList) → IsTallyOf self lists
            → list.postings ≡ postings.now → IsTallyOf result (lists ++ list ∷ []) }
    {
        let mut tally = self;
        let mut before = 0;
        for posting in postings {
            let number = posting.doc + 1;
            tally = tally.with_gap(number - before);
            before = number;
        }
        tally
    }

    /// The sums over the gaps that either has seen.
    pub fn and(self, other: Tally) -> Tally
        requires { self.postings + other.postings < 2 ^ 32 }
        ensures { IsSumOf result self other }
    {
        Tally {
            postings: self.postings + other.postings,
            exponents: self.exponents + other.exponents,
            lengths: self.lengths + other.lengths,
            groups: self.groups + other.groups,
        }
    }

    /// The sums over the lists from one on and before another.
    pub fn of_lists(index: &Index, from: u32, to: u32) -> Tally
        requires order { from ≤ to }
        requires within { to ≤ length index.now.lists }
        ensures { IsTallyOf result (slice_range index.now.lists from to) }
    {
        index.is_sound();
        let mut tally = Tally::none();
        for list in from..to {
            tally = tally.with_list(index.postings(list));
        }
        tally
    }
}
