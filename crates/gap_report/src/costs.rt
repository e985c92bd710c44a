//! What the gaps of an index cost.
ghost use Rattle.std.specs.Prelude.{◌≡◌, ◌<◌, ◌≤◌, length, slice_range, Ok};
ghost use Rattle.std.specs.Thread.{IsSync};
ghost use Rattle.gap_report.specs.Tally.{IsTallyOf};

use crate::tally::Tally;
use rayon::join;
use rgb_base::{Index, OutOfMemory};
use std::thread::Threads;

/// The number of postings, and what the gaps of all lists cost: bits of the gamma code, bits of the
/// delta code, and bytes of varints.
#[derive(Clone, Copy, Debug, PartialEq, Eq)]
pub struct Costs {
    pub postings: u128,
    pub gamma: u128,
    pub delta: u128,
    pub bytes: u128,
}

impl Costs {
    ghost use Rattle.rgb_base.specs.Parts.{IndexParts};
    ghost use Rattle.gap_report.specs.Costs.{costs_of};
    ghost use Rattle.gap_report.specs.Tally.{IsTallyOf};

    /// The costs of an index, counted by so many threads. They don't depend on how many.
    /// Takes no memory.
    pub fn of<R: Threads + Sync>(rt: &R, index: &Index, workers: u32) -> Result<Costs, OutOfMemory>
        requires some { 0 < workers }
        requires most { workers ≤ 64 }
        ensures ok { result ≡ Ok (costs_of index.now) }
    {
        let tally = tally_of(rt, index, 0, index.lists(), index.total_postings(), workers);
        Ok(Costs::of_tally(tally))
    }

    /// The costs of an index over all lists of which these are the sums.
    pub fn of_tally(tally: Tally) -> Costs
        ensures same { (index : IndexParts) → IsTallyOf tally index.lists
            → result ≡ costs_of index }
    {
        let postings = u128::from(tally.postings);
        let exponents = u128::from(tally.exponents);
        Costs {
            postings,
            gamma: 2 * exponents + postings,
            delta: exponents + 2 * u128::from(tally.lengths) + postings,
            bytes: u128::from(tally.groups) + postings,
        }
    }
}

/// The sums over the lists from one on and before another, by so many threads. The lists have about
/// so many postings, which are shared evenly.
#[cycle(halves)]
fn tally_of<R: Threads + Sync>(
    rt: &R,
    index: &Index,
    from: u32,
    to: u32,
    postings: u32,
    workers: u32,
) -> Tally
    requires order { from ≤ to }
    requires within { to ≤ length index.now.lists }
    ensures { IsTallyOf result (slice_range index.now.lists from to) }
{
    if workers < 2 || to - from < 2 {
        return Tally::of_lists(index, from, to);
    }
    let helpers = workers / 2;
    let others = workers - helpers;
    let share = postings / workers * helpers;
    let rest = postings - share;
    let middle = cut(index, from, to, share);
    let (front, back) = join(
        rt,
        || -> Tally
            requires { IsSync R.row × (from ≤ middle) × (middle ≤ length index.now.lists) }
            ensures { IsTallyOf result (slice_range index.entry.now.lists from middle) }
        { tally_of(rt, index, from, middle, share, helpers) },
        || -> Tally
            requires { IsSync R.row × (middle ≤ to) × (to ≤ length index.now.lists) }
            ensures { IsTallyOf result (slice_range index.entry.now.lists middle to) }
        { tally_of(rt, index, middle, to, rest, others) },
    );
    index.is_sound();
    front.and(back)
}

/// The first list from one on at which so many postings don't last, or the other end.
fn cut(index: &Index, from: u32, to: u32, postings: u32) -> u32
    requires order { from ≤ to }
    requires within { to ≤ length index.now.lists }
    ensures low { from ≤ result }
    ensures high { result ≤ to }
{
    let mut left = postings as usize;
    for list in from..to {
        let len = index.postings(list).len();
        if left < len {
            return list;
        }
        left -= len;
    }
    to
}
