//! The counts of each term in both halves, with the terms that have some.
ghost use Rattle.std.specs.Prelude.{◌≡◌, ℕ, ℤ, pos, ◌+◌, ◌*◌, ◌^◌, ◌<◌, ◌≤◌, ◌≤ℤ◌, ◌-ℤ◌, length, slice_index, sum, All, IfOk};
ghost use Rattle.fixed_log.specs.Log.{lg};
ghost use Rattle.degrees.specs.Cost.{part, cost_by};
ghost use Rattle.degrees.specs.Steps.{no_counts, half_of, other_of, one_more, one_less};

use crate::pair::{NONE, Pair};
use fixed_log::LogTable;
use fixed_log::laws::log_is_small;
use rgb_base::Side;
use std::alloc::{AllocError, Global};
use std::marker::Model;

/// The counts of each term in both halves, at 12 bytes a term. After it was made it takes no
/// memory. `cost` and `clear` go through the terms that have counts alone.
#[derive(Drop)]
pub struct Counts {
    pairs: Vec<Pair>,
    /// The terms whose counts aren't both 0, in the order in which they came.
    touched: Vec<u32>,
}

impl Model for Counts {
    ghost use Rattle.degrees.specs.Steps.{Both};

    ghost Value = { Both };

    ghost use Rattle.degrees.specs.Kept.{both_of, IsCounts};

    ghost view = { λ inside. both_of inside.pairs.items };

    ghost invariant = { IsCounts };
}

impl Counts {
    /// So many terms with no counts.
    pub fn new(alloc: Global, terms: usize) -> Result<Counts, AllocError>
        ensures ok { IfOk result (λ counts. counts ≡ no_counts terms) }
    {
        let pairs = vec![in alloc; NONE; terms]?;
        let touched = Vec::with_capacity(alloc, terms)?;
        Ok(Counts { pairs, touched })
    }

    /// There are as many counts in one half as in the other.
    pub fn is_sound(&self)
        ensures sound { length self.now.b ≡ length self.now.a }
    {
        let _ = &self.pairs;
    }

    /// The number of terms.
    pub fn len(&self) -> usize
        ensures same { result ≡ length self.now.a }
    {
        self.pairs.len()
    }

    /// The count of a term in half A.
    pub fn a(&self, term: u32) -> u32
        requires { term < length self.now.a }
        ensures same { result ≡ slice_index self.now.a term }
    {
        self.pairs[term as usize].a
    }

    /// The count of a term in half B.
    pub fn b(&self, term: u32) -> u32
        requires { term < length self.now.a }
        ensures same { result ≡ slice_index self.now.b term }
    {
        self.pairs[term as usize].b
    }

    /// Counts a term once more in a half.
    #[inline]
    pub fn add(&mut self, term: u32, side: Side)
        requires below { term < length self.old.a }
        requires few { slice_index (half_of side self.old) term < 2 ^ 31 }
        ensures half { half_of side self.new ≡ one_more (half_of side self.old) term }
        ensures other { other_of side self.new ≡ other_of side self.old }
    {
        let pair = self.pairs[term as usize];
        if pair.is_none() {
            self.touched.push_reserved(term);
        }
        self.pairs[term as usize] = pair.with_more(side);
    }

    /// Takes one from a term's count in a half and adds it in the other.
    #[inline]
    pub fn shift(&mut self, term: u32, from: Side)
        requires below { term < length self.old.a }
        requires some { 0 < slice_index (half_of from self.old) term }
        requires few { slice_index (other_of from self.old) term < 2 ^ 31 }
        ensures half { half_of from self.new ≡ one_less (half_of from self.old) term }
        ensures other { other_of from self.new ≡ one_more (other_of from self.old) term }
    {
        let pair = self.pairs[term as usize];
        self.pairs[term as usize] = pair.shifted(from);
    }

    /// What the terms cost in halves of m and n documents.
    pub fn cost(&self, logs: &LogTable, m: u32, n: u32) -> i64
        requires some_a { 0 < m }
        requires some_b { 0 < n }
        requires top_a { m ≤ logs.now }
        requires top_b { n ≤ logs.now }
        requires below_a { All (λ count. count < logs.now) self.now.a }
        requires below_b { All (λ count. count < logs.now) self.now.b }
        requires both { (term : ℕ) → term < length self.now.a
            → slice_index self.now.a term + slice_index self.now.b term < 2 ^ 31 }
        requires few { sum self.now.a + sum self.now.b < 2 ^ 32 }
        ensures same { result
            ≡ cost_by (length self.now.a) (slice_index self.now.a) (slice_index self.now.b) m n }
    {
        log_is_small();
        let log_m = logs.lg(m);
        let log_n = logs.lg(n);
        let mut cost = 0;
        for term in &self.touched {
            let pair = self.pairs[*term as usize];
            cost += part(logs, pair.a, log_m) + part(logs, pair.b, log_n);
        }
        cost
    }

    /// Sets all counts to 0.
    pub fn clear(&mut self)
        ensures clear { self.new ≡ no_counts (length self.old.a) }
    {
        while let Some(term) = self.touched.pop() {
            self.pairs[term as usize] = NONE;
        }
    }
}

/// What a term costs in a half, by the logarithm of the half's size.
fn part(logs: &LogTable, count: u32, log: u32) -> i64
    requires top { count < logs.now }
    requires few { count < 2 ^ 31 }
    requires small { log < 2 ^ 22 }
    requires known { (x : ℕ) → 0 < x → x < 2 ^ 33 → lg x < 2 ^ 22 }
    ensures same { (n : ℕ) → lg n ≡ log → result ≡ part count n }
    ensures high { result ≤ℤ pos (count * 2 ^ 22) }
    ensures low { (pos 0 -ℤ pos (count * 2 ^ 22)) ≤ℤ result }
{
    let apart = i64::from(log) - i64::from(logs.lg(count + 1));
    i64::from(count) * apart
}
