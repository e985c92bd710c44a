//! A table of the degrees of two halves.
ghost use Rattle.std.specs.Prelude.{◌≡◌, ◌++◌, ◌^◌, ◌<◌, length, slice_index, replicate, All, IfOk};
ghost use Rattle.std.specs.List.Sorted.{IsStrictlyIncreasing};
ghost use Rattle.rgb_base.specs.Order.{AreNumbers};
ghost use Rattle.forward_index.specs.Forward.{row_at};
ghost use Rattle.degrees.specs.Counts.{IsCounted, IsCountedIn, AreBelow, cleared, loaded, degrees_of, with_less, with_more, one_load_more, moved_across, cost_of};
ghost use Rattle.degrees.specs.Steps.{half_of, other_of};

use crate::counts::Counts;
use fixed_log::LogTable;
use forward_index::Forward;
use rgb_base::{OutOfMemory, Side};
use std::alloc::Global;
use std::marker::Model;

/// The degrees of each term in two halves, and the halves' sizes. It takes 12 bytes a term, and
/// after it was made no memory.
#[derive(Drop)]
pub struct Degrees {
    counts: Counts,
    len_a: u32,
    len_b: u32,
    loads: u64,
}

impl Model for Degrees {
    ghost use Rattle.degrees.specs.Counts.{Counted, IsCounted};

    ghost Value = { Counted };

    ghost use Rattle.degrees.specs.Kept.{counted_in};

    ghost view = { counted_in };

    ghost invariant = { λ inside. IsCounted (counted_in inside) };
}

impl Degrees {
    /// A table of so many terms, with all counts and both sizes 0.
    pub fn new(alloc: Global, terms: u32) -> Result<Degrees, OutOfMemory>
        ensures ok { IfOk result (λ table. table ≡ cleared terms 0) }
    {
        let counts = Counts::new(alloc, terms as usize)?;
        Ok(Degrees {
            counts,
            len_a: 0,
            len_b: 0,
            loads: 0,
        })
    }

    /// What each table keeps.
    pub fn is_sound(&self)
        ensures sound { IsCounted self.now }
    {
        let _ = &self.counts;
    }

    /// The number of terms.
    pub fn terms(&self) -> u32
        ensures same { result ≡ length self.now.a }
    {
        self.counts.len() as u32
    }

    /// The count of a term in half A.
    pub fn a(&self, term: u32) -> u32
        requires { term < length self.now.a }
        ensures same { result ≡ slice_index self.now.a term }
    {
        self.counts.a(term)
    }

    /// The count of a term in half B.
    pub fn b(&self, term: u32) -> u32
        requires { term < length self.now.a }
        ensures same { result ≡ slice_index self.now.b term }
    {
        self.counts.b(term)
    }

    /// The size of half A.
    pub fn len_a(&self) -> u32
        ensures same { result ≡ self.now.len_a }
    {
        self.len_a
    }

    /// The size of half B.
    pub fn len_b(&self) -> u32
        ensures same { result ≡ self.now.len_b }
    {
        self.len_b
    }

    /// How often the table was loaded, as far as 64 bits count.
    pub fn loads(&self) -> u64
        ensures same { result ≡ self.now.loads }
    {
        self.loads
    }

    /// Counts two halves, whose places differ, in a clear table.
    pub fn load(&mut self, forward: &Forward, a: &[u32], b: &[u32])
        requires clear { self.old ≡ cleared forward.now.terms self.old.loads }
        requires places { AreNumbers (length forward.now.rows) (a.now ++ b.now) }
        ensures loaded { self.new
            ≡ loaded forward.now a.now b.now (one_load_more self.old.loads) }
    {
        forward.is_sound();
        add_half(&mut self.counts, forward, a, Side::A);
        add_half(&mut self.counts, forward, b, Side::B);
        self.len_a = a.len() as u32;
        self.len_b = b.len() as u32;
        self.loads = self.loads.saturating_add(1);
    }

    /// Moves a document from its half into the other: one is taken from each of its terms there and
    /// added on the other side. The sizes stay.
    pub fn move_across(&mut self, forward: &Forward, doc: u32, from: Side)
        requires terms { length self.old.a ≡ forward.now.terms }
        requires below { doc < length forward.now.rows }
        requires counted { IsCountedIn from (row_at forward.now.rows doc) self.old }
        ensures moved { self.new ≡ moved_across from (row_at forward.now.rows doc) self.old }
    {
        forward.is_sound();
        shift_row(&mut self.counts, forward.terms_of(doc), from);
    }

    /// The cost of the halves by their degrees and sizes.
    pub fn cost(&self, logs: &LogTable) -> i128
        requires some_a { 0 < self.now.len_a }
        requires some_b { 0 < self.now.len_b }
        requires top { AreBelow logs.now self.now }
        ensures same { result ≡ cost_of self.now }
    {
        i128::from(self.counts.cost(logs, self.len_a, self.len_b))
    }

    /// Sets all counts and both sizes to 0.
    pub fn clear(&mut self)
        ensures clear { self.new ≡ cleared (length self.old.a) self.old.loads }
    {
        self.counts.clear();
        self.len_a = 0;
        self.len_b = 0;
    }
}

/// Counts the documents of a half whose counts are all 0.
fn add_half(counts: &mut Counts, forward: &Forward, half: &[u32], side: Side)
    requires clear { half_of side counts.old ≡ replicate forward.now.terms 0 }
    requires below { All (λ place. place < length forward.now.rows) half.now }
    requires few { length half.now < 2 ^ 31 }
    ensures half { half_of side counts.new ≡ degrees_of forward.now half.now }
    ensures other { other_of side counts.new ≡ other_of side counts.old }
{
    forward.is_sound();
    counts.is_sound();
    for place in half {
        add_row(counts, forward.terms_of(*place), side);
    }
}

/// Counts each term of a row once more in a half.
fn add_row(counts: &mut Counts, row: &[u32], side: Side)
    requires rising { IsStrictlyIncreasing row.now }
    requires below { All (λ term. term < length counts.old.a) row.now }
    requires few { All (λ count. count < 2 ^ 31) (half_of side counts.old) }
    ensures half { half_of side counts.new ≡ with_more row.now (half_of side counts.old) }
    ensures other { other_of side counts.new ≡ other_of side counts.old }
{
    counts.is_sound();
    for term in row {
        counts.add(*term, side);
    }
}

/// Takes one from each term of a row in a half and adds it in the other.
fn shift_row(counts: &mut Counts, row: &[u32], from: Side)
    requires rising { IsStrictlyIncreasing row.now }
    requires below { All (λ term. term < length counts.old.a) row.now }
    requires counted { All (λ term. 0 < slice_index (half_of from counts.old) term) row.now }
    requires few { All (λ count. count < 2 ^ 31) (other_of from counts.old) }
    ensures half { half_of from counts.new ≡ with_less row.now (half_of from counts.old) }
    ensures other { other_of from counts.new ≡ with_more row.now (other_of from counts.old) }
{
    counts.is_sound();
    for term in row {
        counts.shift(*term, from);
    }
}
