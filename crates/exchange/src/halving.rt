//! The halving of a cell, round by round.
ghost use Rattle.std.specs.Prelude.{◌≡◌, ◌+◌, ◌<◌, ◌≤◌, length, vec_len, vec_capacity, All, OnOk, OnErr};
ghost use Rattle.std.specs.List.Sorted.{IsStrictlyIncreasing};
ghost use Rattle.rgb_base.specs.Order.{AreNumbers};
ghost use Rattle.degrees.specs.Counts.{cleared, loaded};
ghost use Rattle.exchange.specs.Halving.{half_a, half_b, IsHalved};

use crate::ground::Ground;
use crate::round::{Kept, Round, loaded_cost, round_from};
use crate::scratch::Scratch;
use degrees::Degrees;
use rgb_base::OutOfMemory;
use std::alloc::Global;
use std::marker::Model;
use std::thread::Threads;

/// The kept rounds of cells. Contracts see the list of them.
#[derive(Drop)]
pub struct KeptList {
    value: Vec<Kept>,
}

impl Model for KeptList {
    ghost use Rattle.std.specs.Prelude.{List};
    ghost use Rattle.exchange.specs.declared.round.Kept.{Kept};

    ghost Value = { List Kept };

    ghost view = { λ k. k.value.items };
}

impl KeptList {
    /// The kept rounds of a vector, which keeps its room.
    pub fn of(value: Vec<Kept>) -> KeptList
        ensures same { result ≡ value.items }
    {
        KeptList { value }
    }

    /// Lends the kept rounds.
    pub fn as_slice(&self) -> &[Kept]
        ensures same { result.now ≡ self.now }
    {
        &self.value
    }
}

/// Halves a cell of documents in start order: at most so many rounds are made, and the first one
/// that is still or refused ends them. The kept rounds go behind those of the list. It takes room
/// for all rounds there first, and no other memory.
pub fn halve<R: Threads + Sync>(
    rt: &R,
    alloc: Global,
    ground: &Ground<'_>,
    degrees: &mut Degrees,
    docs: &mut [u32],
    rounds: u32,
    scratch: &mut Scratch,
    kept: &mut KeptList,
) -> Result<(), OutOfMemory>
    requires top { length ground.now.forward.now.rows < ground.now.logs.now }
    requires some { 2 ≤ length docs.old }
    requires rising { IsStrictlyIncreasing docs.old }
    requires below { All (λ doc. doc < length ground.now.forward.now.rows) docs.old }
    requires clear { degrees.old ≡ cleared ground.now.forward.now.terms degrees.old.loads }
    requires room { length docs.old ≤ scratch.old }
    ensures ok { OnOk result (IsHalved
        ground.now.forward.now docs.old rounds docs.new kept.old kept.new) }
    ensures clear { degrees.new
        ≡ cleared ground.now.forward.now.terms degrees.new.loads }
    ensures loads { (degrees.old.loads ≤ degrees.new.loads)
        × (degrees.new.loads ≤ degrees.old.loads + 1) }
    ensures memory { OnErr result
        ((docs.new ≡ docs.old) × (kept.new ≡ kept.old) × (degrees.new ≡ degrees.old)) }
    ensures scratch { scratch.new ≡ scratch.old }
{
    degrees.is_sound();
    kept.value.reserve(rounds as usize)?;
    let (a, b) = docs.split_at(docs.len() - docs.len() / 2);
    degrees.load(ground.forward, a, b);
    make_rounds(rt, ground, degrees, docs, rounds, scratch, &mut kept.value);
    degrees.clear();
    Ok(())
}

/// Makes the rounds of a cell of whose halves the table has the degrees, and puts the kept ones
/// behind the others, where there is room for all.
fn make_rounds<R: Threads + Sync>(
    rt: &R,
    ground: &Ground<'_>,
    degrees: &mut Degrees,
    docs: &mut [u32],
    rounds: u32,
    scratch: &mut Scratch,
    kept: &mut Vec<Kept>,
)
    requires top { length ground.now.forward.now.rows < ground.now.logs.now }
    requires some { 2 ≤ length docs.old }
    requires places { AreNumbers (length ground.now.forward.now.rows) docs.old }
    requires table { degrees.old ≡ loaded
        ground.now.forward.now (half_a docs.old) (half_b docs.old) degrees.old.loads }
    requires room { length docs.old ≤ scratch.old }
    requires place { vec_len kept.old + rounds ≤ vec_capacity kept.old }
    ensures ok { IsHalved
        ground.now.forward.now docs.old rounds docs.new kept.old.items kept.new.items }
    ensures loaded { degrees.new ≡ loaded
        ground.now.forward.now (half_a docs.new) (half_b docs.new) degrees.old.loads }
    ensures scratch { scratch.new ≡ scratch.old }
{
    let mut before = loaded_cost(ground, degrees, docs);
    for made in 0..rounds {
        match round_from(rt, ground, degrees, docs, scratch, before) {
            Round::Kept(round) => {
                before = round.after;
                kept.push_reserved(round);
            }
            Round::Refused(_) => return,
            Round::Still => return,
        }
    }
}
