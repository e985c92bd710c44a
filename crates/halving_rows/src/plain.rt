//! A halving written plainly: degrees are counted anew for each look, documents are ranked by
//! counting those that stand before, and each try's halves are made and cost anew.
use exchange::Kept;
use fixed_log::lg;
use forward_index::Forward;
use std::alloc::{AllocError, Global};

/// The logarithm, and 0 for 0.
fn log_of(x: u32) -> i64 {
    if x == 0 {
        return 0;
    }
    i64::from(lg(u64::from(x)))
}

/// What a term of this degree costs in a half of so many documents.
fn part(degree: u32, documents: u32) -> i64 {
    let difference = log_of(documents).wrapping_sub(log_of(degree.wrapping_add(1)));
    i64::from(degree).wrapping_mul(difference)
}

/// Whether the document at a place has a term.
fn has_term(forward: &Forward, place: u32, term: u32) -> bool {
    if forward.docs() <= place {
        return false;
    }
    for other in forward.terms_of(place) {
        if *other == term {
            return true;
        }
    }
    false
}

/// How many documents a half has.
fn size_of(half: &[u32]) -> u32 {
    u32::try_from(half.len()).unwrap_or(0)
}

fn degree(forward: &Forward, half: &[u32], term: u32) -> u32 {
    let mut count: u32 = 0;
    for place in half {
        if has_term(forward, *place, term) {
            count = count.wrapping_add(1);
        }
    }
    count
}

fn cost(forward: &Forward, a: &[u32], b: &[u32]) -> i64 {
    let mut sum: i64 = 0;
    for term in 0..forward.terms() {
        sum = sum.wrapping_add(part(degree(forward, a, term), size_of(a)));
        sum = sum.wrapping_add(part(degree(forward, b, term), size_of(b)));
    }
    sum
}

/// What the document at a place of one half gains by its move into the other.
fn gain(forward: &Forward, half: &[u32], other: &[u32], place: u32) -> i64 {
    if forward.docs() <= place {
        return 0;
    }
    let own_size = size_of(half);
    let other_size = size_of(other);
    let mut sum: i64 = 0;
    for term in forward.terms_of(place) {
        let own = degree(forward, half, *term);
        let beside = degree(forward, other, *term);
        sum = sum.wrapping_add(part(own, own_size));
        sum = sum.wrapping_add(part(beside, other_size));
        sum = sum.wrapping_sub(part(own.saturating_sub(1), own_size));
        sum = sum.wrapping_sub(part(beside.wrapping_add(1), other_size));
    }
    sum
}

/// A document of a half, with its gain.
#[derive(Clone, Copy)]
struct Gaining {
    place: u32,
    gain: i64,
}

/// The documents of a half with their gains.
fn with_gains(
    alloc: Global,
    forward: &Forward,
    half: &[u32],
    other: &[u32],
) -> Result<Vec<Gaining>, AllocError> {
    let mut all = Vec::new(alloc);
    for place in half {
        let gain = gain(forward, half, other, *place);
        all.push(Gaining {
            place: *place,
            gain,
        })?;
    }
    Ok(all)
}

/// How many documents of the half stand before this one.
fn rank(half: &[Gaining], own: Gaining) -> u32 {
    let mut before: u32 = 0;
    for rival in half {
        if own.gain < rival.gain || (own.gain == rival.gain && rival.place < own.place) {
            before = before.wrapping_add(1);
        }
    }
    before
}

/// The document of a half with this rank.
fn ranked(half: &[Gaining], wanted: u32) -> Option<Gaining> {
    for own in half {
        if rank(half, *own) == wanted {
            return Some(*own);
        }
    }
    None
}

/// The pairs that gain something together, a half's documents each.
#[derive(Drop)]
struct Pairs {
    a: Vec<u32>,
    b: Vec<u32>,
}

fn pairs_of(alloc: Global, forward: &Forward, a: &[u32], b: &[u32]) -> Result<Pairs, AllocError> {
    let gaining_a = with_gains(alloc, forward, a, b)?;
    let gaining_b = with_gains(alloc, forward, b, a)?;
    let mut pairs = Pairs {
        a: Vec::new(alloc),
        b: Vec::new(alloc),
    };
    for place in 0..size_of(b) {
        let (Some(u), Some(v)) = (ranked(&gaining_a, place), ranked(&gaining_b, place)) else {
            return Ok(pairs);
        };
        if u.gain.wrapping_add(v.gain) <= 0 {
            return Ok(pairs);
        }
        pairs.a.push(u.place)?;
        pairs.b.push(v.place)?;
    }
    Ok(pairs)
}

fn has(documents: &[u32], place: u32) -> bool {
    for other in documents {
        if *other == place {
            return true;
        }
    }
    false
}

/// In start order the documents of a half but for those that leave, and those that come.
fn half_after(
    alloc: Global,
    forward: &Forward,
    half: &[u32],
    leave: &[u32],
    come: &[u32],
) -> Result<Vec<u32>, AllocError> {
    let mut after = Vec::new(alloc);
    for place in 0..forward.docs() {
        if (has(half, place) && !has(leave, place)) || has(come, place) {
            after.push(place)?;
        }
    }
    Ok(after)
}

/// The documents of both halves.
#[derive(Drop)]
struct Halves {
    a: Vec<u32>,
    b: Vec<u32>,
}

/// Halves, and the kept rounds that led to them.
#[derive(Drop)]
pub(crate) struct Halving {
    pub(crate) a: Vec<u32>,
    pub(crate) b: Vec<u32>,
    pub(crate) kept: Vec<Kept>,
}

/// The halves after these documents changed places.
fn exchanged(
    alloc: Global,
    forward: &Forward,
    halves: &Halving,
    leave: &[u32],
    come: &[u32],
) -> Result<Halves, AllocError> {
    let a = half_after(alloc, forward, &halves.a, leave, come)?;
    let b = half_after(alloc, forward, &halves.b, come, leave)?;
    Ok(Halves { a, b })
}

/// Exchanges so many pairs where that costs less, and tells whether it does.
fn try_pairs(
    alloc: Global,
    forward: &Forward,
    halving: &mut Halving,
    leave: &[u32],
    come: &[u32],
) -> Result<bool, AllocError> {
    let halves = exchanged(alloc, forward, halving, leave, come)?;
    let before = cost(forward, &halving.a, &halving.b);
    let after = cost(forward, &halves.a, &halves.b);
    if before <= after {
        return Ok(false);
    }
    halving.a = halves.a;
    halving.b = halves.b;
    halving.kept.push(Kept {
        before: i128::from(before),
        after: i128::from(after),
        pairs: size_of(leave),
    })?;
    Ok(true)
}

/// Makes one round, and tells whether it is kept: all pairs are tried, half of them, and so on.
fn round(alloc: Global, forward: &Forward, halving: &mut Halving) -> Result<bool, AllocError> {
    let pairs = pairs_of(alloc, forward, &halving.a, &halving.b)?;
    let mut tried = pairs.a.len();
    for _ in 0..32 {
        if tried == 0 || pairs.a.len() < tried || pairs.b.len() < tried {
            return Ok(false);
        }
        if try_pairs(
            alloc,
            forward,
            halving,
            &pairs.a[..tried],
            &pairs.b[..tried],
        )? {
            return Ok(true);
        }
        tried /= 2;
    }
    Ok(false)
}

/// Halves a cell, the first half of which has the one more, with at most so many rounds.
pub(crate) fn halving_of(
    alloc: Global,
    forward: &Forward,
    cell: &[u32],
    rounds: u32,
) -> Result<Halving, AllocError> {
    let (a, b) = cell.split_at(cell.len() - cell.len() / 2);
    let mut halving = Halving {
        a: a.to_vec(alloc)?,
        b: b.to_vec(alloc)?,
        kept: Vec::new(alloc),
    };
    for _ in 0..rounds {
        if !round(alloc, forward, &mut halving)? {
            return Ok(halving);
        }
    }
    Ok(halving)
}
