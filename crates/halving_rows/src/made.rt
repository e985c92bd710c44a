//! Some hundred made indexes: what `halve` leaves of them beside the plain program.
use crate::given::forward_of;
use crate::halvings::halved;
use crate::plain::{Halving, halving_of};
use exchange::Kept;
use forward_index::Forward;
use std::alloc::Global;
use std::test::Fail;
use std::thread::Threads;

/// The next number of a sequence, the high bits of which look drawn.
fn next(state: u64) -> u64 {
    state
        .wrapping_mul(6364136223846793005)
        .wrapping_add(1442695040888963407)
}

/// Whether the bit of the number is set.
fn has_bit(number: u32, bit: u32) -> bool {
    number.checked_shr(bit).unwrap_or(0) % 2 == 1
}

/// Puts about half of the documents below seven behind a text, and gives the sequence's next number.
fn put_drawn(alloc: Global, seed: u64, text: &mut String) -> Result<u64, Fail> {
    let mut state = seed;
    for doc in 0..7 {
        state = next(state);
        if state < 1 << 63 {
            text.push_str(&format!(in alloc; "{doc}")?)?;
        }
    }
    Ok(state)
}

/// Puts those of three documents from 7 on behind a text that tell the list of this number apart.
fn put_mark(alloc: Global, list: u32, text: &mut String) -> Result<(), Fail> {
    for bit in 0..3 {
        if has_bit(list, bit) {
            let doc = 7 + bit;
            text.push_str(&format!(in alloc; "{doc}")?)?;
        }
    }
    Ok(())
}

/// Seven lists of documents below ten as a text: a document below seven stands in about half of them,
/// and the last three tell the lists apart.
fn lists_of(alloc: Global, seed: u64) -> Result<String, Fail> {
    let mut text = String::new(alloc);
    let mut state = next(next(seed));
    for list in 1..8 {
        text.push_str(" ")?;
        state = put_drawn(alloc, state, &mut text)?;
        put_mark(alloc, list, &mut text)?;
    }
    Ok(text)
}

fn are_equal(one: &[Kept], other: &[Kept]) -> bool {
    if one.len() != other.len() {
        return false;
    }
    for (a, b) in one.iter().zip(other) {
        if a.before != b.before || a.after != b.after || a.pairs != b.pairs {
            return false;
        }
    }
    true
}

/// Whether both programs leave the same halves by the same rounds.
fn are_alike(docs: &[u32], kept: &[Kept], plain: &Halving) -> bool {
    let (a, b) = docs.split_at(docs.len() - docs.len() / 2);
    a == plain.a.as_slice() && b == plain.b.as_slice() && are_equal(kept, &plain.kept)
}

/// How many rounds both programs keep of these documents, where they leave the same.
fn kept_by_both<R: Threads + Sync>(
    rt: &R,
    alloc: Global,
    forward: &Forward,
    docs: &mut [u32],
) -> Result<Option<usize>, Fail> {
    let plain = halving_of(alloc, forward, docs, 20)?;
    let Some(kept) = halved(rt, alloc, forward, docs, 20, 1)? else {
        return Ok(None);
    };
    if !are_alike(docs, kept.as_slice(), &plain) {
        return Ok(None);
    }
    Ok(Some(kept.as_slice().len()))
}

/// The same of all documents of a made index.
fn kept_of<R: Threads + Sync>(rt: &R, alloc: Global, seed: u64) -> Result<Option<usize>, Fail> {
    let lists = lists_of(alloc, seed)?;
    let forward = forward_of(rt, alloc, &lists, "d d d d d d d d d d")?;
    let mut docs: Vec<u32> = (0..forward.docs()).collect(alloc)?;
    kept_by_both(rt, alloc, &forward, &mut docs)
}

/// Halves made indexes, and tells how many rounds are kept in all, or nothing where the programs
/// differ.
fn halved_by_both<R: Threads + Sync>(rt: &R, alloc: Global) -> Result<Option<usize>, Fail> {
    let mut rounds: usize = 0;
    for seed in 0..300 {
        let Some(kept) = kept_of(rt, alloc, seed)? else {
            return Ok(None);
        };
        rounds = rounds.wrapping_add(kept);
    }
    Ok(Some(rounds))
}

/// Whether both programs halve each made index alike, and keep enough rounds for that to tell much.
fn are_halved_alike<R: Threads + Sync>(rt: &R, alloc: Global) -> Result<bool, Fail> {
    match halved_by_both(rt, alloc)? {
        Some(rounds) => Ok(200 <= rounds),
        None => Ok(false),
    }
}

#[test]
fn made_indexes_are_halved_alike(rt: HostRuntime) -> Result<(), Fail> {
    assert!(rt; are_halved_alike(&rt, rt.alloc())?);
    Ok(())
}
