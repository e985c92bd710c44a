//! Halves of which those documents that may be exchanged are ranked by their gains.
ghost use Rattle.std.specs.Prelude.{◌≡◌, ◌≢◌, ◌≤ℤ◌, ◌<ℤ◌, ◌+ℤ◌, pos, ◌^◌, ◌≤◌, length, map, take, All, AllPairs, IsPermutation};
ghost use Rattle.exchange.specs.Tries.{StandsBefore, docs_of, IsWithin, IsLow, IsParted, ArePassed, IsFront, HavePairs};
ghost use Rattle.exchange.specs.Keys.{entry_at, IsNear};

use crate::ground::MANY;
use rayon::join_mut;
use std::thread::Threads;

/// How far below the greatest gain others lie that are ranked by keys.
const SPAN: u64 = 1 << 32;

/// A document of a half, and what its move into the other half gains.
#[derive(Clone, Copy)]
pub(crate) struct Entry {
    pub(crate) gain: i64,
    pub(crate) doc: u32,
}

/// A number that tells an entry apart whose gain is less than 2^32 below the greatest. The entries'
/// order of rank is that of their keys.
fn key_of(entry: Entry, greatest: i64) -> u64
    requires small { IsWithin (2 ^ 56) greatest }
    requires low { IsLow entry }
    requires near { IsNear greatest entry }
    ensures { entry_at greatest result ≡ entry }
{
    (greatest - entry.gain) as u64 * SPAN + u64::from(entry.doc)
}

/// The entry of which this is the key.
fn entry_of(key: u64, greatest: i64) -> Entry
    requires small { IsWithin (2 ^ 56) greatest }
    ensures { result ≡ entry_at greatest key }
{
    Entry {
        gain: greatest - (key / SPAN) as i64,
        doc: (key % SPAN) as u32,
    }
}

/// Fills in the key of each entry.
fn fill_keys(entries: &[Entry], greatest: i64, keys: &mut [u64])
    requires small { IsWithin (2 ^ 56) greatest }
    requires low { All IsLow entries.now }
    requires near { All (IsNear greatest) entries.now }
    requires room { length keys.old ≡ length entries.now }
    ensures { map (entry_at greatest) keys.new ≡ entries.now }
{
    for place in 0..entries.len() {
        keys[place] = key_of(entries[place], greatest);
    }
}

/// Fills in the entry of each key.
fn fill_entries(keys: &[u64], greatest: i64, entries: &mut [Entry])
    requires small { IsWithin (2 ^ 56) greatest }
    requires len { length entries.old ≡ length keys.now }
    ensures { entries.new ≡ map (entry_at greatest) keys.now }
{
    for place in 0..keys.len() {
        entries[place] = entry_of(keys[place], greatest);
    }
}

/// Puts entries whose gains lie near the greatest one in the order of their ranks. To sort numbers
/// of 64 bits takes less than half the time.
fn rank_by_keys(entries: &mut [Entry], greatest: i64, keys: &mut [u64])
    requires small { IsWithin (2 ^ 56) greatest }
    requires low { All IsLow entries.old }
    requires near { All (IsNear greatest) entries.old }
    requires room { length keys.old ≡ length entries.old }
    requires differ { AllPairs (λ x y. x ≢ y) (docs_of entries.old) }
    ensures same { IsPermutation entries.old entries.new }
    ensures ranked { AllPairs StandsBefore entries.new }
{
    fill_keys(entries, greatest, keys);
    keys.sort_unstable();
    fill_entries(keys, greatest, entries);
}

/// Puts the entries in the order of their ranks: by falling gain, and by place where gains are
/// equal.
fn rank_by_gains(entries: &mut [Entry])
    requires differ { AllPairs (λ a b. a ≢ b) (docs_of entries.old) }
    ensures same { IsPermutation entries.old entries.new }
    ensures ranked { AllPairs StandsBefore entries.new }
{
    entries.sort_unstable_by(|x, y| y.gain.cmp(&x.gain).then(x.doc.cmp(&y.doc)));
}

/// Puts entries in the order of their ranks, which have a positive sum with the other gain, and no
/// greater gain than the greatest.
fn rank(entries: &mut [Entry], greatest: i64, other: i64, keys: &mut [u64])
    requires small { IsWithin (2 ^ 56) greatest }
    requires small_other { IsWithin (2 ^ 56) other }
    requires low { All IsLow entries.old }
    requires most { All (λ entry. entry.gain ≤ℤ greatest) entries.old }
    requires above { All (λ entry. pos 0 <ℤ (entry.gain +ℤ other)) entries.old }
    requires room { length keys.old ≡ length entries.old }
    requires differ { AllPairs (λ x y. x ≢ y) (docs_of entries.old) }
    ensures same { IsPermutation entries.old entries.new }
    ensures ranked { AllPairs StandsBefore entries.new }
{
    if greatest + other <= SPAN as i64 {
        rank_by_keys(entries, greatest, keys);
    } else {
        rank_by_gains(entries);
    }
}

/// Ranks both halves as far as their pairs gain something. Gives how many pairs do.
pub(crate) fn rank_pairs<R: Threads + Sync>(
    rt: &R,
    a: &mut [Entry],
    b: &mut [Entry],
    keys_a: &mut [u64],
    keys_b: &mut [u64],
    workers: u32,
) -> usize
    requires low_a { All IsLow a.old }
    requires low_b { All IsLow b.old }
    requires differ_a { AllPairs (λ x y. x ≢ y) (docs_of a.old) }
    requires differ_b { AllPairs (λ x y. x ≢ y) (docs_of b.old) }
    requires room { length keys_a.old ≡ length a.old }
    requires room_b { length keys_b.old ≡ length b.old }
    ensures same_a { IsPermutation a.old a.new }
    ensures same_b { IsPermutation b.old b.new }
    ensures pairs { HavePairs result a.new b.new }
{
    let (front_a, front_b) = rank_fronts(rt, a, b, keys_a, keys_b, workers);
    // Behind the longer front no document gains something, so that no pair does.
    if front_a < front_b {
        let reach = rank_more(a, front_a, &b[..front_b], keys_a);
        gaining_pairs(&a[..reach], &b[..front_b])
    } else {
        let reach = rank_more(b, front_b, &a[..front_a], keys_b);
        gaining_pairs(&a[..front_a], &b[..reach])
    }
}

/// Puts the entries of each half that gain something in front, in the order of their ranks. Gives
/// how many.
fn rank_fronts<R: Threads + Sync>(
    rt: &R,
    a: &mut [Entry],
    b: &mut [Entry],
    keys_a: &mut [u64],
    keys_b: &mut [u64],
    workers: u32,
) -> (usize, usize)
    requires low_a { All IsLow a.old }
    requires low_b { All IsLow b.old }
    requires differ_a { AllPairs (λ x y. x ≢ y) (docs_of a.old) }
    requires differ_b { AllPairs (λ x y. x ≢ y) (docs_of b.old) }
    requires room { length keys_a.old ≡ length a.old }
    requires room_b { length keys_b.old ≡ length b.old }
    ensures same_a { IsPermutation a.old a.new }
    ensures same_b { IsPermutation b.old b.new }
    ensures parted_a { IsParted result.0 (pos 0) a.new }
    ensures parted_b { IsParted result.1 (pos 0) b.new }
    ensures ranked_a { AllPairs StandsBefore (take result.0 a.new) }
    ensures ranked_b { AllPairs StandsBefore (take result.1 b.new) }
{
    if workers < 2 || a.len() < MANY {
        let front_a = rank_front(a, 0, keys_a);
        let front_b = rank_front(b, 0, keys_b);
        return (front_a, front_b);
    }
    join_mut(
        rt,
        &mut || -> usize
            requires { All IsLow a.now
                × AllPairs (λ x y. x ≢ y) (docs_of a.now)
                × (length keys_a.now ≡ length a.now) }
            ensures { IsPermutation a.entry.now a.exit.now
                × IsParted result (pos 0) a.exit.now
                × AllPairs StandsBefore (take result a.exit.now) }
        { rank_front(a, 0, keys_a) },
        &mut || -> usize
            requires { All IsLow b.now
                × AllPairs (λ x y. x ≢ y) (docs_of b.now)
                × (length keys_b.now ≡ length b.now) }
            ensures { IsPermutation b.entry.now b.exit.now
                × IsParted result (pos 0) b.exit.now
                × AllPairs StandsBefore (take result b.exit.now) }
        { rank_front(b, 0, keys_b) },
    )
}

/// Ranks more of the entries, of which those that gain something stand in front in the order of
/// their ranks: as far as they gain something with the others of their ranks. These are ranked, gain
/// something and are no fewer. Gives how many entries are ranked then.
fn rank_more(entries: &mut [Entry], front: usize, others: &[Entry], keys: &mut [u64]) -> usize
    requires low { All IsLow entries.old }
    requires low_others { All IsLow others.now }
    requires gaining { All (λ entry. pos 0 <ℤ entry.gain) others.now }
    requires ranked_others { AllPairs StandsBefore others.now }
    requires parted { IsParted front (pos 0) entries.old }
    requires ranked { AllPairs StandsBefore (take front entries.old) }
    requires fewer { front ≤ length others.now }
    requires room { length keys.old ≡ length entries.old }
    requires differ { AllPairs (λ x y. x ≢ y) (docs_of entries.old) }
    ensures same { IsPermutation entries.old entries.new }
    ensures front { IsFront result others.now entries.new }
{
    if front == others.len() {
        return front;
    }
    // The entries behind the front are paired with this one and with others of no greater gain.
    let other = others[front].gain;
    let (_, rest) = entries.split_at_mut(front);
    let (_, keys) = keys.split_at_mut(front);
    front + rank_front(rest, other, keys)
}

/// A gain that no entry exceeds: the greatest one, where there is one.
fn greatest(entries: &[Entry]) -> i64
    requires low { All IsLow entries.now }
    ensures most { All (λ entry. entry.gain ≤ℤ result) entries.now }
    ensures small { IsWithin (2 ^ 56) result }
{
    let mut greatest = -(1 << 56);
    for entry in entries {
        if greatest < entry.gain {
            greatest = entry.gain;
        }
    }
    greatest
}

/// Puts the entries that have a positive sum with the other gain in front, in the order of their
/// ranks. Gives how many.
fn rank_front(entries: &mut [Entry], other: i64, keys: &mut [u64]) -> usize
    requires low { All IsLow entries.old }
    requires small { IsWithin (2 ^ 56) other }
    requires room { length keys.old ≡ length entries.old }
    requires differ { AllPairs (λ x y. x ≢ y) (docs_of entries.old) }
    ensures same { IsPermutation entries.old entries.new }
    ensures parted { IsParted result other entries.new }
    ensures ranked { AllPairs StandsBefore (take result entries.new) }
{
    let front = part(entries, other);
    let ranked = &mut entries[..front];
    let greatest = greatest(ranked);
    rank(ranked, greatest, other, &mut keys[..front]);
    front
}

/// Puts the entries that have a positive sum with the other gain in front. Gives how many.
fn part(entries: &mut [Entry], other: i64) -> usize
    requires low { All IsLow entries.old }
    requires small { IsWithin (2 ^ 56) other }
    ensures same { IsPermutation entries.old entries.new }
    ensures parted { IsParted result other entries.new }
{
    let mut front = 0;
    for place in 0..entries.len() {
        if entries[place].gain + other > 0 {
            entries.swap(front, place);
            front += 1;
        }
    }
    front
}

/// How many pairs of entries of one rank gain something, from the first one on.
fn gaining_pairs(a: &[Entry], b: &[Entry]) -> usize
    requires low_a { All IsLow a.now }
    requires low_b { All IsLow b.now }
    ensures passed { ArePassed result a.now b.now }
{
    let most = a.len().min(b.len());
    for rank in 0..most {
        if a[rank].gain + b[rank].gain <= 0 {
            return rank;
        }
    }
    most
}
