//! Halves after some of their documents changed places.
ghost use Rattle.std.specs.Prelude.{◌≡◌, ◌≢◌, ◌+◌, ◌≤◌, ◌++◌, length, take, All, AllPairs, Contains, IsPermutation};
ghost use Rattle.std.specs.List.Sorted.{IsStrictlyIncreasing, IsNonDecreasing};
ghost use Rattle.exchange.specs.Round.{IsHalfAfter};
ghost use Rattle.exchange.specs.Tries.{docs_of, docs_after};

use crate::entry::Entry;
use crate::ground::MANY;
use rayon::join_mut;
use std::thread::Threads;

/// Lets the documents of the first pairs change places, and leaves both halves in start order.
pub(crate) fn exchange_documents<R: Threads + Sync>(
    rt: &R,
    a: &mut [u32],
    b: &mut [u32],
    pairs: usize,
    entries_a: &[Entry],
    entries_b: &[Entry],
    room_a: &mut [u32],
    room_b: &mut [u32],
    workers: u32,
)
    requires within { pairs ≤ length entries_a.now }
    requires within_b { pairs ≤ length entries_b.now }
    requires room { pairs ≤ length room_a.old }
    requires room_b { pairs ≤ length room_b.old }
    requires docs { IsPermutation a.old (docs_of entries_a.now) }
    requires docs_b { IsPermutation b.old (docs_of entries_b.now) }
    requires differ { AllPairs (λ x y. x ≢ y) (docs_of entries_a.now ++ docs_of entries_b.now) }
    ensures same { IsPermutation (docs_after pairs entries_a.now entries_b.now) a.new }
    ensures same_b { IsPermutation (docs_after pairs entries_b.now entries_a.now) b.new }
    ensures rising { IsStrictlyIncreasing a.new }
    ensures rising_b { IsStrictlyIncreasing b.new }
{
    let out_of_a = &mut room_a[..pairs];
    let out_of_b = &mut room_b[..pairs];
    put_in_order(&entries_a[..pairs], out_of_a);
    put_in_order(&entries_b[..pairs], out_of_b);
    put_halves(rt, a, b, out_of_a, out_of_b, workers);
}

/// Lets documents of each half leave it and come into the other, and leaves both in start order.
fn put_halves<R: Threads + Sync>(
    rt: &R,
    a: &mut [u32],
    b: &mut [u32],
    out_of_a: &[u32],
    out_of_b: &[u32],
    workers: u32,
)
    requires len { length out_of_b.now ≡ length out_of_a.now }
    requires differ { AllPairs (λ x y. x ≢ y) a.old }
    requires differ_b { AllPairs (λ x y. x ≢ y) b.old }
    requires rising { IsStrictlyIncreasing out_of_a.now }
    requires rising_b { IsStrictlyIncreasing out_of_b.now }
    requires there { All (Contains a.old) out_of_a.now }
    requires there_b { All (Contains b.old) out_of_b.now }
    requires apart { All (λ doc. Contains a.old doc → ⊥) out_of_b.now }
    requires apart_b { All (λ doc. Contains b.old doc → ⊥) out_of_a.now }
    ensures half { IsHalfAfter a.old out_of_a.now out_of_b.now a.new }
    ensures half_b { IsHalfAfter b.old out_of_b.now out_of_a.now b.new }
{
    if workers < 2 || a.len() < MANY {
        put_half(a, out_of_a, out_of_b);
        put_half(b, out_of_b, out_of_a);
        return;
    }
    join_mut(
        rt,
        &mut ||
            requires { (length out_of_b.now ≡ length out_of_a.now)
                × AllPairs (λ x y. x ≢ y) a.now
                × IsStrictlyIncreasing out_of_a.now × IsStrictlyIncreasing out_of_b.now
                × All (Contains a.now) out_of_a.now
                × All (λ doc. Contains a.now doc → ⊥) out_of_b.now }
            ensures { IsHalfAfter a.entry.now out_of_a.entry.now out_of_b.entry.now a.exit.now }
        { put_half(a, out_of_a, out_of_b) },
        &mut ||
            requires { (length out_of_b.now ≡ length out_of_a.now)
                × AllPairs (λ x y. x ≢ y) b.now
                × IsStrictlyIncreasing out_of_a.now × IsStrictlyIncreasing out_of_b.now
                × All (Contains b.now) out_of_b.now
                × All (λ doc. Contains b.now doc → ⊥) out_of_a.now }
            ensures { IsHalfAfter b.entry.now out_of_b.entry.now out_of_a.entry.now b.exit.now }
        { put_half(b, out_of_b, out_of_a) },
    );
}

/// Fills in the documents of entries, in start order.
fn put_in_order(entries: &[Entry], docs: &mut [u32])
    requires len { length docs.old ≡ length entries.now }
    requires differ { AllPairs (λ x y. x ≢ y) (docs_of entries.now) }
    ensures same { IsPermutation (docs_of entries.now) docs.new }
    ensures rising { IsStrictlyIncreasing docs.new }
{
    put_documents(entries, docs);
    docs.sort_unstable();
}

/// Fills in the documents of entries.
fn put_documents(entries: &[Entry], docs: &mut [u32])
    requires len { length docs.old ≡ length entries.now }
    ensures { docs.new ≡ docs_of entries.now }
{
    for place in 0..entries.len() {
        docs[place] = entries[place].doc;
    }
}

/// Lets documents leave the half and as many others come into it, and leaves it in start order.
fn put_half(docs: &mut [u32], leave: &[u32], come: &[u32])
    requires len { length come.now ≡ length leave.now }
    requires differ { AllPairs (λ x y. x ≢ y) docs.old }
    requires rising { IsStrictlyIncreasing leave.now }
    requires rising_come { IsStrictlyIncreasing come.now }
    requires there { All (Contains docs.old) leave.now }
    requires apart { All (λ doc. Contains docs.old doc → ⊥) come.now }
    ensures half { IsHalfAfter docs.old leave.now come.now docs.new }
{
    // A half that is in start order already, as after each round, takes one pass here.
    docs.sort_unstable();
    let staying = remove_all(docs, leave);
    merge_into(docs, staying, come);
}

/// Moves the documents that don't leave to the front. Gives how many.
fn remove_all(docs: &mut [u32], leave: &[u32]) -> usize
    requires rising { IsStrictlyIncreasing docs.old }
    requires rising_leave { IsStrictlyIncreasing leave.now }
    requires there { All (Contains docs.old) leave.now }
    ensures within { result ≤ length docs.new }
    ensures same { IsPermutation docs.old (take result docs.new ++ leave.now) }
    ensures rising { IsStrictlyIncreasing (take result docs.new) }
{
    let mut staying = 0;
    let mut left = 0;
    for place in 0..docs.len() {
        let doc = docs[place];
        if left < leave.len() && leave[left] == doc {
            left += 1;
        } else {
            docs[staying] = doc;
            staying += 1;
        }
    }
    staying
}

/// Merges documents into those that stand in front, from the last one on.
fn merge_into(docs: &mut [u32], staying: usize, come: &[u32])
    requires len { staying + length come.now ≡ length docs.old }
    requires sorted { IsNonDecreasing (take staying docs.old) }
    requires sorted_come { IsNonDecreasing come.now }
    ensures same { IsPermutation (take staying docs.old ++ come.now) docs.new }
    ensures sorted { IsNonDecreasing docs.new }
{
    let mut ahead = staying;
    let mut coming = come.len();
    while 0 < coming {
        let doc = come[coming - 1];
        if 0 < ahead && doc < docs[ahead - 1] {
            docs[ahead + coming - 1] = docs[ahead - 1];
            ahead -= 1;
        } else {
            docs[ahead + coming - 1] = doc;
            coming -= 1;
        }
    }
}
