//! One round of exchanges.
ghost use Rattle.std.specs.Prelude.{◌≡◌, ◌≢◌, ◌++◌, ◌<◌, ◌≤◌, length, All, AllPairs, IsPermutation};
ghost use Rattle.std.specs.Thread.{IsSync};
ghost use Rattle.rgb_base.specs.Order.{AreNumbers};
ghost use Rattle.forward_index.specs.Forward.{row_at};
ghost use Rattle.degrees.specs.Counts.{IsCountedIn, loaded, cost_of};
ghost use Rattle.exchange.specs.Gain.{IsReady};
ghost use Rattle.exchange.specs.Round.{IsRound};
ghost use Rattle.exchange.specs.Halving.{half_a, half_b};
ghost use Rattle.exchange.specs.Tries.{docs_of, HasGain, IsLow};

use crate::entry::{Entry, rank_pairs};
use crate::ground::{Ground, MANY};
use crate::halves::exchange_documents;
use crate::moves::{fill_shared, fill_steps};
use crate::scratch::Scratch;
use crate::tries::first_less;
use degrees::Degrees;
use rayon::join_mut;
use rgb_base::Side;
use std::thread::Threads;

/// The costs of the halves before and after an exchange, and how many pairs changed places.
#[derive(Clone, Copy)]
pub struct Kept {
    pub before: i128,
    pub after: i128,
    pub pairs: u32,
}

/// What a round answers: the exchange that was kept; or that none costs less, with the cost of the
/// first one tried; or that no pair gains anything.
#[derive(Clone, Copy)]
pub enum Round {
    Kept(Kept),
    Refused(Kept),
    Still,
}

/// Makes one round of exchanges between the halves of a cell: the first half of its documents, with
/// the one more where their number is odd, and the rest, each in start order. The table has their
/// degrees, and has those of the new halves afterwards. Takes no memory.
pub fn one_round<R: Threads + Sync>(
    rt: &R,
    ground: &Ground<'_>,
    degrees: &mut Degrees,
    docs: &mut [u32],
    scratch: &mut Scratch,
) -> Round
    requires top { length ground.now.forward.now.rows < ground.now.logs.now }
    requires some { 2 ≤ length docs.old }
    requires places { AreNumbers (length ground.now.forward.now.rows) docs.old }
    requires table { degrees.old ≡ loaded
        ground.now.forward.now (half_a docs.old) (half_b docs.old) degrees.old.loads }
    requires room { length docs.old ≤ scratch.old }
    ensures round { IsRound ground.now.forward.now
        (half_a docs.old) (half_b docs.old) result (half_a docs.new) (half_b docs.new) }
    ensures loaded { degrees.new ≡ loaded
        ground.now.forward.now (half_a docs.new) (half_b docs.new) degrees.old.loads }
    ensures same { IsPermutation docs.old docs.new }
    ensures room { scratch.new ≡ scratch.old }
{
    let before = loaded_cost(ground, degrees, docs);
    round_from(rt, ground, degrees, docs, scratch, before)
}

/// The cost of the halves of a cell of which the table has the degrees.
pub(crate) fn loaded_cost(ground: &Ground<'_>, degrees: &Degrees, docs: &[u32]) -> i128
    requires top { length ground.now.forward.now.rows < ground.now.logs.now }
    requires some { 2 ≤ length docs.now }
    requires places { AreNumbers (length ground.now.forward.now.rows) docs.now }
    requires table { degrees.now ≡ loaded
        ground.now.forward.now (half_a docs.now) (half_b docs.now) degrees.now.loads }
    ensures same { result ≡ cost_of degrees.now }
{
    let _ = docs;
    degrees.cost(ground.logs)
}

/// The same with the cost of the halves.
pub(crate) fn round_from<R: Threads + Sync>(
    rt: &R,
    ground: &Ground<'_>,
    degrees: &mut Degrees,
    docs: &mut [u32],
    scratch: &mut Scratch,
    before: i128,
) -> Round
    requires top { length ground.now.forward.now.rows < ground.now.logs.now }
    requires some { 2 ≤ length docs.old }
    requires places { AreNumbers (length ground.now.forward.now.rows) docs.old }
    requires table { degrees.old ≡ loaded
        ground.now.forward.now (half_a docs.old) (half_b docs.old) degrees.old.loads }
    requires room { length docs.old ≤ scratch.old }
    requires before { before ≡ cost_of degrees.old }
    ensures round { IsRound ground.now.forward.now
        (half_a docs.old) (half_b docs.old) result (half_a docs.new) (half_b docs.new) }
    ensures loaded { degrees.new ≡ loaded
        ground.now.forward.now (half_a docs.new) (half_b docs.new) degrees.old.loads }
    ensures same { IsPermutation docs.old docs.new }
    ensures room { scratch.new ≡ scratch.old }
{
    let Scratch {
        entries,
        keys,
        leaving,
        steps,
    } = scratch;
    round_in(
        rt, ground, degrees, docs, entries, keys, leaving, steps, before,
    )
}

/// The same with room for an entry, a key and a document for each document, and maybe for two steps
/// a term.
fn round_in<R: Threads + Sync>(
    rt: &R,
    ground: &Ground<'_>,
    degrees: &mut Degrees,
    docs: &mut [u32],
    entries: &mut [Entry],
    keys: &mut [u64],
    leaving: &mut [u32],
    steps: &mut [i32],
    before: i128,
) -> Round
    requires top { length ground.now.forward.now.rows < ground.now.logs.now }
    requires some { 2 ≤ length docs.old }
    requires places { AreNumbers (length ground.now.forward.now.rows) docs.old }
    requires table { degrees.old ≡ loaded
        ground.now.forward.now (half_a docs.old) (half_b docs.old) degrees.old.loads }
    requires room { length docs.old ≤ length entries.old }
    requires room_keys { length docs.old ≤ length keys.old }
    requires room_leaving { length docs.old ≤ length leaving.old }
    requires before { before ≡ cost_of degrees.old }
    ensures round { IsRound ground.now.forward.now
        (half_a docs.old) (half_b docs.old) result (half_a docs.new) (half_b docs.new) }
    ensures loaded { degrees.new ≡ loaded
        ground.now.forward.now (half_a docs.new) (half_b docs.new) degrees.old.loads }
    ensures same { IsPermutation docs.old docs.new }
{
    let middle = docs.len() - docs.len() / 2;
    let (a, b) = docs.split_at_mut(middle);
    let (entries_a, rest) = entries.split_at_mut(middle);
    let entries_b = &mut rest[..b.len()];
    let (keys_a, rest) = keys.split_at_mut(middle);
    let keys_b = &mut rest[..b.len()];
    let (leaving_a, rest) = leaving.split_at_mut(middle);
    let leaving_b = &mut rest[..b.len()];
    let (steps_a, steps_b) = steps.split_at_mut(steps.len() / 2);
    let steps_a = steps_for(degrees, a.len(), steps_a);
    let steps_b = steps_for(degrees, b.len(), steps_b);
    round_of_halves(
        rt, ground, degrees, a, b, entries_a, entries_b, keys_a, keys_b, leaving_a, leaving_b,
        steps_a, steps_b, before,
    )
}

/// The room for the steps of all terms, or none where there is less, or where the documents of a
/// half are so few that their gains are sooner worked out from the counts.
fn steps_for<'a>(degrees: &Degrees, docs: usize, room: &'a mut [i32]) -> &'a mut [i32]
    ensures room { length result.now ≤ length degrees.now.a }
{
    let terms = degrees.terms() as usize;
    if terms <= room.len() && terms / 4 <= docs {
        &mut room[..terms]
    } else {
        &mut []
    }
}

/// Fills the entries with the documents of both halves and their gains. Where the halves are worked
/// on one after the other, both use the steps of half A, which a cache has then.
fn fill_halves<R: Threads + Sync>(
    rt: &R,
    ground: &Ground<'_>,
    degrees: &Degrees,
    a: &[u32],
    b: &[u32],
    steps_a: &mut [i32],
    steps_b: &mut [i32],
    entries_a: &mut [Entry],
    entries_b: &mut [Entry],
)
    requires len_a { length entries_a.old ≡ length a.now }
    requires len_b { length entries_b.old ≡ length b.now }
    requires terms { length degrees.now.a ≡ ground.now.forward.now.terms }
    requires below_a { All (λ doc. doc < length ground.now.forward.now.rows) a.now }
    requires below_b { All (λ doc. doc < length ground.now.forward.now.rows) b.now }
    requires counted_a { All (λ doc. IsCountedIn Side.A
        (row_at ground.now.forward.now.rows doc) degrees.now) a.now }
    requires counted_b { All (λ doc. IsCountedIn Side.B
        (row_at ground.now.forward.now.rows doc) degrees.now) b.now }
    requires ready { IsReady ground.now.logs.now degrees.now }
    requires steps_a { length steps_a.old ≤ length degrees.now.a }
    requires steps_b { length steps_b.old ≤ length degrees.now.a }
    ensures same_a { docs_of entries_a.new ≡ a.now }
    ensures same_b { docs_of entries_b.new ≡ b.now }
    ensures gains_a { All (HasGain Side.A degrees.now ground.now.forward.now.rows) entries_a.new }
    ensures gains_b { All (HasGain Side.B degrees.now ground.now.forward.now.rows) entries_b.new }
    ensures low_a { All IsLow entries_a.new }
    ensures low_b { All IsLow entries_b.new }
{
    let workers = ground.workers;
    if workers < 2 || a.len() < MANY {
        fill_half(rt, ground, degrees, a, Side::A, steps_a, entries_a, workers);
        fill_half(rt, ground, degrees, b, Side::B, steps_a, entries_b, workers);
        return;
    }
    let helpers = workers / 2;
    let others = workers - helpers;
    join_mut(
        rt,
        &mut ||
            requires { IsSync R.row × (length entries_a.now ≡ length a.now)
                × (length degrees.now.a ≡ ground.now.forward.now.terms)
                × All (λ doc. doc < length ground.now.forward.now.rows) a.now
                × All (λ doc. IsCountedIn Side.A
                (row_at ground.now.forward.now.rows doc) degrees.now) a.now
                × IsReady ground.now.logs.now degrees.now
                × (length steps_a.now ≤ length degrees.now.a) }
            ensures { (docs_of entries_a.exit.now ≡ a.entry.now)
                × All (HasGain Side.A degrees.entry.now ground.entry.now.forward.now.rows)
                entries_a.exit.now
                × All IsLow entries_a.exit.now }
        { fill_half(rt, ground, degrees, a, Side::A, steps_a, entries_a, helpers) },
        &mut ||
            requires { IsSync R.row × (length entries_b.now ≡ length b.now)
                × (length degrees.now.a ≡ ground.now.forward.now.terms)
                × All (λ doc. doc < length ground.now.forward.now.rows) b.now
                × All (λ doc. IsCountedIn Side.B
                (row_at ground.now.forward.now.rows doc) degrees.now) b.now
                × IsReady ground.now.logs.now degrees.now
                × (length steps_b.now ≤ length degrees.now.a) }
            ensures { (docs_of entries_b.exit.now ≡ b.entry.now)
                × All (HasGain Side.B degrees.entry.now ground.entry.now.forward.now.rows)
                entries_b.exit.now
                × All IsLow entries_b.exit.now }
        { fill_half(rt, ground, degrees, b, Side::B, steps_b, entries_b, others) },
    );
}

/// Fills the entries with the documents of a half and their gains, by so many threads.
fn fill_half<R: Threads + Sync>(
    rt: &R,
    ground: &Ground<'_>,
    degrees: &Degrees,
    docs: &[u32],
    from: Side,
    steps: &mut [i32],
    entries: &mut [Entry],
    workers: u32,
)
    requires len { length entries.old ≡ length docs.now }
    requires terms { length degrees.now.a ≡ ground.now.forward.now.terms }
    requires below { All (λ doc. doc < length ground.now.forward.now.rows) docs.now }
    requires counted { All (λ doc. IsCountedIn from
        (row_at ground.now.forward.now.rows doc) degrees.now) docs.now }
    requires ready { IsReady ground.now.logs.now degrees.now }
    requires steps { length steps.old ≤ length degrees.now.a }
    ensures steps { length steps.new ≡ length steps.old }
    ensures same { docs_of entries.new ≡ docs.now }
    ensures gains { All (HasGain from degrees.now ground.now.forward.now.rows) entries.new }
    ensures low { All IsLow entries.new }
{
    let filled = fill_steps(ground, degrees, from, steps);
    fill_shared(
        rt,
        ground,
        degrees,
        docs,
        from,
        &steps[..filled],
        entries,
        workers,
    );
}

/// One round of two halves of which the table has the degrees, with their cost and room for an
/// entry a document.
fn round_of_halves<R: Threads + Sync>(
    rt: &R,
    ground: &Ground<'_>,
    degrees: &mut Degrees,
    a: &mut [u32],
    b: &mut [u32],
    entries_a: &mut [Entry],
    entries_b: &mut [Entry],
    keys_a: &mut [u64],
    keys_b: &mut [u64],
    leaving_a: &mut [u32],
    leaving_b: &mut [u32],
    steps_a: &mut [i32],
    steps_b: &mut [i32],
    before: i128,
) -> Round
    requires top { length ground.now.forward.now.rows < ground.now.logs.now }
    requires some { 0 < length a.old }
    requires some_b { 0 < length b.old }
    requires places { AreNumbers (length ground.now.forward.now.rows) (a.old ++ b.old) }
    requires room { length entries_a.old ≡ length a.old }
    requires room_b { length entries_b.old ≡ length b.old }
    requires keys { length keys_a.old ≡ length a.old }
    requires keys_b { length keys_b.old ≡ length b.old }
    requires leaving { length leaving_a.old ≡ length a.old }
    requires leaving_b { length leaving_b.old ≡ length b.old }
    requires steps_a { length steps_a.old ≤ length degrees.old.a }
    requires steps_b { length steps_b.old ≤ length degrees.old.a }
    requires table { degrees.old
        ≡ loaded ground.now.forward.now a.old b.old degrees.old.loads }
    requires before { before ≡ cost_of degrees.old }
    ensures round { IsRound ground.now.forward.now a.old b.old result a.new b.new }
    ensures loaded { degrees.new
        ≡ loaded ground.now.forward.now a.new b.new degrees.old.loads }
    ensures same { IsPermutation (a.old ++ b.old) (a.new ++ b.new) }
{
    ground.forward.is_sound();
    fill_halves(
        rt, ground, degrees, a, b, steps_a, steps_b, entries_a, entries_b,
    );
    let pairs = rank_pairs(rt, entries_a, entries_b, keys_a, keys_b, ground.workers);
    if pairs == 0 {
        return Round::Still;
    }
    let last = first_less(ground, degrees, entries_a, entries_b, pairs, before);
    if last.pairs == 0 {
        return Round::Refused(Kept {
            before,
            after: last.first,
            pairs: pairs as u32,
        });
    }
    exchange_documents(
        rt,
        a,
        b,
        last.pairs,
        entries_a,
        entries_b,
        leaving_a,
        leaving_b,
        ground.workers,
    );
    Round::Kept(Kept {
        before,
        after: last.after,
        pairs: last.pairs as u32,
    })
}
