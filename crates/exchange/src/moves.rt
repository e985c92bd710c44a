//! What the moves of documents gain.
ghost use Rattle.std.specs.Prelude.{◌≡◌, ◌+◌, ◌*◌, ◌<◌, ◌≤◌, ◌^◌, ℕ, pos, ◌-ℤ◌, length, map, take, slice_index, All};
ghost use Rattle.std.specs.Thread.{IsSync};
ghost use Rattle.fixed_log.specs.Log.{lg};
ghost use Rattle.fixed_log.specs.Growth.{AreGrowths};
ghost use Rattle.forward_index.specs.Forward.{row_at};
ghost use Rattle.degrees.specs.Counts.{counts_in, IsCountedIn};
ghost use Rattle.exchange.specs.Gain.{term_gain, gain_of, IsReady};
ghost use Rattle.exchange.specs.Tries.{counts_beside, size_in, size_beside, entry_of, IsWithin, IsLow, AreSteps};

use crate::entry::Entry;
use crate::ground::Ground;
use degrees::Degrees;
use fixed_log::LogTable;
use fixed_log::laws::{growth_is_small, log_is_small};
use rayon::join_mut;
use rgb_base::Side;
use std::thread::Threads;

/// Fewer documents are not worth a thread.
const FEW: usize = 256;

/// What the move of a document out of its half into the other gains, by the degrees and sizes of
/// the table. Takes no memory.
pub fn gain(ground: &Ground<'_>, degrees: &Degrees, doc: u32, from: Side) -> i128
    requires terms { length degrees.now.a ≡ ground.now.forward.now.terms }
    requires below { doc < length ground.now.forward.now.rows }
    requires counted { IsCountedIn from (row_at ground.now.forward.now.rows doc) degrees.now }
    requires ready { IsReady ground.now.logs.now degrees.now }
    ensures same { result ≡ gain_of from degrees.now (row_at ground.now.forward.now.rows doc) }
{
    i128::from(narrow_gain(ground, degrees, doc, from))
}

/// The same in 64 bits: the counts of all terms together are below 2^32, and a logarithm below
/// 2^22.
pub(crate) fn narrow_gain(ground: &Ground<'_>, degrees: &Degrees, doc: u32, from: Side) -> i64
    requires terms { length degrees.now.a ≡ ground.now.forward.now.terms }
    requires below { doc < length ground.now.forward.now.rows }
    requires counted { IsCountedIn from (row_at ground.now.forward.now.rows doc) degrees.now }
    requires ready { IsReady ground.now.logs.now degrees.now }
    ensures same { result ≡ gain_of from degrees.now (row_at ground.now.forward.now.rows doc) }
    ensures small { IsWithin (2 ^ 56) result }
{
    degrees.is_sound();
    ground.forward.is_sound();
    log_is_small();
    let apart = logs_apart(ground.logs, degrees, from);
    let growths = ground.logs.growths();
    let mut sum = 0;
    for term in ground.forward.terms_of(doc) {
        let (own, other) = counts(degrees, *term, from);
        sum += narrow_term_gain(growths, own, other, apart);
    }
    sum
}

/// What each of these documents gains by its move out of its half into the other. The threads of
/// the ground share the work. Takes no memory.
pub fn gains<R: Threads + Sync>(
    rt: &R,
    ground: &Ground<'_>,
    degrees: &Degrees,
    docs: &[u32],
    from: Side,
    out: &mut [i128],
)
    requires len { length out.old ≡ length docs.now }
    requires terms { length degrees.now.a ≡ ground.now.forward.now.terms }
    requires below { All (λ doc. doc < length ground.now.forward.now.rows) docs.now }
    requires counted { All (λ doc. IsCountedIn from
        (row_at ground.now.forward.now.rows doc) degrees.now) docs.now }
    requires ready { IsReady ground.now.logs.now degrees.now }
    ensures same { out.new ≡ map (λ doc. gain_of from degrees.now
        (row_at ground.now.forward.now.rows doc)) docs.now }
{
    gains_shared(rt, ground, degrees, docs, from, out, ground.workers);
}

/// The same by so many threads.
#[cycle(sharing)]
fn gains_shared<R: Threads + Sync>(
    rt: &R,
    ground: &Ground<'_>,
    degrees: &Degrees,
    docs: &[u32],
    from: Side,
    out: &mut [i128],
    workers: u32,
)
    requires len { length out.old ≡ length docs.now }
    requires terms { length degrees.now.a ≡ ground.now.forward.now.terms }
    requires below { All (λ doc. doc < length ground.now.forward.now.rows) docs.now }
    requires counted { All (λ doc. IsCountedIn from
        (row_at ground.now.forward.now.rows doc) degrees.now) docs.now }
    requires ready { IsReady ground.now.logs.now degrees.now }
    ensures same { out.new ≡ map (λ doc. gain_of from degrees.now
        (row_at ground.now.forward.now.rows doc)) docs.now }
{
    if workers < 2 || docs.len() < FEW {
        gains_alone(ground, degrees, docs, from, out);
        return;
    }
    let helpers = workers / 2;
    let others = workers - helpers;
    let middle = docs.len() / workers as usize * helpers as usize;
    let (docs_front, docs_back) = docs.split_at(middle);
    let (front, back) = out.split_at_mut(middle);
    join_mut(
        rt,
        &mut ||
            requires { IsSync R.row × (length front.now ≡ length docs_front.now)
                × (length degrees.now.a ≡ ground.now.forward.now.terms)
                × All (λ doc. doc < length ground.now.forward.now.rows) docs_front.now
                × All (λ doc. IsCountedIn from
                (row_at ground.now.forward.now.rows doc) degrees.now) docs_front.now
                × IsReady ground.now.logs.now degrees.now }
            ensures { front.exit.now ≡ map (λ doc. gain_of from degrees.entry.now
                (row_at ground.entry.now.forward.now.rows doc)) docs_front.entry.now }
        { gains_shared(rt, ground, degrees, docs_front, from, front, helpers) },
        &mut ||
            requires { IsSync R.row × (length back.now ≡ length docs_back.now)
                × (length degrees.now.a ≡ ground.now.forward.now.terms)
                × All (λ doc. doc < length ground.now.forward.now.rows) docs_back.now
                × All (λ doc. IsCountedIn from
                (row_at ground.now.forward.now.rows doc) degrees.now) docs_back.now
                × IsReady ground.now.logs.now degrees.now }
            ensures { back.exit.now ≡ map (λ doc. gain_of from degrees.entry.now
                (row_at ground.entry.now.forward.now.rows doc)) docs_back.entry.now }
        { gains_shared(rt, ground, degrees, docs_back, from, back, others) },
    );
}

/// The same by this thread alone.
fn gains_alone(ground: &Ground<'_>, degrees: &Degrees, docs: &[u32], from: Side, out: &mut [i128])
    requires len { length out.old ≡ length docs.now }
    requires terms { length degrees.now.a ≡ ground.now.forward.now.terms }
    requires below { All (λ doc. doc < length ground.now.forward.now.rows) docs.now }
    requires counted { All (λ doc. IsCountedIn from
        (row_at ground.now.forward.now.rows doc) degrees.now) docs.now }
    requires ready { IsReady ground.now.logs.now degrees.now }
    ensures same { out.new ≡ map (λ doc. gain_of from degrees.now
        (row_at ground.now.forward.now.rows doc)) docs.now }
{
    for place in 0..docs.len() {
        out[place] = gain(ground, degrees, docs[place], from);
    }
}

/// Fills the entries with the documents of a half and their gains, by so many threads.
#[cycle(filling)]
pub(crate) fn fill_shared<R: Threads + Sync>(
    rt: &R,
    ground: &Ground<'_>,
    degrees: &Degrees,
    docs: &[u32],
    from: Side,
    steps: &[i32],
    entries: &mut [Entry],
    workers: u32,
)
    requires len { length entries.old ≡ length docs.now }
    requires terms { length degrees.now.a ≡ ground.now.forward.now.terms }
    requires below { All (λ doc. doc < length ground.now.forward.now.rows) docs.now }
    requires counted { All (λ doc. IsCountedIn from
        (row_at ground.now.forward.now.rows doc) degrees.now) docs.now }
    requires ready { IsReady ground.now.logs.now degrees.now }
    requires steps { AreSteps from degrees.now steps.now }
    ensures same { entries.new
        ≡ map (entry_of from degrees.now ground.now.forward.now.rows) docs.now }
    ensures low { All IsLow entries.new }
{
    if workers < 2 || docs.len() < FEW {
        fill(ground, degrees, docs, from, steps, entries);
        return;
    }
    let helpers = workers / 2;
    let others = workers - helpers;
    let middle = docs.len() / workers as usize * helpers as usize;
    let (docs_front, docs_back) = docs.split_at(middle);
    let (front, back) = entries.split_at_mut(middle);
    join_mut(
        rt,
        &mut ||
            requires { IsSync R.row × (length front.now ≡ length docs_front.now)
                × (length degrees.now.a ≡ ground.now.forward.now.terms)
                × All (λ doc. doc < length ground.now.forward.now.rows) docs_front.now
                × All (λ doc. IsCountedIn from
                (row_at ground.now.forward.now.rows doc) degrees.now) docs_front.now
                × IsReady ground.now.logs.now degrees.now
                × AreSteps from degrees.now steps.now }
            ensures { (front.exit.now ≡ map (entry_of from degrees.entry.now
                ground.entry.now.forward.now.rows) docs_front.entry.now)
                × All IsLow front.exit.now }
        { fill_shared(rt, ground, degrees, docs_front, from, steps, front, helpers) },
        &mut ||
            requires { IsSync R.row × (length back.now ≡ length docs_back.now)
                × (length degrees.now.a ≡ ground.now.forward.now.terms)
                × All (λ doc. doc < length ground.now.forward.now.rows) docs_back.now
                × All (λ doc. IsCountedIn from
                (row_at ground.now.forward.now.rows doc) degrees.now) docs_back.now
                × IsReady ground.now.logs.now degrees.now
                × AreSteps from degrees.now steps.now }
            ensures { (back.exit.now ≡ map (entry_of from degrees.entry.now
                ground.entry.now.forward.now.rows) docs_back.entry.now)
                × All IsLow back.exit.now }
        { fill_shared(rt, ground, degrees, docs_back, from, steps, back, others) },
    );
}

/// The same by this thread alone.
fn fill(
    ground: &Ground<'_>,
    degrees: &Degrees,
    docs: &[u32],
    from: Side,
    steps: &[i32],
    entries: &mut [Entry],
)
    requires len { length entries.old ≡ length docs.now }
    requires terms { length degrees.now.a ≡ ground.now.forward.now.terms }
    requires below { All (λ doc. doc < length ground.now.forward.now.rows) docs.now }
    requires counted { All (λ doc. IsCountedIn from
        (row_at ground.now.forward.now.rows doc) degrees.now) docs.now }
    requires ready { IsReady ground.now.logs.now degrees.now }
    requires steps { AreSteps from degrees.now steps.now }
    ensures same { entries.new
        ≡ map (entry_of from degrees.now ground.now.forward.now.rows) docs.now }
    ensures low { All IsLow entries.new }
{
    for place in 0..docs.len() {
        let doc = docs[place];
        entries[place] = Entry {
            gain: entry_gain(ground, degrees, doc, from, steps),
            doc,
        };
    }
}

/// What the move of a document gains, by the steps where there are those of all terms.
fn entry_gain(ground: &Ground<'_>, degrees: &Degrees, doc: u32, from: Side, steps: &[i32]) -> i64
    requires terms { length degrees.now.a ≡ ground.now.forward.now.terms }
    requires below { doc < length ground.now.forward.now.rows }
    requires counted { IsCountedIn from (row_at ground.now.forward.now.rows doc) degrees.now }
    requires ready { IsReady ground.now.logs.now degrees.now }
    requires steps { AreSteps from degrees.now steps.now }
    ensures same { result ≡ gain_of from degrees.now (row_at ground.now.forward.now.rows doc) }
    ensures small { IsWithin (2 ^ 56) result }
{
    if steps.len() < degrees.terms() as usize {
        narrow_gain(ground, degrees, doc, from)
    } else {
        gain_by_steps(ground, degrees, doc, from, steps)
    }
}

/// What the move of a document gains, as the sum of its terms' steps.
fn gain_by_steps(ground: &Ground<'_>, degrees: &Degrees, doc: u32, from: Side, steps: &[i32]) -> i64
    requires terms { length degrees.now.a ≡ ground.now.forward.now.terms }
    requires below { doc < length ground.now.forward.now.rows }
    requires counted { IsCountedIn from (row_at ground.now.forward.now.rows doc) degrees.now }
    requires len { length degrees.now.a ≤ length steps.now }
    requires steps { AreSteps from degrees.now steps.now }
    ensures same { result ≡ gain_of from degrees.now (row_at ground.now.forward.now.rows doc) }
    ensures small { IsWithin (2 ^ 56) result }
{
    let _ = from;
    degrees.is_sound();
    ground.forward.is_sound();
    let mut sum = 0;
    for term in ground.forward.terms_of(doc) {
        sum += i64::from(steps[*term as usize]);
    }
    sum
}

/// Fills the steps of terms, as far as 32 bits hold them: what each of them adds to the gains of a
/// half's documents. Gives how many there are.
pub(crate) fn fill_steps(
    ground: &Ground<'_>,
    degrees: &Degrees,
    from: Side,
    steps: &mut [i32],
) -> usize
    requires len { length steps.old ≤ length degrees.now.a }
    requires ready { IsReady ground.now.logs.now degrees.now }
    ensures steps { AreSteps from degrees.now (take result steps.new) }
    ensures within { result ≤ length steps.new }
    ensures len { length steps.new ≡ length steps.old }
{
    degrees.is_sound();
    log_is_small();
    let apart = logs_apart(ground.logs, degrees, from);
    let growths = ground.logs.growths();
    for term in 0..steps.len() {
        let (own, other) = counts(degrees, term as u32, from);
        let step = narrow_term_gain(growths, own, other, apart);
        let Ok(narrow) = i32::try_from(step) else {
            return term;
        };
        steps[term] = narrow;
    }
    steps.len()
}

/// By how much the logarithm of a half's size is larger than that of the other's.
fn logs_apart(logs: &LogTable, degrees: &Degrees, half: Side) -> i64
    requires ready { IsReady logs.now degrees.now }
    ensures same { result
        ≡ pos (lg (size_in half degrees.now)) -ℤ pos (lg (size_beside half degrees.now)) }
    ensures small { IsWithin (2 ^ 32) result }
{
    let log_a = i64::from(logs.lg(degrees.len_a()));
    let log_b = i64::from(logs.lg(degrees.len_b()));
    match half {
        Side::A => log_a - log_b,
        Side::B => log_b - log_a,
    }
}

/// The counts of a term in a half and in the other.
fn counts(degrees: &Degrees, term: u32, half: Side) -> (u32, u32)
    requires { term < length degrees.now.a }
    ensures own { result.0 ≡ slice_index (counts_in half degrees.now) term }
    ensures other { result.1 ≡ slice_index (counts_beside half degrees.now) term }
{
    match half {
        Side::A => (degrees.a(term), degrees.b(term)),
        Side::B => (degrees.b(term), degrees.a(term)),
    }
}

/// What a term of a document that moves costs less, by the term's counts and how far the logarithms
/// of the sizes are apart.
#[inline]
fn narrow_term_gain(growths: &[i64], own: u32, other: u32, apart: i64) -> i64
    requires growths { AreGrowths growths.now }
    requires low { own + other + 1 < length growths.now }
    requires few { own + other < 2 ^ 31 }
    requires small { IsWithin (2 ^ 32) apart }
    ensures same { (m n : ℕ) → 0 < own → apart ≡ pos (lg m) -ℤ pos (lg n)
        → result ≡ term_gain m n own other }
    ensures within { IsWithin (2 ^ 55) result }
{
    growth_is_small();
    apart + growths[other as usize + 1] - growths[own as usize]
}
