//! Tries of exchanges, each made from the one before.
ghost use Rattle.std.specs.Prelude.{◌≡◌, ◌≤◌, ◌<◌, ◌-ℤ◌, length, All};
ghost use Rattle.degrees.specs.Cost.{degree};
ghost use Rattle.degrees.specs.Counts.{cost_of};
ghost use Rattle.exchange.specs.Gain.{IsReady};
ghost use Rattle.exchange.specs.Tries.{docs_of, all_across, exchanged_by, tried, AreCountedIn, IsFirstLess};

use crate::entry::Entry;
use crate::ground::Ground;
use crate::moves::narrow_gain;
use degrees::Degrees;
use fixed_log::laws::log_is_small;
use rgb_base::Side;

/// Moves documents across, one after another. Gives what the halves cost less after it.
fn move_all(ground: &Ground<'_>, degrees: &mut Degrees, entries: &[Entry], from: Side) -> i128
    requires terms { length degrees.old.a ≡ ground.now.forward.now.terms }
    requires below { All (λ entry. entry.doc < length ground.now.forward.now.rows) entries.now }
    requires counted { AreCountedIn from
        (degree ground.now.forward.now (docs_of entries.now)) degrees.old }
    requires ready { IsReady ground.now.logs.now degrees.old }
    ensures moved { degrees.new ≡ all_across from
        (degree ground.now.forward.now (docs_of entries.now)) degrees.old }
    ensures saved { result ≡ cost_of degrees.old -ℤ cost_of degrees.new }
{
    ground.forward.is_sound();
    degrees.is_sound();
    log_is_small();
    let mut saved = 0;
    for entry in entries {
        degrees.is_sound();
        saved += i128::from(narrow_gain(ground, degrees, entry.doc, from));
        degrees.move_across(ground.forward, entry.doc, from);
    }
    saved
}

/// The same of the table alone.
fn shift_all(ground: &Ground<'_>, degrees: &mut Degrees, entries: &[Entry], from: Side)
    requires terms { length degrees.old.a ≡ ground.now.forward.now.terms }
    requires below { All (λ entry. entry.doc < length ground.now.forward.now.rows) entries.now }
    requires counted { AreCountedIn from
        (degree ground.now.forward.now (docs_of entries.now)) degrees.old }
    requires ready { IsReady ground.now.logs.now degrees.old }
    ensures moved { degrees.new ≡ all_across from
        (degree ground.now.forward.now (docs_of entries.now)) degrees.old }
{
    ground.forward.is_sound();
    degrees.is_sound();
    for entry in entries {
        degrees.move_across(ground.forward, entry.doc, from);
    }
}

/// Exchanges documents: some leave half A, and others come out of half B. Gives what the halves
/// cost less after it.
fn exchange(ground: &Ground<'_>, degrees: &mut Degrees, leave: &[Entry], come: &[Entry]) -> i128
    requires terms { length degrees.old.a ≡ ground.now.forward.now.terms }
    requires below { All (λ entry. entry.doc < length ground.now.forward.now.rows) leave.now }
    requires below_come { All (λ entry. entry.doc < length ground.now.forward.now.rows) come.now }
    requires counted { AreCountedIn Side.A
        (degree ground.now.forward.now (docs_of leave.now)) degrees.old }
    requires counted_come { AreCountedIn Side.B
        (degree ground.now.forward.now (docs_of come.now)) degrees.old }
    requires ready { IsReady ground.now.logs.now degrees.old }
    ensures moved { degrees.new ≡ exchanged_by
        (degree ground.now.forward.now (docs_of leave.now))
        (degree ground.now.forward.now (docs_of come.now)) degrees.old }
    ensures saved { result ≡ cost_of degrees.old -ℤ cost_of degrees.new }
{
    log_is_small();
    degrees.is_sound();
    let left = move_all(ground, degrees, leave, Side::A);
    degrees.is_sound();
    let came = move_all(ground, degrees, come, Side::B);
    degrees.is_sound();
    left + came
}

/// The same where so many change places that their cost is sooner worked out anew.
fn exchange_many(
    ground: &Ground<'_>,
    degrees: &mut Degrees,
    leave: &[Entry],
    come: &[Entry],
    before: i128,
) -> i128
    requires terms { length degrees.old.a ≡ ground.now.forward.now.terms }
    requires below { All (λ entry. entry.doc < length ground.now.forward.now.rows) leave.now }
    requires below_come { All (λ entry. entry.doc < length ground.now.forward.now.rows) come.now }
    requires counted { AreCountedIn Side.A
        (degree ground.now.forward.now (docs_of leave.now)) degrees.old }
    requires counted_come { AreCountedIn Side.B
        (degree ground.now.forward.now (docs_of come.now)) degrees.old }
    requires ready { IsReady ground.now.logs.now degrees.old }
    requires before { before ≡ cost_of degrees.old }
    ensures moved { degrees.new ≡ exchanged_by
        (degree ground.now.forward.now (docs_of leave.now))
        (degree ground.now.forward.now (docs_of come.now)) degrees.old }
    ensures saved { result ≡ cost_of degrees.old -ℤ cost_of degrees.new }
{
    log_is_small();
    degrees.is_sound();
    shift_all(ground, degrees, leave, Side::A);
    degrees.is_sound();
    shift_all(ground, degrees, come, Side::B);
    degrees.is_sound();
    before - degrees.cost(ground.logs)
}

/// The same in the way that takes less time.
fn exchange_first(
    ground: &Ground<'_>,
    degrees: &mut Degrees,
    leave: &[Entry],
    come: &[Entry],
    before: i128,
) -> i128
    requires terms { length degrees.old.a ≡ ground.now.forward.now.terms }
    requires below { All (λ entry. entry.doc < length ground.now.forward.now.rows) leave.now }
    requires below_come { All (λ entry. entry.doc < length ground.now.forward.now.rows) come.now }
    requires counted { AreCountedIn Side.A
        (degree ground.now.forward.now (docs_of leave.now)) degrees.old }
    requires counted_come { AreCountedIn Side.B
        (degree ground.now.forward.now (docs_of come.now)) degrees.old }
    requires ready { IsReady ground.now.logs.now degrees.old }
    requires before { before ≡ cost_of degrees.old }
    ensures moved { degrees.new ≡ exchanged_by
        (degree ground.now.forward.now (docs_of leave.now))
        (degree ground.now.forward.now (docs_of come.now)) degrees.old }
    ensures saved { result ≡ cost_of degrees.old -ℤ cost_of degrees.new }
{
    // The costs of sixteen terms take about as long as the gains of a pair.
    if leave.len() < degrees.terms() as usize / 16 {
        exchange(ground, degrees, leave, come)
    } else {
        exchange_many(ground, degrees, leave, come, before)
    }
}

/// How the tries of a round ended: the pairs that stayed exchanged, the cost of the first try, and
/// the cost at the end.
#[derive(Clone, Copy)]
pub(crate) struct Tried {
    pub(crate) pairs: usize,
    pub(crate) first: i128,
    pub(crate) after: i128,
}

/// Exchanges the first pairs of two ranked halves, then half of them, a quarter and so on, until
/// the halves cost less than before or no pair is left.
pub(crate) fn first_less(
    ground: &Ground<'_>,
    degrees: &mut Degrees,
    a: &[Entry],
    b: &[Entry],
    pairs: usize,
    before: i128,
) -> Tried
    requires within { pairs ≤ length a.now }
    requires within_b { pairs ≤ length b.now }
    requires below { All (λ entry. entry.doc < length ground.now.forward.now.rows) a.now }
    requires below_b { All (λ entry. entry.doc < length ground.now.forward.now.rows) b.now }
    requires ready { IsReady ground.now.logs.now degrees.old }
    requires table { degrees.old
        ≡ tried ground.now.forward.now (docs_of a.now) (docs_of b.now) 0 degrees.old.loads }
    requires before { before ≡ cost_of degrees.old }
    ensures table { degrees.new ≡ tried
        ground.now.forward.now (docs_of a.now) (docs_of b.now) result.pairs degrees.old.loads }
    ensures first { IsFirstLess
        ground.now.forward.now (docs_of a.now) (docs_of b.now) pairs before result }
    ensures fewer { result.pairs ≤ pairs }
{
    log_is_small();
    degrees.is_sound();
    let saved = exchange_first(ground, degrees, &a[..pairs], &b[..pairs], before);
    degrees.is_sound();
    let first = before - saved;
    let mut exchanged = pairs;
    let mut after = first;
    while 0 < exchanged && before <= after {
        let fewer = exchanged / 2;
        degrees.is_sound();
        let saved = exchange(ground, degrees, &b[fewer..exchanged], &a[fewer..exchanged]);
        degrees.is_sound();
        after -= saved;
        exchanged = fewer;
    }
    Tried {
        pairs: exchanged,
        first,
        after,
    }
}
