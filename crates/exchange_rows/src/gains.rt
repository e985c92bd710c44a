//! Gains by hand.
ghost use Rattle.std.specs.Prelude.{◌≡◌, ◌<◌, length, slice_index, IsTrue};
ghost use Rattle.std.specs.Bool.{OnTrue};
ghost use Rattle.rgb_base.specs.Order.{AreNumbers};
ghost use Rattle.degrees.specs.Counts.{IsCountedIn, counts_in};
ghost use Rattle.exchange.specs.Gain.{IsReady};

use crate::loaded::{forward_of, table_of};
use degrees::Degrees;
use exchange::{Ground, gain};
use fixed_log::LogTable;
use forward_index::Forward;
use rgb_base::Side;
use small_indexes::{is_order, numbers_of};
use std::alloc::Global;
use std::test::Fail;
use std::thread::Threads;

fn count_in(table: &Degrees, term: u32, side: Side) -> u32
    requires { term < length table.now.a }
    ensures { result ≡ slice_index (counts_in side table.now) term }
{
    match side {
        Side::A => table.a(term),
        Side::B => table.b(term),
    }
}

/// Whether each term of a row has a count in the half.
fn is_counted(table: &Degrees, row: &[u32], side: Side) -> bool
    ensures { IsTrue result → IsCountedIn side row.now table.now }
{
    for term in row {
        if table.terms() <= *term || count_in(table, *term, side) == 0 {
            return false;
        }
    }
    true
}

/// Whether sizes and counts have logarithms below the number.
fn is_ready(table: &Degrees, top: u32) -> bool
    ensures { OnTrue result (IsReady top table.now) }
{
    table.is_sound();
    for term in 0..table.terms() {
        if top <= table.a(term) + table.b(term) {
            return false;
        }
    }
    let (a, b) = (table.len_a(), table.len_b());
    0 < a && 0 < b && a < top && b < top
}

/// The gain of a document of a half, as far as the table has one.
fn gain_of(ground: &Ground<'_>, table: &Degrees, doc: u32, from: Side) -> Option<i128> {
    if table.terms() != ground.forward.terms() || ground.forward.docs() <= doc {
        return None;
    }
    if !is_counted(table, ground.forward.terms_of(doc), from) {
        return None;
    }
    if !is_ready(table, ground.logs.top()) {
        return None;
    }
    Some(gain(ground, table, doc, from))
}

/// Puts the gains of a half's documents behind a text.
fn put_gains(
    alloc: Global,
    ground: &Ground<'_>,
    table: &Degrees,
    half: &[u32],
    from: Side,
    text: &mut String,
) -> Result<(), Fail> {
    for doc in half {
        if let Some(gain) = gain_of(ground, table, *doc, from) {
            text.push_str(&format!(in alloc; "{gain} ")?)?;
        }
    }
    Ok(())
}

/// The gains of all documents, those of the first half first, as a text.
fn told(alloc: Global, forward: &Forward, docs: &[u32]) -> Result<String, Fail>
    requires numbers { AreNumbers (length forward.now.rows) docs.now }
{
    let logs = LogTable::new(alloc, 16)?;
    let table = table_of(alloc, forward, docs)?;
    let ground = Ground {
        forward,
        logs: &logs,
        workers: 1,
    };
    let (a, b) = docs.split_at(docs.len() - docs.len() / 2);
    let mut text = String::new(alloc);
    put_gains(alloc, &ground, &table, a, Side::A, &mut text)?;
    put_gains(alloc, &ground, &table, b, Side::B, &mut text)?;
    Ok(text)
}

/// Whether the gains of all documents are these.
fn are<R: Threads + Sync>(
    rt: &R,
    alloc: Global,
    lists: &str,
    names: &str,
    halves: &str,
    gains: &str,
) -> Result<bool, Fail> {
    let forward = forward_of(rt, alloc, lists, names)?;
    let docs = numbers_of(alloc, halves)?;
    if !is_order(alloc, &docs)? || docs.len() != forward.docs() as usize {
        return Ok(false);
    }
    Ok(told(alloc, &forward, &docs)?.as_str() == gains)
}

const SIX: &str = "a b c d e f";

#[test]
fn gains_of_two_lists(rt: HostRuntime) -> Result<(), Fail> {
    assert!(rt;
        are(
            &rt,
            rt.alloc(),
            "013 245",
            SIX,
            "012345",
            "0 0 119936 119936 0 0 "
        )?
    );
    Ok(())
}

#[test]
fn gains_after_the_exchange(rt: HostRuntime) -> Result<(), Fail> {
    let gains = "-119936 -119936 -119936 -119936 -119936 -119936 ";
    assert!(rt; are(&rt, rt.alloc(), "013 245", SIX, "013245", gains)?);
    Ok(())
}

#[test]
fn gains_of_halves_of_three_and_two(rt: HostRuntime) -> Result<(), Fail> {
    let gains = "38336 38336 115008 81600 38336 ";
    assert!(rt; are(&rt, rt.alloc(), "013 24", "a b c d e", "01234", gains)?);
    Ok(())
}

#[test]
fn gains_of_four_terms(rt: HostRuntime) -> Result<(), Fail> {
    let gains = "76672 196608 196608 76672 ";
    assert!(rt; are(&rt, rt.alloc(), "02 13 012 123", "a b c d", "0123", gains)?);
    Ok(())
}
