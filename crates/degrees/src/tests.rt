//! Degrees and costs worked out by hand, with `lg(2) = 65536`, `lg(3) = 103872`, `lg(4) = 131072`.
ghost use Rattle.std.specs.Prelude.{◌≡◌, ◌<◌, ◌≤◌, ◌^◌, length, slice_index, IsTrue};
ghost use Rattle.degrees.specs.Counts.{IsCountedIn, AreBelow, cleared, counts_in};

use super::Degrees;
use fixed_log::LogTable;
use forward_index::Forward;
use rgb_base::{DocRecord, Header, Index, Permutation, Posting, Postings, Side, TermList, Text};
use std::alloc::{AllocError, Global};
use std::test::Fail;
use std::thread::Threads;

fn list_of(alloc: Global, term: &str, documents: &[u32]) -> Result<TermList, AllocError> {
    let mut postings = Vec::with_capacity(alloc, documents.len())?;
    for doc in documents {
        postings.push(Posting { doc: *doc, tf: 1 })?;
    }
    Ok(TermList {
        term: Text::of(String::from_str(alloc, term)?),
        df: 1,
        cf: 1,
        postings: Postings::of(postings),
    })
}

fn records(alloc: Global, documents: u32) -> Result<Vec<DocRecord>, AllocError> {
    let mut records = Vec::new(alloc);
    for _ in 0..documents {
        let name = Text::of(String::new(alloc));
        records.push(DocRecord { name, length: 1 })?;
    }
    Ok(records)
}

/// The forward index of so many documents with these lists.
fn forward_of<R: Threads + Sync>(
    rt: &R,
    alloc: Global,
    documents: u32,
    lists: Vec<TermList>,
) -> Result<Forward, Fail> {
    let header = Header {
        version: 1,
        total_lists: 4,
        total_docs: 6,
        total_terms: 10,
        average_bits: 0,
        description: Text::of(String::new(alloc)),
    };
    let index = Index::from_parts(alloc, header, lists, records(alloc, documents)?)?;
    Ok(Forward::build(rt, alloc, &index, 0, 2)?)
}

/// Loads a clear table with the first places of an order and with the others.
fn load(
    table: &mut Degrees,
    alloc: Global,
    forward: &Forward,
    order: &[u32],
    cut: usize,
) -> Result<bool, Fail>
    requires clear { table.old ≡ cleared forward.now.terms table.old.loads }
    requires cut { cut ≤ length order.now }
    requires few { length order.now < 2 ^ 31 }
{
    let numbers = Permutation::from_order(alloc, order.to_vec(alloc)?)?;
    numbers.is_sound();
    if numbers.len() != forward.docs() {
        return Ok(false);
    }
    table.load(forward, &order[..cut], &order[cut..]);
    Ok(true)
}

fn count_in(table: &Degrees, term: u32, side: Side) -> u32
    requires { term < length table.now.a }
    ensures { result ≡ slice_index (counts_in side table.now) term }
{
    match side {
        Side::A => table.a(term),
        Side::B => table.b(term),
    }
}

/// Whether each term of a row has a count in the half.
fn is_counted(table: &Degrees, row: &[u32], side: Side) -> bool
    ensures { IsTrue result → IsCountedIn side row.now table.now }
{
    for term in row {
        if table.terms() <= *term || count_in(table, *term, side) == 0 {
            return false;
        }
    }
    true
}

/// Moves a document across, where it can be moved.
fn moved(table: &mut Degrees, forward: &Forward, doc: u32, from: Side) -> bool {
    if table.terms() != forward.terms() || forward.docs() <= doc {
        return false;
    }
    if !is_counted(table, forward.terms_of(doc), from) {
        return false;
    }
    table.move_across(forward, doc, from);
    true
}

/// Whether all counts and both sizes are below the number.
fn are_below(table: &Degrees, top: u32) -> bool
    ensures { IsTrue result → AreBelow top table.now }
{
    table.is_sound();
    for term in 0..table.terms() {
        if top <= table.a(term) || top <= table.b(term) {
            return false;
        }
    }
    table.len_a() < top && table.len_b() < top
}

/// What the table costs, where it costs something.
fn cost(table: &Degrees, logs: &LogTable) -> Option<i128> {
    if table.len_a() == 0 || table.len_b() == 0 || !are_below(table, logs.top()) {
        return None;
    }
    Some(table.cost(logs))
}

/// Whether a term has these counts in the halves.
fn has(table: &Degrees, term: u32, a: u32, b: u32) -> bool {
    term < table.terms() && table.a(term) == a && table.b(term) == b
}

/// The forward index of six documents, of which 0, 1 and 3 have one term and the others another.
fn six<R: Threads + Sync>(rt: &R, alloc: Global) -> Result<Forward, Fail> {
    let mut lists = Vec::new(alloc);
    lists.push(list_of(alloc, "a", &[0, 1, 3])?)?;
    lists.push(list_of(alloc, "b", &[2, 4, 5])?)?;
    forward_of(rt, alloc, 6, lists)
}

#[test]
fn two_documents_go_across_and_back(rt: HostRuntime) -> Result<(), Fail> {
    let forward = six(&rt, rt.alloc())?;
    forward.is_sound();
    let logs = LogTable::new(rt.alloc(), 7)?;
    let mut table = Degrees::new(rt.alloc(), forward.terms())?;
    assert!(rt; load(&mut table, rt.alloc(), &forward, &[0, 1, 2, 3, 4, 5], 3)?);
    assert!(rt; has(&table, 0, 2, 1) && has(&table, 1, 1, 2));
    assert_eq!(rt; cost(&table, &logs), Some(76672));
    assert!(rt; moved(&mut table, &forward, 2, Side::A) && moved(&mut table, &forward, 3, Side::B));
    assert!(rt; has(&table, 0, 3, 0) && has(&table, 1, 0, 3));
    assert_eq!(rt; cost(&table, &logs), Some(-163200));
    assert!(rt; moved(&mut table, &forward, 2, Side::B) && moved(&mut table, &forward, 3, Side::A));
    assert_eq!(rt; cost(&table, &logs), Some(76672));
    assert!(rt; table.len_a() == 3 && table.len_b() == 3 && table.loads() == 1);
    Ok(())
}

#[test]
fn a_table_is_cleared_and_loaded_again(rt: HostRuntime) -> Result<(), Fail> {
    let forward = six(&rt, rt.alloc())?;
    forward.is_sound();
    let logs = LogTable::new(rt.alloc(), 7)?;
    let mut table = Degrees::new(rt.alloc(), forward.terms())?;
    assert_eq!(rt; table.loads(), 0);
    assert!(rt; load(&mut table, rt.alloc(), &forward, &[0, 1, 2, 3, 4, 5], 3)?);
    table.clear();
    assert!(rt; has(&table, 0, 0, 0) && has(&table, 1, 0, 0));
    assert!(rt; table.len_a() == 0 && table.len_b() == 0 && table.loads() == 1);
    assert!(rt; table.terms() == forward.terms());
    assert!(rt; load(&mut table, rt.alloc(), &forward, &[0, 1, 3, 2, 4, 5], 3)?);
    assert_eq!(rt; cost(&table, &logs), Some(-163200));
    assert_eq!(rt; table.loads(), 2);
    Ok(())
}

/// What the table of two halves costs.
fn cost_of<R: Threads + Sync>(
    rt: &R,
    alloc: Global,
    order: &[u32],
    cut: usize,
    lists: Vec<TermList>,
) -> Result<Option<i128>, Fail>
    requires cut { cut ≤ length order.now }
    requires few { length order.now < 2 ^ 31 }
{
    let forward = forward_of(rt, alloc, order.len() as u32, lists)?;
    forward.is_sound();
    let logs = LogTable::new(alloc, 7)?;
    let mut table = Degrees::new(alloc, forward.terms())?;
    if !load(&mut table, alloc, &forward, order, cut)? {
        return Ok(None);
    }
    Ok(cost(&table, &logs))
}

#[test]
fn halves_of_equal_degrees_cost_nothing(rt: HostRuntime) -> Result<(), Fail> {
    let alloc = rt.alloc();
    let mut lists = Vec::new(alloc);
    lists.push(list_of(alloc, "a", &[0, 2])?)?;
    lists.push(list_of(alloc, "b", &[1, 3])?)?;
    assert_eq!(rt; cost_of(&rt, alloc, &[0, 1, 2, 3], 2, lists)?, Some(0));
    Ok(())
}

#[test]
fn halves_of_three_and_two(rt: HostRuntime) -> Result<(), Fail> {
    let alloc = rt.alloc();
    let mut lists = Vec::new(alloc);
    lists.push(list_of(alloc, "a", &[0, 1, 3])?)?;
    lists.push(list_of(alloc, "b", &[2, 4])?)?;
    assert_eq!(rt;
        cost_of(&rt, alloc, &[0, 1, 2, 3, 4], 3, lists)?,
        Some(38336)
    );
    Ok(())
}

#[test]
fn halves_of_four_terms(rt: HostRuntime) -> Result<(), Fail> {
    let alloc = rt.alloc();
    let mut lists = Vec::new(alloc);
    lists.push(list_of(alloc, "a", &[0, 2])?)?;
    lists.push(list_of(alloc, "b", &[1, 3])?)?;
    lists.push(list_of(alloc, "x", &[0, 1, 2])?)?;
    lists.push(list_of(alloc, "y", &[1, 2, 3])?)?;
    assert_eq!(rt;
        cost_of(&rt, alloc, &[0, 1, 2, 3], 2, lists)?,
        Some(-153344)
    );
    Ok(())
}
