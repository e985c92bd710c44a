//! Which versions readers answer at, told and untold.
ghost use Rattle.std.specs.Prelude.{◌≡◌, ◌<◌, ◌≤◌, ◌^◌, length, All, IfOk};
ghost use Rattle.live_index.specs.History.{IsOfSame, opened};
ghost use Rattle.live_index.specs.Listed.{BeginsWithIdentityOf};

use crate::answer::Answer;
use crate::laws::listed_is_plan;
use crate::note::Note;
use crate::opening::open;
use crate::plan::Listed;
use crate::publisher::Publisher;
use crate::reader::LiveReader;
use bool_query::Query;
use rgb_base::{
    DocRecord, Header, Index, OutOfMemory, Permutation, Posting, Postings, TermList, Text,
};
use std::alloc::Global;
use std::sync::Wait;
use std::test::Fail;
use std::thread::Threads;

type ListedPublisher<'a> = Publisher<'a, Listed<'a>>;

type ListedReader<'a> = LiveReader<'a, Listed<'a>>;

type ListedNote<'a> = Note<'a, Listed<'a>>;

fn text(alloc: Global, value: &str) -> Result<Text, Fail> {
    Ok(Text::of(String::from_str(alloc, value)?))
}

fn list(alloc: Global, term: &str, documents: &[u32]) -> Result<TermList, Fail> {
    let mut postings = Vec::new(alloc);
    for doc in documents {
        postings.push(Posting { doc: *doc, tf: 1 })?;
    }
    Ok(TermList {
        term: text(alloc, term)?,
        df: 3,
        cf: 3,
        postings: Postings::of(postings),
    })
}

// Six documents: `a` stands in 0, 1 and 3, `b` in the others.
fn six(alloc: Global) -> Result<Index, Fail> {
    let header = Header {
        version: 1,
        total_lists: 0,
        total_docs: 0,
        total_terms: 0,
        average_bits: 0,
        description: text(alloc, "")?,
    };
    let mut lists = Vec::new(alloc);
    lists.push(list(alloc, "a", &[0, 1, 3])?)?;
    lists.push(list(alloc, "b", &[2, 4, 5])?)?;
    let mut documents = Vec::new(alloc);
    for name in ["d0", "d1", "d2", "d3", "d4", "d5"] {
        let name = text(alloc, name)?;
        documents.push(DocRecord { name, length: 1 })?;
    }
    Ok(Index::from_parts(alloc, header, lists, documents)?)
}

// The orders of version 1 and on.
const ORDERS: [[u32; 6]; 2] = [[0, 1, 3, 2, 4, 5], [5, 3, 1, 0, 2, 4]];

// The identity over so many documents, and then the orders.
fn numberings_of(alloc: Global, documents: u32) -> Result<Vec<Permutation>, Fail>
    requires { documents < 2 ^ 31 }
    ensures { IfOk result (λ all. BeginsWithIdentityOf documents all.items) }
{
    let mut numberings = Vec::new(alloc);
    numberings.push(Permutation::identity(alloc, documents)?)?;
    for order in ORDERS {
        let order = Vec::from_slice(alloc, &order)?;
        numberings.push(Permutation::from_order(alloc, order)?)?;
    }
    Ok(numberings)
}

fn open_listed<'a, R: Threads + Wait + Sync>(
    rt: &R,
    alloc: Global,
    base: &'a Index,
    numberings: &'a [Permutation],
    readers: u32,
) -> Result<(ListedPublisher<'a>, Vec<ListedReader<'a>>), OutOfMemory>
    requires begins { BeginsWithIdentityOf (length base.now.documents) numberings.now }
    requires some { 0 < readers }
    requires most { readers ≤ 16 }
    ensures base { IfOk result (λ made. made.0.base ≡ base.now) }
    ensures plan { IfOk result (λ made. made.0.plan.numberings.now ≡ numberings.now) }
    ensures readers { IfOk result (λ made. All (λ reader. IsOfSame made.0 reader) made.1.items) }
{
    listed_is_plan();
    open(rt, alloc, base, Listed { numberings }, readers, 2)
}

// Publishes the next numbering of the list.
fn publish_next<'a, R: Threads + Wait + Sync>(
    rt: &R,
    alloc: Global,
    base: &Index,
    numberings: &[Permutation],
    publisher: &mut ListedPublisher<'a>,
) -> Result<ListedNote<'a>, OutOfMemory>
    requires base { publisher.old.base ≡ base.now }
    requires plan { publisher.old.plan.numberings.now ≡ numberings.now }
    ensures same { IsOfSame publisher.old publisher.new }
    ensures note { IfOk result (λ note. IsOfSame publisher.old note) }
{
    let version = publisher.version() as usize + 1;
    if numberings.len() <= version || 1000 < version {
        return Err(OutOfMemory);
    }
    let by = numberings[version].copy(alloc)?;
    if by.len() != base.documents() {
        return Err(OutOfMemory);
    }
    publisher.publish(rt, alloc, by)
}

fn term(alloc: Global, value: &str) -> Result<Query, OutOfMemory> {
    Ok(Query::Term(Text::of(String::from_str(alloc, value)?)))
}

// An answer with its version, its documents and their numbers in the base, in a row.
fn shown(alloc: Global, answer: &Answer) -> Result<Vec<u32>, OutOfMemory> {
    let mut row = Vec::new(alloc);
    row.push(answer.version)?;
    row.extend_from_slice(answer.ids.as_slice())?;
    row.extend_from_slice(answer.originals.as_slice())?;
    Ok(row)
}

// What readers that are told answer, and one that is told nothing.
#[derive(Drop)]
struct Heard {
    // It learned the note of version 1, and asked when version 2 was published.
    early: u32,
    // It then learned the note of the last version.
    late: Vec<u32>,
}

fn told<'a, R: Threads + Wait + Sync>(
    rt: &R,
    alloc: Global,
    base: &Index,
    numberings: &[Permutation],
    publisher: &mut ListedPublisher<'a>,
    reader: &mut ListedReader<'a>,
) -> Result<Heard, OutOfMemory>
    requires base { publisher.old.base ≡ base.now }
    requires plan { publisher.old.plan.numberings.now ≡ numberings.now }
    requires reader { IsOfSame publisher.old reader.old }
{
    let query = term(alloc, "a")?;
    let note = publish_next(rt, alloc, base, numberings, publisher)?;
    reader.learn(note);
    let _note = publish_next(rt, alloc, base, numberings, publisher)?;
    let early = reader.ask(alloc, &query)?.version;
    reader.learn(publisher.note()?);
    let late = shown(alloc, &reader.ask(alloc, &query)?)?;
    Ok(Heard { early, late })
}

// The last version, and the versions at which a reader that is told nothing answers after each
// publishing.
fn untold<'a, R: Threads + Wait + Sync>(
    rt: &R,
    alloc: Global,
    base: &Index,
    numberings: &[Permutation],
    publisher: &mut ListedPublisher<'a>,
    reader: &mut ListedReader<'a>,
) -> Result<(u32, u32), OutOfMemory>
    requires base { publisher.old.base ≡ base.now }
    requires plan { publisher.old.plan.numberings.now ≡ numberings.now }
{
    let query = term(alloc, "a")?;
    let _note = publish_next(rt, alloc, base, numberings, publisher)?;
    let first = reader.ask(alloc, &query)?.version;
    let _note = publish_next(rt, alloc, base, numberings, publisher)?;
    let second = reader.ask(alloc, &query)?.version;
    Ok((first, second))
}

// How many of the readers, which are told nothing, answer at version 1 once it is published.
fn several<'a, R: Threads + Wait + Sync>(
    rt: &R,
    alloc: Global,
    base: &Index,
    numberings: &[Permutation],
    publisher: &mut ListedPublisher<'a>,
    readers: &mut [ListedReader<'a>],
) -> Result<usize, OutOfMemory>
    requires base { publisher.old.base ≡ base.now }
    requires plan { publisher.old.plan.numberings.now ≡ numberings.now }
{
    let query = term(alloc, "a")?;
    let _note = publish_next(rt, alloc, base, numberings, publisher)?;
    let mut later = 0usize;
    for reader in readers.iter_mut() {
        if reader.ask(alloc, &query)?.version == 1 {
            later = later.wrapping_add(1);
        }
    }
    Ok(later)
}

#[test]
fn a_told_reader_is_never_behind(rt: HostRuntime) -> Result<(), Fail> {
    let alloc = rt.alloc();
    let base = six(alloc)?;
    let numberings = numberings_of(alloc, base.documents())?;
    let (mut publisher, mut readers) = open_listed(&rt, alloc, &base, &numberings, 1)?;
    let told = match readers.pop() {
        Some(mut reader) => told(&rt, alloc, &base, &numberings, &mut publisher, &mut reader),
        None => Err(OutOfMemory),
    };
    assert_eq!(rt; publisher.finish(&rt), 2);
    let told = told?;
    assert!(rt; told.early == 1 || told.early == 2);
    assert_eq!(rt; told.late.as_slice(), [2, 1, 2, 3, 3, 1, 0].as_slice());
    Ok(())
}

#[test]
fn untold_reader(rt: HostRuntime) -> Result<(), Fail> {
    let alloc = rt.alloc();
    let base = six(alloc)?;
    let numberings = numberings_of(alloc, base.documents())?;
    let (mut publisher, mut readers) = open_listed(&rt, alloc, &base, &numberings, 1)?;
    let versions = match readers.pop() {
        Some(mut reader) => untold(&rt, alloc, &base, &numberings, &mut publisher, &mut reader),
        None => Err(OutOfMemory),
    };
    assert_eq!(rt; publisher.finish(&rt), 2);
    assert_eq!(rt; versions?, (1, 2));
    Ok(())
}

#[test]
fn several_readers(rt: HostRuntime) -> Result<(), Fail> {
    let alloc = rt.alloc();
    let base = six(alloc)?;
    let numberings = numberings_of(alloc, base.documents())?;
    let (mut publisher, mut readers) = open_listed(&rt, alloc, &base, &numberings, 4)?;
    let later = several(&rt, alloc, &base, &numberings, &mut publisher, &mut readers);
    assert_eq!(rt; publisher.finish(&rt), 1);
    assert!(rt; 2 <= later?);
    Ok(())
}
