//! A hundred publishings beside four readers.
ghost use Rattle.std.specs.Prelude.{◌≡◌, ◌<◌, ◌≤◌, ◌^◌, length, IfOk};
ghost use Rattle.live_index.specs.History.{IsOfSame};
ghost use Rattle.live_index.specs.Listed.{BeginsWithIdentityOf};

use crate::asking::{DOCUMENTS, Found, ask_on, index};
use live_index::laws::listed_is_plan;
use live_index::{Listed, LiveReader, Publisher, open};
use rgb_base::{Index, OutOfMemory, Permutation};
use std::alloc::Global;
use std::sync::Wait;
use std::sync::atomic::{AtomicU64, Ordering};
use std::test::Fail;
use std::thread;
use std::thread::Threads;

type ListedPublisher<'a> = Publisher<'a, Listed<'a>>;

type ListedReader<'a> = LiveReader<'a, Listed<'a>>;

// A number after this one, which looks like chance (a linear congruence of Knuth's).
fn next_draw(draw: u64) -> u64 {
    draw.wrapping_mul(6_364_136_223_846_793_005)
        .wrapping_add(1_442_695_040_888_963_407)
}

// The documents in an order of chance: each place is exchanged with one before it, or itself.
fn order_of(alloc: Global, seed: u64) -> Result<Permutation, Fail> {
    let mut order = Vec::new(alloc);
    for doc in 0..DOCUMENTS {
        order.push(doc)?;
    }
    let mut draw = seed;
    for place in 1..order.len() {
        draw = next_draw(draw);
        let other = (draw >> 33) as usize % (place + 1);
        order.swap(place, other);
    }
    if 1000 < order.len() {
        Err(OutOfMemory)?;
    }
    Ok(Permutation::from_order(alloc, order)?)
}

// The identity over so many documents, and then a hundred orders of chance.
fn numberings_of(alloc: Global, documents: u32) -> Result<Vec<Permutation>, Fail>
    requires { documents < 2 ^ 31 }
    ensures { IfOk result (λ all. BeginsWithIdentityOf documents all.items) }
{
    let mut numberings = Vec::new(alloc);
    numberings.push(Permutation::identity(alloc, documents)?)?;
    for seed in 0..100u64 {
        numberings.push(order_of(alloc, seed)?)?;
    }
    Ok(numberings)
}

// Publishes the next numbering of the list.
fn publish_next<'a, R: Threads + Wait + Sync>(
    rt: &R,
    alloc: Global,
    base: &Index,
    numberings: &[Permutation],
    publisher: &mut ListedPublisher<'a>,
) -> Result<(), OutOfMemory>
    requires base { publisher.old.base ≡ base.now }
    requires plan { publisher.old.plan.numberings.now ≡ numberings.now }
    ensures same { IsOfSame publisher.old publisher.new }
{
    let version = publisher.version() as usize + 1;
    if numberings.len() <= version || 1000 < version {
        return Err(OutOfMemory);
    }
    let by = numberings[version].copy(alloc)?;
    if by.len() != base.documents() {
        return Err(OutOfMemory);
    }
    let _note = publisher.publish(rt, alloc, by)?;
    Ok(())
}

// Publishes all numberings that are left.
fn publish_all<'a, R: Threads + Wait + Sync>(
    rt: &R,
    alloc: Global,
    base: &Index,
    numberings: &[Permutation],
    publisher: &mut ListedPublisher<'a>,
) -> Result<(), OutOfMemory>
    requires base { publisher.old.base ≡ base.now }
    requires plan { publisher.old.plan.numberings.now ≡ numberings.now }
{
    for _ in 1..numberings.len() {
        publish_next(rt, alloc, base, numberings, publisher)?;
    }
    Ok(())
}

// Publishes all numberings while each reader asks in a thread of its own.
fn publish_beside<'a, R: Threads + Wait + Sync>(
    rt: &R,
    alloc: Global,
    base: &Index,
    numberings: &[Permutation],
    publisher: &mut ListedPublisher<'a>,
    readers: Vec<ListedReader<'a>>,
    found: &Found,
) -> Result<(), OutOfMemory>
    requires base { publisher.old.base ≡ base.now }
    requires plan { publisher.old.plan.numberings.now ≡ numberings.now }
{
    thread::scope(
        thread::scope_env(),
        rt,
        |scope| -> Result<(), OutOfMemory>
            requires base { publisher.now.base ≡ base.now }
            requires plan { publisher.now.plan.numberings.now ≡ numberings.now }
        {
            for reader in readers {
                let work = move || ask_on(alloc, reader, numberings, found);
                if let Err(refused) = scope.spawn(work) {
                    (refused.value)();
                }
            }
            publish_all(rt, alloc, base, numberings, publisher)
        },
    )
}

fn open_listed<'a, R: Threads + Wait + Sync>(
    rt: &R,
    alloc: Global,
    base: &'a Index,
    numberings: &'a [Permutation],
) -> Result<(ListedPublisher<'a>, Vec<ListedReader<'a>>), OutOfMemory>
    requires begins { BeginsWithIdentityOf (length base.now.documents) numberings.now }
    ensures base { IfOk result (λ made. made.0.base ≡ base.now) }
    ensures plan { IfOk result (λ made. made.0.plan.numberings.now ≡ numberings.now) }
{
    listed_is_plan();
    open(rt, alloc, base, Listed { numberings }, 4, 2)
}

#[test]
fn answers_beside_publishings(rt: HostRuntime) -> Result<(), Fail> {
    let alloc = rt.alloc();
    let base = index(alloc)?;
    let numberings = numberings_of(alloc, base.documents())?;
    let found = Found {
        answers: AtomicU64::new(0),
        wrong: AtomicU64::new(0),
        last: AtomicU64::new(0),
    };
    let (mut publisher, readers) = open_listed(&rt, alloc, &base, &numberings)?;
    let published = publish_beside(
        &rt,
        alloc,
        &base,
        &numberings,
        &mut publisher,
        readers,
        &found,
    );
    assert_eq!(rt; publisher.finish(&rt), 100);
    published?;
    assert_eq!(rt; found.wrong.load(Ordering::SeqCst), 0);
    assert!(rt; 32 <= found.answers.load(Ordering::SeqCst));
    assert_eq!(rt; found.last.load(Ordering::SeqCst), 4);
    Ok(())
}
