//! A recursion slab by slab.
ghost use Rattle.bisection.specs.Progress.{AreOptions};

use crate::told::{options_of, told};
use bisection::{Bisector, Options};
use forward_index::Forward;
use rgb_base::NoPace;
use small_indexes::index_of;
use std::alloc::Global;
use std::test::Fail;
use std::thread::Threads;

/// How many slabs are done, and the numbering and the rounds then.
fn told_now(alloc: Global, bisector: &Bisector<'_>) -> Result<String, Fail> {
    let done = bisector.done();
    let state = told(alloc, bisector.numbering(), bisector.trace())?;
    Ok(format!(in alloc; "{done}: {state}\n")?)
}

/// Advances by a slab, and tells what stands then. There is nothing to tell where none is left.
fn told_next<R: Threads + Sync>(
    rt: &R,
    alloc: Global,
    bisector: &mut Bisector<'_>,
) -> Result<Option<String>, Fail> {
    let Some(done) = bisector.advance(rt, alloc, &NoPace)? else {
        return Ok(None);
    };
    let state = told_now(alloc, bisector)?;
    Ok(Some(format!(in alloc; "{done} {state}")?))
}

/// What stands after each slab, until there is none.
fn told_after<R: Threads + Sync>(
    rt: &R,
    alloc: Global,
    bisector: &mut Bisector<'_>,
    text: &mut String,
) -> Result<(), Fail> {
    for _ in 0..40 {
        let Some(next) = told_next(rt, alloc, bisector)? else {
            text.push_str("none")?;
            return Ok(());
        };
        text.push_str(&next)?;
    }
    Ok(())
}

/// What stands before the first slab and after each.
fn told_by<R: Threads + Sync>(
    rt: &R,
    alloc: Global,
    forward: &Forward,
    options: Options,
) -> Result<String, Fail>
    requires { AreOptions options }
{
    let mut bisector = Bisector::prepare(alloc, forward, options)?;
    let mut text = told_now(alloc, &bisector)?;
    told_after(rt, alloc, &mut bisector, &mut text)?;
    Ok(text)
}

/// The same of a small index.
fn told_all<R: Threads + Sync>(
    rt: &R,
    alloc: Global,
    lists: &str,
    names: &str,
    depth: u32,
    step: u32,
    workers: u32,
) -> Result<String, Fail> {
    let Some(options) = options_of(depth, 1, workers, step) else {
        return Ok(String::new(alloc));
    };
    let index = index_of(alloc, lists, names)?;
    let forward = Forward::build(rt, alloc, &index, 1, 1)?;
    told_by(rt, alloc, &forward, options)
}

const SIX: &str = "a b c d e f";

const TWELVE: &str = "a b c d e f g h i j k l";

const LISTS: &str = "013 245";

const BY_ONE: &str = "0: 0 1 2 3 4 5 6 7 8 9 10 11 \n\
    1 1: 0 1 2 3 4 5 6 7 8 9 10 11 \n\
    2 2: 0 1 3 2 4 5 6 7 8 9 10 11 / 1 0 6 1 76672 -163200 \n\
    none";

const BY_TWO: &str = "0: 0 1 2 3 4 5 \n\
    1 1: 0 1 3 2 4 5 / 0 0 6 1 76672 -163200 \n\
    2 2: 0 1 3 2 4 5 / 0 0 6 1 76672 -163200 \n\
    none";

#[test]
fn slabs_of_one_level(rt: HostRuntime) -> Result<(), Fail> {
    let text = told_all(&rt, rt.alloc(), LISTS, TWELVE, 2, 1, 1)?;
    assert!(rt; text.as_str() == BY_ONE);
    Ok(())
}

#[test]
fn slabs_by_three_threads(rt: HostRuntime) -> Result<(), Fail> {
    let text = told_all(&rt, rt.alloc(), LISTS, TWELVE, 2, 1, 3)?;
    assert!(rt; text.as_str() == BY_ONE);
    Ok(())
}

#[test]
fn the_last_slab_has_what_is_left(rt: HostRuntime) -> Result<(), Fail> {
    let text = told_all(&rt, rt.alloc(), LISTS, SIX, 3, 2, 2)?;
    assert!(rt; text.as_str() == BY_TWO);
    Ok(())
}

#[test]
fn no_level_is_no_slab(rt: HostRuntime) -> Result<(), Fail> {
    let text = told_all(&rt, rt.alloc(), LISTS, SIX, 0, 4, 1)?;
    assert!(rt; text.as_str() == "0: 0 1 2 3 4 5 \nnone");
    Ok(())
}
