//! What the publisher does: it publishes the numbering after each slab of the recursion.
ghost use Rattle.std.specs.Prelude.{◌≡◌, ◌+◌, ◌-◌, ◌^◌, ◌<◌, ◌≤◌, length, IsTrue, IfOk, OnOk};
ghost use Rattle.live_index.specs.History.{IsPlanned, IsOfSame, with_next};
ghost use Rattle.bisection.specs.Progress.{AreOptions, slabs_of};
ghost use Rattle.rgb_app.specs.Live.{last_of};
ghost use Rattle.rgb_app.specs.Planned.{planned_versions, is_planned, IsAbreast};
ghost use Rattle.rgb_app.specs.Reordering.{options_of, IsForwardBy, IsNumberingBy};

use crate::plan::SlabPlan;
use crate::reordering::options_of;
use bisection::laws::each_document_once;
use bisection::{Bisector, KeptRound, TraceList};
use command_words::Reordering;
use forward_index::Forward;
use live_index::Publisher;
use rgb_base::{OutOfMemory, Pace, Permutation};
use std::alloc::{AllocError, Global};
use std::sync::Wait;
use std::thread::Threads;

/// Publishes a numbering as the next version.
fn publish_next<'a, R: Threads + Wait + Sync, P: Pace>(
    rt: &R,
    alloc: Global,
    publisher: &mut Publisher<'a, SlabPlan>,
    numbering: &Permutation,
    pace: &P,
) -> Result<(), OutOfMemory>
    requires len { length numbering.now ≡ length publisher.old.base.documents }
    requires planned { IsPlanned planned_versions is_planned
        publisher.old.base publisher.old.plan publisher.old.length numbering.now }
    requires room { publisher.old.length < 2 ^ 32 - 1 }
    ensures ok { OnOk result (publisher.new ≡ with_next publisher.old) }
    ensures same { IsOfSame publisher.old publisher.new }
{
    let by = numbering.copy(alloc)?;
    pace.at_publish(publisher.version() + 1);
    publisher.publish(rt, alloc, by)?;
    Ok(())
}

/// The kept rounds of a slice.
fn rounds_of(alloc: Global, rounds: &[KeptRound]) -> Result<TraceList, AllocError>
    ensures same { IfOk result (λ all. all ≡ rounds.now) }
{
    let mut all = Vec::with_capacity(alloc, rounds.len())?;
    for round in rounds {
        all.push(*round)?;
    }
    Ok(TraceList::of(all))
}

/// Publishes the order in which the documents start, where that is by their names.
fn publish_start<'a, R: Threads + Wait + Sync, P: Pace>(
    rt: &R,
    alloc: Global,
    publisher: &mut Publisher<'a, SlabPlan>,
    bisector: &Bisector<'_>,
    options: Reordering,
    pace: &P,
) -> Result<(), OutOfMemory>
    requires options { AreOptions (options_of options) }
    requires plan { publisher.old.plan.options ≡ options }
    requires forward { IsForwardBy options publisher.old.base bisector.now.forward }
    requires recursion { bisector.now.options ≡ options_of options }
    requires none { bisector.now.done ≡ 0 }
    requires opened { publisher.old.length ≡ 1 }
    ensures ok { OnOk result (IsAbreast options publisher.new bisector.now) }
    ensures same { IsOfSame publisher.old publisher.new }
{
    each_document_once();
    bisector.is_sound();
    if options.by_name {
        return publish_next(rt, alloc, publisher, bisector.numbering(), pace);
    }
    Ok(())
}

/// Makes a slab more and publishes its numbering, and says whether there was one left.
fn publish_slab<'a, R: Threads + Wait + Sync, P: Pace>(
    rt: &R,
    alloc: Global,
    publisher: &mut Publisher<'a, SlabPlan>,
    bisector: &mut Bisector<'_>,
    options: Reordering,
    pace: &P,
) -> Result<bool, OutOfMemory>
    requires options { AreOptions (options_of options) }
    requires abreast { IsAbreast options publisher.old bisector.old }
    ensures ok { OnOk result (IsAbreast options publisher.new bisector.new) }
    ensures more { IfOk result (λ more. IsTrue more → bisector.new.done ≡ bisector.old.done + 1) }
    ensures none { IfOk result (λ more. ¬ IsTrue more
        → bisector.new.done ≡ slabs_of (options_of options)) }
    ensures most { OnOk result (bisector.new.done ≤ slabs_of (options_of options)) }
    ensures same { IsOfSame publisher.old publisher.new }
{
    each_document_once();
    match bisector.advance(rt, alloc, pace)? {
        None => Ok(false),
        Some(_) => {
            publish_next(rt, alloc, publisher, bisector.numbering(), pace)?;
            Ok(true)
        }
    }
}

/// The numbering and the kept rounds of a recursion.
fn whole(alloc: Global, bisector: &Bisector<'_>) -> Result<(Permutation, TraceList), OutOfMemory>
    ensures numbering { IfOk result (λ work. work.0 ≡ bisector.now.numbering) }
    ensures trace { IfOk result (λ work. work.1 ≡ bisector.now.trace) }
{
    let numbering = bisector.numbering().copy(alloc)?;
    let rounds = rounds_of(alloc, bisector.trace())?;
    Ok((numbering, rounds))
}

/// Publishes the numbering after each slab, and gives the last one with the kept rounds. Where the
/// documents start in the order of their names, that order is published first.
pub(crate) fn publish_slabs<'a, R: Threads + Wait + Sync, P: Pace>(
    rt: &R,
    alloc: Global,
    publisher: &mut Publisher<'a, SlabPlan>,
    forward: &Forward,
    options: Reordering,
    pace: &P,
) -> Result<(Permutation, TraceList), OutOfMemory>
    requires options { AreOptions (options_of options) }
    requires plan { publisher.old.plan.options ≡ options }
    requires forward { IsForwardBy options publisher.old.base forward.now }
    requires opened { publisher.old.length ≡ 1 }
    ensures same { IsOfSame publisher.old publisher.new }
    ensures numbering { IfOk result (λ work.
        IsNumberingBy options publisher.old.base work.0 work.1) }
    ensures len { IfOk result (λ work. length work.0 ≡ length publisher.old.base.documents) }
    ensures published { OnOk result (publisher.new.length ≡ last_of options + 1) }
{
    each_document_once();
    let mut bisector = Bisector::prepare(alloc, forward, options_of(options))?;
    publish_start(rt, alloc, publisher, &bisector, options, pace)?;
    'slabs: while publish_slab(rt, alloc, publisher, &mut bisector, options, pace)? {}
    whole(alloc, &bisector)
}
