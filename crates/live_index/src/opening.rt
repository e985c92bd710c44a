//! The opening of a live index.
ghost use Rattle.std.specs.Prelude.{◌≡◌, ◌<◌, ◌≤◌, [], drop, length, All, IfOk, IfSome, None, false};
ghost use Rattle.std.specs.Arc.{arc_value};
ghost use Rattle.left_right.specs.Sides.{view as party_of};
ghost use Rattle.rgb_base.specs.Parts.{terms_of};
ghost use Rattle.live_index.specs.History.{IsPlan, BeginsWithIdentity, opened};
ghost use Rattle.live_index.specs.Rule.{IsViewOf, KnowsOf, IsPublishing, state_of, seen_in};

use crate::plan::Plan;
use crate::publisher::Publisher;
use crate::reader::LiveReader;
use crate::rule::{LivePlace, LiveWriter, Tell};
use crate::view::{Shown, View};
use crate::writing::put_first;
use bool_query::Dictionary;
use left_right::writer::Writer;
use postings_rewrite::BlockStore;
use rgb_base::laws::new_numbers_tell_the_order;
use rgb_base::{Index, OutOfMemory, Permutation};
use std::alloc::Global;
use std::sync::{Arc, Wait};
use std::thread::Threads;

/// Opens a live index over a base: a publisher, which has published version 0 alone, and so many
/// readers, 1 to 16, which have seen it. Version 0 leaves each document where it is. As many threads as
/// there are workers, 1 to 64, renumber the base.
pub fn open<'a, K: Plan, R: Threads + Wait + Sync>(
    rt: &R,
    alloc: Global,
    base: &'a Index,
    plan: K,
    readers: u32,
    workers: u32,
) -> Result<(Publisher<'a, K>, Vec<LiveReader<'a, K>>), OutOfMemory>
    requires plan { IsPlan K.versions K.planned base.now plan }
    requires identity { BeginsWithIdentity K.versions K.planned base.now plan }
    requires some_readers { 0 < readers }
    requires most_readers { readers ≤ 16 }
    requires some_workers { 0 < workers }
    requires most_workers { workers ≤ 64 }
    ensures publisher { IfOk result (λ made. made.0 ≡ opened base.now plan) }
    ensures count { IfOk result (λ made. length made.1.items ≡ readers) }
    ensures readers { IfOk result
        (λ made. All (λ reader. reader ≡ opened base.now plan) made.1.items) }
{
    let view = first_view(rt, alloc, base, plan, workers)?;
    let dictionary = Arc::new(alloc, Dictionary::new(alloc, base)?)?;
    let writer = closed_writer::<K>(alloc, &view, readers)?;
    let (writer, told) = put_first(rt, base, plan, writer, &view);
    match told {
        Ok(()) => parties_of(
            rt, alloc, base, plan, readers, workers, writer, dictionary, view,
        ),
        Err(error) => {
            drop(writer.take(rt));
            Err(error)
        }
    }
}

/// The publisher of a writer, and so many readers that have seen its view.
fn parties_of<'a, K: Plan, R: Wait>(
    rt: &R,
    alloc: Global,
    base: &'a Index,
    plan: K,
    readers: u32,
    workers: u32,
    writer: LiveWriter<K>,
    dictionary: Arc<Dictionary>,
    view: Arc<View>,
) -> Result<(Publisher<'a, K>, Vec<LiveReader<'a, K>>), OutOfMemory>
    requires plan { IsPlan K.versions K.planned base.now plan }
    requires identity { BeginsWithIdentity K.versions K.planned base.now plan }
    requires some_workers { 0 < workers }
    requires most_workers { workers ≤ 64 }
    requires publishing { IsPublishing K.versions K.planned base.now plan
        writer.desk.shown.value (party_of writer.desk.place)
        (drop writer.behind writer.log.items) }
    requires shows { arc_value writer.desk.shown.value.view ≡ arc_value view }
    requires terms { arc_value dictionary ≡ terms_of base.now.lists }
    ensures publisher { IfOk result
        (λ made. made.0 ≡ seen_in base.now plan (arc_value view)) }
    ensures count { IfOk result (λ made. length made.1.items ≡ readers) }
    ensures readers { IfOk result
        (λ made. All (λ reader. reader ≡ seen_in base.now plan (arc_value view)) made.1.items) }
{
    let mut writer = writer;
    match readers_of(alloc, base, plan, &mut writer, &dictionary, &view, readers) {
        Ok(readers) => {
            let publisher = Publisher {
                base,
                plan,
                workers,
                writer,
                view,
            };
            Ok((publisher, readers))
        }
        Err(error) => {
            drop(writer.take(rt));
            Err(error)
        }
    }
}

/// The view of version 0.
fn first_view<K: Plan, R: Threads + Sync>(
    rt: &R,
    alloc: Global,
    base: &Index,
    plan: K,
    workers: u32,
) -> Result<Arc<View>, OutOfMemory>
    requires identity { BeginsWithIdentity K.versions K.planned base.now plan }
    requires some_workers { 0 < workers }
    requires most_workers { workers ≤ 64 }
    ensures first { IfOk result (λ view. (arc_value view).version ≡ 0) }
    ensures view { IfOk result
        (λ view. IsViewOf K.versions K.planned base.now plan (arc_value view)) }
{
    base.is_sound();
    new_numbers_tell_the_order();
    let numbering = Permutation::identity(alloc, base.documents())?;
    let store = BlockStore::renumbered(rt, alloc, base, &numbering, workers)?;
    let view = View {
        version: 0,
        numbering,
        store,
    };
    Ok(Arc::new(alloc, view)?)
}

/// The writer of two copies that aren't open, with room for so many readers.
fn closed_writer<K: Plan>(
    alloc: Global,
    view: &Arc<View>,
    readers: u32,
) -> Result<LiveWriter<K>, OutOfMemory>
    requires some_readers { 0 < readers }
    ensures closed { IfOk result
        (λ writer. state_of writer.desk.shown.value ≡ (arc_value view.now, false)) }
    ensures unknown { IfOk result (λ writer. party_of writer.desk.place ≡ None) }
    ensures pending { IfOk result (λ writer. drop writer.behind writer.log.items ≡ []) }
{
    let first = closed_copy(view)?;
    let second = closed_copy(view)?;
    Ok(Writer::new(alloc, first, second, readers as usize)?)
}

/// A copy that isn't open.
fn closed_copy(view: &Arc<View>) -> Result<Shown, OutOfMemory>
    ensures closed { IfOk result (λ shown. state_of shown ≡ (arc_value view.now, false)) }
{
    Ok(Shown {
        view: Arc::try_clone(view)?,
        is_open: false,
    })
}

/// So many readers that have seen the view of the writer.
fn readers_of<'a, K: Plan>(
    alloc: Global,
    base: &'a Index,
    plan: K,
    writer: &mut LiveWriter<K>,
    dictionary: &Arc<Dictionary>,
    view: &Arc<View>,
    readers: u32,
) -> Result<Vec<LiveReader<'a, K>>, OutOfMemory>
    requires plan { IsPlan K.versions K.planned base.now plan }
    requires identity { BeginsWithIdentity K.versions K.planned base.now plan }
    requires publishing { IsPublishing K.versions K.planned base.now plan
        writer.old.desk.shown.value (party_of writer.old.desk.place)
        (drop writer.old.behind writer.old.log.items) }
    requires shows { arc_value writer.old.desk.shown.value.view ≡ arc_value view.now }
    requires terms { arc_value dictionary.now ≡ terms_of base.now.lists }
    ensures publishing { IsPublishing K.versions K.planned base.now plan
        writer.new.desk.shown.value (party_of writer.new.desk.place)
        (drop writer.new.behind writer.new.log.items) }
    ensures shows { arc_value writer.new.desk.shown.value.view ≡ arc_value view.now }
    ensures count { IfOk result (λ made. length made.items ≡ readers) }
    ensures readers { IfOk result (λ made. All
        (λ reader. reader ≡ seen_in base.now plan (arc_value view.now)) made.items) }
{
    let mut made = Vec::with_capacity(alloc, readers as usize)?;
    for _ in 0..readers {
        let place = place_of(base, plan, writer);
        let reader = LiveReader {
            base,
            plan,
            dictionary: Arc::try_clone(dictionary)?,
            place,
            view: Arc::try_clone(view)?,
        };
        made.push(reader)?;
    }
    Ok(made)
}

/// A way into the copies that knows what the writer knows, where there is room for one.
fn place_of<K: Plan>(base: &Index, plan: K, writer: &mut LiveWriter<K>) -> Option<LivePlace<K>>
    requires publishing { IsPublishing K.versions K.planned base.now plan
        writer.old.desk.shown.value (party_of writer.old.desk.place)
        (drop writer.old.behind writer.old.log.items) }
    ensures publishing { IsPublishing K.versions K.planned base.now plan
        writer.new.desk.shown.value (party_of writer.new.desk.place)
        (drop writer.new.behind writer.new.log.items) }
    ensures shown { writer.new.desk.shown.value ≡ writer.old.desk.shown.value }
    ensures knows { IfSome result
        (λ place. KnowsOf base.now plan (party_of place.place)) }
{
    let Ok(mut place) = writer.factory().reader() else {
        return None;
    };
    place.learn::<Tell>(writer.tell::<Tell>());
    Some(place)
}
