//! How a view comes to be the one that readers enter.
ghost use Rattle.std.specs.Prelude.{◌≡◌, [], drop, OnOk, OnErr, None, Some, true, false};
ghost use Rattle.std.specs.Arc.{arc_value};
ghost use Rattle.left_right.specs.Sides.{view as party_of};
ghost use Rattle.live_index.specs.Rule.{IsPublishing, IsViewOf, IsAppended, state_of, state_after, seen_in};

use crate::plan::Plan;
use crate::rule::{LiveWriter, Open, Opening, Publish};
use crate::view::{Shown, View};
use core::mem::replace_with;
use rgb_base::{Index, OutOfMemory};
use std::alloc::AllocError;
use std::marker::Brand;
use std::sync::{Arc, Wait};

/// Publishes the view of the next version. Where that is refused, readers see what they saw.
pub(crate) fn put_out<K: Plan, R: Wait>(
    rt: &R,
    base: &Index,
    plan: K,
    writer: &mut LiveWriter<K>,
    view: &Arc<View>,
) -> Result<(), OutOfMemory>
    requires publishing { IsPublishing K.versions K.planned base.now plan
        writer.old.desk.shown.value (party_of writer.old.desk.place)
        (drop writer.old.behind writer.old.log.items) }
    requires view { IsViewOf K.versions K.planned base.now plan (arc_value view.now) }
    requires next { (arc_value view.now).version
        ≡ (seen_in base.now plan (arc_value writer.old.desk.shown.value.view)).length }
    ensures publishing { IsPublishing K.versions K.planned base.now plan
        writer.new.desk.shown.value (party_of writer.new.desk.place)
        (drop writer.new.behind writer.new.log.items) }
    ensures ok { OnOk result
        (arc_value writer.new.desk.shown.value.view ≡ arc_value view.now) }
    ensures memory { OnErr result
        (arc_value writer.new.desk.shown.value.view ≡ arc_value writer.old.desk.shown.value.view) }
{
    append_view(writer, view)?;
    replace_with(
        writer,
        rt,
        |writer: LiveWriter<K>, rt: &R| -> (LiveWriter<K>, Result<(), AllocError>)
            requires publishing { IsPublishing K.versions K.planned base.now plan
                writer.desk.shown.value (party_of writer.desk.place)
                (drop writer.behind writer.log.items) }
            requires view { IsViewOf K.versions K.planned base.now plan (arc_value view.now) }
            requires next { (arc_value view.now).version
                ≡ (seen_in base.now plan (arc_value writer.desk.shown.value.view)).length }
            requires last { state_after (state_of writer.desk.shown.value)
                (drop writer.behind writer.log.items) ≡ (arc_value view.now, true) }
        { publish_last(rt, base, plan, writer, view) },
    )?;
    Ok(())
}

/// Puts a view behind the entries that wait to be published.
fn append_view<K: Plan>(writer: &mut LiveWriter<K>, view: &Arc<View>) -> Result<(), OutOfMemory>
    ensures shown { writer.new.desk.shown.value ≡ writer.old.desk.shown.value }
    ensures party { party_of writer.new.desk.place ≡ party_of writer.old.desk.place }
    ensures ok { OnOk result (IsAppended (arc_value view.now)
        (drop writer.old.behind writer.old.log.items)
        (drop writer.new.behind writer.new.log.items)) }
    ensures memory { OnErr result
        (drop writer.new.behind writer.new.log.items
        ≡ drop writer.old.behind writer.old.log.items) }
{
    let entry = Shown {
        view: Arc::try_clone(view)?,
        is_open: true,
    };
    match writer.append(entry) {
        Ok(()) => Ok(()),
        Err(_) => Err(OutOfMemory),
    }
}

/// Publishes what is pending, whose last entry is this view.
fn publish_last<K: Plan, R: Wait>(
    rt: &R,
    base: &Index,
    plan: K,
    writer: LiveWriter<K>,
    view: &Arc<View>,
) -> (LiveWriter<K>, Result<(), AllocError>)
    requires publishing { IsPublishing K.versions K.planned base.now plan
        writer.desk.shown.value (party_of writer.desk.place)
        (drop writer.behind writer.log.items) }
    requires view { IsViewOf K.versions K.planned base.now plan (arc_value view.now) }
    requires next { (arc_value view.now).version
        ≡ (seen_in base.now plan (arc_value writer.desk.shown.value.view)).length }
    requires last { state_after (state_of writer.desk.shown.value)
        (drop writer.behind writer.log.items) ≡ (arc_value view.now, true) }
    ensures publishing { IsPublishing K.versions K.planned base.now plan
        result.0.desk.shown.value (party_of result.0.desk.place)
        (drop result.0.behind result.0.log.items) }
    ensures ok { OnOk result.1
        (arc_value result.0.desk.shown.value.view ≡ arc_value view.now) }
    ensures memory { OnErr result.1
        (arc_value result.0.desk.shown.value.view ≡ arc_value writer.desk.shown.value.view) }
{
    writer.publish_as::<Publish, R>(rt)
}

/// Opens the copies by publishing their view, of version 0.
pub(crate) fn put_first<K: Plan, R: Wait>(
    rt: &R,
    base: &Index,
    plan: K,
    writer: LiveWriter<K>,
    view: &Arc<View>,
) -> (LiveWriter<K>, Result<(), OutOfMemory>)
    requires closed { writer.desk.shown.value.is_open ≡ false }
    requires unknown { party_of writer.desk.place ≡ None }
    requires pending { drop writer.behind writer.log.items ≡ [] }
    requires view { IsViewOf K.versions K.planned base.now plan (arc_value view.now) }
    requires same { arc_value writer.desk.shown.value.view ≡ arc_value view.now }
    ensures publishing { OnOk result.1 (IsPublishing K.versions K.planned base.now plan
        result.0.desk.shown.value (party_of result.0.desk.place)
        (drop result.0.behind result.0.log.items)) }
    ensures shows { OnOk result.1
        (arc_value result.0.desk.shown.value.view ≡ arc_value view.now) }
{
    let mut writer = writer;
    if let Err(error) = append_view(&mut writer, view) {
        return (writer, Err(error));
    }
    match publish_first::<K, Brand, R>(rt, base, plan, writer, view) {
        (writer, Ok(())) => (writer, Ok(())),
        (writer, Err(_)) => (writer, Err(OutOfMemory)),
    }
}

/// Publishes the only entry that is pending, to a party that knows nothing yet. It knows the history
/// that was picked from then on.
fn publish_first<K: Plan, B: Opening<K>, R: Wait>(
    rt: &R,
    base: &Index,
    plan: K,
    writer: LiveWriter<K>,
    view: &Arc<View>,
) -> (LiveWriter<K>, Result<(), AllocError>)
    requires picked { B.opens ≡ Some (seen_in base.now plan (arc_value view.now)) }
    requires closed { writer.desk.shown.value.is_open ≡ false }
    requires unknown { party_of writer.desk.place ≡ None }
    requires view { IsViewOf K.versions K.planned base.now plan (arc_value view.now) }
    requires last { state_after (state_of writer.desk.shown.value)
        (drop writer.behind writer.log.items) ≡ (arc_value view.now, true) }
    ensures publishing { OnOk result.1 (IsPublishing K.versions K.planned base.now plan
        result.0.desk.shown.value (party_of result.0.desk.place)
        (drop result.0.behind result.0.log.items)) }
    ensures shows { OnOk result.1
        (arc_value result.0.desk.shown.value.view ≡ arc_value view.now) }
{
    writer.publish_as::<Open<B>, R>(rt)
}
