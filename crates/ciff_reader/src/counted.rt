//! Reading the lists of a file one after another, each of which is counted and let go but for its
//! term, `df` and `cf`.
ghost use Rattle.std.specs.Prelude.{◌≡◌, ℕ, ◌+◌, ◌^◌, ◌<◌, List, [], length, IsTrue, IfOk, IfErr, OnOk};
ghost use Rattle.rgb_base.specs.Parts.{posting_count};
ghost use Rattle.rgb_base.specs.Building.{Building};
ghost use Rattle.ciff_format.specs.Refused.{IsListFault, Refused};
ghost use Rattle.ciff_reader.specs.declared.list.ListFields.{ListFields};
ghost use Rattle.ciff_reader.specs.Counting.{IsCounted, AtCounted, AddsCounted};
ghost use Rattle.ciff_reader.specs.Listing.{listing, IsRefusal, ReadsList};
ghost use Rattle.ciff_reader.specs.Steps.{AtGood, HasOneMoreList};
ghost use Rattle.ciff_reader.specs.Window.{ExplainsWhere};

use crate::error::{ReadError, Refusal};
use crate::gaps::Gaps;
use crate::list::read_fields;
use crate::lists::TOGETHER;
use crate::message::next_message;
use crate::open_list::OpenList;
use crate::window::Window;
use ciff_format::laws::messages_grow;
use gap_report::Tally;
use rgb_base::{IndexBuilder, Posting};
use rgb_host::Host;
use std::alloc::Global;

/// What the gaps of the open list say behind lists of so many postings: together with those they may
/// be too many.
fn fitting(gaps: Gaps, counted: u64, pending: &OpenList) -> Gaps
    requires room { counted < 2 ^ 32 }
    ensures few { IsTrue result.are_few → counted + length pending.now.postings < 2 ^ 32 }
    ensures read { (message : List ℕ) (kept : ListFields) (building : Building)
        → building.documents ≡ pending.now.documents → building.postings ≡ pending.now.postings
        → posting_count building.lists ≡ counted
        → ReadsList message kept gaps pending.now → ReadsList message kept result building }
{
    pending.is_sound();
    let total = counted + pending.postings().len() as u64;
    Gaps {
        are_few: gaps.are_few && total <= u64::from(u32::MAX),
        ..gaps
    }
}

/// Reads a list's message and closes the list that it says, without its postings. The sums are those
/// with its gaps.
fn count_list(
    message: &[u8],
    room: &mut [Posting],
    pending: &mut OpenList,
    builder: &mut IndexBuilder,
    tally: Tally,
) -> Result<Tally, Refusal>
    requires none_pending { pending.old.postings ≡ [] }
    requires documents { pending.old.documents ≡ builder.old.documents }
    requires none_open { builder.old.postings ≡ [] }
    requires no_record { builder.old.records ≡ [] }
    requires few { length builder.old.lists + 1 < 2 ^ 31 }
    requires room { tally.postings < 2 ^ 32 }
    ensures pending { OnOk result (pending.new ≡ pending.old) }
    ensures more { OnOk result (HasOneMoreList builder.old builder.new) }
    ensures room { IfOk result (λ after. after.postings < 2 ^ 32) }
    ensures ok { IfOk result (λ after. (full : Building) → IsCounted full builder.old tally
        → AddsCounted message.now full builder.new after) }
    ensures fault { IfErr result (λ refusal. (full : Building) (lists : ℕ)
        → IsCounted full builder.old tally
        → IsRefusal (IsListFault (listing lists full) message.now) refusal) }
{
    let (kept, gaps) = match read_fields(message, room, pending) {
        Ok(read) => read,
        Err(refusal) => return Err(refusal),
    };
    let fit = fitting(gaps, tally.postings, pending);
    match kept.close(fit, builder) {
        Ok(()) => {}
        Err(refusal) => return Err(refusal),
    }
    pending.is_sound();
    let after = tally.with_list(pending.postings());
    pending.clear();
    Ok(after)
}

/// Counts the list that comes next.
fn take_counted<H: Host>(
    window: &mut Window,
    room: &mut [Posting],
    pending: &mut OpenList,
    builder: &mut IndexBuilder,
    tally: Tally,
    host: &mut H,
    name: &str,
) -> Result<Tally, ReadError>
    requires none_pending { pending.old.postings ≡ [] }
    requires documents { pending.old.documents ≡ builder.old.documents }
    requires none_open { builder.old.postings ≡ [] }
    requires no_record { builder.old.records ≡ [] }
    requires few { length builder.old.lists + 1 < 2 ^ 31 }
    requires room { tally.postings < 2 ^ 32 }
    ensures pending { OnOk result (pending.new ≡ pending.old) }
    ensures more { OnOk result (HasOneMoreList builder.old builder.new) }
    ensures room { IfOk result (λ after. after.postings < 2 ^ 32) }
    ensures ok { IfOk result (λ after. (lists : ℕ) (file : List ℕ)
        → length builder.old.lists < lists
        → AtCounted (H.seen host.old) name.now window.old lists builder.old tally file
        → AtCounted (H.seen host.old) name.now window.new lists builder.new after file) }
    ensures same { OnOk result (H.seen host.new ≡ H.seen host.old) }
    ensures error { IfErr result (λ error. (lists : ℕ) → length builder.old.lists < lists
        → ExplainsWhere (AtCounted (H.seen host.old) name.now window.old lists builder.old tally)
        Refused error name.now (H.seen host.old) (H.seen host.new)) }
{
    messages_grow();
    let place = window.place();
    let span = match next_message(window, host, name) {
        Ok(span) => span,
        Err(error) => return Err(error),
    };
    let end = span.from + span.size;
    let after = match count_list(
        &window.bytes()[span.from..end],
        room,
        pending,
        builder,
        tally,
    ) {
        Ok(after) => after,
        Err(Refusal::Cause(cause)) => return Err(ReadError::Malformed { place, cause }),
        Err(Refusal::OutOfMemory) => return Err(ReadError::OutOfMemory),
    };
    window.advance(end);
    Ok(after)
}

/// Counts all lists, of which there are so many.
pub(crate) fn count_lists<H: Host>(
    alloc: Global,
    count: u32,
    window: &mut Window,
    builder: &mut IndexBuilder,
    host: &mut H,
    name: &str,
) -> Result<Tally, ReadError>
    requires few { count < 2 ^ 31 }
    requires no_list { builder.old.lists ≡ [] }
    requires none_open { builder.old.postings ≡ [] }
    requires no_record { builder.old.records ≡ [] }
    ensures lists { OnOk result (length builder.new.lists ≡ count) }
    ensures none_open { OnOk result (builder.new.postings ≡ []) }
    ensures no_record { OnOk result (builder.new.records ≡ []) }
    ensures ok { IfOk result (λ tally. (file : List ℕ)
        → AtGood (H.seen host.old) name.now window.old (listing count builder.old) file
        → AtCounted (H.seen host.old) name.now window.new count builder.new tally file) }
    ensures same { OnOk result (H.seen host.new ≡ H.seen host.old) }
    ensures error { IfErr result (λ error.
        ExplainsWhere (AtGood (H.seen host.old) name.now window.old (listing count builder.old))
        Refused error name.now (H.seen host.old) (H.seen host.new)) }
{
    let mut room = [Posting { doc: 0, tf: 0 }; TOGETHER];
    let mut pending = OpenList::new(alloc, builder.documents());
    let mut tally = Tally::none();
    for list in 0..count {
        match take_counted(window, &mut room, &mut pending, builder, tally, host, name) {
            Ok(after) => tally = after,
            Err(error) => return Err(error),
        }
    }
    Ok(tally)
}
