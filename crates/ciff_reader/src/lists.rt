//! Reading the lists of a file into an index that is being built.
ghost use Rattle.std.specs.Prelude.{◌≡◌, ℕ, ◌+◌, ◌^◌, ◌<◌, List, [], length, IfErr, OnOk};
ghost use Rattle.ciff_format.specs.Refused.{Refused};
ghost use Rattle.ciff_reader.specs.Listing.{listing};
ghost use Rattle.ciff_reader.specs.Steps.{AtGood, HasOneMoreList};
ghost use Rattle.ciff_reader.specs.Window.{ExplainsWhere};

use crate::error::{ReadError, Refusal};
use crate::list::read_list;
use crate::message::next_message;
use crate::open_list::OpenList;
use crate::window::Window;
use ciff_format::laws::messages_grow;
use rgb_base::{IndexBuilder, Posting};
use rgb_host::Host;
use std::alloc::Global;

/// How many postings at most are pushed together.
pub(crate) const TOGETHER: usize = 256;

/// Reads the list that comes next, and closes it behind the others.
fn take_list<H: Host>(
    window: &mut Window,
    room: &mut [Posting],
    pending: &mut OpenList,
    builder: &mut IndexBuilder,
    host: &mut H,
    name: &str,
) -> Result<(), ReadError>
    requires none_pending { pending.old.postings ≡ [] }
    requires documents { pending.old.documents ≡ builder.old.documents }
    requires none_open { builder.old.postings ≡ [] }
    requires no_record { builder.old.records ≡ [] }
    requires few { length builder.old.lists + 1 < 2 ^ 31 }
    ensures pending { OnOk result (pending.new ≡ pending.old) }
    ensures more { OnOk result (HasOneMoreList builder.old builder.new) }
    ensures ok { OnOk result ((lists : ℕ) (file : List ℕ) → length builder.old.lists < lists
        → AtGood (H.seen host.old) name.now window.old (listing lists builder.old) file
        → AtGood (H.seen host.old) name.now window.new (listing lists builder.new) file) }
    ensures same { OnOk result (H.seen host.new ≡ H.seen host.old) }
    ensures error { IfErr result (λ error. (lists : ℕ) → length builder.old.lists < lists
        → ExplainsWhere (AtGood (H.seen host.old) name.now window.old (listing lists builder.old))
        Refused error name.now (H.seen host.old) (H.seen host.new)) }
{
    messages_grow();
    let place = window.place();
    let span = match next_message(window, host, name) {
        Ok(span) => span,
        Err(error) => return Err(error),
    };
    let end = span.from + span.size;
    match read_list(&window.bytes()[span.from..end], room, pending, builder) {
        Ok(()) => {}
        Err(Refusal::Cause(cause)) => return Err(ReadError::Malformed { place, cause }),
        Err(Refusal::OutOfMemory) => return Err(ReadError::OutOfMemory),
    }
    window.advance(end);
    Ok(())
}

/// Reads all lists, of which there are so many.
pub(crate) fn read_lists<H: Host>(
    alloc: Global,
    count: u32,
    window: &mut Window,
    builder: &mut IndexBuilder,
    host: &mut H,
    name: &str,
) -> Result<(), ReadError>
    requires few { count < 2 ^ 31 }
    requires no_list { builder.old.lists ≡ [] }
    requires none_open { builder.old.postings ≡ [] }
    requires no_record { builder.old.records ≡ [] }
    ensures lists { OnOk result (length builder.new.lists ≡ count) }
    ensures none_open { OnOk result (builder.new.postings ≡ []) }
    ensures no_record { OnOk result (builder.new.records ≡ []) }
    ensures documents { OnOk result (builder.new.documents ≡ builder.old.documents) }
    ensures ok { OnOk result ((file : List ℕ)
        → AtGood (H.seen host.old) name.now window.old (listing count builder.old) file
        → AtGood (H.seen host.old) name.now window.new (listing count builder.new) file) }
    ensures same { OnOk result (H.seen host.new ≡ H.seen host.old) }
    ensures error { IfErr result (λ error.
        ExplainsWhere (AtGood (H.seen host.old) name.now window.old (listing count builder.old))
        Refused error name.now (H.seen host.old) (H.seen host.new)) }
{
    let mut room = [Posting { doc: 0, tf: 0 }; TOGETHER];
    let mut pending = OpenList::new(alloc, builder.documents());
    for list in 0..count {
        match take_list(window, &mut room, &mut pending, builder, host, name) {
            Ok(()) => {}
            Err(error) => return Err(error),
        }
    }
    Ok(())
}
