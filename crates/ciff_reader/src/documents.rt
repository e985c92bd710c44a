//! Reading the records of a file off its window, to the last.
ghost use Rattle.std.specs.Prelude.{◌≡◌, ℕ, ◌^◌, ◌≤◌, List, [], length, IfErr, OnOk};
ghost use Rattle.rgb_base.specs.declared.parts.TermList.{TermList};
ghost use Rattle.rgb_base.specs.Parts.{terms_of};
ghost use Rattle.rgb_base.specs.Building.{IsWhole};
ghost use Rattle.ciff_format.specs.Accepted.{Front, ExpectsRecord};
ghost use Rattle.ciff_format.specs.Refused.{Refused};
ghost use Rattle.ciff_reader.specs.Awaited.{HasReadAll, TakesRecord, EndsGood, with_lists};
ghost use Rattle.ciff_reader.specs.Listing.{listing};
ghost use Rattle.ciff_reader.specs.Steps.{AtGood};
ghost use Rattle.ciff_reader.specs.Window.{ExplainsWhere};

use crate::error::{ReadError, Refusal};
use crate::message::next_message;
use crate::records::put_record;
use crate::waiting::Waiting;
use crate::window::Window;
use ciff_format::laws::messages_grow;
use rgb_base::IndexBuilder;
use rgb_host::Host;
use std::alloc::Global;

/// Reads the record that comes next.
fn take_record<H: Host>(
    alloc: Global,
    window: &mut Window,
    builder: &mut IndexBuilder,
    waiting: &mut Waiting,
    text: &mut u64,
    host: &mut H,
    name: &str,
) -> Result<(), ReadError>
    requires little { text.old ≤ 2 ^ 40 }
    ensures little { OnOk result (text.new ≤ 2 ^ 40) }
    ensures lists { OnOk result (builder.new.lists ≡ builder.old.lists) }
    ensures documents { OnOk result (builder.new.documents ≡ builder.old.documents) }
    ensures ok { OnOk result ((front : Front) → ExpectsRecord front
        → HasReadAll front builder.old waiting.old text.old
        → TakesRecord (H.seen host.old) name.now window.old window.new front
        builder.new waiting.new text.new) }
    ensures same { OnOk result (H.seen host.new ≡ H.seen host.old) }
    ensures error { IfErr result (λ error. (front : Front) → ExpectsRecord front
        → HasReadAll front builder.old waiting.old text.old
        → ExplainsWhere (AtGood (H.seen host.old) name.now window.old front)
        Refused error name.now (H.seen host.old) (H.seen host.new)) }
{
    messages_grow();
    let place = window.place();
    let span = match next_message(window, host, name) {
        Ok(span) => span,
        Err(error) => return Err(error),
    };
    let end = span.from + span.size;
    match put_record(
        alloc,
        &window.bytes()[span.from..end],
        builder,
        waiting,
        text,
    ) {
        Ok(()) => {}
        Err(Refusal::Cause(cause)) => return Err(ReadError::Malformed { place, cause }),
        Err(Refusal::OutOfMemory) => return Err(ReadError::OutOfMemory),
    }
    window.advance(end);
    Ok(())
}

/// Reads the records of all documents. The messages may have said other lists than the index has,
/// with the same terms.
pub(crate) fn read_records<H: Host>(
    alloc: Global,
    window: &mut Window,
    builder: &mut IndexBuilder,
    host: &mut H,
    name: &str,
) -> Result<(), ReadError>
    requires none_open { builder.old.postings ≡ [] }
    requires no_record { builder.old.records ≡ [] }
    ensures whole { OnOk result (IsWhole builder.new) }
    ensures lists { OnOk result (builder.new.lists ≡ builder.old.lists) }
    ensures ok { OnOk result ((lists : List TermList) (file : List ℕ)
        → terms_of lists ≡ terms_of builder.old.lists
        → AtGood (H.seen host.old) name.now window.old
        (listing (length lists) (with_lists lists builder.old)) file
        → EndsGood (H.seen host.old) name.now window.new (with_lists lists builder.new) file) }
    ensures same { OnOk result (H.seen host.new ≡ H.seen host.old) }
    ensures error { IfErr result (λ error. (lists : List TermList)
        → terms_of lists ≡ terms_of builder.old.lists
        → ExplainsWhere (AtGood (H.seen host.old) name.now window.old
        (listing (length lists) (with_lists lists builder.old)))
        Refused error name.now (H.seen host.old) (H.seen host.new)) }
{
    builder.is_sound();
    let mut waiting = Waiting::new(alloc);
    let mut text = builder.text();
    let count = builder.documents();
    for record in 0..count {
        match take_record(alloc, window, builder, &mut waiting, &mut text, host, name) {
            Ok(()) => {}
            Err(error) => return Err(error),
        }
    }
    builder.is_sound();
    Ok(())
}
