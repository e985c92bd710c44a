//! Reading the records of a file, which come in any order, into an index that is being built.
ghost use Rattle.std.specs.Prelude.{◌≡◌, ℕ, ◌+◌, ◌^◌, ◌<◌, ◌≤◌, length, Contains, IfErr, OnOk};
ghost use Rattle.ciff_format.specs.Accepted.{Front, numbers_of, with_record};
ghost use Rattle.ciff_format.specs.Messages.{Numbered};
ghost use Rattle.ciff_format.specs.Refused.{IsRecordFault};
ghost use Rattle.ciff_reader.specs.Listing.{IsRefusal};
ghost use Rattle.ciff_reader.specs.Awaited.{HasRead, HasReadAll, HasOneMoreRecord, WaitsFrom};

use crate::error::Refusal;
use crate::heading::MOST_TEXT;
use crate::record::read_record;
use crate::waiting::Waiting;
use ciff_format::Cause;
use rgb_base::{DocRecord, IndexBuilder, OutOfMemory, Text};
use std::alloc::Global;

/// Puts the records whose turn it is into the index.
fn release(builder: &mut IndexBuilder, waiting: &mut Waiting) -> Result<(), OutOfMemory>
    ensures read { OnOk result ((front : Front) → WaitsFrom (length builder.old.records) waiting.old
        → HasRead front builder.old waiting.old → HasRead front builder.new waiting.new) }
    ensures lists { OnOk result (builder.new.lists ≡ builder.old.lists) }
    ensures documents { OnOk result (builder.new.documents ≡ builder.old.documents) }
    ensures later { OnOk result (WaitsFrom (length builder.old.records) waiting.old
        → WaitsFrom (length builder.new.records + 1) waiting.new) }
{
    'turns: loop {
        let Some(document) = waiting.take(builder.records()) else {
            return Ok(());
        };
        let Ok(()) = builder.push_record(document.name.as_str(), document.length) else {
            return Err(OutOfMemory);
        };
    }
}

/// Puts a new record into the index, or has it wait for its turn.
fn place_record(
    alloc: Global,
    number: u32,
    name: &str,
    size: i32,
    builder: &mut IndexBuilder,
    waiting: &mut Waiting,
) -> Result<(), OutOfMemory>
    ensures read { OnOk result ((front : Front) (one : Numbered) → one.number ≡ number
        → one.document ≡ record { name = name.now; length = size }
        → ¬ Contains (numbers_of front.records) number
        → WaitsFrom (length builder.old.records + 1) waiting.old
        → HasRead front builder.old waiting.old
        → HasRead (with_record front one) builder.new waiting.new) }
    ensures lists { OnOk result (builder.new.lists ≡ builder.old.lists) }
    ensures documents { OnOk result (builder.new.documents ≡ builder.old.documents) }
    ensures later { OnOk result (length builder.old.records ≤ number
        → WaitsFrom (length builder.old.records + 1) waiting.old
        → WaitsFrom (length builder.new.records + 1) waiting.new) }
{
    if number == builder.records() {
        let Ok(()) = builder.push_record(name, size) else {
            return Err(OutOfMemory);
        };
        return release(builder, waiting);
    }
    let name = Text::of(String::from_str(alloc, name)?);
    waiting.put(number, DocRecord { name, length: size })
}

/// Reads a record's message, and puts the record that it says into the index or has it wait.
pub(crate) fn put_record(
    alloc: Global,
    message: &[u8],
    builder: &mut IndexBuilder,
    waiting: &mut Waiting,
    text: &mut u64,
) -> Result<(), Refusal>
    requires little { text.old ≤ 2 ^ 40 }
    ensures little { OnOk result (text.new ≤ 2 ^ 40) }
    ensures lists { OnOk result (builder.new.lists ≡ builder.old.lists) }
    ensures documents { OnOk result (builder.new.documents ≡ builder.old.documents) }
    ensures ok { OnOk result ((front : Front)
        → HasReadAll front builder.old waiting.old text.old
        → HasOneMoreRecord message.now front builder.new waiting.new text.new) }
    ensures fault { IfErr result (λ refusal. (front : Front)
        → HasReadAll front builder.old waiting.old text.old
        → IsRefusal (IsRecordFault front message.now) refusal) }
{
    let Some(kept) = read_record(message) else {
        return Err(Refusal::Cause(Cause::BadField));
    };
    if !kept.are_texts {
        return Err(Refusal::Cause(Cause::BadText));
    }
    let Ok(number) = u32::try_from(kept.number) else {
        return Err(Refusal::Cause(Cause::BadDoc));
    };
    if builder.documents() <= number || number < builder.records() || waiting.has(number) {
        return Err(Refusal::Cause(Cause::BadDoc));
    }
    if MOST_TEXT - *text < kept.name.len() as u64 {
        return Err(Refusal::Cause(Cause::TooMuch));
    }
    *text += kept.name.len() as u64;
    match place_record(alloc, number, kept.name, kept.length, builder, waiting) {
        Ok(()) => Ok(()),
        Err(OutOfMemory) => Err(Refusal::OutOfMemory),
    }
}
