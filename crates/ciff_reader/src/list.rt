//! Reading the message of a list into an index that is being built.
ghost use Rattle.std.specs.Prelude.{◌≡◌, ℕ, ◌+◌, ◌^◌, ◌<◌, List, [], length, IfOk, IfErr, OnOk};
ghost use Rattle.ciff_wire.specs.Field.{entry_of};
ghost use Rattle.ciff_format.specs.Accepted.{Front};
ghost use Rattle.ciff_format.specs.Fields.{list_table};
ghost use Rattle.ciff_format.specs.Refused.{IsListFault};
ghost use Rattle.ciff_reader.specs.Says.{TakesField};
ghost use Rattle.ciff_reader.specs.Listing.{listing, ChangesPostings, IsRefusal, SaysList, ReadsList, AddsList, Closes, IsCloseFault};

use crate::content::{bytes_in, number_in, text_of};
use crate::error::Refusal;
use crate::front::read_front;
use crate::gaps::Gaps;
use crate::open_list::OpenList;
use ciff_format::Cause;
use ciff_format::laws::fields_grow;
use ciff_wire::laws::{field_after_field, message_is_one};
use ciff_wire::{Field, as_i64, next_field};
use rgb_base::{BuildError, IndexBuilder, OutOfMemory, Posting};

/// What the fields of a list's message say so far, without its postings.
#[derive(Clone, Copy)]
pub(crate) struct ListFields<'a> {
    pub term: &'a str,
    pub df: i64,
    pub cf: i64,
    /// Whether each term so far is UTF-8. Where one isn't, `term` says nothing.
    pub are_texts: bool,
}

impl<'a> ListFields<'a> {
    /// One more field, or nothing where it has a wrong wire type.
    #[inline]
    fn with_field(self, field: Field<'a>) -> Option<Self>
        ensures taken { TakesField list_table SaysList (entry_of field.entry) self.entry result }
    {
        fields_grow();
        match field.number {
            1 => match text_of(bytes_in(field.content)?) {
                Some(term) => Some(ListFields { term, ..self }),
                None => Some(ListFields {
                    are_texts: false,
                    ..self
                }),
            },
            2 => Some(ListFields {
                df: as_i64(number_in(field.content)?),
                ..self
            }),
            3 => Some(ListFields {
                cf: as_i64(number_in(field.content)?),
                ..self
            }),
            4 => {
                bytes_in(field.content)?;
                Some(self)
            }
            _ => Some(self),
        }
    }

    /// Closes the open list as one of these fields, or says what is wrong with it.
    pub(crate) fn close(self, gaps: Gaps, builder: &mut IndexBuilder) -> Result<(), Refusal>
        requires few { length builder.old.lists + 1 < 2 ^ 31 }
        ensures ok { OnOk result (Closes self.entry gaps builder.old builder.new) }
        ensures fault { IfErr result (IsCloseFault self.entry gaps builder.old) }
    {
        if !self.are_texts {
            return Err(Refusal::Cause(Cause::BadText));
        }
        if !gaps.are_good {
            return Err(Refusal::Cause(Cause::BadGap));
        }
        if !gaps.are_few {
            return Err(Refusal::Cause(if builder.has_term(self.term) {
                Cause::SameTerm
            } else {
                Cause::TooMuch
            }));
        }
        match builder.close_list(self.term, self.df, self.cf) {
            Ok(()) => {
                builder.is_sound();
                Ok(())
            }
            Err(error) => Err(match error {
                BuildError::Same => Refusal::Cause(Cause::SameTerm),
                BuildError::Size => Refusal::Cause(Cause::TooMuch),
                _ => Refusal::OutOfMemory,
            }),
        }
    }
}

/// Reads a list's message: what its own fields say, and what its postings do, which stand in the
/// open list then. What a refusal leaves there is free. `room` holds postings until they are pushed
/// together.
pub(crate) fn read_fields<'a>(
    message: &'a [u8],
    room: &mut [Posting],
    pending: &mut OpenList,
) -> Result<(ListFields<'a>, Gaps), Refusal>
    requires none { pending.old.postings ≡ [] }
    ensures read { IfOk result (λ t. ReadsList message.now t.0 t.1 pending.new) }
    ensures same { OnOk result (ChangesPostings pending.old pending.new) }
    ensures fault { IfErr result (λ refusal. (front : Front)
        → IsRefusal (IsListFault front message.now) refusal) }
{
    fields_grow();
    field_after_field();
    message_is_one();
    let (front, behind_front) = read_front(message);
    let mut kept = front;
    let mut gaps = Gaps {
        least: 0,
        document: 0,
        are_good: true,
        are_few: true,
    };
    let mut at = behind_front;
    'fields: loop {
        let Ok((gaps_so_far, behind)) = gaps.with_short_postings(message, at, room, pending) else {
            return Err(Refusal::OutOfMemory);
        };
        let Ok(next) = next_field(&message[behind..]) else {
            return Err(Refusal::Cause(Cause::BadField));
        };
        let Some((field, used)) = next else {
            return Ok((kept, gaps_so_far));
        };
        let Some(more) = kept.with_field(field) else {
            return Err(Refusal::Cause(Cause::BadField));
        };
        let Ok(taken) = gaps_so_far.with_field(field, pending) else {
            return Err(Refusal::OutOfMemory);
        };
        let Some(further) = taken else {
            return Err(Refusal::Cause(Cause::BadField));
        };
        kept = more;
        gaps = further;
        at = behind + used;
    }
}

/// Puts the postings of the open list into the builder. Where they are too many for it, the gaps
/// say so then.
fn fill(pending: &OpenList, gaps: Gaps, builder: &mut IndexBuilder) -> Result<Gaps, OutOfMemory>
    requires documents { pending.now.documents ≡ builder.old.documents }
    requires none_open { builder.old.postings ≡ [] }
    ensures same { OnOk result (ChangesPostings builder.old builder.new) }
    ensures read { IfOk result (λ fitting. (message : List ℕ) (kept : ListFields)
        → ReadsList message kept gaps pending.now → ReadsList message kept fitting builder.new) }
{
    pending.is_sound();
    match builder.push_postings(pending.postings()) {
        Ok(()) => Ok(gaps),
        Err(BuildError::Size) => Ok(Gaps {
            are_few: false,
            ..gaps
        }),
        // What is pending rises, so this is want of memory.
        Err(_) => Err(OutOfMemory),
    }
}

/// Reads a list's message, and closes the list that it says behind the others.
pub(crate) fn read_list(
    message: &[u8],
    room: &mut [Posting],
    pending: &mut OpenList,
    builder: &mut IndexBuilder,
) -> Result<(), Refusal>
    requires none_pending { pending.old.postings ≡ [] }
    requires documents { pending.old.documents ≡ builder.old.documents }
    requires none_open { builder.old.postings ≡ [] }
    requires no_record { builder.old.records ≡ [] }
    requires few { length builder.old.lists + 1 < 2 ^ 31 }
    ensures pending { OnOk result (pending.new ≡ pending.old) }
    ensures ok { OnOk result (AddsList message.now builder.old builder.new) }
    ensures fault { IfErr result (λ refusal. (lists : ℕ)
        → IsRefusal (IsListFault (listing lists builder.old) message.now) refusal) }
{
    let (kept, gaps) = match read_fields(message, room, pending) {
        Ok(read) => read,
        Err(refusal) => return Err(refusal),
    };
    let fitting = fill(pending, gaps, builder)?;
    match kept.close(fitting, builder) {
        Ok(()) => {
            pending.clear();
            Ok(())
        }
        Err(refusal) => Err(refusal),
    }
}
