//! Reading the message of a document's record.
ghost use Rattle.ciff_wire.specs.Field.{entry_of};
ghost use Rattle.ciff_format.specs.Fields.{record_table};
ghost use Rattle.ciff_reader.specs.Says.{TakesField, IsReadAs, SaysRecord};

use crate::content::{bytes_in, number_in, text_of};
use crate::short_record::short_record;
use ciff_format::laws::fields_grow;
use ciff_wire::laws::{field_after_field, message_is_one};
use ciff_wire::{Field, as_i32, next_field};

/// What the fields of a record's message say so far.
#[derive(Clone, Copy)]
pub(crate) struct RecordFields<'a> {
    /// The document's number.
    pub number: i32,
    pub name: &'a str,
    /// The document's length in tokens.
    pub length: i32,
    /// Whether each name so far is UTF-8. Where one isn't, `name` says nothing.
    pub are_texts: bool,
}

impl<'a> RecordFields<'a> {
    /// One more field, or nothing where it has a wrong wire type.
    #[inline]
    fn with_field(self, field: Field<'a>) -> Option<Self>
        ensures taken { TakesField record_table SaysRecord (entry_of field.entry) self.entry result }
    {
        fields_grow();
        match field.number {
            1 => Some(RecordFields {
                number: as_i32(number_in(field.content)?),
                ..self
            }),
            2 => match text_of(bytes_in(field.content)?) {
                Some(name) => Some(RecordFields { name, ..self }),
                None => Some(RecordFields {
                    are_texts: false,
                    ..self
                }),
            },
            3 => Some(RecordFields {
                length: as_i32(number_in(field.content)?),
                ..self
            }),
            _ => Some(self),
        }
    }
}

/// What a record's message says, or nothing where its fields can't be read or one has a wrong type.
pub(crate) fn read_record<'a>(message: &'a [u8]) -> Option<RecordFields<'a>>
    ensures read { IsReadAs record_table SaysRecord message.now result }
{
    match short_record(message) {
        Some(kept) => Some(kept),
        None => read_fields(message),
    }
}

/// What any record's message says, field by field.
fn read_fields<'a>(message: &'a [u8]) -> Option<RecordFields<'a>>
    ensures read { IsReadAs record_table SaysRecord message.now result }
{
    fields_grow();
    field_after_field();
    message_is_one();
    let mut kept = RecordFields {
        number: 0,
        name: "",
        length: 0,
        are_texts: true,
    };
    let mut at = 0;
    'fields: loop {
        let Ok(next) = next_field(&message[at..]) else {
            return None;
        };
        let Some((field, used)) = next else {
            return Some(kept);
        };
        let Some(after) = kept.with_field(field) else {
            return None;
        };
        kept = after;
        at += used;
    }
}
