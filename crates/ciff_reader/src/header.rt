//! Reading the message of the header.
ghost use Rattle.ciff_wire.specs.Field.{entry_of};
ghost use Rattle.ciff_format.specs.Fields.{header_table};
ghost use Rattle.ciff_reader.specs.Says.{TakesField, IsReadAs, SaysHeader};

use crate::content::{bytes_in, eight_in, number_in, text_of};
use ciff_format::laws::fields_grow;
use ciff_wire::laws::{field_after_field, message_is_one};
use ciff_wire::{Field, next_field};

/// What the fields of the header's message say so far.
#[derive(Clone, Copy)]
pub(crate) struct HeaderFields<'a> {
    /// The numbers of fields 1 to 6, in order.
    pub numbers: [u64; 6],
    pub average_bits: u64,
    pub description: &'a str,
    /// Whether each description so far is UTF-8. Where one isn't, `description` says nothing.
    pub are_texts: bool,
}

impl<'a> HeaderFields<'a> {
    /// One more field, or nothing where it has a wrong wire type.
    fn with_field(self, field: Field<'a>) -> Option<Self>
        ensures taken { TakesField header_table SaysHeader (entry_of field.entry) self.entry result }
    {
        fields_grow();
        match field.number {
            7 => Some(HeaderFields {
                average_bits: eight_in(field.content)?,
                ..self
            }),
            8 => match text_of(bytes_in(field.content)?) {
                Some(description) => Some(HeaderFields {
                    description,
                    ..self
                }),
                None => Some(HeaderFields {
                    are_texts: false,
                    ..self
                }),
            },
            1..=6 => {
                let value = number_in(field.content)?;
                let mut numbers = self.numbers;
                numbers[field.number as usize - 1] = value;
                Some(HeaderFields { numbers, ..self })
            }
            _ => Some(self),
        }
    }
}

/// What the header's message says, or nothing where its fields can't be read or one has a wrong type.
pub(crate) fn read_header_fields<'a>(message: &'a [u8]) -> Option<HeaderFields<'a>>
    ensures read { IsReadAs header_table SaysHeader message.now result }
{
    fields_grow();
    field_after_field();
    message_is_one();
    let mut kept = HeaderFields {
        numbers: [0; 6],
        average_bits: 0,
        description: "",
        are_texts: true,
    };
    let mut at = 0;
    'fields: loop {
        let Ok(next) = next_field(&message[at..]) else {
            return None;
        };
        let Some((field, used)) = next else {
            return Some(kept);
        };
        let Some(after) = kept.with_field(field) else {
            return None;
        };
        kept = after;
        at += used;
    }
}
