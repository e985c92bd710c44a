//! Reading the message of a posting.
ghost use Rattle.ciff_wire.specs.Field.{entry_of};
ghost use Rattle.ciff_format.specs.Fields.{posting_table};
ghost use Rattle.ciff_reader.specs.Says.{TakesField, IsReadAs, SaysPosting};

use crate::content::number_in;
use ciff_format::laws::fields_grow;
use ciff_wire::laws::{field_after_field, message_is_one};
use ciff_wire::{Field, as_i32, next_field};

/// What the fields of a posting's message say so far.
#[derive(Clone, Copy)]
pub(crate) struct PostingFields {
    /// The gap to the document before it in the list.
    pub gap: i32,
    pub tf: i32,
}

impl PostingFields {
    /// One more field, or nothing where it has a wrong wire type.
    #[inline]
    fn with_field(self, field: Field<'_>) -> Option<Self>
        ensures taken { TakesField posting_table SaysPosting (entry_of field.entry) self result }
    {
        fields_grow();
        let gap = self.gap;
        let tf = self.tf;
        match field.number {
            1 => Some(PostingFields {
                gap: as_i32(number_in(field.content)?),
                tf,
            }),
            2 => Some(PostingFields {
                gap,
                tf: as_i32(number_in(field.content)?),
            }),
            _ => Some(self),
        }
    }
}

/// What a posting's message says, or nothing where its fields can't be read or one has a wrong type.
pub(crate) fn read_posting(message: &[u8]) -> Option<PostingFields>
    ensures read { IsReadAs posting_table SaysPosting message.now result }
{
    fields_grow();
    field_after_field();
    message_is_one();
    let mut kept = PostingFields { gap: 0, tf: 0 };
    let mut at = 0;
    'fields: loop {
        let Ok(next) = next_field(&message[at..]) else {
            return None;
        };
        let Some((field, used)) = next else {
            return Some(kept);
        };
        let Some(after) = kept.with_field(field) else {
            return None;
        };
        kept = after;
        at += used;
    }
}
