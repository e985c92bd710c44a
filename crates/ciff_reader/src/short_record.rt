//! Reading a record's message where it is spelt as most are.
ghost use Rattle.std.specs.Prelude.{IfSome};
ghost use Rattle.ciff_format.specs.Fields.{record_table};
ghost use Rattle.ciff_reader.specs.Says.{ReadAs, SaysRecord};

use crate::record::RecordFields;
use crate::short::{number_behind, text_behind};
use ciff_format::laws::fields_grow;
use ciff_wire::as_i32;
use ciff_wire::laws::field_after_field;

/// The first byte of the document's number: field 1, of a number.
const NUMBER: u8 = 0x08;

/// The first byte of the name: field 2, of bytes.
const NAME: u8 = 0x12;

/// The first byte of the document's length: field 3, of a number.
const LENGTH: u8 = 0x18;

/// What the message says, where it isn't spelt otherwise than most are: the number, a name of fewer
/// than 128 bytes that is UTF-8, and then the length, with each number of at most three bytes.
#[inline]
pub(crate) fn short_record<'a>(message: &'a [u8]) -> Option<RecordFields<'a>>
    ensures read { IfSome result (ReadAs record_table SaysRecord message.now) }
{
    fields_grow();
    field_after_field();
    let (number, first) = number_behind(NUMBER, message)?;
    let (name, second) = text_behind(NAME, &message[first..])?;
    let behind = first + second;
    let (size, third) = number_behind(LENGTH, &message[behind..])?;
    if behind + third != message.len() {
        return None;
    }
    Some(RecordFields {
        number: as_i32(number),
        name,
        length: as_i32(size),
        are_texts: true,
    })
}
