//! Reading what stands in front of the postings in a list's message.
ghost use Rattle.std.specs.Prelude.{◌≤◌, length, take, IfSome};
ghost use Rattle.ciff_reader.specs.Listing.{ReadsFront};

use crate::list::ListFields;
use crate::short::{number_behind, text_behind};
use ciff_format::laws::fields_grow;
use ciff_wire::as_i64;
use ciff_wire::laws::field_after_field;

/// The first byte of the term: field 1, of bytes.
const TERM: u8 = 0x0a;

/// The first byte of the document frequency: field 2, of a number.
const DOCUMENT_FREQUENCY: u8 = 0x10;

/// The first byte of the collection frequency: field 3, of a number.
const COLLECTION_FREQUENCY: u8 = 0x18;

/// What a front of the message says that holds no posting, and how many bytes it has: the term and
/// both frequencies where they are spelt as most are, and else nothing.
#[inline]
pub(crate) fn read_front<'a>(message: &'a [u8]) -> (ListFields<'a>, usize)
    ensures within { result.1 ≤ length message.now }
    ensures read { ReadsFront (take result.1 message.now) result.0 }
{
    fields_grow();
    match short_front(message) {
        Some(front) => front,
        None => (
            ListFields {
                term: "",
                df: 0,
                cf: 0,
                are_texts: true,
            },
            0,
        ),
    }
}

/// The term and both frequencies: a term of fewer than 128 bytes that is UTF-8, and numbers of at
/// most three bytes.
#[inline]
fn short_front<'a>(message: &'a [u8]) -> Option<(ListFields<'a>, usize)>
    ensures within { IfSome result (λ t. t.1 ≤ length message.now) }
    ensures read { IfSome result (λ t. ReadsFront (take t.1 message.now) t.0) }
{
    fields_grow();
    field_after_field();
    let (term, first) = text_behind(TERM, message)?;
    let (df, second) = number_behind(DOCUMENT_FREQUENCY, &message[first..])?;
    let behind = first + second;
    let (cf, third) = number_behind(COLLECTION_FREQUENCY, &message[behind..])?;
    let fields = ListFields {
        term,
        df: as_i64(df),
        cf: as_i64(cf),
        are_texts: true,
    };
    Some((fields, behind + third))
}
