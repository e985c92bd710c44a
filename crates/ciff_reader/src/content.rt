//! What a field holds, where it has the wire type that is asked for.
ghost use Rattle.std.specs.Prelude.{◌≡◌, ◌≢◌, IfSome, IfNone, IsUtf8};
ghost use Rattle.ciff_wire.specs.Field.{as_number, as_eight, as_bytes, wire_of, held_of};

use ciff_wire::Content;

/// The value of a varint.
#[inline]
pub(crate) fn number_in(content: Content<'_>) -> Option<u64>
    ensures number { IfSome result (λ value. held_of content.entry ≡ as_number value) }
    ensures other { IfNone result (wire_of (held_of content.entry) ≢ 0) }
{
    match content {
        Content::Number(value) => Some(value),
        _ => None,
    }
}

/// The number that eight bytes make.
#[inline]
pub(crate) fn eight_in(content: Content<'_>) -> Option<u64>
    ensures eight { IfSome result (λ value. held_of content.entry ≡ as_eight value) }
    ensures other { IfNone result (wire_of (held_of content.entry) ≢ 1) }
{
    match content {
        Content::Eight(value) => Some(value),
        _ => None,
    }
}

/// Bytes behind their length.
#[inline]
pub(crate) fn bytes_in<'a>(content: Content<'a>) -> Option<&'a [u8]>
    ensures bytes { IfSome result (λ bytes. held_of content.entry ≡ as_bytes bytes.now) }
    ensures other { IfNone result (wire_of (held_of content.entry) ≢ 2) }
{
    match content {
        Content::Bytes(bytes) => Some(bytes),
        _ => None,
    }
}

/// The text that bytes are.
#[inline]
pub(crate) fn text_of<'a>(bytes: &'a [u8]) -> Option<&'a str>
    ensures same { IfSome result (λ text. text.now ≡ bytes.now) }
    ensures text { IfSome result (λ text. ∥ IsUtf8 bytes.now ∥₁) }
    ensures other { IfNone result (¬ ∥ IsUtf8 bytes.now ∥₁) }
{
    match std::str::from_utf8(bytes) {
        Ok(text) => Some(text),
        Err(_) => None,
    }
}
