//! Taking fields off the front of a message.
ghost use Rattle.std.specs.Prelude.{◌≡◌, ◌+◌, ◌*◌, ◌/◌, ◌%◌, ◌≤◌, ◌<◌, length, take, IfOk, IfErr, IfSome, IfNone, []};
ghost use Rattle.ciff_wire.specs.Varint.{Reads};
ghost use Rattle.ciff_wire.specs.Field.{SpellsField, Holds, IsNumber, IsTagFault, IsContentFault, IsFault, wire_of, held_of, entry_of, number_of_wire};

use crate::varint::{Varint, read_varint};

/// What a field holds.
#[derive(Clone, Copy, Debug, PartialEq, Eq)]
pub enum Content<'a> {
    /// Wire type 0: the value of a varint.
    Number(u64),
    /// Wire type 1: eight bytes, the low one first.
    Eight(u64),
    /// Wire type 2: bytes after their length.
    Bytes(&'a [u8]),
    /// Wire type 5: four bytes, the low one first.
    Four(u32),
}

/// A field of a message, which lends its bytes.
#[derive(Clone, Copy, Debug, PartialEq, Eq)]
pub struct Field<'a> {
    pub number: u32,
    pub content: Content<'a>,
}

/// Why no field stands at the front of a message, in the order in which they are looked for.
#[derive(Clone, Copy, Debug, PartialEq, Eq)]
pub enum FieldFault {
    /// The field number is 0.
    Zero,
    /// The field number is above 2^29 - 1.
    TooLarge,
    /// Wire type 3 or 4.
    Group,
    /// Wire type 6 or 7.
    Reserved,
    /// The message ends inside the tag or the content.
    PastEnd,
    /// A varint of ten bytes that all carry the top bit.
    Long,
}

/// The largest field number.
const LARGEST_NUMBER: u64 = (1 << 29) - 1;

/// Takes the next field off the front of a message: the field and how many bytes it takes, nothing
/// where the message is empty, or what is wrong.
#[inline]
pub fn next_field<'a>(bytes: &'a [u8]) -> Result<Option<(Field<'a>, usize)>, FieldFault>
    ensures none { IfOk result (λ taken. IfNone taken (bytes.now ≡ [])) }
    ensures within { IfOk result (λ taken. IfSome taken (λ t. t.1 ≤ length bytes.now)) }
    ensures field { IfOk result
        (λ taken. IfSome taken (λ t. SpellsField (take t.1 bytes.now) (entry_of t.0))) }
    ensures fault { IfErr result (IsFault bytes.now) }
{
    if bytes.is_empty() {
        return Ok(None);
    }
    let tag = take_tag(bytes)?;
    let (content, len) = take_content(tag.wire, &bytes[tag.used..])?;
    Ok(Some((
        Field {
            number: tag.number,
            content,
        },
        tag.used + len,
    )))
}

/// The wire types that a field can have.
#[derive(Clone, Copy)]
enum Wire {
    Number,
    Eight,
    Bytes,
    Four,
}

/// A good tag, and how many bytes it takes.
#[derive(Clone, Copy)]
struct Tag {
    number: u32,
    wire: Wire,
    used: usize,
}

/// The tag at the front.
#[inline]
fn take_tag(bytes: &[u8]) -> Result<Tag, FieldFault>
    requires { 0 < length bytes.now }
    ensures within { IfOk result (λ tag. tag.used ≤ length bytes.now) }
    ensures number { IfOk result (λ tag. IsNumber tag.number) }
    ensures tag { IfOk result
        (λ tag. Reads bytes.now (tag.number * 8 + number_of_wire tag.wire) tag.used) }
    ensures fault { IfErr result (IsFault bytes.now) }
{
    match read_varint(bytes) {
        Varint::Done { value, used } => {
            let (number, wire) = parts_of_tag(value)?;
            Ok(Tag { number, wire, used })
        }
        Varint::Short => Err(FieldFault::PastEnd),
        Varint::Long => Err(FieldFault::Long),
    }
}

/// The field number and the wire type of a tag's value.
#[inline]
fn parts_of_tag(value: u64) -> Result<(u32, Wire), FieldFault>
    ensures number { IfOk result (λ parts. IsNumber parts.0) }
    ensures value { IfOk result (λ parts. value ≡ parts.0 * 8 + number_of_wire parts.1) }
    ensures fault { IfErr result (IsTagFault (value / 8) (value % 8)) }
{
    let number = value / 8;
    if number == 0 {
        return Err(FieldFault::Zero);
    }
    if number > LARGEST_NUMBER {
        return Err(FieldFault::TooLarge);
    }
    let wire = match value % 8 {
        0 => Wire::Number,
        1 => Wire::Eight,
        2 => Wire::Bytes,
        5 => Wire::Four,
        3 | 4 => return Err(FieldFault::Group),
        _ => return Err(FieldFault::Reserved),
    };
    Ok((number as u32, wire))
}

/// The content of this wire type at the front, and how many bytes it takes.
#[inline]
fn take_content<'a>(wire: Wire, bytes: &'a [u8]) -> Result<(Content<'a>, usize), FieldFault>
    ensures within { IfOk result (λ t. t.1 ≤ length bytes.now) }
    ensures wire { IfOk result (λ t. wire_of (held_of t.0) ≡ number_of_wire wire) }
    ensures holds { IfOk result (λ t. Holds (take t.1 bytes.now) (held_of t.0)) }
    ensures fault { IfErr result (IsContentFault (number_of_wire wire) bytes.now) }
{
    match wire {
        Wire::Number => take_number(bytes),
        Wire::Eight => take_eight(bytes),
        Wire::Bytes => take_bytes(bytes),
        Wire::Four => take_four(bytes),
    }
}

#[inline]
fn take_number<'a>(bytes: &'a [u8]) -> Result<(Content<'a>, usize), FieldFault>
    ensures within { IfOk result (λ t. t.1 ≤ length bytes.now) }
    ensures wire { IfOk result (λ t. wire_of (held_of t.0) ≡ 0) }
    ensures holds { IfOk result (λ t. Holds (take t.1 bytes.now) (held_of t.0)) }
    ensures fault { IfErr result (IsContentFault 0 bytes.now) }
{
    match read_varint(bytes) {
        Varint::Done { value, used } => Ok((Content::Number(value), used)),
        Varint::Short => Err(FieldFault::PastEnd),
        Varint::Long => Err(FieldFault::Long),
    }
}

#[inline]
fn take_eight<'a>(bytes: &'a [u8]) -> Result<(Content<'a>, usize), FieldFault>
    ensures within { IfOk result (λ t. t.1 ≤ length bytes.now) }
    ensures wire { IfOk result (λ t. wire_of (held_of t.0) ≡ 1) }
    ensures holds { IfOk result (λ t. Holds (take t.1 bytes.now) (held_of t.0)) }
    ensures fault { IfErr result (IsContentFault 1 bytes.now) }
{
    if let [a, b, c, d, e, f, g, h, ..] = bytes {
        let value = u64::from_le_bytes([*a, *b, *c, *d, *e, *f, *g, *h]);
        return Ok((Content::Eight(value), 8));
    }
    Err(FieldFault::PastEnd)
}

#[inline]
fn take_bytes<'a>(bytes: &'a [u8]) -> Result<(Content<'a>, usize), FieldFault>
    ensures within { IfOk result (λ t. t.1 ≤ length bytes.now) }
    ensures wire { IfOk result (λ t. wire_of (held_of t.0) ≡ 2) }
    ensures holds { IfOk result (λ t. Holds (take t.1 bytes.now) (held_of t.0)) }
    ensures fault { IfErr result (IsContentFault 2 bytes.now) }
{
    match read_varint(bytes) {
        Varint::Done { value, used } => {
            let rest = &bytes[used..];
            if value > rest.len() as u64 {
                return Err(FieldFault::PastEnd);
            }
            let len = value as usize;
            Ok((Content::Bytes(&rest[..len]), used + len))
        }
        Varint::Short => Err(FieldFault::PastEnd),
        Varint::Long => Err(FieldFault::Long),
    }
}

#[inline]
fn take_four<'a>(bytes: &'a [u8]) -> Result<(Content<'a>, usize), FieldFault>
    ensures within { IfOk result (λ t. t.1 ≤ length bytes.now) }
    ensures wire { IfOk result (λ t. wire_of (held_of t.0) ≡ 5) }
    ensures holds { IfOk result (λ t. Holds (take t.1 bytes.now) (held_of t.0)) }
    ensures fault { IfErr result (IsContentFault 5 bytes.now) }
{
    if let [a, b, c, d, ..] = bytes {
        return Ok((Content::Four(u32::from_le_bytes([*a, *b, *c, *d])), 4));
    }
    Err(FieldFault::PastEnd)
}
