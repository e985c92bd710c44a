//! Reading a posting where it stands in its list's message, where it is spelt as most are; and
//! fields of few bytes.
ghost use Rattle.std.specs.Prelude.{◌≡◌, ◌+◌, ◌-◌, ◌*◌, ◌/◌, ◌%◌, ◌<◌, ◌≤◌, length, take, IfSome, IsUtf8};
ghost use Rattle.ciff_wire.specs.Varint.{Reads};
ghost use Rattle.ciff_wire.specs.Field.{as_bytes, as_number, SpellsField};
ghost use Rattle.ciff_reader.specs.Listing.{StartsWithPosting};

use crate::content::text_of;
use crate::posting::PostingFields;
use ciff_wire::as_i32;

/// The first byte of a posting: field 4, of bytes.
const POSTING: u8 = 0x22;

/// The first byte of the gap: field 1, of a number.
const GAP: u8 = 0x08;

/// The first byte of the frequency: field 2, of a number.
const FREQUENCY: u8 = 0x10;

/// The posting at the front, and how many bytes its field takes. Nothing is answered where it isn't spelt
/// as most are: a length of one byte, the gap, and then the frequency, each of at most three bytes.
#[inline]
pub(crate) fn short_posting(bytes: &[u8]) -> Option<(PostingFields, usize)>
    ensures posting { IfSome result (λ t. StartsWithPosting bytes.now t.0 t.1) }
{
    match posting_in_eight(bytes) {
        Some(found) => Some(found),
        None => posting_by_parts(bytes),
    }
}

/// A short posting within eight bytes whose frequency takes one. Gaps of one, two and three bytes come
/// mixed, so no branch tells one from two.
#[inline]
pub(crate) fn posting_in_eight(bytes: &[u8]) -> Option<(PostingFields, usize)>
    ensures posting { IfSome result (λ t. StartsWithPosting bytes.now t.0 t.1) }
{
    let [POSTING, size, GAP, low, middle, high, _, _, ..] = bytes else {
        return None;
    };
    let Some((gap, len)) = gap_of(*low, *middle, *high) else {
        return None;
    };
    let end = usize::from(*size);
    if end != len + 3 {
        return None;
    }
    let tf = bytes[end + 1];
    if bytes[end] != FREQUENCY || tf >= 128 {
        return None;
    }
    let posting = PostingFields {
        gap: as_i32(u64::from(gap)),
        tf: as_i32(u64::from(tf)),
    };
    Some((posting, end + 2))
}

/// The varint that these bytes begin with, and how many of them it takes, where it has no more. One
/// and two bytes go one way, since they come mixed.
#[inline]
fn gap_of(low: u8, middle: u8, high: u8) -> Option<(u32, usize)>
    ensures one { low < 128 → IfSome result (λ t. (t.0 ≡ low) × (t.1 ≡ 1)) }
    ensures two { 128 ≤ low → middle < 128
        → IfSome result (λ t. (t.0 ≡ low - 128 + middle * 128) × (t.1 ≡ 2)) }
    ensures three { 128 ≤ low → 128 ≤ middle → high < 128 → IfSome result (λ t.
        (t.0 ≡ low - 128 + middle * 128 - 16384 + high * 16384) × (t.1 ≡ 3)) }
    ensures more { 128 ≤ low → 128 ≤ middle → IfSome result (λ t. high < 128) }
    ensures most { IfSome result (λ t. t.1 ≤ 3) }
{
    let (low, middle) = (u32::from(low), u32::from(middle));
    let second = low / 128;
    let third = where_set(second, middle / 128);
    let value = low % 128 + where_set(second, middle % 128) * 128;
    if third == 0 {
        return Some((value, (1 + second) as usize));
    }
    if high >= 128 {
        return None;
    }
    Some((value + u32::from(high) * 16384, 3))
}

/// The number where the bit is 1, and 0 where it is 0.
#[inline]
fn where_set(bit: u32, number: u32) -> u32
    requires { bit < 2 }
    ensures none { bit ≡ 0 → result ≡ 0 }
    ensures same { bit ≡ 1 → result ≡ number }
{
    bit * number
}

/// A short posting, part by part.
#[inline]
fn posting_by_parts(bytes: &[u8]) -> Option<(PostingFields, usize)>
    ensures posting { IfSome result (λ t. StartsWithPosting bytes.now t.0 t.1) }
{
    let [POSTING, size, content @ ..] = bytes else {
        return None;
    };
    let (gap, first) = number_behind(GAP, content)?;
    let (tf, second) = number_behind(FREQUENCY, &content[first..])?;
    let len = first + second;
    if usize::from(*size) != len {
        return None;
    }
    let posting = PostingFields {
        gap: as_i32(gap),
        tf: as_i32(tf),
    };
    Some((posting, 2 + len))
}

/// The number at the front whose field has this tag, and how many bytes the field takes.
#[inline]
pub(crate) fn number_behind(tag: u8, bytes: &[u8]) -> Option<(u64, usize)>
    requires some { 0 < tag }
    requires small { tag < 128 }
    requires number { tag % 8 ≡ 0 }
    ensures within { IfSome result (λ t. t.1 ≤ length bytes.now) }
    ensures most { IfSome result (λ t. t.1 ≤ 4) }
    ensures field { IfSome result (λ t.
        SpellsField (take t.1 bytes.now) (record { number = tag / 8; held = as_number t.0 })) }
{
    match bytes {
        [first, rest @ ..] if *first == tag => {
            let (value, used) = short_varint(rest)?;
            Some((u64::from(value), 1 + used))
        }
        _ => None,
    }
}

/// The text at the front, of fewer than 128 bytes, whose field has this tag, and how many bytes the
/// field takes.
#[inline]
pub(crate) fn text_behind<'a>(tag: u8, bytes: &'a [u8]) -> Option<(&'a str, usize)>
    requires some { 2 < tag }
    requires small { tag < 128 }
    requires text { tag % 8 ≡ 2 }
    ensures within { IfSome result (λ t. t.1 ≤ length bytes.now) }
    ensures text { IfSome result (λ t. ∥ IsUtf8 t.0.now ∥₁) }
    ensures field { IfSome result (λ t. SpellsField (take t.1 bytes.now)
        (record { number = tag / 8; held = as_bytes t.0.now })) }
{
    match bytes {
        [first, size, rest @ ..]
            if *first == tag && *size < 128 && usize::from(*size) <= rest.len() => {
            let len = usize::from(*size);
            match text_of(&rest[..len]) {
                Some(text) => Some((text, 2 + len)),
                None => None,
            }
        }
        _ => None,
    }
}

/// The varint of one to three bytes at the front, and how many it takes.
#[inline]
fn short_varint(bytes: &[u8]) -> Option<(u32, usize)>
    ensures reads { IfSome result (λ t. Reads bytes.now t.0 t.1) }
    ensures most { IfSome result (λ t. t.1 ≤ 3) }
{
    let [low, rest @ ..] = bytes else {
        return None;
    };
    let low = u32::from(*low);
    if low < 128 {
        return Some((low, 1));
    }
    let [middle, rest @ ..] = rest else {
        return None;
    };
    let middle = u32::from(*middle);
    let two = low - 128 + middle * 128;
    if middle < 128 {
        return Some((two, 2));
    }
    match rest {
        [high, ..] if *high < 128 => Some((two - 16384 + u32::from(*high) * 16384, 3)),
        _ => None,
    }
}
