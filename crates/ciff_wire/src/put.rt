//! Writing varints and the fronts of fields.
ghost use Rattle.std.specs.Prelude.{◌≡◌, ◌+◌, ◌≤◌, ◌<◌, ◌^◌, ◌⊎◌, ◌∷◌, length, take, drop};
ghost use Rattle.std.specs.Prelude.{length as len_of};
ghost use Rattle.ciff_wire.specs.Varint.{varint};
ghost use Rattle.ciff_wire.specs.Canonical.{tag_of, message_of, number_field, head_of};

use crate::varint::MOST_BYTES;

/// How many bytes the shortest varint of the value takes, 1 to 10.
#[inline]
pub fn varint_len(value: u64) -> usize
    ensures same { result ≡ length (varint value) }
{
    if value < 128 {
        return 1;
    }
    // Seven bits a byte, of the bits from the highest that is set.
    let bits = 64 - value.leading_zeros() as usize;
    bits.div_ceil(7)
}

/// Writes the shortest varint of the value at the front, and gives its length.
#[inline]
pub fn put_varint(value: u64, out: &mut [u8; 10]) -> usize
    ensures len { result ≡ length (varint value) }
    ensures most { result ≤ 10 }
    ensures front { take result out.new ≡ varint value }
    ensures rest { drop result out.new ≡ drop result out.old }
{
    put_front(value, out)
}

// The varint at the front of a slice that has room for the longest.
#[inline]
fn put_front(value: u64, out: &mut [u8]) -> usize
    requires { MOST_BYTES ≤ length out.old }
    ensures len { result ≡ length (varint value) }
    ensures most { result ≤ 10 }
    ensures front { take result out.new ≡ varint value }
    ensures rest { drop result out.new ≡ drop result out.old }
{
    if value < 128 {
        out[0] = value as u8;
        return 1;
    }
    put_longer(value, out)
}

// A varint of any length, byte by byte.
fn put_longer(value: u64, out: &mut [u8]) -> usize
    requires { MOST_BYTES ≤ length out.old }
    ensures len { result ≡ length (varint value) }
    ensures most { result ≤ 10 }
    ensures front { take result out.new ≡ varint value }
    ensures rest { drop result out.new ≡ drop result out.old }
{
    let mut left = value;
    let mut used = 0;
    while left >= 128 {
        out[used] = 0x80 | (left & 0x7f) as u8;
        left >>= 7;
        used += 1;
    }
    out[used] = left as u8;
    used + 1
}

/// Writes the tag of a field number and a wire type at the front, and gives its length.
#[inline]
pub fn put_tag(number: u32, wire: u32, out: &mut [u8; 10]) -> usize
    requires some { 0 < number }
    requires most { number < 2 ^ 29 }
    requires wire { (wire ≡ 0) ⊎ ((wire ≡ 1) ⊎ ((wire ≡ 2) ⊎ (wire ≡ 5))) }
    ensures len { result ≡ length (tag_of number wire) }
    ensures most { result ≤ 10 }
    ensures front { take result out.new ≡ tag_of number wire }
    ensures rest { drop result out.new ≡ drop result out.old }
{
    put_varint(u64::from(number * 8 + wire), out)
}

/// Writes the field of a number at the front, or nothing where the value is 0, and gives the length.
pub fn put_number(number: u32, value: i64, out: &mut [u8; 16]) -> usize
    requires some { 0 < number }
    requires most { number < 16 }
    ensures len { result ≡ length (message_of (number_field number value)) }
    ensures most { result ≤ 16 }
    ensures front { take result out.new ≡ message_of (number_field number value) }
    ensures rest { drop result out.new ≡ drop result out.old }
{
    if value == 0 {
        return 0;
    }
    put_pair((number * 8) as u8, value.cast_unsigned(), out)
}

/// Writes the tag and the length of a field of bytes at the front, and gives their length.
pub fn put_head(number: u32, length: u64, out: &mut [u8; 16]) -> usize
    requires some { 0 < number }
    requires most { number < 16 }
    ensures len { result ≡ len_of (head_of number length) }
    ensures most { result ≤ 16 }
    ensures front { take result out.new ≡ head_of number length }
    ensures rest { drop result out.new ≡ drop result out.old }
{
    put_pair((number * 8 + 2) as u8, length, out)
}

// A tag of one byte, and a varint behind it.
#[inline]
fn put_pair(tag: u8, value: u64, out: &mut [u8; 16]) -> usize
    requires { tag < 128 }
    ensures len { result ≡ 1 + length (varint value) }
    ensures most { result ≤ 11 }
    ensures front { take result out.new ≡ tag ∷ varint value }
    ensures rest { drop result out.new ≡ drop result out.old }
{
    out[0] = tag;
    1 + put_front(value, &mut out[1..])
}
