//! Reading varints.
ghost use Rattle.std.specs.Prelude.{◌≡◌, ◌%◌, ◌^◌};
ghost use Rattle.std.specs.Int.{w32, w64, cast_signed};
ghost use Rattle.ciff_wire.specs.Varint.{IsRead};

/// What stands at the front of some bytes, read as a varint.
#[derive(Clone, Copy, Debug, PartialEq, Eq)]
pub enum Varint {
    /// A varint: its value modulo 2^64, and how many bytes it takes.
    Done { value: u64, used: usize },
    /// The bytes end before the varint does.
    Short,
    /// Ten bytes all carry the top bit.
    Long,
}

/// The most bytes that a varint takes.
pub(crate) const MOST_BYTES: usize = 10;

/// Reads the varint at the front. Bytes may follow it.
#[inline]
pub fn read_varint(bytes: &[u8]) -> Varint
    ensures read { IsRead bytes.now result }
{
    match bytes {
        [only, ..] if *only < 128 => Varint::Done {
            value: u64::from(*only),
            used: 1,
        },
        _ => read_longer(bytes),
    }
}

// A varint of any length, byte by byte.
fn read_longer(bytes: &[u8]) -> Varint
    ensures read { IsRead bytes.now result }
{
    let mut value = 0u64;
    let end = bytes.len().min(MOST_BYTES);
    for i in 0..end {
        let byte = bytes[i];
        value |= u64::from(byte & 0x7f) << (7 * i as u32);
        if byte < 128 {
            return Varint::Done { value, used: i + 1 };
        }
    }
    if end < MOST_BYTES {
        Varint::Short
    } else {
        Varint::Long
    }
}

/// The low 32 bits in two's complement.
#[inline]
pub fn as_i32(value: u64) -> i32
    ensures same { result ≡ cast_signed w32 (value % 2 ^ 32) }
{
    ((value & 0xffff_ffff) as u32).cast_signed()
}

/// All 64 bits in two's complement.
#[inline]
pub fn as_i64(value: u64) -> i64
    ensures same { result ≡ cast_signed w64 value }
{
    value.cast_signed()
}
