//! Numbers of 32 bits as varints, read from and written to tables of bytes.
ghost use Rattle.std.specs.Prelude.{◌≡◌, ℕ, ◌<◌, ◌^◌, ◌≤◌, List, ◌++◌, length, drop, OnOk};
ghost use Rattle.ciff_wire.specs.Varint.{varint};

use ciff_wire::{Varint, put_varint, read_varint, spelling_is_read_again, varint_is_shortest};
use std::alloc::AllocError;

/// The number whose varint stands at the front of the bytes, and how many bytes that takes.
#[inline]
pub fn varint_at(bytes: &[u8]) -> (u32, usize)
    requires { (number : ℕ) × (rest : List ℕ)
        × (number < 2 ^ 32) × (bytes.now ≡ varint number ++ rest) }
    ensures number { (number : ℕ) (rest : List ℕ) → number < 2 ^ 32
        → bytes.now ≡ varint number ++ rest → result.0 ≡ number }
    ensures used { (number : ℕ) (rest : List ℕ) → number < 2 ^ 32
        → bytes.now ≡ varint number ++ rest → result.1 ≡ length (varint number) }
{
    varint_is_shortest();
    spelling_is_read_again();
    match read_varint(bytes) {
        Varint::Done { value, used } => (value as u32, used),
        Varint::Short | Varint::Long => unreachable!(),
    }
}

/// The bytes from a place on.
#[inline]
pub fn bytes_from(bytes: &[u8], from: usize) -> &[u8]
    requires { from ≤ length bytes.now }
    ensures same { result.now ≡ drop from bytes.now }
{
    &bytes[from..]
}

/// Appends the varint of a number.
#[inline]
pub fn push_varint(bytes: &mut Vec<u8>, number: u32) -> Result<(), AllocError>
    ensures ok { OnOk result (bytes.new.items ≡ bytes.old.items ++ varint number) }
{
    let mut spelling = [0; 10];
    let used = put_varint(u64::from(number), &mut spelling);
    bytes.extend_from_slice(&spelling[..used])
}
