//! The last bytes on their way to a file, held until there are enough of them for one call.
ghost use Rattle.std.specs.Prelude.{◌≡◌, ◌+◌, ◌≤◌, ◌<◌, ℤ, List, [], ◌∷◌, ◌++◌, length, take, OnOk, OnErr};
ghost use Rattle.ciff_wire.specs.Varint.{varint};
ghost use Rattle.ciff_wire.specs.Canonical.{message_of, number_field, head_of};
ghost use Rattle.ciff_format.specs.Canonical.{eight_field, bytes_field, posting_fields};
ghost use Rattle.rgb_host.specs.Seen.{Lacks};
ghost use Rattle.ciff_writer.specs.Sending.{Puts, Breaks};

use crate::sizes::posting_size;
use rgb_host::laws::pieces_join;
use rgb_host::{Failed, Host, write_all};
use std::marker::Model;

/// At most N bytes that are still to be appended to a file. Contracts see the list of them.
#[derive(Drop)]
pub struct Buffer<const N: usize> {
    room: [u8; N],
    filled: usize,
}

impl<const N: usize> Model for Buffer<N> {
    ghost use Rattle.std.specs.Prelude.{ℕ, ◌≤◌, List, take};

    ghost Value = { List ℕ };

    ghost view = { λ b. take b.filled b.room };

    ghost invariant = { λ b. b.filled ≤ N };
}

impl<const N: usize> Buffer<N> {
    /// Holds nothing yet.
    pub fn new() -> Self
        ensures { result ≡ [] }
    {
        Buffer {
            room: [0; N],
            filled: 0,
        }
    }

    /// Appends what is held.
    pub fn flush<H: Host>(&mut self, host: &mut H, name: &str) -> Result<(), Failed>
        requires { ¬ Lacks (H.seen host.old) name.now }
        ensures ok { OnOk result
            (Puts name.now [] [] self.old self.new (H.seen host.old) (H.seen host.new)) }
        ensures empty { OnOk result (self.new ≡ []) }
        ensures there { ¬ Lacks (H.seen host.new) name.now }
        ensures fault { OnErr result
            (Breaks name.now [] self.old (H.seen host.old) (H.seen host.new)) }
    {
        pieces_join();
        write_all(host, name, &self.room[..self.filled])?;
        self.filled = 0;
        Ok(())
    }

    /// Appends what is held, unless there is room for so many bytes more.
    #[inline]
    pub fn make_room<H: Host>(
        &mut self,
        most: usize,
        host: &mut H,
        name: &str,
    ) -> Result<(), Failed>
        requires within { most ≤ N }
        requires there { ¬ Lacks (H.seen host.old) name.now }
        ensures ok { OnOk result
            (Puts name.now [] [] self.old self.new (H.seen host.old) (H.seen host.new)) }
        ensures room { OnOk result (length self.new + most ≤ N) }
        ensures there { ¬ Lacks (H.seen host.new) name.now }
        ensures fault { OnErr result
            (Breaks name.now [] self.old (H.seen host.old) (H.seen host.new)) }
    {
        if N - self.filled < most {
            self.flush(host, name)?;
        }
        Ok(())
    }

    /// Sends bytes on their way: it holds them, or appends all where they are more than it can hold.
    pub fn send<H: Host>(&mut self, bytes: &[u8], host: &mut H, name: &str) -> Result<(), Failed>
        requires { ¬ Lacks (H.seen host.old) name.now }
        ensures ok { OnOk result
            (Puts name.now bytes.now [] self.old self.new (H.seen host.old) (H.seen host.new)) }
        ensures there { ¬ Lacks (H.seen host.new) name.now }
        ensures fault { OnErr result
            (Breaks name.now bytes.now self.old (H.seen host.old) (H.seen host.new)) }
    {
        pieces_join();
        if N - self.filled < bytes.len() {
            self.flush(host, name)?;
            if N < bytes.len() {
                return write_all(host, name, bytes);
            }
        }
        self.put(bytes);
        Ok(())
    }

    /// Holds bytes, for which there is room.
    #[inline]
    pub fn put(&mut self, bytes: &[u8])
        requires { length self.old + length bytes.now ≤ N }
        ensures { self.new ≡ self.old ++ bytes.now }
    {
        let end = self.filled + bytes.len();
        let room = &mut self.room[..];
        room[self.filled..end].copy_from_slice(bytes);
        self.filled = end;
    }

    /// Holds one byte, for which there is room.
    #[inline]
    fn put_byte(&mut self, byte: u8)
        requires { length self.old < N }
        ensures { self.new ≡ self.old ++ byte ∷ [] }
    {
        self.room[self.filled] = byte;
        self.filled += 1;
    }

    /// Holds a number as a varint, which takes at most ten bytes.
    #[inline]
    pub fn put_varint(&mut self, value: u64)
        requires { length self.old + 10 ≤ N }
        ensures bytes { self.new ≡ self.old ++ varint value }
        ensures most { length self.new ≤ length self.old + 10 }
    {
        let mut left = value;
        let mut end = self.filled;
        while left >= 128 {
            self.room[end] = 128 + (left % 128) as u8;
            left /= 128;
            end += 1;
        }
        self.room[end] = left as u8;
        self.filled = end + 1;
    }

    /// Holds a number's field, or nothing where the value is 0.
    #[inline]
    pub fn put_number(&mut self, number: u32, value: i64)
        requires some { 0 < number }
        requires most { number < 16 }
        requires room { length self.old + 11 ≤ N }
        ensures bytes { self.new ≡ self.old ++ message_of (number_field number value) }
        ensures most { length self.new ≤ length self.old + 11 }
    {
        if value == 0 {
            return;
        }
        self.put_byte((number * 8) as u8);
        self.put_varint(value.cast_unsigned());
    }

    /// Holds the front of a field of bytes, up to its length.
    #[inline]
    pub fn put_head(&mut self, number: u32, len: u64)
        requires some { 0 < number }
        requires most { number < 16 }
        requires room { length self.old + 11 ≤ N }
        ensures bytes { self.new ≡ self.old ++ head_of number len }
        ensures most { length self.new ≤ length self.old + 11 }
    {
        self.put_byte((number * 8 + 2) as u8);
        self.put_varint(len);
    }

    /// Holds the field of eight bytes, or nothing where they are all zero.
    pub fn put_eight(&mut self, number: u32, bits: u64)
        requires some { 0 < number }
        requires most { number < 16 }
        requires room { length self.old + 9 ≤ N }
        ensures bytes { self.new ≡ self.old ++ message_of (eight_field number bits) }
        ensures most { length self.new ≤ length self.old + 9 }
    {
        if bits == 0 {
            return;
        }
        self.put_byte((number * 8 + 1) as u8);
        self.put(&bits.to_le_bytes());
    }

    /// Holds the field of a posting, which is there even where its message is empty. It takes at most
    /// 24 bytes, and mostly six or seven.
    #[inline]
    pub fn put_posting(&mut self, gap: u32, tf: i32)
        requires { length self.old + 24 ≤ N }
        ensures { self.new
            ≡ self.old ++ message_of (bytes_field 4 (message_of (posting_fields gap tf))) }
    {
        if 0 < tf && tf < 128 && 0 < gap && gap < 16384 {
            if gap < 128 {
                self.put(&[0x22, 4, 0x08, gap as u8, 0x10, tf as u8]);
            } else {
                let low = 128 + (gap % 128) as u8;
                let high = (gap / 128) as u8;
                self.put(&[0x22, 5, 0x08, low, high, 0x10, tf as u8]);
            }
        } else {
            self.put_long_posting(gap, tf);
        }
    }

    /// Holds the field of a posting of any gap and frequency.
    fn put_long_posting(&mut self, gap: u32, tf: i32)
        requires { length self.old + 24 ≤ N }
        ensures { self.new
            ≡ self.old ++ message_of (bytes_field 4 (message_of (posting_fields gap tf))) }
    {
        self.put(&[0x22, posting_size(gap, tf) as u8]);
        self.put_number(1, i64::from(gap));
        self.put_number(2, i64::from(tf));
    }
}
