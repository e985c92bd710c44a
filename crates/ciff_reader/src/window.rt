//! The bytes of a file that were read and aren't done with.
ghost use Rattle.std.specs.Prelude.{◌≡◌, ℕ, ◌+◌, ◌^◌, ◌<◌, ◌≤◌, List, [], ◌++◌, length, take, vec_len, IfOk, IfErr, OnOk};
ghost use Rattle.rgb_host.specs.Seen.{Lacks};
ghost use Rattle.ciff_reader.specs.Window.{IsFile, IsAt, IsAtEnd, IsNextPiece, Stops, without};

use crate::error::ReadError;
use rgb_host::Host;
use std::alloc::{AllocError, Global};
use std::marker::Model;

/// How many bytes one read asks for.
const PIECE: usize = 0x1_0000;

/// A place of a file, and the bytes from there on that were read. Contracts see these two.
#[derive(Drop)]
pub(crate) struct Window {
    bytes: Vec<u8>,
    /// How many of the bytes in front are done with.
    start: usize,
    place: u64,
    /// Room for one read.
    piece: Vec<u8>,
}

impl Model for Window {
    ghost use Rattle.std.specs.Prelude.{ℕ, ◌≤◌, ◌<◌, ◌^◌, drop, vec_len};
    ghost use Rattle.ciff_reader.specs.Window.{Held};

    ghost Value = { Held };

    ghost view = { λ w. record { place = w.place; bytes = drop w.start w.bytes.items } };

    ghost invariant = { λ w. (w.start ≤ vec_len w.bytes) × (w.place ≤ 2 ^ 41)
        × (0 < vec_len w.piece) };
}

impl Window {
    /// Holds nothing of a file yet.
    pub(crate) fn new(alloc: Global) -> Result<Window, AllocError>
        ensures { IfOk result (λ window. window ≡ record { place = 0; bytes = [] }) }
    {
        Ok(Window {
            bytes: Vec::new(alloc),
            start: 0,
            place: 0,
            piece: vec![in alloc; 0u8; PIECE]?,
        })
    }

    /// The place of the first byte that is held.
    #[inline]
    pub(crate) fn place(&self) -> u64
        ensures same { result ≡ self.now.place }
        ensures near { result ≤ 2 ^ 41 }
    {
        self.place
    }

    /// The bytes that are held.
    #[inline]
    pub(crate) fn bytes(&self) -> &[u8]
        ensures same { result.now ≡ self.now.bytes }
    {
        &self.bytes[self.start..]
    }

    /// Lets the first bytes go.
    #[inline]
    pub(crate) fn advance(&mut self, n: usize)
        requires within { n ≤ length self.old.bytes }
        requires near { self.old.place + n ≤ 2 ^ 41 }
        ensures { self.new ≡ without n self.old }
    {
        self.start += n;
        self.place += n as u64;
    }

    /// Reads one more piece, and answers how many bytes it has. 0 says that none was left.
    pub(crate) fn fill<H: Host>(&mut self, host: &mut H, name: &str) -> Result<usize, ReadError>
        ensures place { OnOk result (self.new.place ≡ self.old.place) }
        ensures more { IfOk result (λ n. length self.new.bytes ≡ length self.old.bytes + n) }
        ensures at { OnOk result ((file : List ℕ) → IsFile (H.seen host.old) name.now file
            → IsAt self.old file → IsAt self.new file) }
        ensures end { IfOk result (λ n. n ≡ 0 → (file : List ℕ)
            → IsFile (H.seen host.old) name.now file → IsAt self.old file → IsAtEnd self.old file) }
        ensures there { OnOk result (¬ Lacks (H.seen host.old) name.now) }
        ensures same { OnOk result (H.seen host.new ≡ H.seen host.old) }
        ensures error { IfErr result (λ error.
            Stops error name.now (H.seen host.old) (H.seen host.new)) }
    {
        self.close_up();
        let at = self.place + (self.bytes.len() - self.start) as u64;
        read_piece(&mut self.piece, at, &mut self.bytes, host, name)
    }

    /// Moves what is held to the front of its room.
    fn close_up(&mut self)
        ensures { self.new ≡ self.old }
    {
        // A long message takes many pieces, and is moved once.
        if self.start == 0 {
            return;
        }
        let held = self.bytes.len() - self.start;
        self.bytes.copy_within(self.start.., 0);
        self.bytes.truncate(held);
        self.start = 0;
    }
}

/// Reads into the piece, and puts what was read behind the bytes that were read before.
fn read_piece<H: Host>(
    piece: &mut [u8],
    at: u64,
    bytes: &mut Vec<u8>,
    host: &mut H,
    name: &str,
) -> Result<usize, ReadError>
    requires { 0 < length piece.old }
    ensures kept { vec_len bytes.old ≤ vec_len bytes.new }
    ensures more { IfOk result (λ n. vec_len bytes.new ≡ vec_len bytes.old + n) }
    ensures items { IfOk result (λ n.
        bytes.new.items ≡ bytes.old.items ++ take n piece.new) }
    ensures piece { IfOk result (λ n. (file : List ℕ) → IsFile (H.seen host.old) name.now file
        → IsNextPiece file at bytes.old.items bytes.new.items n) }
    ensures there { OnOk result (¬ Lacks (H.seen host.old) name.now) }
    ensures same { OnOk result (H.seen host.new ≡ H.seen host.old) }
    ensures error { IfErr result (λ error.
        Stops error name.now (H.seen host.old) (H.seen host.new)) }
{
    let n = host.read_at(name, at, piece)?;
    bytes.extend_from_slice(&piece[..n])?;
    Ok(n)
}
