//! Reading all bytes of a file that isn't too long.
ghost use Rattle.std.specs.Prelude.{◌≡◌, ℕ, ◌+◌, ◌^◌, ◌<◌, ◌≤◌, List, length, vec_len, IfOk, IfErr, OnOk};
ghost use Rattle.rgb_host.specs.Seen.{Lacks};
ghost use Rattle.query_file.specs.Reading.{OfFile, Explains};
ghost use Rattle.query_file.specs.Steps.{IsFile, IsFront};

use crate::error::QueriesError;
use rgb_host::Host;
use std::alloc::{AllocError, Global};

/// The most bytes that a file of queries has.
const MOST: usize = 0x100_0000;

/// How many bytes one read asks for at most.
const PIECE: usize = 0x1_0000;

/// All bytes of the named file. No byte is read behind the first that is too much.
pub(crate) fn read_bytes<H: Host>(
    alloc: Global,
    host: &mut H,
    name: &str,
) -> Result<Vec<u8>, QueriesError>
    ensures few { IfOk result (λ bytes. vec_len bytes ≤ 2 ^ 24) }
    ensures ok { IfOk result (λ bytes.
        OfFile (H.seen host.old) name.now (λ file. file ≡ bytes.items)) }
    ensures same { OnOk result (H.seen host.new ≡ H.seen host.old) }
    ensures error { IfErr result (λ error.
        Explains error name.now (H.seen host.old) (H.seen host.new)) }
{
    let mut bytes = Vec::new(alloc);
    let mut piece = new_piece(alloc)?;
    'pieces: loop {
        let room = PIECE.min(MOST + 1 - bytes.len());
        let n = match read_piece(&mut piece[..room], &mut bytes, host, name) {
            Ok(n) => n,
            Err(error) => return Err(error),
        };
        if n == 0 {
            return Ok(bytes);
        }
        if bytes.len() > MOST {
            return Err(QueriesError::TooLong);
        }
    }
}

/// Room for one read.
fn new_piece(alloc: Global) -> Result<Vec<u8>, AllocError>
    ensures { IfOk result (λ piece. vec_len piece ≡ 65536) }
{
    vec![in alloc; 0u8; PIECE]
}

/// Reads into the piece, and puts what was read behind the bytes, which are the first of the file.
/// 0 says that none was left.
fn read_piece<H: Host>(
    piece: &mut [u8],
    bytes: &mut Vec<u8>,
    host: &mut H,
    name: &str,
) -> Result<usize, QueriesError>
    requires { 0 < length piece.old }
    ensures within { IfOk result (λ n. n ≤ length piece.new) }
    ensures more { IfOk result (λ n. vec_len bytes.new ≡ vec_len bytes.old + n) }
    ensures front { IfOk result (λ n. (file : List ℕ) → IsFile (H.seen host.old) name.now file
        → IsFront bytes.old.items file → IsFront bytes.new.items file) }
    ensures end { IfOk result (λ n. n ≡ 0 → (file : List ℕ) → IsFile (H.seen host.old) name.now file
        → IsFront bytes.old.items file → file ≡ bytes.new.items) }
    ensures there { OnOk result (¬ Lacks (H.seen host.old) name.now) }
    ensures same { OnOk result (H.seen host.new ≡ H.seen host.old) }
    ensures error { IfErr result (λ error.
        Explains error name.now (H.seen host.old) (H.seen host.new)) }
{
    let n = host.read_at(name, bytes.len() as u64, piece)?;
    bytes.extend_from_slice(&piece[..n])?;
    Ok(n)
}
