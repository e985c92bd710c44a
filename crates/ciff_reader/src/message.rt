//! Finding the next message of a file, and having all of it in the window.
ghost use Rattle.std.specs.Prelude.{◌≡◌, ℕ, ◌+◌, ◌^◌, ◌≤◌, List, length, IfOk, IfErr, IfSome, IfNone, OnOk};
ghost use Rattle.ciff_format.specs.Messages.{MessageAt};
ghost use Rattle.ciff_format.specs.declared.cause.Cause.TheVariants.{BadLength};
ghost use Rattle.ciff_reader.specs.Window.{Opens, IsFile, IsAt, ExplainsWhere, IsUnended, IsFar, IsSpan, IsFrameFault, message_in};

use crate::error::ReadError;
use crate::window::Window;
use ciff_format::Cause;
use ciff_wire::{Varint, read_varint};
use rgb_host::Host;

/// The place before which each message ends.
const FURTHEST: u64 = 1 << 41;

/// Where a message lies in the bytes of a window.
#[derive(Clone, Copy)]
pub(crate) struct Span {
    /// Its first byte, behind its length.
    pub from: usize,
    pub size: usize,
}

/// Has the next message in the window, and says where it lies there.
pub(crate) fn next_message<H: Host>(
    window: &mut Window,
    host: &mut H,
    name: &str,
) -> Result<Span, ReadError>
    ensures place { OnOk result (window.new.place ≡ window.old.place) }
    ensures span { IfOk result (IsSpan window.new.place window.new.bytes) }
    ensures at { OnOk result ((file : List ℕ)
        → Opens (H.seen host.old) name.now window.old file → IsAt window.new file) }
    ensures same { OnOk result (H.seen host.new ≡ H.seen host.old) }
    ensures error { IfErr result (λ error. ExplainsWhere
        (Opens (H.seen host.old) name.now window.old)
        (λ file place cause. (place ≡ window.old.place) × IsFrameFault file place cause)
        error name.now (H.seen host.old) (H.seen host.new)) }
{
    'pieces: loop {
        let place = window.place();
        match span_at(place, window.bytes()) {
            Ok(Some(span)) => return Ok(span),
            Ok(None) => {}
            Err(cause) => return Err(ReadError::Malformed { place, cause }),
        }
        let more = match window.fill(host, name) {
            Ok(more) => more,
            Err(error) => return Err(error),
        };
        if more == 0 {
            return Err(ReadError::Malformed {
                place,
                cause: Cause::CutShort,
            });
        }
    }
}

/// The message at the front of bytes that stand at a place, or nothing where bytes are missing.
#[inline]
fn span_at(place: u64, bytes: &[u8]) -> Result<Option<Span>, Cause>
    requires { place ≤ 2 ^ 41 }
    ensures span { IfOk result (λ span. IfSome span (IsSpan place bytes.now)) }
    ensures missing { IfOk result (λ span. IfNone span (IsUnended place bytes.now)) }
    ensures far { IfErr result (λ cause. (cause ≡ BadLength) × IsFar place bytes.now) }
{
    match read_varint(bytes) {
        Varint::Done { value, used } => {
            let from = place + used as u64;
            if FURTHEST < from || FURTHEST - from < value {
                return Err(Cause::BadLength);
            }
            if ((bytes.len() - used) as u64) < value {
                return Ok(None);
            }
            Ok(Some(Span {
                from: used,
                size: value as usize,
            }))
        }
        Varint::Short => Ok(None),
        Varint::Long => Err(Cause::BadLength),
    }
}
