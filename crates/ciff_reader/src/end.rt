//! The end of a file.
ghost use Rattle.std.specs.Prelude.{◌≡◌, ℕ, ◌<◌, List, length, IfErr, OnOk};
ghost use Rattle.ciff_format.specs.declared.cause.Cause.TheVariants.{Trailing};
ghost use Rattle.ciff_reader.specs.Window.{Opens, ExplainsWhere};

use crate::error::ReadError;
use crate::window::Window;
use ciff_format::Cause;
use rgb_host::Host;

/// Sees that no byte follows the last message.
pub(crate) fn expect_end<H: Host>(
    window: &mut Window,
    host: &mut H,
    name: &str,
) -> Result<(), ReadError>
    ensures ok { OnOk result ((file : List ℕ)
        → Opens (H.seen host.old) name.now window.old file → window.old.place ≡ length file) }
    ensures same { OnOk result (H.seen host.new ≡ H.seen host.old) }
    ensures error { IfErr result (λ error.
        ExplainsWhere (Opens (H.seen host.old) name.now window.old)
        (λ file place cause.
        (place ≡ window.old.place) × (place < length file) × (cause ≡ Trailing))
        error name.now (H.seen host.old) (H.seen host.new)) }
{
    let place = window.place();
    let trailing = ReadError::Malformed {
        place,
        cause: Cause::Trailing,
    };
    if !window.bytes().is_empty() {
        return Err(trailing);
    }
    match window.fill(host, name) {
        Ok(0) => Ok(()),
        Ok(_) => Err(trailing),
        Err(error) => Err(error),
    }
}
