//! Reading a file as an index.
ghost use Rattle.std.specs.Prelude.{◌≡◌, ℕ, ◌^◌, ◌<◌, List, IfOk, IfErr, OnOk};
ghost use Rattle.rgb_base.specs.Parts.{IsIndex};
ghost use Rattle.ciff_format.specs.Accepted.{Accepted};
ghost use Rattle.ciff_format.specs.Growing.{front_of};
ghost use Rattle.ciff_format.specs.Refused.{Refused};
ghost use Rattle.ciff_reader.specs.Reading.{OfFile, Explains};
ghost use Rattle.ciff_reader.specs.Steps.{AtGood};
ghost use Rattle.ciff_reader.specs.Window.{Opens, ExplainsWhere};

use crate::documents::read_records;
use crate::end::expect_end;
use crate::error::{ReadError, Refusal};
use crate::heading::{Heading, read_heading};
use crate::lists::read_lists;
use crate::message::next_message;
use crate::window::Window;
use ciff_format::laws::messages_grow;
use rgb_base::{Index, IndexBuilder};
use rgb_host::Host;
use std::alloc::Global;

/// The index of the named file, which is read from its first byte to its last. A refusal ends the
/// reading as soon as it is decided. The memory that is taken grows with the bytes that are there,
/// never by a length that the file states.
pub fn read_index<H: Host>(alloc: Global, host: &mut H, name: &str) -> Result<Index, ReadError>
    ensures ok { IfOk result (λ index.
        OfFile (H.seen host.old) name.now (λ file. Accepted file index)) }
    ensures sound { IfOk result IsIndex }
    ensures same { OnOk result (H.seen host.new ≡ H.seen host.old) }
    ensures error { IfErr result (λ error.
        Explains error name.now (H.seen host.old) (H.seen host.new)) }
{
    let mut window = Window::new(alloc)?;
    match window.fill(host, name) {
        Ok(_) => {}
        Err(error) => return Err(error),
    }
    read_file(alloc, &mut window, host, name)
}

/// Reads the header that stands at the front of a file.
pub(crate) fn take_heading<H: Host>(
    alloc: Global,
    window: &mut Window,
    host: &mut H,
    name: &str,
) -> Result<Heading, ReadError>
    requires { window.old.place ≡ 0 }
    ensures few_lists { IfOk result (λ heading. heading.lists < 2 ^ 31) }
    ensures ok { IfOk result (λ heading. (file : List ℕ)
        → Opens (H.seen host.old) name.now window.old file
        → AtGood (H.seen host.old) name.now window.new
        (front_of heading.header heading.lists heading.documents) file) }
    ensures same { OnOk result (H.seen host.new ≡ H.seen host.old) }
    ensures error { IfErr result (λ error.
        ExplainsWhere (Opens (H.seen host.old) name.now window.old)
        Refused error name.now (H.seen host.old) (H.seen host.new)) }
{
    messages_grow();
    let place = window.place();
    let span = match next_message(window, host, name) {
        Ok(span) => span,
        Err(error) => return Err(error),
    };
    let end = span.from + span.size;
    let heading = match read_heading(alloc, &window.bytes()[span.from..end]) {
        Ok(heading) => heading,
        Err(Refusal::Cause(cause)) => return Err(ReadError::Malformed { place, cause }),
        Err(Refusal::OutOfMemory) => return Err(ReadError::OutOfMemory),
    };
    window.advance(end);
    Ok(heading)
}

/// Reads a whole file, of which nothing was let go yet.
fn read_file<H: Host>(
    alloc: Global,
    window: &mut Window,
    host: &mut H,
    name: &str,
) -> Result<Index, ReadError>
    requires { window.old.place ≡ 0 }
    ensures ok { IfOk result (λ index. (file : List ℕ)
        → Opens (H.seen host.old) name.now window.old file → Accepted file index) }
    ensures sound { IfOk result IsIndex }
    ensures same { OnOk result (H.seen host.new ≡ H.seen host.old) }
    ensures error { IfErr result (λ error.
        ExplainsWhere (Opens (H.seen host.old) name.now window.old)
        Refused error name.now (H.seen host.old) (H.seen host.new)) }
{
    let heading = match take_heading(alloc, window, host, name) {
        Ok(heading) => heading,
        Err(error) => return Err(error),
    };
    let lists = heading.lists;
    let Ok(mut builder) = IndexBuilder::new(alloc, heading.header, heading.documents) else {
        return Err(ReadError::OutOfMemory);
    };
    match read_lists(alloc, lists, window, &mut builder, host, name) {
        Ok(()) => {}
        Err(error) => return Err(error),
    }
    match read_records(alloc, window, &mut builder, host, name) {
        Ok(()) => {}
        Err(error) => return Err(error),
    }
    match expect_end(window, host, name) {
        Ok(()) => Ok(builder.finish()),
        Err(error) => Err(error),
    }
}
