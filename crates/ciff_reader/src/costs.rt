//! Counting what the gaps of a file's index cost, of which no posting is kept.
ghost use Rattle.std.specs.Prelude.{◌≡◌, ℕ, List, IfOk, IfErr, OnOk};
ghost use Rattle.ciff_format.specs.Refused.{Refused};
ghost use Rattle.ciff_reader.specs.Reading.{OfFile, Explains};
ghost use Rattle.ciff_reader.specs.Counting.{CountsFile};
ghost use Rattle.ciff_reader.specs.Window.{Opens, ExplainsWhere};

use crate::counted::count_lists;
use crate::documents::read_records;
use crate::end::expect_end;
use crate::error::ReadError;
use crate::read::take_heading;
use crate::window::Window;
use gap_report::Costs;
use rgb_base::IndexBuilder;
use rgb_host::Host;
use std::alloc::Global;

/// How many documents and lists an index has, and how many postings they have and what their gaps
/// cost.
#[derive(Clone, Copy, Debug, PartialEq, Eq)]
pub struct IndexCosts {
    pub documents: u32,
    pub lists: u32,
    pub costs: Costs,
}

/// The costs of the index of the named file, which is read from its first byte to its last. A file is
/// refused as `read_index` refuses it. The memory that is taken is that of the terms and the names,
/// of one message and of the postings of one list.
pub fn read_costs<H: Host>(alloc: Global, host: &mut H, name: &str) -> Result<IndexCosts, ReadError>
    ensures ok { IfOk result (λ counted.
        OfFile (H.seen host.old) name.now (λ file. CountsFile file counted)) }
    ensures same { OnOk result (H.seen host.new ≡ H.seen host.old) }
    ensures error { IfErr result (λ error.
        Explains error name.now (H.seen host.old) (H.seen host.new)) }
{
    let mut window = Window::new(alloc)?;
    match window.fill(host, name) {
        Ok(_) => {}
        Err(error) => return Err(error),
    }
    count_file(alloc, &mut window, host, name)
}

/// Counts a whole file, of which nothing was let go yet.
fn count_file<H: Host>(
    alloc: Global,
    window: &mut Window,
    host: &mut H,
    name: &str,
) -> Result<IndexCosts, ReadError>
    requires { window.old.place ≡ 0 }
    ensures ok { IfOk result (λ counted. (file : List ℕ)
        → Opens (H.seen host.old) name.now window.old file → CountsFile file counted) }
    ensures same { OnOk result (H.seen host.new ≡ H.seen host.old) }
    ensures error { IfErr result (λ error.
        ExplainsWhere (Opens (H.seen host.old) name.now window.old)
        Refused error name.now (H.seen host.old) (H.seen host.new)) }
{
    let heading = match take_heading(alloc, window, host, name) {
        Ok(heading) => heading,
        Err(error) => return Err(error),
    };
    let lists = heading.lists;
    let Ok(mut builder) = IndexBuilder::new(alloc, heading.header, heading.documents) else {
        return Err(ReadError::OutOfMemory);
    };
    let tally = match count_lists(alloc, lists, window, &mut builder, host, name) {
        Ok(tally) => tally,
        Err(error) => return Err(error),
    };
    match read_records(alloc, window, &mut builder, host, name) {
        Ok(()) => {}
        Err(error) => return Err(error),
    }
    match expect_end(window, host, name) {
        Ok(()) => Ok(IndexCosts {
            documents: builder.documents(),
            lists: builder.lists(),
            costs: Costs::of_tally(tally),
        }),
        Err(error) => Err(error),
    }
}
