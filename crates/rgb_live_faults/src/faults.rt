//! One call of the host fails, for each call in turn until none is left to fail.
use rgb_base::NoPace;
use rgb_host::MemoryHost;
use rgb_live_runs::Live;
use rgb_runs::{SIX, SIX_REORDERED, Setting, bytes_of, has_file, has_told, run_at_pace};
use std::alloc::Global;
use std::sync::Wait;
use std::test::Fail;
use std::thread::Threads;

const WORDS: &str = "live in out queries --depth 1 --leaf 1 --readers 2";

const QUERIES: &[u8] = b"a\nNOT a";

/// Six documents, in one slab.
const LIVE: Live<'static> = Live {
    reordered: "documents 6 lists 2 postings 6\nround 0 0 6 1 76672 -163200\n\
        before gamma 12 delta 15 bytes 6\nafter gamma 10 delta 10 bytes 6\n",
    readers: 2,
    queries: &[(1, 0b1011), (2, 0b11_0100)],
    versions: 2,
    documents: 6,
    orders: &[0, 1, 2, 3, 4, 5, 0, 1, 3, 2, 4, 5],
    names: "d0 d1 d2 d3 d4 d5",
};

/// The bytes of IN and of OUT.
#[derive(Clone, Copy)]
struct Files<'a> {
    six: &'a [u8],
    written: &'a [u8],
}

/// How a run has to end.
#[derive(Clone, Copy, Debug, PartialEq, Eq)]
enum End {
    /// OUT and the text stand whole.
    Whole,
    /// The call that failed broke the run off.
    BrokenOff,
    /// In no other way.
    Wrong,
}

/// The calls that fail.
#[derive(Clone, Copy)]
enum Calls {
    Reads,
    Writes,
}

impl Calls {
    /// The calls of these numbers fail.
    fn failing(self, numbers: &[u64], most: u32) -> Setting<'_> {
        match self {
            Calls::Reads => Setting {
                failing_reads: numbers,
                failing_writes: &[],
                most,
            },
            Calls::Writes => Setting {
                failing_reads: &[],
                failing_writes: numbers,
                most,
            },
        }
    }
}

impl Files<'_> {
    /// Whether OUT is whole, the text is that of such a run, and nothing was warned.
    fn are_whole(self, alloc: Global, host: &MemoryHost) -> Result<bool, Fail> {
        Ok(
            has_file(host, "out", Some(self.written))
                && host.warned().is_empty()
                && LIVE.is_text(alloc, host.printed())?,
        )
    }

    /// Whether OUT and the text are fronts of them, and no text was printed before OUT was whole.
    fn are_cut_off(self, alloc: Global, host: &MemoryHost) -> Result<bool, Fail> {
        let written = host.file("out").unwrap_or(b"");
        Ok(
            self.written.starts_with(written)
                && (host.printed().is_empty() || written == self.written)
                && host.warned() == b"write fault\n".as_slice()
                && LIVE.is_front(alloc, host.printed())?,
        )
    }

    /// Whether IN and QUERIES are as they were.
    fn are_kept(self, host: &MemoryHost) -> bool {
        has_file(host, "in", Some(self.six)) && has_file(host, "queries", Some(QUERIES))
    }

    /// How a run in which such a call fails ended.
    fn end_of(
        self,
        alloc: Global,
        calls: Calls,
        status: u8,
        host: &MemoryHost,
    ) -> Result<End, Fail> {
        let whole = status == 0 && self.are_whole(alloc, host)?;
        let broken_off = match calls {
            Calls::Reads => {
                status == 4 && has_file(host, "out", None) && has_told(host, "", "read fault\n")
            }
            Calls::Writes => status == 5 && self.are_cut_off(alloc, host)?,
        };
        match (self.are_kept(host), whole, broken_off) {
            (true, true, _) => Ok(End::Whole),
            (true, false, true) => Ok(End::BrokenOff),
            _ => Ok(End::Wrong),
        }
    }
}

/// How the run ends in which the call of this number fails.
fn end_at<R: Threads + Wait + Sync + AllocGlobal>(
    rt: &R,
    files: Files<'_>,
    calls: Calls,
    call: u64,
    most: u32,
) -> Result<End, Fail> {
    let named = [("in", files.six), ("queries", QUERIES)];
    let numbers = [call];
    let setting = calls.failing(&numbers, most);
    let (status, host) = run_at_pace(rt, WORDS, &named, setting, &NoPace)?;
    files.end_of(rt.alloc(), calls, status, &host)
}

/// How many calls can fail; nothing where a run ends in another way than it has to.
fn failing_calls<R: Threads + Wait + Sync + AllocGlobal>(
    rt: &R,
    files: Files<'_>,
    calls: Calls,
    most: u32,
) -> Result<Option<u64>, Fail> {
    for call in 1..2000 {
        match end_at(rt, files, calls, call, most)? {
            End::Whole => return Ok(Some(call - 1)),
            End::BrokenOff => {}
            End::Wrong => return Ok(None),
        }
    }
    Ok(None)
}

/// The numbers of calls that can fail, where a call gives or takes 1, 4 or 65536 bytes at most.
fn counts<R: Threads + Wait + Sync + AllocGlobal>(
    rt: &R,
    calls: Calls,
) -> Result<[Option<u64>; 3], Fail> {
    let six = bytes_of(rt.alloc(), SIX)?;
    let written = bytes_of(rt.alloc(), SIX_REORDERED)?;
    let files = Files {
        six: &six,
        written: &written,
    };
    Ok([
        failing_calls(rt, files, calls, 1)?,
        failing_calls(rt, files, calls, 4)?,
        failing_calls(rt, files, calls, 65536)?,
    ])
}

/// 109 bytes and then 7, and a read at the end of each file.
#[test]
fn each_read(rt: HostRuntime) -> Result<(), Fail> {
    let [one, four, all] = counts(&rt, Calls::Reads)?;
    assert_eq!(rt; one, Some(118));
    assert_eq!(rt; four, Some(32));
    assert_eq!(rt; all, Some(4));
    Ok(())
}

/// A creation, 109 bytes of OUT and 304 printed ones. The versions have one digit each, so that each text
/// is as long.
#[test]
fn each_write(rt: HostRuntime) -> Result<(), Fail> {
    let [one, four, all] = counts(&rt, Calls::Writes)?;
    assert_eq!(rt; one, Some(414));
    assert!(rt; four.is_some());
    assert!(rt; all.is_some());
    Ok(())
}
