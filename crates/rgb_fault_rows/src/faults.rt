//! Rows in which one call of the host fails, for each call in turn until none is left to fail.
use rgb_host::MemoryHost;
use rgb_runs::{
    MADE_THREE, OF_MADE_THREE, SIX, SIX_REORDERED, Setting, bytes_of, has_told, run_over,
};
use std::test::Fail;
use std::thread::Threads;

/// How many bytes a call gives or takes at most.
const MOSTS: [u32; 3] = [1, 4, 65536];

/// The calls that fail.
#[derive(Clone, Copy)]
enum Calls {
    Reads,
    Writes,
}

impl Calls {
    // The calls of these numbers fail.
    fn failing(self, numbers: &[u64], most: u32) -> Setting<'_> {
        match self {
            Calls::Reads => Setting {
                failing_reads: numbers,
                failing_writes: &[],
                most,
            },
            Calls::Writes => Setting {
                failing_reads: &[],
                failing_writes: numbers,
                most,
            },
        }
    }
}

/// A command over `SIX` and some queries, the bytes that it writes, and the text that it prints.
#[derive(Clone, Copy)]
struct Command<'a> {
    words: &'a str,
    queries: &'a [u8],
    written: &'a [u8],
    printed: &'a str,
}

impl Command<'_> {
    // Whether the file and the text stand whole, and nothing was warned.
    fn is_whole(&self, host: &MemoryHost) -> bool {
        host.file("out").unwrap_or(b"") == self.written && has_told(host, self.printed, "")
    }

    // Whether they are fronts of them, and no text was printed before the file was whole.
    fn is_cut_off(&self, host: &MemoryHost) -> bool {
        let written = host.file("out").unwrap_or(b"");
        self.written.starts_with(written)
            && self.printed.as_bytes().starts_with(host.printed())
            && (host.printed().is_empty() || written == self.written)
            && host.warned() == b"write fault\n".as_slice()
    }

    // Whether the command ended as it has to where such a call failed.
    fn is_broken_off(&self, calls: Calls, status: u8, host: &MemoryHost) -> bool {
        match calls {
            Calls::Reads => {
                status == 4 && host.file("out").is_none() && has_told(host, "", "read fault\n")
            }
            Calls::Writes => status == 5 && self.is_cut_off(host),
        }
    }
}

// How many calls can fail; nothing where a run ends in another way than it has to.
fn failing_calls<R: Threads + Sync + AllocGlobal>(
    rt: &R,
    command: Command<'_>,
    six: &[u8],
    calls: Calls,
    most: u32,
) -> Result<Option<u64>, Fail> {
    for call in 1..2000 {
        let files = [("in", six), ("queries", command.queries)];
        let numbers = [call];
        let setting = calls.failing(&numbers, most);
        let (status, host) = run_over(rt, command.words, &files, setting)?;
        if status == 0 && command.is_whole(&host) {
            return Ok(Some(call - 1));
        }
        if !command.is_broken_off(calls, status, &host) {
            return Ok(None);
        }
    }
    Ok(None)
}

// Whether so many calls of the command can fail, whatever a call gives or takes at most; where it is
// one byte, so many.
fn can_fail<R: Threads + Sync + AllocGlobal>(
    rt: &R,
    command: Command<'_>,
    six: &[u8],
    calls: Calls,
    byte_by_byte: u64,
) -> Result<bool, Fail> {
    for most in MOSTS {
        match failing_calls(rt, command, six, calls, most)? {
            Some(count) if most > 1 || count == byte_by_byte => {}
            _ => return Ok(false),
        }
    }
    Ok(true)
}

// Each command with how many of its reads and of its writes can fail, where a call gives or takes
// one byte: a file's bytes and the read at its end, and a creation, written bytes and printed ones.
#[test]
fn each_call_of_each_command(rt: HostRuntime) -> Result<(), Fail> {
    let six = bytes_of(rt.alloc(), SIX)?;
    let reordered = bytes_of(rt.alloc(), SIX_REORDERED)?;
    let made = bytes_of(rt.alloc(), MADE_THREE)?;
    let table = [
        (
            Command {
                words: "copy in out",
                queries: b"",
                written: &six,
                printed: "documents 6 lists 2 postings 6\n",
            },
            109 + 1,
            1 + 109 + 31,
        ),
        (
            Command {
                words: "report in",
                queries: b"",
                written: b"",
                printed: "documents 6 lists 2 postings 6\ngamma 12 delta 15 bytes 6\n",
            },
            109 + 1,
            57,
        ),
        (
            Command {
                words: "reorder in out --depth 1 --leaf 1",
                queries: b"",
                written: &reordered,
                printed: "documents 6 lists 2 postings 6\nround 0 0 6 1 76672 -163200\n\
                    before gamma 12 delta 15 bytes 6\nafter gamma 10 delta 10 bytes 6\n",
            },
            109 + 1,
            1 + 109 + 124,
        ),
        (
            Command {
                words: "query in queries",
                queries: b"a\nNOT a",
                written: b"",
                printed: "query 1 matches 3\n0 d0\n1 d1\n3 d3\n\
                    query 2 matches 3\n2 d2\n4 d4\n5 d5\n",
            },
            109 + 1 + 7 + 1,
            66,
        ),
        (
            Command {
                words: "make 3 out",
                queries: b"",
                written: &made,
                printed: OF_MADE_THREE,
            },
            0,
            1 + 962 + 111,
        ),
    ];
    for (command, reads, writes) in table {
        assert!(rt; can_fail(&rt, command, &six, Calls::Reads, reads)?);
        assert!(rt; can_fail(&rt, command, &six, Calls::Writes, writes)?);
    }
    Ok(())
}
