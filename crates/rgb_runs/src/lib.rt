//! Runs of the top call over a host in memory, for the crates of worked rows.
#![tactic(auto)]

use rgb_app::run_plain;
use rgb_base::Pace;
use rgb_host::{FileMap, MemoryHost, Numbers};
use std::alloc::Global;
use std::collections::BTreeMap;
use std::sync::Wait;
use std::test::Fail;
use std::thread::Threads;

/// Which calls of the host fail, and how many bytes a call gives or takes at most.
#[derive(Clone, Copy)]
pub struct Setting<'a> {
    pub failing_reads: &'a [u64],
    pub failing_writes: &'a [u64],
    pub most: u32,
}

/// No call fails.
pub const ALL_WELL: Setting<'static> = Setting {
    failing_reads: &[],
    failing_writes: &[],
    most: 65536,
};

/// A run over a host whose file `in` has these bytes, and what it has to leave. Bytes are written as two
/// hexadecimal digits each, and bytes and words are parted by blanks.
#[derive(Clone, Copy)]
pub struct Row<'a> {
    pub words: &'a str,
    pub input: &'a str,
    pub setting: Setting<'a>,
    pub status: u8,
    /// The bytes of the file `out`, or nothing where there is none.
    pub output: Option<&'a str>,
    pub printed: &'a str,
    pub warned: &'a str,
}

/// One list of one posting, and one document: 25 bytes.
pub const ONE: &str = "06 08 01 10 01 18 01 0b 0a 01 61 10 01 18 02 22 02 10 02 05 12 01 78 18 02";

/// Two lists of three postings, and six documents: 109 bytes.
pub const SIX: &str =
    "06 08 01 10 02 18 06 17 0a 01 61 10 03 18 03 22 02 10 01 22 04 08 01 10 01 22 \
    04 08 02 10 01 19 0a 01 62 10 03 18 03 22 04 08 02 10 01 22 04 08 02 10 01 22 04 08 01 10 01 06 \
    12 02 64 30 18 01 08 08 01 12 02 64 31 18 01 08 08 02 12 02 64 32 18 01 08 08 03 12 02 64 33 18 \
    01 08 08 04 12 02 64 34 18 01 08 08 05 12 02 64 35 18 01";

/// `SIX` in the order 0 1 3 2 4 5.
pub const SIX_REORDERED: &str =
    "06 08 01 10 02 18 06 17 0a 01 61 10 03 18 03 22 02 10 01 22 04 08 01 10 01 22 04 08 01 10 01 \
    19 0a 01 62 10 03 18 03 22 04 08 03 10 01 22 04 08 01 10 01 22 04 08 01 10 01 06 12 02 64 30 \
    18 01 08 08 01 12 02 64 31 18 01 08 08 02 12 02 64 33 18 01 08 08 03 12 02 64 32 18 01 08 08 \
    04 12 02 64 34 18 01 08 08 05 12 02 64 35 18 01";

/// The lists of `SIX` over twelve documents.
pub const TWELVE: &str =
    "06 08 01 10 02 18 0c 17 0a 01 61 10 03 18 03 22 02 10 01 22 04 08 01 10 01 22 04 08 02 10 01 \
    19 0a 01 62 10 03 18 03 22 04 08 02 10 01 22 04 08 02 10 01 22 04 08 01 10 01 06 12 02 64 30 \
    18 01 08 08 01 12 02 64 31 18 01 08 08 02 12 02 64 32 18 01 08 08 03 12 02 64 33 18 01 08 08 \
    04 12 02 64 34 18 01 08 08 05 12 02 64 35 18 01 08 08 06 12 02 64 36 18 01 08 08 07 12 02 64 \
    37 18 01 08 08 08 12 02 64 38 18 01 08 08 09 12 02 64 39 18 01 09 08 0a 12 03 64 31 30 18 01 \
    09 08 0b 12 03 64 31 31 18 01";

/// The same in the order 0 1 3 2 4 5 6 to 11.
pub const TWELVE_REORDERED: &str =
    "06 08 01 10 02 18 0c 17 0a 01 61 10 03 18 03 22 02 10 01 22 04 08 01 10 01 22 04 08 01 10 01 \
    19 0a 01 62 10 03 18 03 22 04 08 03 10 01 22 04 08 01 10 01 22 04 08 01 10 01 06 12 02 64 30 \
    18 01 08 08 01 12 02 64 31 18 01 08 08 02 12 02 64 33 18 01 08 08 03 12 02 64 32 18 01 08 08 \
    04 12 02 64 34 18 01 08 08 05 12 02 64 35 18 01 08 08 06 12 02 64 36 18 01 08 08 07 12 02 64 \
    37 18 01 08 08 08 12 02 64 38 18 01 08 08 09 12 02 64 39 18 01 09 08 0a 12 03 64 31 30 18 01 \
    09 08 0b 12 03 64 31 31 18 01";

/// The generated index of three documents, as another program of the same rules writes it.
pub const MADE_THREE: &str =
    "22 08 01 10 33 18 03 20 33 28 03 30 3c 39 00 00 00 00 00 00 34 40 42 0b 6d 61 64 65 20 62 \
    79 20 72 67 62 11 0a 05 77 30 34 30 35 10 01 18 01 22 04 08 02 10 01 11 0a 05 77 30 34 30 \
    38 10 01 18 02 22 04 08 02 10 02 11 0a 05 77 30 34 31 30 10 01 18 02 22 04 08 02 10 02 11 \
    0a 05 77 30 34 31 33 10 01 18 01 22 04 08 02 10 01 11 0a 05 77 30 34 31 35 10 01 18 01 22 \
    04 08 02 10 01 11 0a 05 77 30 34 31 37 10 01 18 01 22 04 08 02 10 01 11 0a 05 77 30 34 31 \
    38 10 01 18 01 22 04 08 02 10 01 11 0a 05 77 30 34 32 35 10 01 18 01 22 04 08 02 10 01 11 \
    0a 05 77 30 34 32 36 10 01 18 01 22 04 08 02 10 01 11 0a 05 77 30 34 32 37 10 01 18 01 22 \
    04 08 02 10 01 11 0a 05 77 30 34 32 39 10 01 18 01 22 04 08 02 10 01 11 0a 05 77 30 34 33 \
    30 10 01 18 01 22 04 08 02 10 01 11 0a 05 77 30 34 33 35 10 01 18 01 22 04 08 02 10 01 11 \
    0a 05 77 30 34 33 37 10 01 18 01 22 04 08 02 10 01 11 0a 05 77 30 34 33 39 10 01 18 01 22 \
    04 08 02 10 01 11 0a 05 77 30 35 32 31 10 01 18 02 22 04 08 01 10 02 11 0a 05 77 30 35 32 \
    33 10 01 18 01 22 04 08 01 10 01 11 0a 05 77 30 35 32 34 10 01 18 01 22 04 08 01 10 01 11 \
    0a 05 77 30 35 32 37 10 01 18 03 22 04 08 01 10 03 11 0a 05 77 30 35 32 38 10 01 18 01 22 \
    04 08 01 10 01 11 0a 05 77 30 35 33 32 10 01 18 01 22 04 08 01 10 01 11 0a 05 77 30 35 34 \
    30 10 01 18 01 22 04 08 01 10 01 11 0a 05 77 30 35 34 36 10 01 18 01 22 04 08 01 10 01 11 \
    0a 05 77 30 35 35 30 10 01 18 01 22 04 08 01 10 01 11 0a 05 77 30 35 35 31 10 01 18 01 22 \
    04 08 01 10 01 11 0a 05 77 30 35 35 32 10 01 18 02 22 04 08 01 10 02 11 0a 05 77 30 35 35 \
    33 10 01 18 01 22 04 08 01 10 01 11 0a 05 77 30 35 35 34 10 01 18 01 22 04 08 01 10 01 11 \
    0a 05 77 30 35 35 39 10 01 18 01 22 04 08 01 10 01 0f 0a 05 77 30 38 38 30 10 01 18 01 22 \
    02 10 01 0f 0a 05 77 30 38 38 32 10 01 18 01 22 02 10 01 0f 0a 05 77 30 38 38 33 10 01 18 \
    01 22 02 10 01 0f 0a 05 77 30 38 38 35 10 01 18 01 22 02 10 01 0f 0a 05 77 30 38 38 36 10 \
    01 18 01 22 02 10 01 0f 0a 05 77 30 38 39 33 10 01 18 01 22 02 10 01 0f 0a 05 77 30 38 39 \
    37 10 01 18 01 22 02 10 01 0f 0a 05 77 30 38 39 39 10 01 18 01 22 02 10 01 0f 0a 05 77 30 \
    39 30 30 10 01 18 01 22 02 10 01 0f 0a 05 77 30 39 30 31 10 01 18 01 22 02 10 01 0f 0a 05 \
    77 30 39 30 32 10 01 18 02 22 02 10 02 0f 0a 05 77 30 39 30 33 10 01 18 01 22 02 10 01 0f \
    0a 05 77 30 39 31 38 10 01 18 03 22 02 10 03 11 0a 05 77 31 34 33 35 10 01 18 01 22 04 08 \
    02 10 01 0f 0a 05 77 31 34 36 38 10 01 18 01 22 02 10 01 0f 0a 05 77 31 35 35 30 10 01 18 \
    01 22 02 10 01 0f 0a 05 77 31 36 32 36 10 01 18 01 22 02 10 01 0f 0a 05 77 31 37 38 33 10 \
    01 18 01 22 02 10 01 11 0a 05 77 31 37 38 38 10 01 18 01 22 04 08 02 10 01 11 0a 05 77 31 \
    38 32 31 10 01 18 01 22 04 08 02 10 01 11 0a 05 77 31 38 33 31 10 01 18 01 22 04 08 01 10 \
    01 11 0a 05 77 31 39 30 33 10 01 18 01 22 04 08 01 10 01 0c 12 08 44 30 30 30 30 30 30 30 \
    18 14 0e 08 01 12 08 44 30 30 30 30 30 30 31 18 14 0e 08 02 12 08 44 30 30 30 30 30 30 32 \
    18 14";

/// What `make` prints of it.
pub const OF_MADE_THREE: &str = "documents 3 lists 51 postings 51\nkept 0\n\
    before gamma 119 delta 153 bytes 51\nafter gamma 119 delta 153 bytes 51\n";

/// The bytes that are written as two hexadecimal digits each.
pub fn bytes_of(alloc: Global, text: &str) -> Result<Vec<u8>, Fail> {
    let mut bytes = Vec::new(alloc);
    for digits in text.split_whitespace() {
        bytes.push(u8::from_str_radix(digits, 16)?)?;
    }
    Ok(bytes)
}

/// The words that blanks part.
pub fn words_of(alloc: Global, text: &str) -> Result<Vec<String>, Fail> {
    let mut words = Vec::new(alloc);
    for word in text.split_whitespace() {
        words.push(String::from_str(alloc, word)?)?;
    }
    Ok(words)
}

/// A host whose file `in` has these bytes.
pub fn host_with(alloc: Global, bytes: &[u8], setting: Setting<'_>) -> Result<MemoryHost, Fail> {
    host_of(alloc, &[("in", bytes)], setting)
}

/// A host of these files.
pub fn host_of(
    alloc: Global,
    named: &[(&str, &[u8])],
    setting: Setting<'_>,
) -> Result<MemoryHost, Fail> {
    let mut files = BTreeMap::new(alloc);
    for (name, bytes) in named {
        files.insert(String::from_str(alloc, *name)?, bytes.to_vec(alloc)?)?;
    }
    let reads = Numbers::of(setting.failing_reads.to_vec(alloc)?);
    let writes = Numbers::of(setting.failing_writes.to_vec(alloc)?);
    Ok(MemoryHost::new(
        alloc,
        FileMap::of(files),
        reads,
        writes,
        setting.most.max(1),
    ))
}

/// The status of a command over a host whose file `in` has these bytes, and that host.
pub fn run<R: Threads + Sync + AllocGlobal>(
    rt: &R,
    words: &str,
    bytes: &[u8],
    setting: Setting<'_>,
) -> Result<(u8, MemoryHost), Fail> {
    run_over(rt, words, &[("in", bytes)], setting)
}

/// The status of a command over a host of these files, and that host.
pub fn run_over<R: Threads + Sync + AllocGlobal>(
    rt: &R,
    words: &str,
    files: &[(&str, &[u8])],
    setting: Setting<'_>,
) -> Result<(u8, MemoryHost), Fail> {
    let words = words_of(rt.alloc(), words)?;
    let mut host = host_of(rt.alloc(), files, setting)?;
    let status = run_plain(rt, rt.alloc(), &words, &mut host);
    Ok((status, host))
}

/// The same by the call that does every command, with a pace that holds its threads.
pub fn run_at_pace<R: Threads + Wait + Sync + AllocGlobal, P: Pace>(
    rt: &R,
    words: &str,
    files: &[(&str, &[u8])],
    setting: Setting<'_>,
    pace: &P,
) -> Result<(u8, MemoryHost), Fail> {
    let words = words_of(rt.alloc(), words)?;
    let mut host = host_of(rt.alloc(), files, setting)?;
    let status = rgb_app::run(rt, rt.alloc(), &words, &mut host, pace);
    Ok((status, host))
}

/// Whether a run leaves what it has to leave, and the file `in` as it was.
pub fn is_met<R: Threads + Sync + AllocGlobal>(rt: &R, row: &Row<'_>) -> Result<bool, Fail> {
    let bytes = bytes_of(rt.alloc(), row.input)?;
    let (status, host) = run(rt, row.words, &bytes, row.setting)?;
    Ok(
        status == row.status
            && has_told(&host, row.printed, row.warned)
            && has_file(&host, "in", Some(&bytes))
            && has_written(rt.alloc(), &host, row.output)?,
    )
}

/// Whether these texts were printed and warned.
pub fn has_told(host: &MemoryHost, printed: &str, warned: &str) -> bool {
    host.printed() == printed.as_bytes() && host.warned() == warned.as_bytes()
}

/// Whether the file has these bytes, or isn't there.
pub fn has_file(host: &MemoryHost, name: &str, bytes: Option<&[u8]>) -> bool {
    host.file(name) == bytes
}

// Whether the file `out` has these bytes, or isn't there.
fn has_written(alloc: Global, host: &MemoryHost, output: Option<&str>) -> Result<bool, Fail> {
    match output {
        None => Ok(has_file(host, "out", None)),
        Some(text) => {
            let bytes = bytes_of(alloc, text)?;
            Ok(has_file(host, "out", Some(&bytes)))
        }
    }
}

/// Whether a command over these bytes ends with status 3 and warns this line, and nothing is created or
/// printed.
pub fn is_refused<R: Threads + Sync + AllocGlobal>(
    rt: &R,
    words: &str,
    bytes: &[u8],
    line: &str,
) -> Result<bool, Fail> {
    let (status, host) = run(rt, words, bytes, ALL_WELL)?;
    Ok(
        status == 3
            && has_told(&host, "", line)
            && has_file(&host, "in", Some(bytes))
            && has_file(&host, "out", None),
    )
}
