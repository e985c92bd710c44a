//! A host over the system's files, standard output and standard error.
ghost use Rattle.std.specs.Prelude.{◌≡◌, ◌≤◌, length, IfOk, IsSomeAnd, OnOk, OnErr, None, Ok, string_bytes};
ghost use Rattle.rgb_host.specs.Files.{one_more, Takes};
ghost use Rattle.rgb_host.specs.Real.{one_more_read, one_more_write, one_more_warning};

use crate::host::{Failed, Host, raise};
use std::fs::{File, OpenOptions};
use std::io;
use std::io::{ErrorKind, Write};
use std::marker::Model;
use std::os::unix::fs::FileExt;

/// The host of a running program. Nothing is buffered: what a call took was handed to the system.
/// It keeps the files that it last opened for reading and for writing, so that a piece costs one
/// system call.
#[derive(Drop)]
pub struct RealHost {
    rt: HostRuntime,
    reading: Option<OpenFile>,
    writing: Option<OpenFile>,
    read_faults: u64,
    write_faults: u64,
    warn_faults: u64,
}

/// An open file, with the name by which it was opened.
#[derive(Drop)]
struct OpenFile {
    name: String,
    file: File,
}

impl Model for RealHost {
    ghost use Rattle.rgb_host.specs.Real.{Faults};

    ghost Value = { Faults };

    ghost view = { λ h. record {
      read_faults = h.read_faults;
      write_faults = h.write_faults;
      warn_faults = h.warn_faults;
    } };
}

impl RealHost {
    /// A host that has opened no file yet.
    pub fn new(rt: HostRuntime) -> RealHost
        ensures { result ≡ record { read_faults = 0; write_faults = 0; warn_faults = 0 } }
    {
        RealHost {
            rt,
            reading: None,
            writing: None,
            read_faults: 0,
            write_faults: 0,
            warn_faults: 0,
        }
    }
}

impl Host for RealHost {
    ghost seen = { λ h. record {
      files = None;
      printed = None;
      warned = None;
      read_faults = h.read_faults;
      write_faults = h.write_faults;
      warn_faults = h.warn_faults;
    } };

    fn read_at(&mut self, name: &str, at: u64, buf: &mut [u8]) -> Result<usize, Failed>
        ensures within { IfOk result (λ n. n ≤ length buf.new) }
        ensures ok { OnOk result (self.new ≡ self.old) }
        ensures err { OnErr result (self.new ≡ one_more_read self.old) }
    {
        let given = read_open(self.rt, &mut self.reading, name, at, buf);
        or_count(given, &mut self.read_faults)
    }

    fn create(&mut self, name: &str) -> Result<(), Failed>
        ensures ok { OnOk result (self.new ≡ self.old) }
        ensures err { OnErr result (self.new ≡ one_more_write self.old) }
    {
        let created = create_open(self.rt, &mut self.writing, name);
        or_count(created, &mut self.write_faults)
    }

    fn append(&mut self, name: &str, piece: &[u8]) -> Result<usize, Failed>
        ensures takes { IfOk result (λ n. Takes piece.now n) }
        ensures ok { OnOk result (self.new ≡ self.old) }
        ensures err { OnErr result (self.new ≡ one_more_write self.old) }
    {
        let taken = append_open(self.rt, &mut self.writing, name, piece);
        or_count(taken, &mut self.write_faults)
    }

    fn print(&mut self, piece: &[u8]) -> Result<usize, Failed>
        ensures takes { IfOk result (λ n. Takes piece.now n) }
        ensures ok { OnOk result (self.new ≡ self.old) }
        ensures err { OnErr result (self.new ≡ one_more_write self.old) }
    {
        let taken = write_some(&mut self.rt.stdout(), piece);
        or_count(taken, &mut self.write_faults)
    }

    fn warn(&mut self, piece: &[u8]) -> Result<usize, Failed>
        ensures takes { IfOk result (λ n. Takes piece.now n) }
        ensures ok { OnOk result (self.new ≡ self.old) }
        ensures err { OnErr result (self.new ≡ one_more_warning self.old) }
    {
        let taken = write_some(&mut self.rt.stderr(), piece);
        or_count(taken, &mut self.warn_faults)
    }
}

/// What the system gave, or a failure that is counted.
fn or_count<T>(given: io::Result<T>, faults: &mut u64) -> Result<T, Failed>
    ensures ok { IfOk result (λ value. given ≡ Ok value) }
    ensures kept { OnOk result (faults.new ≡ faults.old) }
    ensures counted { OnErr result (faults.new ≡ one_more faults.old) }
{
    match given {
        Ok(value) => Ok(value),
        Err(_) => {
            raise(faults);
            Err(Failed)
        }
    }
}

impl OpenFile {
    /// Opens the file for reading.
    fn open(rt: HostRuntime, name: &str) -> io::Result<OpenFile>
        ensures named { IfOk result (λ file. string_bytes file.name ≡ name.now) }
    {
        Ok(OpenFile {
            name: String::from_str(rt.alloc(), name)?,
            file: File::open(&rt, name)?,
        })
    }

    /// Makes the file empty, and opens it for writing. The memory is taken first, so that where
    /// there is none nothing was created.
    fn create(rt: HostRuntime, name: &str) -> io::Result<OpenFile>
        ensures named { IfOk result (λ file. string_bytes file.name ≡ name.now) }
    {
        Ok(OpenFile {
            name: String::from_str(rt.alloc(), name)?,
            file: File::create(&rt, name)?,
        })
    }

    /// Opens the file for writing at its end.
    fn append(rt: HostRuntime, name: &str) -> io::Result<OpenFile>
        ensures named { IfOk result (λ file. string_bytes file.name ≡ name.now) }
    {
        Ok(OpenFile {
            name: String::from_str(rt.alloc(), name)?,
            file: OpenOptions::new().append(true).open(&rt, name)?,
        })
    }
}

/// Reads from the file that is open where it has this name, and else opens it; either way it
/// stays open.
fn read_open(
    rt: HostRuntime,
    slot: &mut Option<OpenFile>,
    name: &str,
    at: u64,
    buf: &mut [u8],
) -> io::Result<usize>
    ensures within { IfOk result (λ n. n ≤ length buf.new) }
    ensures named { OnOk result (IsSomeAnd slot.new (λ file. string_bytes file.name ≡ name.now)) }
{
    let open = match slot.take() {
        Some(open) if open.name.as_str() == name => open,
        _ => OpenFile::open(rt, name)?,
    };
    let given = open.file.read_at(buf, at);
    *slot = Some(open);
    given
}

/// Makes the file empty, which then is the one that is open.
fn create_open(rt: HostRuntime, slot: &mut Option<OpenFile>, name: &str) -> io::Result<()>
    ensures named { OnOk result (IsSomeAnd slot.new (λ file. string_bytes file.name ≡ name.now)) }
{
    *slot = Some(OpenFile::create(rt, name)?);
    Ok(())
}

/// Writes to the file that is open where it has this name, and else opens it; either way it
/// stays open.
fn append_open(
    rt: HostRuntime,
    slot: &mut Option<OpenFile>,
    name: &str,
    piece: &[u8],
) -> io::Result<usize>
    ensures takes { IfOk result (λ n. Takes piece.now n) }
    ensures named { OnOk result (IsSomeAnd slot.new (λ file. string_bytes file.name ≡ name.now)) }
{
    let mut open = match slot.take() {
        Some(open) if open.name.as_str() == name => open,
        _ => OpenFile::append(rt, name)?,
    };
    let taken = write_some(&mut open.file, piece);
    *slot = Some(open);
    taken
}

/// Writes once. That no byte of a piece was taken is an error.
fn write_some<W: Write>(writer: &mut W, piece: &[u8]) -> io::Result<usize>
    ensures { IfOk result (λ n. Takes piece.now n) }
{
    let taken = writer.write(piece)?;
    if taken == 0 && !piece.is_empty() {
        return Err(io::Error::from(ErrorKind::WriteZero));
    }
    Ok(taken)
}
