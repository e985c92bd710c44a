//! A host in memory, which tells everything and fails the calls that it was told to fail.
ghost use Rattle.std.specs.Prelude.{◌≡◌, ℕ, ◌≤◌, ◌<◌, ◌-◌, ◌↔◌, ◌⊎◌, [], min, length, take, drop, IsTrue, IsErr, IfOk, OnOk, OnErr, Contains, option_copied, Some, None};
ghost use Rattle.std.specs.FinMap.{get};
ghost use Rattle.rgb_host.specs.Files.{one_more, Reads, ReadsTold, Takes};
ghost use Rattle.rgb_host.specs.Memory.{IsReadListed, IsWriteListed, given, taken, read_made, read_failed, created, file_grown, print_grown, warning_grown, write_failed, warn_failed};

use crate::file_map::FileMap;
use crate::host::{Failed, Host, raise};
use crate::numbers::Numbers;
use std::alloc::Global;
use std::marker::Model;

/// A host for tests. Read calls are numbered from 1, and so are the calls of `create`, `append`,
/// `print` and `warn` together. A call whose number is listed fails.
#[derive(Drop)]
pub struct MemoryHost {
    alloc: Global,
    files: FileMap,
    printed: Vec<u8>,
    warned: Vec<u8>,
    failing_reads: Numbers,
    failing_writes: Numbers,
    most: u32,
    reads: u64,
    writes: u64,
    read_faults: u64,
    write_faults: u64,
    warn_faults: u64,
}

impl Model for MemoryHost {
    ghost use Rattle.std.specs.Prelude.{◌≤◌};
    ghost use Rattle.rgb_host.specs.Memory.{MemoryState, state_code};

    ghost Value = { MemoryState };

    ghost coded = { state_code };

    ghost view = { λ h. record {
      files = h.files;
      printed = h.printed.items;
      warned = h.warned.items;
      failing_reads = h.failing_reads;
      failing_writes = h.failing_writes;
      most = h.most;
      reads = h.reads;
      writes = h.writes;
      read_faults = h.read_faults;
      write_faults = h.write_faults;
      warn_faults = h.warn_faults;
    } };

    ghost invariant = { λ h. 1 ≤ h.most };
}

impl MemoryHost {
    /// A host of these files, before its first call. No call takes or gives more than `most` bytes.
    pub fn new(
        alloc: Global,
        files: FileMap,
        failing_reads: Numbers,
        failing_writes: Numbers,
        most: u32,
    ) -> MemoryHost
        requires { 1 ≤ most }
        ensures { result ≡ record {
          files = files;
          printed = [];
          warned = [];
          failing_reads = failing_reads;
          failing_writes = failing_writes;
          most = most;
          reads = 0;
          writes = 0;
          read_faults = 0;
          write_faults = 0;
          warn_faults = 0;
        } }
    {
        MemoryHost {
            alloc,
            files,
            printed: Vec::new(alloc),
            warned: Vec::new(alloc),
            failing_reads,
            failing_writes,
            most,
            reads: 0,
            writes: 0,
            read_faults: 0,
            write_faults: 0,
            warn_faults: 0,
        }
    }

    /// The bytes of the named file, where there is one.
    pub fn file(&self, name: &str) -> Option<&[u8]>
        ensures { option_copied result ≡ get self.now.files name.now }
    {
        self.files.bytes(name)
    }

    /// What was printed so far.
    pub fn printed(&self) -> &[u8]
        ensures { result.now ≡ self.now.printed }
    {
        &self.printed
    }

    /// What was warned so far.
    pub fn warned(&self) -> &[u8]
        ensures { result.now ≡ self.now.warned }
    {
        &self.warned
    }

    /// The counts of failed reads, writes and warnings.
    #[cfg(test)]
    pub(crate) fn faults(&self) -> [u64; 3] {
        [self.read_faults, self.write_faults, self.warn_faults]
    }
}

impl Host for MemoryHost {
    ghost seen = { λ h. record {
      files = Some h.files;
      printed = Some h.printed;
      warned = Some h.warned;
      read_faults = h.read_faults;
      write_faults = h.write_faults;
      warn_faults = h.warn_faults;
    } };

    fn read_at(&mut self, name: &str, at: u64, buf: &mut [u8]) -> Result<usize, Failed>
        ensures fails { IsErr result
            ↔ ((get self.old.files name.now ≡ None) ⊎ IsReadListed self.old) }
        ensures given { IfOk result (λ n. n ≡ given self.old name.now at (length buf.new)) }
        ensures bytes { IfOk result (λ n. ReadsTold (Some self.old.files) name.now at buf.new n) }
        ensures ok { OnOk result (self.new ≡ read_made self.old) }
        ensures missing { get self.old.files name.now ≡ None → self.new ≡ read_made self.old }
        ensures fault { OnErr result
            ((get self.old.files name.now ≡ None) ⊎ (self.new ≡ read_failed self.old)) }
    {
        let listed = is_next(&mut self.reads, &self.failing_reads);
        let Some(file) = self.files.bytes(name) else {
            return Err(Failed);
        };
        if listed {
            raise(&mut self.read_faults);
            return Err(Failed);
        }
        Ok(copy_part(file, at, self.most as usize, buf))
    }

    fn create(&mut self, name: &str) -> Result<(), Failed>
        ensures listed { IsWriteListed self.old → IsErr result }
        ensures ok { OnOk result (self.new ≡ created name.now self.old) }
        ensures there { OnOk result (¬ (get self.new.files name.now ≡ None)) }
        ensures err { OnErr result (self.new ≡ write_failed self.old) }
    {
        let listed = is_next(&mut self.writes, &self.failing_writes);
        if listed || self.files.clear(self.alloc, name).is_err() {
            raise(&mut self.write_faults);
            return Err(Failed);
        }
        Ok(())
    }

    fn append(&mut self, name: &str, piece: &[u8]) -> Result<usize, Failed>
        requires { ¬ (get self.old.files name.now ≡ None) }
        ensures listed { IsWriteListed self.old → IsErr result }
        ensures taken { IfOk result (λ n. n ≡ taken self.old piece.now) }
        ensures takes { IfOk result (λ n. Takes piece.now n) }
        ensures ok { IfOk result (λ n. self.new ≡ file_grown name.now (take n piece.now) self.old) }
        ensures there { ¬ (get self.new.files name.now ≡ None) }
        ensures err { OnErr result (self.new ≡ write_failed self.old) }
    {
        let listed = is_next(&mut self.writes, &self.failing_writes);
        let taken = piece.len().min(self.most as usize);
        if listed || self.files.extend(name, &piece[..taken]).is_err() {
            raise(&mut self.write_faults);
            return Err(Failed);
        }
        Ok(taken)
    }

    fn print(&mut self, piece: &[u8]) -> Result<usize, Failed>
        ensures listed { IsWriteListed self.old → IsErr result }
        ensures taken { IfOk result (λ n. n ≡ taken self.old piece.now) }
        ensures takes { IfOk result (λ n. Takes piece.now n) }
        ensures ok { IfOk result (λ n. self.new ≡ print_grown (take n piece.now) self.old) }
        ensures err { OnErr result (self.new ≡ write_failed self.old) }
    {
        let listed = is_next(&mut self.writes, &self.failing_writes);
        let taken = piece.len().min(self.most as usize);
        if listed || self.printed.extend_from_slice(&piece[..taken]).is_err() {
            raise(&mut self.write_faults);
            return Err(Failed);
        }
        Ok(taken)
    }

    fn warn(&mut self, piece: &[u8]) -> Result<usize, Failed>
        ensures listed { IsWriteListed self.old → IsErr result }
        ensures taken { IfOk result (λ n. n ≡ taken self.old piece.now) }
        ensures takes { IfOk result (λ n. Takes piece.now n) }
        ensures ok { IfOk result (λ n. self.new ≡ warning_grown (take n piece.now) self.old) }
        ensures err { OnErr result (self.new ≡ warn_failed self.old) }
    {
        let listed = is_next(&mut self.writes, &self.failing_writes);
        let taken = piece.len().min(self.most as usize);
        if listed || self.warned.extend_from_slice(&piece[..taken]).is_err() {
            raise(&mut self.warn_faults);
            return Err(Failed);
        }
        Ok(taken)
    }
}

/// Counts a call, and says whether its number is listed.
fn is_next(calls: &mut u64, listed: &Numbers) -> bool
    ensures counted { calls.new ≡ one_more calls.old }
    ensures listed { IsTrue result ↔ Contains listed.now (one_more calls.old) }
{
    raise(calls);
    listed.as_slice().contains(calls)
}

/// Copies bytes of a file from a place on into the front of the buffer, and answers how many.
fn copy_part(file: &[u8], at: u64, most: usize, buf: &mut [u8]) -> usize
    requires { 1 ≤ most }
    ensures given { result ≡ min most (min (length buf.new) (length file.now - at)) }
    ensures bytes { Reads file.now at buf.new result }
{
    let from = file.len().min(at as usize);
    let left = &file[from..];
    let given = left.len().min(buf.len()).min(most);
    buf[..given].copy_from_slice(&left[..given]);
    given
}
