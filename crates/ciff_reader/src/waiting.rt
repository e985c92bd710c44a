//! Records that came before their turn.
ghost use Rattle.std.specs.Prelude.{◌≡◌, ℕ, ◌+◌, ◌↔◌, IsTrue, IsSome, Some, None, IfSome, OnOk, OnSome};
ghost use Rattle.std.specs.BTreeMap.{btree_map_len};
ghost use Rattle.ciff_reader.specs.Awaited.{found, StaysBut};

use rgb_base::{DocRecord, OutOfMemory};
use std::alloc::Global;
use std::collections::BTreeMap;

/// Records by their numbers.
#[derive(Drop)]
pub(crate) struct Waiting {
    pub records: BTreeMap<u32, DocRecord>,
}

impl Waiting {
    /// No record waits yet.
    pub(crate) fn new(alloc: Global) -> Waiting
        ensures none { (n : ℕ) → found result n ≡ None }
    {
        Waiting {
            records: BTreeMap::new(alloc),
        }
    }

    /// Whether the record of this number waits.
    pub(crate) fn has(&self, number: u32) -> bool
        ensures same { IsTrue result ↔ IsSome (found self.now number) }
    {
        self.records.contains_key(&number)
    }

    /// Has the record of this number wait.
    pub(crate) fn put(&mut self, number: u32, document: DocRecord) -> Result<(), OutOfMemory>
        ensures put { OnOk result (found self.new number ≡ Some document) }
        ensures others { OnOk result (StaysBut number self.old self.new) }
    {
        self.records.insert(number, document)?;
        Ok(())
    }

    /// Takes out the record of this number, if it waits.
    pub(crate) fn take(&mut self, number: u32) -> Option<DocRecord>
        ensures taken { result ≡ found self.old number }
        ensures gone { found self.new number ≡ None }
        ensures others { StaysBut number self.old self.new }
        ensures fewer { OnSome result
            (btree_map_len self.new.records + 1 ≡ btree_map_len self.old.records) }
    {
        self.records.remove(&number)
    }
}
