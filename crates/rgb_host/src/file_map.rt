//! Files by name, which contracts see as a finite map.
ghost use Rattle.std.specs.Prelude.{◌≡◌, [], option_copied, OnOk, OnErr};
ghost use Rattle.std.specs.FinMap.{get, insert};
ghost use Rattle.rgb_host.specs.Files.{appended};
ghost use Rattle.rgb_host.specs.Memory.{told};

use std::alloc::{AllocError, Global};
use std::collections::BTreeMap;
use std::marker::Model;

/// Files by name. Contracts see the finite map from the bytes of names to bytes.
#[derive(Drop)]
pub struct FileMap {
    value: BTreeMap<String, Vec<u8>>,
}

impl Model for FileMap {
    ghost use Rattle.std.specs.Prelude.{ℕ};
    ghost use Rattle.std.specs.Coded.{coded_list, coded_ℕ};
    ghost use Rattle.std.specs.FinMap as map;
    ghost use Rattle.rgb_host.specs.Files.{Files};
    ghost use Rattle.rgb_host.specs.Memory.{told};

    ghost Value = { Files };

    ghost coded = { map.code (coded_list coded_ℕ) (coded_list coded_ℕ) };

    ghost view = { λ m. told m.value };
}

impl FileMap {
    /// The files of a map, which keeps its room.
    pub fn of(value: BTreeMap<String, Vec<u8>>) -> FileMap
        ensures same { result ≡ told value }
    {
        FileMap { value }
    }

    /// Lends the map.
    pub fn as_map(&self) -> &BTreeMap<String, Vec<u8>>
        ensures same { told result.now ≡ self.now }
    {
        &self.value
    }

    /// The bytes of the named file.
    pub(crate) fn bytes(&self, name: &str) -> Option<&[u8]>
        ensures same { option_copied result ≡ get self.now name.now }
    {
        match self.value.get(name) {
            Some(bytes) => Some(bytes),
            None => None,
        }
    }

    /// Makes the named file empty, whether or not it was there.
    pub(crate) fn clear(&mut self, alloc: Global, name: &str) -> Result<(), AllocError>
        ensures ok { OnOk result (self.new ≡ insert self.old name.now []) }
        ensures there { OnOk result (¬ (get self.new name.now ≡ None)) }
        ensures err { OnErr result (self.new ≡ self.old) }
    {
        let name = String::from_str(alloc, name)?;
        self.value.insert(name, Vec::new(alloc))?;
        Ok(())
    }

    /// Adds the piece at the end of the named file.
    pub(crate) fn extend(&mut self, name: &str, piece: &[u8]) -> Result<(), AllocError>
        requires { ¬ (get self.old name.now ≡ None) }
        ensures ok { OnOk result (self.new ≡ appended name.now piece.now self.old) }
        ensures there { ¬ (get self.new name.now ≡ None) }
        ensures err { OnErr result (self.new ≡ self.old) }
    {
        match self.value.get_mut(name) {
            Some(bytes) => bytes.extend_from_slice(piece),
            None => unreachable!(),
        }
    }
}
