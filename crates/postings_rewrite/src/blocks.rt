//! A store whose lists are kept as gaps, in blocks with places to skip to.
ghost use Rattle.std.specs.Prelude.{◌≡◌, ◌^◌, ◌<◌, ◌≤◌, length, IfOk};
ghost use Rattle.postings_rewrite.specs.Stores.{stored_of, list_at, IsStoredRenumbered};
ghost use Rattle.postings_rewrite.specs.Pieces.{stored_in, IsStorable};

use crate::block_tables::{Tables, skip_count};
use crate::region::{Region, head_of, numbers_from};
use crate::renumbering::renumbered_table;
use crate::store::{Place, PostingStore};
use crate::varints::bytes_from;
use rgb_base::{Index, OutOfMemory, Permutation, Posting};
use std::alloc::Global;
use std::marker::Model;
use std::thread::Threads;

/// A store whose lists are kept as gaps in varints, in blocks of 128 entries: 4 bytes a list, a byte
/// or two for its length, one to five bytes an entry, and 8 bytes for each block but the first.
#[derive(Debug, Drop)]
pub struct BlockStore {
    documents: u32,
    tables: Tables,
}

impl Model for BlockStore {
    ghost use Rattle.postings_rewrite.specs.Stores.{StoredLists};

    ghost Value = { StoredLists };

    ghost use Rattle.postings_rewrite.specs.BlockTables.{blocks_in, IsBlocks};

    ghost view = { blocks_in };

    ghost invariant = { IsBlocks };
}

impl BlockStore {
    /// The store of an index.
    pub fn new(alloc: Global, index: &Index) -> Result<BlockStore, OutOfMemory>
        ensures ok { IfOk result (λ store. store ≡ stored_of index.now) }
    {
        index.is_sound();
        BlockStore::of_table(alloc, index.documents(), index.ends(), index.table())
    }

    /// The store of the index with the new numbers of its documents, made by so many threads. It
    /// doesn't depend on how many. On the way it takes 8 bytes more for each posting.
    pub fn renumbered<R: Threads + Sync>(
        rt: &R,
        alloc: Global,
        index: &Index,
        by: &Permutation,
        workers: u32,
    ) -> Result<BlockStore, OutOfMemory>
        requires len { length by.now ≡ length index.now.documents }
        requires some { 0 < workers }
        requires most { workers ≤ 64 }
        ensures ok { IfOk result (IsStoredRenumbered index.now by.now) }
    {
        let table = renumbered_table(rt, alloc, index, by, workers)?;
        BlockStore::of_table(alloc, index.documents(), index.ends(), &table)
    }

    /// The store of the postings of a table whose lists end at these places.
    fn of_table(
        alloc: Global,
        documents: u32,
        ends: &[u32],
        table: &[Posting],
    ) -> Result<BlockStore, OutOfMemory>
        requires { IsStorable documents ends.now table.now }
        ensures ok { IfOk result (λ store. store ≡ stored_in documents ends.now table.now) }
    {
        let tables = Tables::of_lists(alloc, ends, table)?;
        Ok(BlockStore { documents, tables })
    }

    /// What a list is read from.
    #[inline]
    fn region(&self, list: u32) -> Region<'_>
        requires { list < length self.now.lists }
        ensures same { result ≡ list_at self.now list }
    {
        let start = self.tables.starts[list as usize];
        let head = head_of(bytes_from(&self.tables.bytes, start as usize));
        let first = head.first as usize;
        let count = skip_count(head.len as usize);
        Region {
            len: head.len,
            gaps: head.gaps,
            befores: numbers_from(&self.tables.befores, first, count),
            offsets: numbers_from(&self.tables.offsets, first, count),
        }
    }
}

impl PostingStore for BlockStore {
    ghost use Rattle.postings_rewrite.specs.BlockTables.{stands_blocks};
    ghost use Rattle.std.specs.Prelude.{refl};

    ghost stored = { λ store. store };

    ghost stands = { stands_blocks };

    fn lists(&self) -> u32 {
        self.tables.starts.len() as u32
    }

    fn documents(&self) -> u32 {
        self.documents
    }

    fn len(&self, list: u32) -> u32 {
        self.region(list).len()
    }

    fn next_geq(&self, list: u32, place: &mut Place, target: u32) -> Option<u32> {
        let region = self.region(list);
        *place = region.leap(*place, target);
        region.read_on(place, target)
    }

    ghost starts = { λ store list. refl };
}
