//! A store in flat tables.
ghost use Rattle.std.specs.Prelude.{◌≡◌, ◌^◌, ◌<◌, ◌≤◌, length, map, slice_get, slice_range, Some, IfOk};
ghost use Rattle.postings_rewrite.specs.Stores.{AreDocuments, stored_of, IsStoredRenumbered};
ghost use Rattle.postings_rewrite.specs.Pieces.{stored_in, IsStorable, start_from};

use crate::renumbering::renumbered_table;
use crate::search::first_from;
use crate::store::{Place, PostingStore};
use rgb_base::{Index, OutOfMemory, Permutation, Posting};
use std::alloc::{AllocError, Global};
use std::marker::Model;
use std::thread::Threads;

/// A store whose lists stand side by side: 4 bytes an entry and 4 a list.
#[derive(Debug, Drop)]
pub struct PlainStore {
    documents: u32,
    /// Where each list ends in `entries`.
    ends: Vec<u32>,
    /// The documents of the lists, side by side.
    entries: Vec<u32>,
}

impl Model for PlainStore {
    ghost use Rattle.postings_rewrite.specs.Stores.{StoredLists};

    ghost Value = { StoredLists };

    ghost use Rattle.postings_rewrite.specs.Plain.{plain_in, IsPlain};

    ghost view = { plain_in };

    ghost invariant = { IsPlain };
}

impl PlainStore {
    /// The store of an index.
    pub fn new(alloc: Global, index: &Index) -> Result<PlainStore, OutOfMemory>
        ensures ok { IfOk result (λ store. store ≡ stored_of index.now) }
    {
        index.is_sound();
        PlainStore::of_table(alloc, index.documents(), index.ends(), index.table())
    }

    /// The store of the index with the new numbers of its documents, made by so many threads. It
    /// doesn't depend on how many. On the way it takes 8 bytes more for each posting.
    pub fn renumbered<R: Threads + Sync>(
        rt: &R,
        alloc: Global,
        index: &Index,
        by: &Permutation,
        workers: u32,
    ) -> Result<PlainStore, OutOfMemory>
        requires len { length by.now ≡ length index.now.documents }
        requires some { 0 < workers }
        requires most { workers ≤ 64 }
        ensures ok { IfOk result (IsStoredRenumbered index.now by.now) }
    {
        let table = renumbered_table(rt, alloc, index, by, workers)?;
        PlainStore::of_table(alloc, index.documents(), index.ends(), &table)
    }

    /// The store of the postings of a table whose lists end at these places.
    fn of_table(
        alloc: Global,
        documents: u32,
        ends: &[u32],
        table: &[Posting],
    ) -> Result<PlainStore, OutOfMemory>
        requires { IsStorable documents ends.now table.now }
        ensures ok { IfOk result (λ store. store ≡ stored_in documents ends.now table.now) }
    {
        let ends = Vec::from_slice(alloc, ends)?;
        let entries = documents_of(alloc, table)?;
        Ok(PlainStore {
            documents,
            ends,
            entries,
        })
    }

    /// The documents of a list.
    fn list(&self, list: u32) -> &[u32]
        requires { list < length self.now.lists }
        ensures same { slice_get self.now.lists list ≡ Some result.now }
        ensures sound { AreDocuments self.now.documents result.now }
        ensures few { length result.now < 2 ^ 32 }
    {
        let from = list_start(&self.ends, list);
        let end = self.ends[list as usize];
        entries_between(&self.entries, from, end)
    }
}

impl PostingStore for PlainStore {
    ghost use Rattle.postings_rewrite.specs.Plain.{stands_plain};
    ghost use Rattle.std.specs.Prelude.{refl};

    ghost stored = { λ store. store };

    ghost stands = { stands_plain };

    fn lists(&self) -> u32 {
        self.ends.len() as u32
    }

    fn documents(&self) -> u32 {
        self.documents
    }

    fn len(&self, list: u32) -> u32 {
        self.list(list).len() as u32
    }

    fn next_geq(&self, list: u32, place: &mut Place, target: u32) -> Option<u32> {
        let numbers = self.list(list);
        let entry = first_from(numbers, place.entry as usize, target);
        place.entry = entry as u32;
        numbers.get(entry).copied()
    }

    ghost starts = { λ store list. refl };
}

/// The documents of the postings.
fn documents_of(alloc: Global, postings: &[Posting]) -> Result<Vec<u32>, AllocError>
    ensures { IfOk result
        (λ documents. documents.items ≡ map (λ posting. posting.doc) postings.now) }
{
    postings.iter().map(|posting| posting.doc).collect(alloc)
}

/// Where a list begins.
fn list_start(ends: &[u32], list: u32) -> u32
    requires { list < length ends.now }
    ensures same { result ≡ start_from 0 ends.now list }
{
    if list == 0 {
        0
    } else {
        ends[list as usize - 1]
    }
}

/// The entries of a table from one place to another.
fn entries_between(entries: &[u32], from: u32, end: u32) -> &[u32]
    requires order { from ≤ end }
    requires within { end ≤ length entries.now }
    ensures same { result.now ≡ slice_range entries.now from end }
{
    &entries[from as usize..end as usize]
}
