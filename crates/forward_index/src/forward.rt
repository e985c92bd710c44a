//! The forward index as flat tables, and what it tells.
ghost use Rattle.std.specs.Prelude.{◌≡◌, ◌<◌, ◌≤◌, length, slice_get, slice_range, Some};
ghost use Rattle.forward_index.specs.Forward.{IsForward};
ghost use Rattle.forward_index.specs.Flat.{pieces, AreEnds, start_from};

use std::marker::Model;

/// For each place of the start order the terms of the document there: 4 bytes a term of a document
/// and 8 a document.
#[derive(Drop)]
pub struct Forward {
    terms: u32,
    /// Where each place's row ends in `entries`.
    ends: Vec<u32>,
    /// The rows side by side.
    entries: Vec<u32>,
    /// The document at each place.
    documents: Vec<u32>,
}

impl Model for Forward {
    ghost use Rattle.forward_index.specs.Forward.{ForwardIndex};

    ghost Value = { ForwardIndex };

    ghost use Rattle.forward_index.specs.Flat.{forward_in, IsFlat};

    ghost view = { forward_in };

    ghost invariant = { IsFlat };
}

impl Forward {
    /// The forward index of these tables.
    pub(crate) fn from_tables(
        terms: u32,
        ends: Vec<u32>,
        entries: Vec<u32>,
        documents: Vec<u32>,
    ) -> Forward
        requires ends { AreEnds 0 ends.items (length entries.items) }
        requires sound { IsForward (record {
          terms = terms;
          rows = pieces 0 ends.items entries.items;
          documents = documents.items;
        }) }
        ensures same { result ≡ record {
          terms = terms;
          rows = pieces 0 ends.items entries.items;
          documents = documents.items;
        } }
    {
        Forward {
            terms,
            ends,
            entries,
            documents,
        }
    }

    /// What each forward index keeps.
    pub fn is_sound(&self)
        ensures sound { IsForward self.now }
    {
        let _ = &self.ends;
    }

    /// The number of documents.
    pub fn docs(&self) -> u32
        ensures same { result ≡ length self.now.rows }
    {
        self.ends.len() as u32
    }

    /// The number of terms, those that no row has included.
    pub fn terms(&self) -> u32
        ensures same { result ≡ self.now.terms }
    {
        self.terms
    }

    /// The terms of the document at a place, which strictly rise.
    pub fn terms_of(&self, place: u32) -> &[u32]
        requires { place < length self.now.rows }
        ensures same { slice_get self.now.rows place ≡ Some result.now }
    {
        let from = row_start(&self.ends, place);
        let end = self.ends[place as usize];
        entries_between(&self.entries, from, end)
    }

    /// The document at a place.
    pub fn document_at(&self, place: u32) -> u32
        requires { place < length self.now.rows }
        ensures same { slice_get self.now.documents place ≡ Some result }
    {
        self.documents[place as usize]
    }
}

/// Where the row of a place begins.
pub(crate) fn row_start(ends: &[u32], place: u32) -> u32
    requires { place < length ends.now }
    ensures same { result ≡ start_from 0 ends.now place }
{
    if place == 0 {
        0
    } else {
        ends[place as usize - 1]
    }
}

/// The entries of a table from one place to another.
pub(crate) fn entries_between(entries: &[u32], from: u32, end: u32) -> &[u32]
    requires order { from ≤ end }
    requires within { end ≤ length entries.now }
    ensures same { result.now ≡ slice_range entries.now from end }
{
    &entries[from as usize..end as usize]
}
