//! Texts and postings in flat tables, each with the places at which its parts end.
ghost use Rattle.std.specs.Prelude.{◌≡◌, ◌+◌, ◌<◌, ◌≤◌, ◌^◌, ◌↔◌, ◌++◌, [], ◌∷◌, length, slice_get, slice_range, Some, Contains, IsTrue, IfOk, OnOk, OnErr, sum_by, flat_map};
ghost use Rattle.std.specs.Str.{IsCharBoundary};
ghost use Rattle.rgb_base.specs.Flat.{start_from};

use crate::parts::Posting;
use std::alloc::{AllocError, Global};
use std::marker::Model;

/// The fields `df` and `cf` of a list, as they were read: its document frequency and its
/// collection frequency, 16 bytes together.
#[derive(Clone, Copy, Debug, PartialEq, Eq)]
pub struct Counts {
    pub df: i64,
    pub cf: i64,
}

/// Texts one behind another, with 8 bytes each beside their own. Contracts see the list of them.
#[derive(Drop)]
pub struct TextTable {
    text: String,
    ends: Vec<u64>,
}

impl Model for TextTable {
    ghost use Rattle.std.specs.Prelude.{ℕ, List, string_bytes};
    ghost use Rattle.rgb_base.specs.Flat.{pieces, IsTextTable};

    ghost Value = { List (List ℕ) };

    ghost view = { λ t. pieces 0 t.ends.items (string_bytes t.text) };

    ghost invariant = { λ t. IsTextTable t.ends.items (string_bytes t.text) };
}

impl TextTable {
    /// No texts.
    pub fn new(alloc: Global) -> TextTable
        ensures none { result ≡ [] }
    {
        TextTable {
            text: String::new(alloc),
            ends: Vec::new(alloc),
        }
    }

    /// No texts, with room for so many of so many bytes.
    pub fn with_capacity(alloc: Global, texts: usize, bytes: usize) -> Result<TextTable, AllocError>
        ensures none { IfOk result (λ table. table ≡ []) }
    {
        let text = String::with_capacity(alloc, bytes)?;
        let ends = Vec::with_capacity(alloc, texts)?;
        Ok(TextTable { text, ends })
    }

    /// How many texts there are.
    pub fn len(&self) -> usize
        ensures same { result ≡ length self.now }
    {
        self.ends.len()
    }

    /// How many bytes they have together.
    pub fn size(&self) -> usize
        ensures same { result ≡ sum_by (λ text. length text) self.now }
    {
        self.text.as_str().len()
    }

    /// A text.
    pub fn at(&self, place: usize) -> &str
        requires { place < length self.now }
        ensures same { slice_get self.now place ≡ Some result.now }
    {
        let from = text_start(&self.ends, place);
        let end = self.ends[place];
        text_between(self.text.as_str(), from, end)
    }

    /// Whether one of them is this text.
    pub fn has(&self, text: &str) -> bool
        ensures same { IsTrue result ↔ Contains self.now text.now }
    {
        for place in 0..self.len() {
            if self.at(place) == text {
                return true;
            }
        }
        false
    }

    /// Puts a text behind the others.
    pub fn push(&mut self, text: &str) -> Result<(), AllocError>
        ensures ok { OnOk result (self.new ≡ self.old ++ text.now ∷ []) }
        ensures same { OnErr result (self.new ≡ self.old) }
    {
        self.ends.reserve(1)?;
        self.text.push_str(text)?;
        let end = self.text.as_str().len() as u64;
        let _ = self.ends.push(end);
        Ok(())
    }

    /// A second table like it.
    pub fn copy(&self, alloc: Global) -> Result<TextTable, AllocError>
        ensures ok { IfOk result (λ table. table ≡ self.now) }
    {
        let text = String::from_str(alloc, self.text.as_str())?;
        let ends = Vec::from_slice(alloc, &self.ends)?;
        Ok(TextTable { text, ends })
    }
}

/// The postings of lists one behind another, and behind them those of a list that is open: 8 bytes
/// a posting and 4 a list.
#[derive(Drop)]
pub struct PostingTable {
    table: Vec<Posting>,
    ends: Vec<u32>,
}

impl Model for PostingTable {
    ghost use Rattle.std.specs.Prelude.{◌-◌, drop, vec_len, vec_capacity};
    ghost use Rattle.rgb_base.specs.Flat.{Parted, pieces, last_end, IsPostingTable};

    ghost Value = { Parted };

    ghost view = { λ t. record {
      closed = pieces 0 t.ends.items t.table.items;
      pending = drop (last_end 0 t.ends.items) t.table.items;
      room = vec_capacity t.ends - vec_len t.ends;
    } };

    ghost invariant = { λ t. IsPostingTable t.ends.items t.table.items };
}

impl PostingTable {
    ghost use Rattle.rgb_base.specs.Flat.{pieces, cut_like, AreRunningTotals};
    ghost use Rattle.rgb_base.specs.Table.{AreSplits};

    /// No lists and no postings.
    pub fn new(alloc: Global) -> PostingTable
        ensures closed { result.closed ≡ [] }
        ensures pending { result.pending ≡ [] }
    {
        PostingTable {
            table: Vec::new(alloc),
            ends: Vec::new(alloc),
        }
    }

    /// No lists and no postings, with room for so many of each.
    pub fn with_capacity(
        alloc: Global,
        lists: usize,
        postings: usize,
    ) -> Result<PostingTable, AllocError>
        ensures closed { IfOk result (λ table. table.closed ≡ []) }
        ensures pending { IfOk result (λ table. table.pending ≡ []) }
    {
        let table = Vec::with_capacity(alloc, postings)?;
        let ends = Vec::with_capacity(alloc, lists)?;
        Ok(PostingTable { table, ends })
    }

    /// The parts of a table that end at these places.
    pub fn of(table: Vec<Posting>, ends: Vec<u32>) -> PostingTable
        requires splits { AreSplits 0 ends.items (length table.items) }
        requires small { length table.items < 2 ^ 32 }
        ensures closed { result.closed ≡ pieces 0 ends.items table.items }
        ensures pending { result.pending ≡ [] }
    {
        PostingTable { table, ends }
    }

    /// How many postings there are.
    pub fn len(&self) -> u32
        ensures same { result
            ≡ sum_by (λ part. length part) self.now.closed + length self.now.pending }
    {
        self.table.len() as u32
    }

    /// The postings of a list that is closed.
    pub fn part(&self, list: usize) -> &[Posting]
        requires { list < length self.now.closed }
        ensures same { slice_get self.now.closed list ≡ Some result.now }
    {
        let from = list_start(&self.ends, list);
        let end = self.ends[list];
        postings_between(&self.table, from, end)
    }

    /// Where the part of each list ends.
    pub fn ends(&self) -> &[u32]
        ensures same { AreRunningTotals self.now.closed result.now }
    {
        &self.ends
    }

    /// All postings.
    pub fn table(&self) -> &[Posting]
        ensures same { result.now ≡ flat_map (λ part. part) self.now.closed ++ self.now.pending }
    {
        &self.table
    }

    /// Puts a posting behind those of the open list.
    #[inline]
    pub fn push(&mut self, posting: Posting) -> Result<(), AllocError>
        requires { sum_by (λ part. length part) self.old.closed
            + (length self.old.pending + 1) < 2 ^ 32 }
        ensures closed { self.new.closed ≡ self.old.closed }
        ensures ok { OnOk result (self.new.pending ≡ self.old.pending ++ posting ∷ []) }
        ensures same { OnErr result (self.new ≡ self.old) }
    {
        self.table.push(posting)?;
        Ok(())
    }

    /// Puts postings behind those of the open list.
    pub fn extend(&mut self, postings: &[Posting]) -> Result<(), AllocError>
        requires { sum_by (λ part. length part) self.old.closed
            + (length self.old.pending + length postings.now) < 2 ^ 32 }
        ensures closed { self.new.closed ≡ self.old.closed }
        ensures ok { OnOk result (self.new.pending ≡ self.old.pending ++ postings.now) }
        ensures same { OnErr result (self.new ≡ self.old) }
    {
        self.table.extend_from_slice(postings)?;
        Ok(())
    }

    /// Puts a list with these postings behind the others, where no list is open.
    pub fn push_list(&mut self, postings: &[Posting]) -> Result<(), AllocError>
        requires none_pending { self.old.pending ≡ [] }
        requires small { sum_by (λ part. length part) self.old.closed
            + length postings.now < 2 ^ 32 }
        ensures closed { OnOk result (self.new.closed ≡ self.old.closed ++ postings.now ∷ []) }
        ensures pending { OnOk result (self.new.pending ≡ []) }
    {
        self.ends.reserve(1)?;
        self.table.extend_from_slice(postings)?;
        let stop = self.table.len() as u32;
        let _ = self.ends.push(stop);
        Ok(())
    }

    /// Takes room for the end of one more list.
    pub fn reserve_end(&mut self) -> Result<(), AllocError>
        ensures closed { self.new.closed ≡ self.old.closed }
        ensures pending { self.new.pending ≡ self.old.pending }
        ensures ok { OnOk result (0 < self.new.room) }
    {
        self.ends.reserve(1)
    }

    /// Closes the open list, and opens the next one.
    pub fn close(&mut self)
        requires { 0 < self.old.room }
        ensures closed { self.new.closed ≡ self.old.closed ++ self.old.pending ∷ [] }
        ensures pending { self.new.pending ≡ [] }
    {
        let end = self.table.len() as u32;
        let _ = self.ends.push(end);
    }

    /// The same parts of another table.
    pub fn with(&self, alloc: Global, table: Vec<Posting>) -> Result<PostingTable, AllocError>
        requires { length table.items
            ≡ sum_by (λ part. length part) self.now.closed + length self.now.pending }
        ensures closed { IfOk result
            (λ parts. parts.closed ≡ cut_like self.now.closed table.items) }
        ensures pending { IfOk result (λ parts. length parts.pending ≡ length self.now.pending) }
    {
        let ends = Vec::from_slice(alloc, &self.ends)?;
        Ok(PostingTable { table, ends })
    }
}

/// Where a text begins.
fn text_start(ends: &[u64], place: usize) -> u64
    requires { place < length ends.now }
    ensures same { result ≡ start_from 0 ends.now place }
{
    if place == 0 { 0 } else { ends[place - 1] }
}

/// Where the part of a list begins.
fn list_start(ends: &[u32], list: usize) -> u32
    requires { list < length ends.now }
    ensures same { result ≡ start_from 0 ends.now list }
{
    if list == 0 { 0 } else { ends[list - 1] }
}

/// The bytes of a text from one place to another.
fn text_between(text: &str, from: u64, end: u64) -> &str
    requires order { from ≤ end }
    requires start { 0 < from → IsCharBoundary text.now from }
    requires stop { IsCharBoundary text.now end }
    ensures same { result.now ≡ slice_range text.now from end }
{
    &text[from as usize..end as usize]
}

/// The postings of a table from one place to another.
fn postings_between(table: &[Posting], from: u32, end: u32) -> &[Posting]
    requires order { from ≤ end }
    requires within { end ≤ length table.now }
    ensures same { result.now ≡ slice_range table.now from end }
{
    &table[from as usize..end as usize]
}
