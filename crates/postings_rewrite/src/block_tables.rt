//! The tables of a block store as they are written, list by list.
ghost use Rattle.std.specs.Prelude.{◌≡◌, ◌-◌, ◌<◌, ◌≤◌, ◌^◌, [], ◌++◌, length, map, slice_range, OnOk, IfOk};
ghost use Rattle.ciff_wire.specs.Varint.{varint};
ghost use Rattle.postings_rewrite.specs.Stores.{AreDocuments};
ghost use Rattle.postings_rewrite.specs.Pieces.{pieces, IsStorable};
ghost use Rattle.postings_rewrite.specs.Blocks.{gaps, skips, skip_count, skip_head, before_of, bytes_of};
ghost use Rattle.postings_rewrite.specs.BlockTables.{AreTables, IsAppended, IsSkipped};

use crate::region::BLOCK;
use crate::room::Room;
use crate::varints::push_varint;
use rgb_base::{OutOfMemory, Posting};
use std::alloc::{AllocError, Global};

/// Lists side by side. A list has a region of bytes: a varint of its length, then a varint of the
/// number of its first skip entry where it has more than one block, then the gaps of its entries.
#[derive(Debug, Drop)]
pub struct Tables {
    /// Where the region of each list begins in `bytes`.
    pub starts: Vec<u32>,
    /// The regions.
    pub bytes: Vec<u8>,
    /// For each block of a list but its first, the least number that its first entry can have.
    pub befores: Vec<u32>,
    /// Where the bytes of that block begin, counted from the list's first gap.
    pub offsets: Vec<u32>,
}

impl Tables {
    /// The tables of the postings of a table whose lists end at these places.
    pub fn of_lists(alloc: Global, ends: &[u32], table: &[Posting]) -> Result<Tables, OutOfMemory>
        requires { IsStorable (2 ^ 32 - 1) ends.now table.now }
        ensures ok { IfOk result (λ tables. AreTables tables
            (pieces 0 ends.now (map (λ posting. posting.doc) table.now))) }
        ensures small { IfOk result (λ tables. length tables.bytes.items < 2 ^ 32) }
    {
        let mut tables = Tables::with_room(alloc, ends, table)?;
        let mut from = 0;
        for list in 0..ends.len() {
            let end = ends[list];
            tables.put_list(postings_between(table, from, end))?;
            from = end;
        }
        small(tables.bytes.len())?;
        Ok(tables)
    }

    /// Empty tables with room for the lists of a table that end at these places.
    fn with_room(alloc: Global, ends: &[u32], table: &[Posting]) -> Result<Tables, OutOfMemory>
        ensures { IfOk result (λ tables. AreTables tables []) }
    {
        let room = Room::of_lists(ends, table);
        small(room.bytes)?;
        Ok(Tables {
            starts: Vec::with_capacity(alloc, ends.len())?,
            bytes: Vec::with_capacity(alloc, room.bytes)?,
            befores: Vec::with_capacity(alloc, room.skips)?,
            offsets: Vec::with_capacity(alloc, room.skips)?,
        })
    }

    /// Appends a list.
    fn put_list(&mut self, postings: &[Posting]) -> Result<(), OutOfMemory>
        requires { AreDocuments (2 ^ 32 - 1) (map (λ posting. posting.doc) postings.now) }
        ensures ok { OnOk result
            (IsAppended self.old (map (λ posting. posting.doc) postings.now) self.new) }
    {
        let start = small(self.bytes.len())?;
        let first = small(self.befores.len())?;
        let len = small(postings.len())?;
        self.starts.push(start)?;
        put_head(&mut self.bytes, len, first)?;
        put_gaps(
            &mut self.bytes,
            &mut self.befores,
            &mut self.offsets,
            postings,
        )
    }
}

/// Appends the length of a list, and the number of its first skip entry where it has one.
fn put_head(bytes: &mut Vec<u8>, len: u32, first: u32) -> Result<(), AllocError>
    ensures ok { OnOk result
        (bytes.new.items ≡ bytes.old.items ++ (varint len ++ skip_head len first)) }
{
    push_varint(bytes, len)?;
    if len > BLOCK {
        push_varint(bytes, first)?;
    }
    Ok(())
}

/// Appends the gaps of a list, and a skip entry for each block but the first.
fn put_gaps(
    bytes: &mut Vec<u8>,
    befores: &mut Vec<u32>,
    offsets: &mut Vec<u32>,
    postings: &[Posting],
) -> Result<(), OutOfMemory>
    requires { AreDocuments (2 ^ 32 - 1) (map (λ posting. posting.doc) postings.now) }
    ensures gaps { OnOk result (bytes.new.items
        ≡ bytes.old.items ++ gaps 0 (map (λ posting. posting.doc) postings.now)) }
    ensures befores { OnOk result (befores.new.items ≡ befores.old.items
        ++ skips before_of (map (λ posting. posting.doc) postings.now)
        (skip_count (length postings.now))) }
    ensures offsets { OnOk result (offsets.new.items ≡ offsets.old.items
        ++ skips bytes_of (map (λ posting. posting.doc) postings.now)
        (skip_count (length postings.now))) }
{
    let from = bytes.len();
    let mut before = 0;
    for entry in 0..postings.len() {
        let offset = bytes.len() - from;
        put_skip(befores, offsets, entry, before, offset)?;
        let doc = postings[entry].doc;
        push_varint(bytes, doc - before)?;
        before = doc + 1;
    }
    Ok(())
}

/// Appends the skip entry of the block that begins at this entry, where one but the first does.
#[inline]
fn put_skip(
    befores: &mut Vec<u32>,
    offsets: &mut Vec<u32>,
    entry: usize,
    before: u32,
    offset: usize,
) -> Result<(), OutOfMemory>
    ensures befores { OnOk result (IsSkipped entry before befores.old.items befores.new.items) }
    ensures offsets { OnOk result (IsSkipped entry offset offsets.old.items offsets.new.items) }
{
    if entry > 0 && entry % (BLOCK as usize) == 0 {
        let offset = small(offset)?;
        befores.push(before)?;
        offsets.push(offset)?;
    }
    Ok(())
}

/// The postings of a table from one place to another.
#[inline]
fn postings_between(table: &[Posting], from: u32, end: u32) -> &[Posting]
    requires order { from ≤ end }
    requires within { end ≤ length table.now }
    ensures same { result.now ≡ slice_range table.now from end }
{
    &table[from as usize..end as usize]
}

/// How many blocks a list of this length has behind its first one.
#[inline]
pub fn skip_count(len: usize) -> usize
    ensures same { result ≡ skip_count len }
{
    len.saturating_sub(1) / BLOCK as usize
}

/// A number of 32 bits. What is larger has no room.
fn small(number: usize) -> Result<u32, OutOfMemory>
    ensures same { IfOk result (λ n. n ≡ number) }
{
    u32::try_from(number).map_err(|_| OutOfMemory)
}
