//! A list of a block store as it is read.
ghost use Rattle.std.specs.Prelude.{◌≡◌, ℕ, ◌+◌, ◌^◌, ◌<◌, ◌≤◌, List, length, slice_index, slice_range};
ghost use Rattle.postings_rewrite.specs.Places.{StandsIn, IsNext};
ghost use Rattle.postings_rewrite.specs.Blocks.{IsBefore, IsAhead, IsHead, place_behind};

use crate::search::first_from;
use crate::store::Place;
use crate::varints::{bytes_from, varint_at};
use std::marker::Model;

/// The number of entries of a block.
pub const BLOCK: u32 = 128;

/// The bytes and the skip entries of a list, which contracts see as the list.
#[derive(Drop)]
pub struct Region<'a> {
    /// The number of entries.
    pub len: u32,
    /// The bytes from the first gap on.
    pub gaps: &'a [u8],
    /// The least number that the first entry of each block but the first can have.
    pub befores: &'a [u32],
    /// Where the bytes of each of these blocks begin in the gaps.
    pub offsets: &'a [u32],
}

/// The front of a list's bytes.
#[derive(Clone, Copy)]
pub struct Head<'a> {
    /// The number of entries.
    pub len: u32,
    /// The number of the list's first skip entry, or 0 where it has one block.
    pub first: u32,
    /// The bytes behind it, from the first gap on.
    pub gaps: &'a [u8],
}

impl<'a> Model for Region<'a> {
    ghost use Rattle.std.specs.Prelude.{List, ℕ};

    ghost Value = { List ℕ };

    ghost use Rattle.postings_rewrite.specs.BlockTables.{read_in, IsRegion};

    ghost view = { read_in };

    ghost invariant = { IsRegion };
}

impl Region<'_> {
    /// The number of entries.
    #[inline]
    pub fn len(&self) -> u32
        ensures same { result ≡ length self.now }
    {
        self.len
    }

    /// The place at which the last block begins that can begin with no more than the target, where
    /// that is ahead of this place.
    #[inline]
    pub fn leap(&self, place: Place, target: u32) -> Place
        requires { StandsIn (IsBefore self.now) self.now place }
        ensures ahead { (n : ℕ) → IsBefore self.now place n → IsAhead self.now n target result }
    {
        let block = (place.entry / BLOCK) as usize;
        if self.befores.len() <= block {
            return place;
        }
        let next = first_from(self.befores, block, target.saturating_add(1));
        if next == block {
            return place;
        }
        Place {
            entry: next as u32 * BLOCK,
            bytes: self.offsets[next - 1],
            before: self.befores[next - 1],
        }
    }

    /// Reads on from the place to the first entry that is at least the target, or to the end.
    #[inline]
    pub fn read_on(&self, place: &mut Place, target: u32) -> Option<u32>
        requires { StandsIn (IsBefore self.now) self.now place.old }
        ensures next { (n : ℕ) → IsBefore self.now place.old n
            → IsNext (IsBefore self.now) self.now n target place.new result }
    {
        let mut at = *place;
        while at.entry < self.len() {
            let (number, next) = self.entry_at(at);
            if target <= number {
                *place = at;
                return Some(number);
            }
            at = next;
        }
        *place = at;
        None
    }

    /// The entry that the place stands before, and the place behind it.
    #[inline]
    fn entry_at(&self, place: Place) -> (u32, Place)
        requires stands { IsBefore self.now place place.entry }
        requires within { place.entry < length self.now }
        ensures number { result.0 ≡ slice_index self.now place.entry }
        ensures next { IsBefore self.now result.1 (place.entry + 1) }
    {
        let (gap, used) = self.gap_at(place);
        let number = place.before + gap;
        let next = Place {
            entry: place.entry + 1,
            bytes: place.bytes + used as u32,
            before: number + 1,
        };
        (number, next)
    }

    /// The gap of the entry that the place stands before, and how many bytes it takes.
    #[inline]
    fn gap_at(&self, place: Place) -> (u32, usize)
        requires stands { IsBefore self.now place place.entry }
        requires within { place.entry < length self.now }
        ensures number { place.before + result.0 ≡ slice_index self.now place.entry }
        ensures next { IsBefore self.now (place_behind place result.0 result.1) (place.entry + 1) }
        ensures entry { place.entry + 1 < 2 ^ 32 }
        ensures bytes { place.bytes + result.1 < 2 ^ 32 }
        ensures before { place.before + result.0 + 1 < 2 ^ 32 }
    {
        varint_at(bytes_from(self.gaps, place.bytes as usize))
    }
}

/// The front of the bytes of a list.
#[inline]
pub fn head_of(bytes: &[u8]) -> Head<'_>
    requires { (len first : ℕ) × (rest : List ℕ) × IsHead bytes.now len first rest }
    ensures len { (len first : ℕ) (rest : List ℕ) → IsHead bytes.now len first rest
        → result.len ≡ len }
    ensures first { (len first : ℕ) (rest : List ℕ) → IsHead bytes.now len first rest
        → 128 < len → result.first ≡ first }
    ensures none { (len first : ℕ) (rest : List ℕ) → IsHead bytes.now len first rest
        → len ≤ 128 → result.first ≡ 0 }
    ensures gaps { (len first : ℕ) (rest : List ℕ) → IsHead bytes.now len first rest
        → result.gaps.now ≡ rest }
{
    let (len, used) = varint_at(bytes);
    let rest = bytes_from(bytes, used);
    if len <= BLOCK {
        return Head {
            len,
            first: 0,
            gaps: rest,
        };
    }
    let (first, used) = varint_at(rest);
    Head {
        len,
        first,
        gaps: bytes_from(rest, used),
    }
}

/// So many numbers from a place on.
#[inline]
pub fn numbers_from(numbers: &[u32], from: usize, count: usize) -> &[u32]
    requires { from + count ≤ length numbers.now }
    ensures same { result.now ≡ slice_range numbers.now from (from + count) }
{
    &numbers[from..from + count]
}
