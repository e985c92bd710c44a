//! Reading short postings one behind another, before they go into the index together.
ghost use Rattle.std.specs.Prelude.{◌≡◌, ◌≤◌, length, take, All, FitsSigned, IsTrue};
ghost use Rattle.std.specs.Int.{w32};
ghost use Rattle.rgb_base.specs.Parts.{IsPostings};
ghost use Rattle.rgb_base.specs.Building.{Building, with_postings};
ghost use Rattle.ciff_reader.specs.declared.list.ListFields.{ListFields};
ghost use Rattle.ciff_reader.specs.Listing.{ReadsList};

use crate::gaps::Gaps;
use crate::short::posting_in_eight;
use ciff_format::laws::{fields_grow, gaps_grow};
use ciff_wire::laws::field_after_field;
use rgb_base::Posting;

/// What short postings in a row say.
#[derive(Clone, Copy)]
pub(crate) struct Run {
    pub gaps: Gaps,
    /// How many they are.
    pub count: usize,
    /// The place behind them in the list's message.
    pub end: usize,
}

/// Reads short postings from a place of the list's message on, up to one that is spelt otherwise or
/// whose gap is bad, and no more than there is room for.
#[inline(never)]
pub(crate) fn read_run(
    message: &[u8],
    start: usize,
    gaps: Gaps,
    documents: u32,
    room: &mut [Posting],
) -> Run
    requires within { start ≤ length message.now }
    requires good { IsTrue gaps.are_good }
    requires few { IsTrue gaps.are_few }
    ensures count { result.count ≤ length room.new }
    ensures behind { start ≤ result.end }
    ensures within { result.end ≤ length message.now }
    ensures rising { IsPostings documents (take result.count room.new) }
    ensures fit { All (λ posting. FitsSigned w32 posting.tf) (take result.count room.new) }
    ensures read { (kept : ListFields) (building : Building) → building.documents ≡ documents
        → ReadsList (take start message.now) kept gaps building
        → ReadsList (take result.end message.now) kept result.gaps
        (with_postings building (take result.count room.new)) }
{
    fields_grow();
    field_after_field();
    gaps_grow();
    let mut count = 0;
    let mut least = gaps.least;
    let mut document = gaps.document;
    let mut rest = &message[start..];
    'postings: while count < room.len() {
        let Some((posting, used)) = posting_in_eight(rest) else {
            break 'postings;
        };
        let gap = i64::from(posting.gap);
        let sum = i64::from(document) + gap;
        if gap < i64::from(least) || i64::from(documents) <= sum {
            break 'postings;
        }
        document = sum as u32;
        room[count] = Posting {
            doc: document,
            tf: posting.tf,
        };
        least = 1;
        count += 1;
        rest = &rest[used..];
    }
    Run {
        gaps: Gaps {
            least,
            document,
            are_good: true,
            are_few: true,
        },
        count,
        end: message.len() - rest.len(),
    }
}
