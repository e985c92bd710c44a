//! The postings of a list, as gaps between their documents.
ghost use Rattle.std.specs.Prelude.{◌≡◌, ◌≤◌, List, [], ◌∷◌, ◌++◌, length, take, IfOk, IsTrue};
ghost use Rattle.ciff_wire.specs.Field.{Entry, entry_of};
ghost use Rattle.rgb_base.specs.Building.{IsNextDocument, IsFullOfPostings, with_posting};
ghost use Rattle.ciff_format.specs.Messages.{PostingRows};
ghost use Rattle.ciff_reader.specs.Says.{SaysPosting};
ghost use Rattle.ciff_reader.specs.declared.list.ListFields.{ListFields};
ghost use Rattle.ciff_reader.specs.Listing.{ChangesPostings, ReadsList, SaysGaps, TakesPosting};

use crate::content::bytes_in;
use crate::open_list::OpenList;
use crate::posting::{PostingFields, read_posting};
use crate::run::read_run;
use crate::short::short_posting;
use ciff_format::laws::{fields_grow, gaps_grow};
use ciff_wire::Field;
use ciff_wire::laws::field_after_field;
use rgb_base::{OutOfMemory, Posting};

/// What the gaps of a list say so far.
#[derive(Clone, Copy)]
pub(crate) struct Gaps {
    /// The least gap that may come next: 0 for the first posting of a list, then 1.
    pub least: u32,
    /// The document that the gaps lead to.
    pub document: u32,
    /// Whether each gap so far is good. Where one isn't, nothing else is kept.
    pub are_good: bool,
    /// Whether the index has room for each posting so far.
    pub are_few: bool,
}

impl Gaps {
    /// One more field of the list's message, or nothing where the posting in it can't be read.
    #[inline]
    pub(crate) fn with_field(
        self,
        field: Field<'_>,
        pending: &mut OpenList,
    ) -> Result<Option<Gaps>, OutOfMemory>
        ensures same { ChangesPostings pending.old pending.new }
        ensures taken { IfOk result (λ after.
            TakesPosting (entry_of field.entry) self pending.old after pending.new) }
    {
        fields_grow();
        if field.number != 4 {
            return Ok(Some(self));
        }
        let Some(message) = bytes_in(field.content) else {
            return Ok(None);
        };
        let Some(posting) = read_posting(message) else {
            return Ok(None);
        };
        Ok(Some(self.with_posting(posting, pending)?))
    }

    /// The short postings one after another from a place of the list's message on, and the place
    /// behind them. `room` holds postings until they are pushed together.
    #[inline(never)]
    pub(crate) fn with_short_postings(
        self,
        message: &[u8],
        start: usize,
        room: &mut [Posting],
        pending: &mut OpenList,
    ) -> Result<(Gaps, usize), OutOfMemory>
        requires { start ≤ length message.now }
        ensures same { ChangesPostings pending.old pending.new }
        ensures behind { IfOk result (λ t. start ≤ t.1) }
        ensures within { IfOk result (λ t. t.1 ≤ length message.now) }
        ensures read { IfOk result (λ t. (kept : ListFields)
            → ReadsList (take start message.now) kept self pending.old
            → ReadsList (take t.1 message.now) kept t.0 pending.new) }
    {
        fields_grow();
        field_after_field();
        let mut gaps = self;
        let mut at = start;
        'postings: loop {
            let (further, behind) = gaps.with_run(message, at, room, pending)?;
            let Some((posting, used)) = short_posting(&message[behind..]) else {
                return Ok((further, behind));
            };
            gaps = further.with_posting(posting, pending)?;
            at = behind + used;
        }
    }

    /// Short postings in a row, which are pushed together. There are none where one of them has to
    /// be looked at by itself.
    fn with_run(
        self,
        message: &[u8],
        start: usize,
        room: &mut [Posting],
        pending: &mut OpenList,
    ) -> Result<(Gaps, usize), OutOfMemory>
        requires { start ≤ length message.now }
        ensures same { ChangesPostings pending.old pending.new }
        ensures behind { IfOk result (λ t. start ≤ t.1) }
        ensures within { IfOk result (λ t. t.1 ≤ length message.now) }
        ensures read { IfOk result (λ t. (kept : ListFields)
            → ReadsList (take start message.now) kept self pending.old
            → ReadsList (take t.1 message.now) kept t.0 pending.new) }
    {
        if !self.are_good || !self.are_few {
            return Ok((self, start));
        }
        let run = read_run(message, start, self, pending.documents(), room);
        if pending.push_postings(&room[..run.count])? {
            Ok((run.gaps, run.end))
        } else {
            Ok((self, start))
        }
    }

    /// One more posting, which is pushed to the open list where its gap is good and there is room.
    #[inline]
    fn with_posting(
        self,
        posting: PostingFields,
        pending: &mut OpenList,
    ) -> Result<Gaps, OutOfMemory>
        ensures same { ChangesPostings pending.old pending.new }
        ensures taken { IfOk result (λ after. (rows : PostingRows) (row : List Entry)
            → SaysPosting row posting → SaysGaps rows self pending.old
            → SaysGaps (rows ++ row ∷ []) after pending.new) }
    {
        gaps_grow();
        if !self.are_good {
            return Ok(self);
        }
        let gap = i64::from(posting.gap);
        let sum = i64::from(self.document) + gap;
        if gap < i64::from(self.least) || i64::from(pending.documents()) <= sum {
            return Ok(Gaps {
                are_good: false,
                ..self
            });
        }
        let document = sum as u32;
        let tf = posting.tf;
        let are_few = self.are_few && pending.push_posting(Posting { doc: document, tf })?;
        Ok(Gaps {
            least: 1,
            document,
            are_good: true,
            are_few,
        })
    }
}
