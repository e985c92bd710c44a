//! The postings of the list that is being read, until it is closed.
ghost use Rattle.std.specs.Prelude.{◌≡◌, ◌+◌, ◌-◌, ◌<◌, [], length, get_or, All, FitsSigned, IsTrue, IfOk, OnOk, OnErr};
ghost use Rattle.std.specs.Int.{w32};
ghost use Rattle.rgb_base.specs.Parts.{IsPostings};
ghost use Rattle.rgb_base.specs.Building.{with_posting, with_postings, IsNextDocument, IsFullOfPostings};
ghost use Rattle.ciff_reader.specs.Open.{IsOpen, no_posting, alone};
ghost use Rattle.ciff_reader.specs.Listing.{ChangesPostings, without_postings};

use rgb_base::{OutOfMemory, Posting};
use std::alloc::Global;
use std::marker::Model;

/// The open list. Contracts see a building of which nothing else is there yet.
#[derive(Drop)]
pub(crate) struct OpenList {
    documents: u32,
    postings: Vec<Posting>,
}

impl Model for OpenList {
    ghost use Rattle.rgb_base.specs.Building.{Building};
    ghost use Rattle.ciff_reader.specs.Open.{IsOpen, alone};

    ghost Value = { Building };

    ghost view = { λ list. alone list.documents list.postings.items };

    ghost invariant = { λ list. IsOpen (alone list.documents list.postings.items) };
}

impl OpenList {
    /// No posting of an index of so many documents.
    pub(crate) fn new(alloc: Global, documents: u32) -> OpenList
        ensures none { result ≡ alone documents [] }
    {
        OpenList {
            documents,
            postings: Vec::new(alloc),
        }
    }

    /// What each open list keeps.
    pub(crate) fn is_sound(&self)
        ensures sound { IsOpen self.now }
    {
        let _ = &self.documents;
    }

    /// The number of documents of the index.
    #[inline]
    pub(crate) fn documents(&self) -> u32
        ensures same { result ≡ self.now.documents }
    {
        self.documents
    }

    /// The postings so far.
    #[inline]
    pub(crate) fn postings(&self) -> &[Posting]
        ensures same { result.now ≡ self.now.postings }
    {
        &self.postings
    }

    /// The least document that may come next.
    #[inline]
    fn least(&self) -> u32
        ensures none { length self.now.postings ≡ 0 → result ≡ 0 }
        ensures some { 0 < length self.now.postings → result
            ≡ (get_or self.now.postings (length self.now.postings - 1) no_posting).doc + 1 }
    {
        match self.postings.last() {
            Some(last) => last.doc + 1,
            None => 0,
        }
    }

    /// Puts a posting behind the others, and says whether it could: not where its document isn't
    /// behind theirs, or where they are too many.
    #[inline]
    pub(crate) fn push_posting(&mut self, posting: Posting) -> Result<bool, OutOfMemory>
        ensures same { ChangesPostings self.old self.new }
        ensures pushed { IfOk result (λ pushed. IsTrue pushed
            → self.new ≡ with_posting self.old posting) }
        ensures full { IfOk result (λ pushed. ¬ IsTrue pushed
            → (self.new ≡ self.old)
            × (IsNextDocument self.old posting.doc → IsFullOfPostings self.old)) }
    {
        if posting.doc < self.least() || self.documents <= posting.doc {
            return Ok(false);
        }
        if self.postings.len() >= u32::MAX as usize {
            return Ok(false);
        }
        self.postings.push(posting)?;
        Ok(true)
    }

    /// Puts postings that rise behind the others, all of them or none, and says which.
    #[inline]
    pub(crate) fn push_postings(&mut self, postings: &[Posting]) -> Result<bool, OutOfMemory>
        requires rising { IsPostings self.old.documents postings.now }
        requires fit { All (λ posting. FitsSigned w32 posting.tf) postings.now }
        ensures same { ChangesPostings self.old self.new }
        ensures pushed { IfOk result (λ pushed. IsTrue pushed
            → self.new ≡ with_postings self.old postings.now) }
        ensures left { IfOk result (λ pushed. ¬ IsTrue pushed → self.new ≡ self.old) }
    {
        let [first, ..] = postings else {
            return Ok(false);
        };
        if first.doc < self.least() {
            return Ok(false);
        }
        if u32::MAX as usize - self.postings.len() < postings.len() {
            return Ok(false);
        }
        self.postings.extend_from_slice(postings)?;
        Ok(true)
    }

    /// Lets all postings go, and keeps their room.
    pub(crate) fn clear(&mut self)
        ensures { self.new ≡ without_postings self.old }
    {
        self.postings.clear();
    }
}
