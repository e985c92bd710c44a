//! An index that is built piece by piece, each piece looked at once.
ghost use Rattle.std.specs.Prelude.{◌≡◌, ℕ, ◌↔◌, ◌+◌, ◌<◌, ◌^◌, length, All, Contains, FitsSigned, IsTrue, IfOk, IfErr, OnOk, OnErr};
ghost use Rattle.std.specs.Int.{w32};
ghost use Rattle.rgb_base.specs.Marks.{mark_of};
ghost use Rattle.rgb_base.specs.Appended.{IsEnterFault, AreAppended, AreSame};
ghost use Rattle.rgb_base.specs.Parts.{text_size, IsPostings, IsIndex};
ghost use Rattle.rgb_base.specs.Building.{IsBuilding, IsWhole, HasTerm, IsFullOfText, begun, with_posting, with_postings, with_list, with_record, parts_of, IsBeginningFault, IsPostingFault, ArePostingsFault, IsListFault, IsRecordFault};

use crate::checks::{COUNT_LIMIT, TEXT_LIMIT, header_fits};
use crate::columns::{Counts, PostingTable, TextTable};
use crate::error::BuildError;
use crate::index::Index;
use crate::marks::mark_of;
use crate::parts::{Header, Posting};
use indexmap::IndexSet;
use std::alloc::{AllocError, Global};
use std::marker::Model;

/// An index that is not whole yet: its header, the lists that are closed, the postings of the list
/// that is open, and the records from document 0 on. A piece that is refused changes nothing.
#[derive(Drop)]
pub struct IndexBuilder {
    header: Header,
    documents: u32,
    terms: TextTable,
    /// The marks of all terms, and perhaps some of terms that were refused.
    marks: IndexSet<u64>,
    counts: Vec<Counts>,
    postings: PostingTable,
    /// The least document that the open list may take.
    least: u32,
    names: TextTable,
    sizes: Vec<i32>,
}

impl Model for IndexBuilder {
    ghost use Rattle.rgb_base.specs.Building.{Building};

    ghost Value = { Building };

    ghost use Rattle.rgb_base.specs.Kept.{building_in, IsFlatBuilding};

    ghost view = { building_in };

    ghost invariant = { IsFlatBuilding };
}

impl IndexBuilder {
    /// Begins an index of so many documents with its header.
    pub fn new(alloc: Global, header: Header, documents: u32) -> Result<IndexBuilder, BuildError>
        ensures ok { IfOk result (λ builder. builder ≡ begun header documents) }
        ensures fault { IfErr result (IsBeginningFault header documents) }
    {
        if COUNT_LIMIT <= documents as usize {
            return Err(BuildError::Counts);
        }
        if TEXT_LIMIT < header.description.as_str().len() as u64 {
            return Err(BuildError::Size);
        }
        header_fits(&header);
        Ok(IndexBuilder {
            header,
            documents,
            terms: TextTable::new(alloc),
            marks: IndexSet::new(alloc),
            counts: Vec::new(alloc),
            postings: PostingTable::new(alloc),
            least: 0,
            names: TextTable::new(alloc),
            sizes: Vec::new(alloc),
        })
    }

    /// What each builder keeps.
    pub fn is_sound(&self)
        ensures sound { IsBuilding self.now }
    {
        let _ = &self.header;
    }

    /// The number of documents that the index is to have.
    pub fn documents(&self) -> u32
        ensures same { result ≡ self.now.documents }
    {
        self.documents
    }

    /// The number of lists that are closed.
    pub fn lists(&self) -> u32
        ensures same { result ≡ length self.now.lists }
    {
        self.terms.len() as u32
    }

    /// The number of records so far: the number of the document whose record is next.
    pub fn records(&self) -> u32
        ensures same { result ≡ length self.now.records }
    {
        self.names.len() as u32
    }

    /// The number of bytes of text so far: the description, the terms and the names.
    pub fn text(&self) -> u64
        ensures same { result ≡ text_size (parts_of self.now) }
    {
        let description = self.header.description.as_str().len() as u64;
        description + self.terms.size() as u64 + self.names.size() as u64
    }

    /// Whether a list that is closed has this term.
    pub fn has_term(&self, term: &str) -> bool
        ensures same { IsTrue result ↔ HasTerm self.now term.now }
    {
        self.marks.contains(&mark_of(term)) && self.terms.has(term)
    }

    /// Puts a posting behind those of the open list.
    #[inline]
    pub fn push_posting(&mut self, posting: Posting) -> Result<(), BuildError>
        ensures ok { OnOk result (self.new ≡ with_posting self.old posting) }
        ensures fault { IfErr result (IsPostingFault self.old posting) }
        ensures same { OnErr result (self.new ≡ self.old) }
    {
        if posting.doc < self.least || self.documents <= posting.doc {
            return Err(BuildError::Order);
        }
        if self.postings.len() == u32::MAX {
            return Err(BuildError::Size);
        }
        self.postings.push(posting)?;
        self.least = posting.doc + 1;
        Ok(())
    }

    /// Puts postings that rise behind those of the open list, all of them or none.
    pub fn push_postings(&mut self, postings: &[Posting]) -> Result<(), BuildError>
        requires rising { IsPostings self.old.documents postings.now }
        requires fit { All (λ posting. FitsSigned w32 posting.tf) postings.now }
        ensures ok { OnOk result (self.new ≡ with_postings self.old postings.now) }
        ensures fault { IfErr result (ArePostingsFault self.old postings.now) }
        ensures same { OnErr result (self.new ≡ self.old) }
    {
        let [first, ..] = postings else {
            return Ok(());
        };
        if first.doc < self.least {
            return Err(BuildError::Order);
        }
        if ((u32::MAX - self.postings.len()) as usize) < postings.len() {
            return Err(BuildError::Size);
        }
        self.postings.extend(postings)?;
        self.least = postings[postings.len() - 1].doc + 1;
        Ok(())
    }

    /// Closes the open list as that of this term, and opens the next one.
    pub fn close_list(&mut self, term: &str, df: i64, cf: i64) -> Result<(), BuildError>
        ensures ok { OnOk result (self.new ≡ with_list self.old term.now df cf) }
        ensures fault { IfErr result (IsListFault self.old term.now) }
        ensures same { OnErr result (self.new ≡ self.old) }
    {
        if COUNT_LIMIT <= self.terms.len() + 1 {
            return Err(BuildError::Counts);
        }
        if TEXT_LIMIT - self.text() < term.len() as u64 {
            return Err(self.full_fault(term));
        }
        enter(&mut self.marks, &self.terms, term)?;
        let counts = Counts { df, cf };
        append(
            &mut self.terms,
            &mut self.counts,
            &mut self.postings,
            term,
            counts,
        )?;
        self.least = 0;
        Ok(())
    }

    /// Why a list of this term is refused where its text has no room.
    fn full_fault(&self, term: &str) -> BuildError
        requires counts { length self.now.lists + 1 < 2 ^ 31 }
        requires size { IsFullOfText self.now term.now }
        ensures { IsListFault self.now term.now result }
    {
        if self.has_term(term) {
            BuildError::Same
        } else {
            BuildError::Size
        }
    }

    /// Adds the record of the next document.
    pub fn push_record(&mut self, name: &str, length: i32) -> Result<(), BuildError>
        ensures ok { OnOk result (self.new ≡ with_record self.old name.now length) }
        ensures fault { IfErr result (IsRecordFault self.old name.now) }
        ensures same { OnErr result (self.new ≡ self.old) }
    {
        if self.documents as usize <= self.names.len() {
            return Err(BuildError::Counts);
        }
        if TEXT_LIMIT - self.text() < name.len() as u64 {
            return Err(BuildError::Size);
        }
        self.sizes.reserve(1)?;
        self.names.push(name)?;
        let _ = self.sizes.push(length);
        Ok(())
    }

    /// Whether nothing is left to come: no list is open, and each document has its record.
    pub fn is_whole(&self) -> bool
        ensures same { IsTrue result ↔ IsWhole self.now }
    {
        self.least == 0 && self.names.len() == self.documents as usize
    }

    /// The index of all pieces. It looks at none of them again, and takes no memory.
    pub fn finish(self) -> Index
        requires { IsWhole self }
        ensures same { result ≡ parts_of self }
        ensures sound { IsIndex result }
    {
        Index::from_tables(
            self.header,
            self.terms,
            self.counts,
            self.postings,
            self.names,
            self.sizes,
        )
    }
}

/// Puts the mark of a text that no text of the table is among the marks.
fn enter(marks: &mut IndexSet<u64>, texts: &TextTable, text: &str) -> Result<(), BuildError>
    requires { All (λ other. Contains marks.old.keys (mark_of other)) texts.now }
    ensures new { OnOk result (¬ Contains texts.now text.now) }
    ensures entered { OnOk result (Contains marks.new.keys (mark_of text.now)) }
    ensures kept { (mark : ℕ) → Contains marks.old.keys mark → Contains marks.new.keys mark }
    ensures fault { IfErr result (IsEnterFault texts.now text.now) }
{
    if !marks.insert(mark_of(text))? && texts.has(text) {
        return Err(BuildError::Same);
    }
    Ok(())
}

/// Puts a list behind the others in all tables, or in none where memory runs out.
fn append(
    terms: &mut TextTable,
    counts: &mut Vec<Counts>,
    postings: &mut PostingTable,
    term: &str,
    count: Counts,
) -> Result<(), AllocError>
    ensures ok { OnOk result
        (AreAppended terms.old terms.new counts.old.items counts.new.items
        postings.old postings.new term.now count) }
    ensures same { OnErr result
        (AreSame terms.old terms.new counts.old.items counts.new.items
        postings.old postings.new) }
{
    counts.reserve(1)?;
    postings.reserve_end()?;
    terms.push(term)?;
    let _ = counts.push(count);
    postings.close();
    Ok(())
}
