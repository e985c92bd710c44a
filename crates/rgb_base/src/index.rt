//! An index: a header, the lists of its terms and the records of its documents.
ghost use Rattle.std.specs.Prelude.{◌≡◌, ◌<◌, ◌^◌, All, FitsSigned, [], length, map, take, slice_get, slice_index_or, pos, Some, option_map, IfOk, IfErr, OnErr};
ghost use Rattle.std.specs.Int.{w32};
ghost use Rattle.rgb_base.specs.Parts.{IndexParts, IsIndex, posting_count};
ghost use Rattle.rgb_base.specs.Table.{all_postings, cut_anew, with_table, AreEnds, AreSplits, with_postings};
ghost use Rattle.rgb_base.specs.Flat.{lists_of, records_of};
ghost use Rattle.rgb_base.specs.Kept.{AreListColumns};

use crate::checks::check;
use crate::columns::{Counts, PostingTable, TextTable};
use crate::error::{OutOfMemory, PartsError};
use crate::lists_and_texts::Text;
use crate::parts::{DocRecord, Header, Posting, TermList};
use crate::permutation::Permutation;
use std::alloc::{AllocError, Global};
use std::marker::Model;

/// An index. Lists and documents are named by their places, from 0 on. It lies in flat tables:
/// 8 bytes a posting, 28 a list and 12 a document beside the bytes of text.
#[derive(Drop)]
pub struct Index {
    header: Header,
    terms: TextTable,
    counts: Vec<Counts>,
    postings: PostingTable,
    names: TextTable,
    sizes: Vec<i32>,
}

impl Model for Index {
    ghost use Rattle.rgb_base.specs.Parts.{IndexParts};

    ghost Value = { IndexParts };

    ghost use Rattle.rgb_base.specs.Kept.{parts_in, IsFlatIndex};

    ghost view = { parts_in };

    ghost invariant = { IsFlatIndex };
}

impl Index {
    ghost use Rattle.rgb_base.specs.Parts.{IndexParts, IsIndex, IsPostings, AreCounted, AreOrdered, posting_count};
    ghost use Rattle.rgb_base.specs.Faults.{IsPartsFault};
    ghost use Rattle.rgb_base.specs.declared.error.PartsError.TheVariants.{OutOfMemory as no_memory};

    /// The index of these parts, or the first thing that is wrong with them.
    pub fn from_parts(
        alloc: Global,
        header: Header,
        lists: Vec<TermList>,
        documents: Vec<DocRecord>,
    ) -> Result<Index, PartsError>
        ensures ok { IfOk result
            (λ index. index
            ≡ record { header = header; lists = lists.items; documents = documents.items }) }
        ensures sound { IfOk result IsIndex }
        ensures fault { IfErr result
            (IsPartsFault
            (record { header = header; lists = lists.items; documents = documents.items })) }
        ensures memory { IfErr result (λ e. e ≡ no_memory
            → AreCounted
            (record { header = header; lists = lists.items; documents = documents.items })
            × AreOrdered (length documents.items) lists.items) }
    {
        let total = check(alloc, &header, &lists, &documents)?;
        Ok(filled(alloc, header, &lists, &documents, total)?)
    }

    /// The index whose columns these are.
    pub(crate) fn from_tables(
        header: Header,
        terms: TextTable,
        counts: Vec<Counts>,
        postings: PostingTable,
        names: TextTable,
        sizes: Vec<i32>,
    ) -> Index
        requires sound { IsIndex (record {
          header = header;
          lists = lists_of terms counts.items postings.closed;
          documents = records_of names sizes.items;
        }) }
        requires lists { AreListColumns terms counts.items postings.closed }
        requires records { length names ≡ length sizes.items }
        requires none_pending { postings.pending ≡ [] }
        ensures same { result ≡ record {
          header = header;
          lists = lists_of terms counts.items postings.closed;
          documents = records_of names sizes.items;
        } }
    {
        Index {
            header,
            terms,
            counts,
            postings,
            names,
            sizes,
        }
    }

    /// What each index keeps.
    pub fn is_sound(&self)
        ensures sound { IsIndex self.now }
    {
        let _ = &self.header;
    }

    /// What the header says of the whole collection.
    pub fn header(&self) -> &Header
        ensures same { result.now ≡ self.now.header }
    {
        &self.header
    }

    /// The number of lists.
    pub fn lists(&self) -> u32
        ensures same { result ≡ length self.now.lists }
    {
        self.terms.len() as u32
    }

    /// The number of documents.
    pub fn documents(&self) -> u32
        ensures same { result ≡ length self.now.documents }
    {
        self.names.len() as u32
    }

    /// The number of postings of all lists.
    pub fn total_postings(&self) -> u32
        ensures same { result ≡ posting_count self.now.lists }
    {
        self.postings.len()
    }

    /// The term of a list.
    pub fn term(&self, list: u32) -> &str
        requires { list < length self.now.lists }
        ensures same { option_map (λ l. l.term) (slice_get self.now.lists list) ≡ Some result.now }
    {
        self.terms.at(list as usize)
    }

    /// The field `df` of a list, as it was read.
    pub fn df(&self, list: u32) -> i64
        requires { list < length self.now.lists }
        ensures same { option_map (λ l. l.df) (slice_get self.now.lists list) ≡ Some result }
    {
        self.counts[list as usize].df
    }

    /// The field `cf` of a list, as it was read.
    pub fn cf(&self, list: u32) -> i64
        requires { list < length self.now.lists }
        ensures same { option_map (λ l. l.cf) (slice_get self.now.lists list) ≡ Some result }
    {
        self.counts[list as usize].cf
    }

    /// The postings of a list, by rising document.
    pub fn postings(&self, list: u32) -> &[Posting]
        requires { list < length self.now.lists }
        ensures same { option_map (λ l. l.postings) (slice_get self.now.lists list)
            ≡ Some result.now }
        ensures rising { IsPostings (length self.now.documents) result.now }
    {
        self.postings.part(list as usize)
    }

    /// The name of a document in its collection.
    pub fn name(&self, doc: u32) -> &str
        requires { doc < length self.now.documents }
        ensures same { option_map (λ d. d.name) (slice_get self.now.documents doc)
            ≡ Some result.now }
    {
        self.names.at(doc as usize)
    }

    /// The length of a document in tokens.
    pub fn length(&self, doc: u32) -> i32
        requires { doc < length self.now.documents }
        ensures same { option_map (λ d. d.length) (slice_get self.now.documents doc) ≡ Some result }
    {
        self.sizes[doc as usize]
    }

    /// For each list the number of postings up to its last one: where its part of the table ends.
    pub fn ends(&self) -> &[u32]
        ensures same { AreEnds self.now.lists result.now }
    {
        self.postings.ends()
    }

    /// The postings of all lists, one list behind another.
    pub fn table(&self) -> &[Posting]
        ensures same { result.now ≡ all_postings self.now.lists }
    {
        self.postings.table()
    }

    /// The index with the postings of this table, each list as many as it has here, and with the
    /// record of each document at its new number. Header, terms, `df` and `cf` stay.
    pub fn with_table(
        &self,
        alloc: Global,
        table: Vec<Posting>,
        order: &Permutation,
    ) -> Result<Index, OutOfMemory>
        requires len { length table.items ≡ posting_count self.now.lists }
        requires documents { length order.now ≡ length self.now.documents }
        requires rising { AreOrdered
            (length self.now.documents) (cut_anew self.now.lists table.items) }
        ensures ok { IfOk result (λ index. index ≡ with_table self.now table.items order.now) }
        ensures sound { IfOk result IsIndex }
    {
        let header = copy_of(alloc, &self.header)?;
        let terms = self.terms.copy(alloc)?;
        let counts = Vec::from_slice(alloc, &self.counts)?;
        values_fit(&table);
        let postings = self.postings.with(alloc, table)?;
        // That the order is one: for the proof.
        order.is_sound();
        let names = names_in_order(alloc, &self.names, order)?;
        let sizes = sizes_in_order(alloc, &self.sizes, order)?;
        Ok(Index {
            header,
            terms,
            counts,
            postings,
            names,
            sizes,
        })
    }

    /// The index with other postings: those of each list are the part of this table that ends at its
    /// place of `ends` and begins where the one before ends. Header, terms, `df`, `cf` and records
    /// stay. It takes no memory.
    pub fn with_postings(self, table: Vec<Posting>, ends: Vec<u32>) -> Index
        requires len { length ends.items ≡ length self.lists }
        requires splits { AreSplits 0 ends.items (length table.items) }
        requires few { length table.items < 2 ^ 32 }
        requires rising { AreOrdered
            (length self.documents) (with_postings self table.items ends.items).lists }
        ensures same { result ≡ with_postings self table.items ends.items }
        ensures sound { IsIndex result }
    {
        values_fit(&table);
        Index {
            header: self.header,
            terms: self.terms,
            counts: self.counts,
            postings: PostingTable::of(table, ends),
            names: self.names,
            sizes: self.sizes,
        }
    }
}

/// The index of parts that are one, in flat tables.
fn filled(
    alloc: Global,
    header: Header,
    lists: &[TermList],
    documents: &[DocRecord],
    total: u32,
) -> Result<Index, AllocError>
    requires sound { IsIndex
        (record { header = header; lists = lists.now; documents = documents.now }) }
    requires total { total ≡ posting_count lists.now }
    ensures { IfOk result
        (λ index. index
        ≡ record { header = header; lists = lists.now; documents = documents.now }) }
{
    let terms = terms_of(alloc, lists)?;
    let counts = counts_of(alloc, lists)?;
    let postings = postings_of(alloc, lists, total)?;
    let names = names_of(alloc, documents)?;
    let sizes = sizes_of(alloc, documents)?;
    Ok(Index {
        header,
        terms,
        counts,
        postings,
        names,
        sizes,
    })
}

/// Reads each posting once, whose `tf` lies in the range of its type. This is there for the proof:
/// no instruction is left of it.
fn values_fit(table: &[Posting])
    ensures { All (λ posting. FitsSigned w32 posting.tf) table.now }
{
    for posting in table {
        let Posting { doc: _doc, tf: _tf } = *posting;
    }
}

/// A second header like it.
fn copy_of(alloc: Global, header: &Header) -> Result<Header, AllocError>
    ensures { IfOk result (λ copy. copy ≡ header.now) }
{
    let description = Text::of(String::from_str(alloc, header.description.as_str())?);
    Ok(Header {
        version: header.version,
        total_lists: header.total_lists,
        total_docs: header.total_docs,
        total_terms: header.total_terms,
        average_bits: header.average_bits,
        description,
    })
}

/// The terms of the lists.
fn terms_of(alloc: Global, lists: &[TermList]) -> Result<TextTable, AllocError>
    ensures { IfOk result (λ terms. terms ≡ map (λ list. list.term) lists.now) }
{
    let mut terms = TextTable::new(alloc);
    for list in lists {
        terms.push(list.term.as_str())?;
    }
    Ok(terms)
}

/// The fields `df` and `cf` of the lists.
fn counts_of(alloc: Global, lists: &[TermList]) -> Result<Vec<Counts>, AllocError>
    ensures { IfOk result
        (λ counts. counts.items ≡ map (λ list. record { df = list.df; cf = list.cf }) lists.now) }
{
    let mut counts = Vec::with_capacity(alloc, lists.len())?;
    for list in lists {
        counts.push(Counts {
            df: list.df,
            cf: list.cf,
        })?;
    }
    Ok(counts)
}

/// The postings of the lists, so many together.
fn postings_of(alloc: Global, lists: &[TermList], total: u32) -> Result<PostingTable, AllocError>
    requires total { total ≡ posting_count lists.now }
    requires small { total < 2 ^ 32 }
    ensures closed { IfOk result
        (λ postings. postings.closed ≡ map (λ list. list.postings) lists.now) }
    ensures pending { IfOk result (λ postings. postings.pending ≡ []) }
{
    let mut postings = PostingTable::with_capacity(alloc, lists.len(), total as usize)?;
    for list in lists {
        postings.push_list(list.postings.as_slice())?;
    }
    Ok(postings)
}

/// The names of the documents.
fn names_of(alloc: Global, documents: &[DocRecord]) -> Result<TextTable, AllocError>
    ensures { IfOk result (λ names. names ≡ map (λ document. document.name) documents.now) }
{
    let mut names = TextTable::new(alloc);
    for document in documents {
        names.push(document.name.as_str())?;
    }
    Ok(names)
}

/// The lengths of the documents.
fn sizes_of(alloc: Global, documents: &[DocRecord]) -> Result<Vec<i32>, AllocError>
    ensures { IfOk result (λ sizes. sizes.items ≡ map (λ document. document.length) documents.now) }
{
    documents
        .iter()
        .map(|document| document.length)
        .collect(alloc)
}

/// The names of the documents in their new order.
fn names_in_order(
    alloc: Global,
    names: &TextTable,
    order: &Permutation,
) -> Result<TextTable, AllocError>
    requires { length order.now ≡ length names.now }
    ensures { IfOk result
        (λ moved. moved ≡ map (λ old. slice_index_or names.now old []) order.now) }
{
    // That its numbers are below its length: for the proof.
    order.is_sound();
    let mut moved = TextTable::with_capacity(alloc, names.len(), names.size())?;
    for new in 0..order.len() {
        let old = order.old_of(new);
        moved.push(names.at(old as usize))?;
    }
    Ok(moved)
}

/// The lengths of the documents in their new order.
fn sizes_in_order(alloc: Global, sizes: &[i32], order: &Permutation) -> Result<Vec<i32>, AllocError>
    requires { length order.now ≡ length sizes.now }
    ensures { IfOk result
        (λ moved. moved.items ≡ map (λ old. slice_index_or sizes.now old (pos 0)) order.now) }
{
    // That its numbers are below its length: for the proof.
    order.is_sound();
    let mut moved = Vec::with_capacity(alloc, sizes.len())?;
    for new in 0..order.len() {
        let old = order.old_of(new);
        moved.push(sizes[old as usize])?;
    }
    Ok(moved)
}
