//! The generated index.
ghost use Rattle.std.specs.Prelude.{◌≡◌, ◌≤◌, ℕ, [], length, map, IfOk, OnOk};
ghost use Rattle.std.specs.List.{range_with_len};
ghost use Rattle.rgb_base.specs.Parts.{IsIndex};
ghost use Rattle.generated_index.specs.Generated.{generated, header_of, record_of, terms_drawn};
ghost use Rattle.generated_index.specs.Steps.{AreCursors, bare_list, bare_index, ends_of};

use crate::cursor::Cursor;
use crate::labels::label_of;
use crate::passes::{counted, table_of};
use rgb_base::{Header, Index, IndexBuilder, OutOfMemory, Text};
use std::alloc::{AllocError, Global};

/// Where the postings of each term that was drawn end.
fn ends_of(
    alloc: Global,
    counted: &[Cursor],
    documents: u32,
    number: u32,
) -> Result<Vec<u32>, AllocError>
    requires few { documents ≤ 1000000 }
    requires counted { AreCursors number documents 0 (λ _. 0) counted.now }
    ensures ends { IfOk result
        (λ ends. ends.items ≡ ends_of number documents (terms_drawn number documents)) }
{
    let mut ends = Vec::new(alloc);
    let mut end = 0;
    for cursor in counted {
        if 0 < cursor.end {
            end += cursor.end;
            ends.push(end)?;
        }
    }
    Ok(ends)
}

/// The header of so many documents and lists.
fn header_of(alloc: Global, documents: u32, lists: usize) -> Result<Header, AllocError>
    requires documents { documents ≤ 1000000 }
    requires lists { lists ≤ 2000 }
    ensures { (number : ℕ) → lists ≡ length (terms_drawn number documents)
        → IfOk result (λ header. header ≡ header_of number documents) }
{
    let description = Text::of(String::from_str(alloc, "made by rgb")?);
    Ok(Header {
        version: 1,
        total_lists: lists as i32,
        total_docs: documents as i32,
        total_terms: 20 * i64::from(documents),
        // The bits of 20.0.
        average_bits: 0x4034_0000_0000_0000,
        description,
    })
}

/// Puts the lists of the terms that were drawn into an index, with no postings yet. A list is refused
/// for want of memory alone: the lists are few, and their terms differ.
fn push_lists(
    builder: &mut IndexBuilder,
    counted: &[Cursor],
    documents: u32,
    number: u32,
) -> Result<(), OutOfMemory>
    requires counted { AreCursors number documents 0 (λ _. 0) counted.now }
    requires lists { builder.old.lists ≡ [] }
    requires postings { builder.old.postings ≡ [] }
    ensures ok { OnOk result (builder.new ≡ record builder.old {
      lists = map (bare_list number documents) (terms_drawn number documents);
    }) }
{
    for (term, cursor) in counted.iter().enumerate() {
        if 0 < cursor.end {
            let label = label_of('w', 4, term as u32);
            let Ok(()) = builder.close_list(
                label.as_str(),
                i64::from(cursor.end),
                i64::from(cursor.draws),
            ) else {
                return Err(OutOfMemory);
            };
        }
    }
    Ok(())
}

/// Puts the records of the documents into an index. A record is refused for want of memory alone:
/// there is one for each document, and little text.
fn push_records(builder: &mut IndexBuilder, documents: u32) -> Result<(), OutOfMemory>
    requires { builder.old.records ≡ [] }
    ensures ok { OnOk result (builder.new ≡ record builder.old {
      records = map record_of (range_with_len 0 documents);
    }) }
{
    for document in 0..documents {
        let label = label_of('D', 7, document);
        let Ok(()) = builder.push_record(label.as_str(), 20) else {
            return Err(OutOfMemory);
        };
    }
    Ok(())
}

/// The index before its postings are there.
fn bare_index(
    alloc: Global,
    counted: &[Cursor],
    documents: u32,
    number: u32,
    lists: usize,
) -> Result<Index, OutOfMemory>
    requires few { documents ≤ 1000000 }
    requires counted { AreCursors number documents 0 (λ _. 0) counted.now }
    requires lists { lists ≡ length (terms_drawn number documents) }
    ensures ok { IfOk result (λ index. index ≡ bare_index number documents) }
{
    let header = header_of(alloc, documents, lists)?;
    let Ok(mut builder) = IndexBuilder::new(alloc, header, documents) else {
        return Err(OutOfMemory);
    };
    push_lists(&mut builder, counted, documents, number)?;
    push_records(&mut builder, documents)?;
    Ok(builder.finish())
}

/// The index of so many documents that is generated from a number. Its documents have 20 terms each,
/// three quarters of which are among the 40 of their topic. Beside the index it takes room for the
/// terms alone.
pub fn generate(alloc: Global, documents: u32, number: u32) -> Result<Index, OutOfMemory>
    requires { documents ≤ 1000000 }
    ensures ok { IfOk result (λ index. index ≡ generated number documents) }
    ensures sound { IfOk result IsIndex }
{
    let counted = counted(alloc, documents, number)?;
    let ends = ends_of(alloc, &counted, documents, number)?;
    let index = bare_index(alloc, &counted, documents, number, ends.len())?;
    let table = table_of(alloc, &counted, documents, number)?;
    Ok(index.with_postings(table, ends))
}
