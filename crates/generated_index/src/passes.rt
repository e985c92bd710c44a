//! The two passes over all draws: one that counts the postings of each term, and one that puts them
//! into one table.
ghost use Rattle.std.specs.Prelude.{◌≡◌, ◌+◌, ◌*◌, ◌<◌, ◌≤◌, IfOk};
ghost use Rattle.generated_index.specs.Generated.{all_terms};
ghost use Rattle.generated_index.specs.Steps.{AreCursors, AreFilled, begins};

use crate::cursor::Cursor;
use crate::draws::Draws;
use rgb_base::Posting;
use std::alloc::{AllocError, Global};

/// How many terms there are.
pub(crate) const TERMS: usize = 2000;

/// How many terms are drawn for a document.
const TERM_DRAWS: u32 = 20;

/// Counts the terms of the next document.
fn count_document(cursors: &mut [Cursor], draws: &mut Draws, document: u32)
    requires few { document < 1000000 }
    requires next { draws.old.made ≡ 21 * document }
    requires counted { AreCursors draws.old.number document 0 (λ _. 0) cursors.old }
    ensures next { draws.new.made ≡ 21 * (document + 1) }
    ensures same { draws.new.number ≡ draws.old.number }
    ensures counted { AreCursors draws.old.number (document + 1) 0 (λ _. 0) cursors.new }
{
    let topic = draws.topic();
    for _draw in 0..TERM_DRAWS {
        let term = draws.term(topic) as usize;
        let cursor = cursors[term];
        cursors[term] = cursor.advanced(document);
    }
}

/// Counts the postings and the draws of each term.
pub(crate) fn counted(alloc: Global, documents: u32, number: u32) -> Result<Vec<Cursor>, AllocError>
    requires { documents ≤ 1000000 }
    ensures counted { IfOk result
        (λ cursors. AreCursors number documents 0 (λ _. 0) cursors.items) }
{
    let mut cursors = vec![in alloc; Cursor::at(0); TERMS]?;
    let mut draws = Draws::of(number);
    for document in 0..documents {
        count_document(&mut cursors, &mut draws, document);
    }
    Ok(cursors)
}

/// Puts the postings of the next document into the table.
fn fill_document(
    table: &mut [Posting],
    cursors: &mut [Cursor],
    draws: &mut Draws,
    document: u32,
    documents: u32,
)
    requires within { document < documents }
    requires few { documents ≤ 1000000 }
    requires next { draws.old.made ≡ 21 * document }
    requires cursors { AreCursors draws.old.number document 0
        (begins draws.old.number documents) cursors.old }
    requires filled { AreFilled draws.old.number document 0 documents table.old }
    ensures next { draws.new.made ≡ 21 * (document + 1) }
    ensures same { draws.new.number ≡ draws.old.number }
    ensures cursors { AreCursors draws.old.number (document + 1) 0
        (begins draws.old.number documents) cursors.new }
    ensures filled { AreFilled draws.old.number (document + 1) 0 documents table.new }
{
    let topic = draws.topic();
    for _draw in 0..TERM_DRAWS {
        let term = draws.term(topic) as usize;
        let before = cursors[term];
        let cursor = before.advanced(document);
        table[cursor.end as usize - 1] = Posting {
            doc: document,
            tf: cursor.times as i32,
        };
        cursors[term] = cursor;
    }
}

/// A cursor for each term, where its postings are to begin, and the place at which they all end.
fn starts(
    alloc: Global,
    counted: &[Cursor],
    documents: u32,
    number: u32,
) -> Result<(Vec<Cursor>, u32), AllocError>
    requires few { documents ≤ 1000000 }
    requires counted { AreCursors number documents 0 (λ _. 0) counted.now }
    ensures cursors { IfOk result
        (λ t. AreCursors number 0 0 (begins number documents) t.0.items) }
    ensures end { IfOk result (λ t. t.1 ≡ begins number documents all_terms) }
{
    let mut cursors = Vec::with_capacity(alloc, TERMS)?;
    let mut end = 0;
    for cursor in counted {
        cursors.push(Cursor::at(end))?;
        end += cursor.end;
    }
    Ok((cursors, end))
}

/// The table of all postings.
pub(crate) fn table_of(
    alloc: Global,
    counted: &[Cursor],
    documents: u32,
    number: u32,
) -> Result<Vec<Posting>, AllocError>
    requires few { documents ≤ 1000000 }
    requires counted { AreCursors number documents 0 (λ _. 0) counted.now }
    ensures filled { IfOk result (λ table. AreFilled number documents 0 documents table.items) }
{
    let (mut cursors, end) = starts(alloc, counted, documents, number)?;
    let mut table = vec![in alloc; Posting { doc: 0, tf: 0 }; end as usize]?;
    let mut draws = Draws::of(number);
    for document in 0..documents {
        fill_document(&mut table, &mut cursors, &mut draws, document, documents);
    }
    Ok(table)
}
