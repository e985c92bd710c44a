//! A forward index as a text.
use forward_index::Forward;
use std::alloc::Global;
use std::test::Fail;

// The terms of a row, behind a colon and between commas.
fn push_row(alloc: Global, row: &[u32], text: &mut String) -> Result<(), Fail> {
    let mut mark = ":";
    for term in row {
        text.push_str(&format!(in alloc; "{mark}{term}")?)?;
        mark = ",";
    }
    Ok(())
}

/// Its number of terms, and the document at each place with its terms.
pub(crate) fn told(alloc: Global, forward: &Forward) -> Result<String, Fail> {
    let mut text = format!(in alloc; "{}", forward.terms())?;
    for place in 0..forward.docs() {
        text.push_str(&format!(in alloc; " {}", forward.document_at(place))?)?;
        push_row(alloc, forward.terms_of(place), &mut text)?;
    }
    Ok(text)
}
