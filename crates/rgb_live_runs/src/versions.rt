//! The versions that a printed text names.
use std::alloc::{AllocError, Global};

/// The version that the first line of a live block names. The line may be cut off behind it.
fn version_of(line: &str) -> Option<usize> {
    let rest = line.strip_prefix("live ")?;
    let (_, rest) = rest.split_once(" version ")?;
    match rest.split_once(" ") {
        Some((version, _)) => version.parse::<usize>().ok(),
        None => rest.parse::<usize>().ok(),
    }
}

/// The versions of the live blocks of a text, in order.
pub(crate) fn versions_in(alloc: Global, text: &str) -> Result<Vec<usize>, AllocError> {
    let mut versions = Vec::new(alloc);
    for line in text.lines() {
        if let Some(version) = version_of(line) {
            versions.push(version)?;
        }
    }
    Ok(versions)
}
