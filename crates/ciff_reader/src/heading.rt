//! What a good header says, and what is wrong with another.
ghost use Rattle.std.specs.Prelude.{IfOk, IfErr};
ghost use Rattle.ciff_format.specs.Refused.{IsHeaderFault};
ghost use Rattle.ciff_reader.specs.Listing.{IsRefusal};
ghost use Rattle.ciff_reader.specs.Steps.{IsHeading};

use crate::error::Refusal;
use crate::header::{HeaderFields, read_header_fields};
use ciff_format::Cause;
use ciff_wire::{as_i32, as_i64};
use rgb_base::{Header, Text};
use std::alloc::Global;

/// The most bytes of text that a file may have.
pub(crate) const MOST_TEXT: u64 = 1 << 40;

/// A header, and how many lists and documents follow it.
#[derive(Drop)]
pub(crate) struct Heading {
    pub header: Header,
    pub lists: u32,
    pub documents: u32,
}

/// Reads the header's message.
pub(crate) fn read_heading(alloc: Global, message: &[u8]) -> Result<Heading, Refusal>
    ensures ok { IfOk result (IsHeading message.now) }
    ensures fault { IfErr result (IsRefusal (IsHeaderFault message.now)) }
{
    let Some(kept) = read_header_fields(message) else {
        return Err(Refusal::Cause(Cause::BadField));
    };
    if !kept.are_texts {
        return Err(Refusal::Cause(Cause::BadText));
    }
    let Ok(lists) = u32::try_from(as_i32(kept.numbers[1])) else {
        return Err(Refusal::Cause(Cause::BadCount));
    };
    let Ok(documents) = u32::try_from(as_i32(kept.numbers[2])) else {
        return Err(Refusal::Cause(Cause::BadCount));
    };
    if MOST_TEXT < kept.description.len() as u64 {
        return Err(Refusal::Cause(Cause::TooMuch));
    }
    let Ok(description) = String::from_str(alloc, kept.description) else {
        return Err(Refusal::OutOfMemory);
    };
    Ok(Heading {
        header: Header {
            version: as_i32(kept.numbers[0]),
            total_lists: as_i32(kept.numbers[3]),
            total_docs: as_i32(kept.numbers[4]),
            total_terms: as_i64(kept.numbers[5]),
            average_bits: kept.average_bits,
            description: Text::of(description),
        },
        lists,
        documents,
    })
}
