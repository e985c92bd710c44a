//! How many bytes the fields and messages of the canonical file take, without writing them.
ghost use Rattle.std.specs.Prelude.{◌≡◌, ◌+◌, ◌≤◌, ◌<◌, ◌^◌, ◌*◌, ℕ, length, map, slice_get, IfSome};
ghost use Rattle.std.specs.List.Sorted.{IsStrictlyIncreasing};
ghost use Rattle.ciff_wire.specs.Canonical.{message_of, number_field};
ghost use Rattle.ciff_format.specs.Canonical.{text_field, eight_field, posting_fields, postings_fields};
ghost use Rattle.ciff_writer.specs.Pieces.{header_bytes, list_bytes, record_bytes};

use ciff_wire::varint_len;
use rgb_base::{Index, Posting};

/// The size of the header's message.
pub fn header_size(index: &Index) -> u64
    ensures same { result ≡ length (header_bytes index.now) }
{
    index.is_sound();
    let header = index.header();
    number_size(i64::from(header.version))
        + number_size(i64::from(index.lists()))
        + number_size(i64::from(index.documents()))
        + number_size(i64::from(header.total_lists))
        + number_size(i64::from(header.total_docs))
        + number_size(header.total_terms)
        + eight_size(header.average_bits)
        + text_size(header.description.as_str())
}

/// The size of a list's message.
pub fn list_size(index: &Index, list: u32) -> u64
    requires { list < length index.now.lists }
    ensures same { IfSome (slice_get index.now.lists list) (λ l. result ≡ length (list_bytes l)) }
{
    index.is_sound();
    text_size(index.term(list))
        + number_size(index.df(list))
        + number_size(index.cf(list))
        + postings_size(index.postings(list))
}

/// The size of a document's message.
pub fn record_size(index: &Index, doc: u32) -> u64
    requires { doc < length index.now.documents }
    ensures same { IfSome (slice_get index.now.documents doc)
        (λ d. result ≡ length (record_bytes doc d)) }
{
    number_size(i64::from(doc))
        + text_size(index.name(doc))
        + number_size(i64::from(index.length(doc)))
}

/// The size of the fields of a list's postings.
fn postings_size(postings: &[Posting]) -> u64
    requires few { length postings.now < 2 ^ 32 }
    requires rising { IsStrictlyIncreasing (map (λ posting. posting.doc) postings.now) }
    ensures same { result ≡ length (message_of (postings_fields 0 postings.now)) }
    ensures most { result ≤ 24 * length postings.now }
{
    let mut size = 0;
    let mut before = 0;
    for posting in postings {
        let Posting { doc, tf } = *posting;
        size += 2 + posting_size(doc - before, tf);
        before = doc;
    }
    size
}

/// The size of a posting's message.
#[inline]
pub fn posting_size(gap: u32, tf: i32) -> u64
    ensures same { result ≡ length (message_of (posting_fields gap tf)) }
    ensures most { result ≤ 22 }
{
    if 0 < tf && tf < 128 && 0 < gap && gap < 16384 {
        if gap < 128 { 4 } else { 5 }
    } else {
        number_size(i64::from(gap)) + number_size(i64::from(tf))
    }
}

/// The size of a number's field, which is none where the value is 0. The field's number is below 16,
/// so that its tag takes one byte.
#[inline]
fn number_size(value: i64) -> u64
    ensures same { (n : ℕ) → 0 < n → n < 16 → result ≡ length (message_of (number_field n value)) }
    ensures most { result ≤ 11 }
{
    if value == 0 {
        return 0;
    }
    1 + varint_len(value.cast_unsigned()) as u64
}

/// The size of the field of eight bytes, which is none where they are all zero.
fn eight_size(bits: u64) -> u64
    ensures same { (n : ℕ) → 0 < n → n < 16 → result ≡ length (message_of (eight_field n bits)) }
    ensures most { result ≤ 9 }
{
    if bits == 0 { 0 } else { 9 }
}

/// The size of a text's field, which is none where the text is empty.
fn text_size(text: &str) -> u64
    ensures same { (n : ℕ) → 0 < n → n < 16 → result ≡ length (message_of (text_field n text.now)) }
    ensures most { result ≤ length text.now + 11 }
{
    if text.is_empty() {
        return 0;
    }
    let len = text.len() as u64;
    1 + varint_len(len) as u64 + len
}
