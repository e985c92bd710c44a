//! Writing an index: the header's message, those of the lists and those of the documents, each behind
//! its length.
ghost use Rattle.std.specs.Prelude.{◌≡◌, ◌+◌, ◌≤◌, ◌<◌, ◌^◌, [], ◌++◌, length, map, slice_get, IfOk, IfSome, OnOk, OnErr};
ghost use Rattle.std.specs.List.Sorted.{IsStrictlyIncreasing};
ghost use Rattle.ciff_wire.specs.Canonical.{message_of};
ghost use Rattle.ciff_format.specs.Accepted.{Accepted};
ghost use Rattle.ciff_format.specs.Canonical.{bytes_of, framed, text_field, postings_fields, records_from};
ghost use Rattle.rgb_host.specs.Seen.{Lacks, grown, AppendedThenFailed};
ghost use Rattle.ciff_writer.specs.Sending.{Puts, Breaks};
ghost use Rattle.ciff_writer.specs.Pieces.{header_bytes, list_bytes, record_bytes, lists_bytes};

use crate::buffer::Buffer;
use crate::error::WriteError;
use crate::sizes::{header_size, list_size, record_size};
use ciff_format::laws::canonical_is_accepted;
use ciff_wire::varint_len;
use rgb_base::{Index, Posting};
use rgb_host::laws::pieces_join;
use rgb_host::{Failed, Host};

/// How many bytes are held until they go to the host in one call.
const PIECE: usize = 65536;

/// Appends the canonical file of an index to the named file, and gives the number of its bytes. After
/// a fault the first of them were appended. It takes no memory.
pub fn write_index<H: Host>(index: &Index, host: &mut H, name: &str) -> Result<u64, WriteError>
    requires { ¬ Lacks (H.seen host.old) name.now }
    ensures len { IfOk result (λ n. n ≡ length (bytes_of index.now)) }
    ensures written { OnOk result
        (H.seen host.new ≡ grown name.now (bytes_of index.now) (H.seen host.old)) }
    ensures there { ¬ Lacks (H.seen host.new) name.now }
    ensures fault { OnErr result
        (AppendedThenFailed name.now (bytes_of index.now) (H.seen host.old) (H.seen host.new)) }
    ensures accepted { Accepted (bytes_of index.now) index.now }
{
    index.is_sound();
    canonical_is_accepted();
    pieces_join();
    let mut buffer = Buffer::<PIECE>::new();
    let len = write_file(index, &mut buffer, host, name)?;
    Ok(len)
}

/// Writes the whole file, to its last byte.
fn write_file<H: Host, const N: usize>(
    index: &Index,
    buffer: &mut Buffer<N>,
    host: &mut H,
    name: &str,
) -> Result<u64, Failed>
    requires there { ¬ Lacks (H.seen host.old) name.now }
    requires room { 128 ≤ N }
    ensures len { IfOk result (λ n. n ≡ length (bytes_of index.now)) }
    ensures ok { OnOk result
        (Puts name.now (bytes_of index.now) [] buffer.old [] (H.seen host.old) (H.seen host.new)) }
    ensures there { ¬ Lacks (H.seen host.new) name.now }
    ensures fault { OnErr result
        (Breaks name.now (bytes_of index.now) buffer.old (H.seen host.old) (H.seen host.new)) }
{
    index.is_sound();
    let header = write_header(index, buffer, host, name)?;
    let lists = write_lists(index, buffer, host, name)?;
    let records = write_records(index, buffer, host, name)?;
    buffer.flush(host, name)?;
    Ok(header + lists + records)
}

/// Writes the header behind its length.
fn write_header<H: Host, const N: usize>(
    index: &Index,
    buffer: &mut Buffer<N>,
    host: &mut H,
    name: &str,
) -> Result<u64, Failed>
    requires there { ¬ Lacks (H.seen host.old) name.now }
    requires room { 128 ≤ N }
    ensures len { IfOk result (λ n. n ≡ length (framed (header_bytes index.now))) }
    ensures ok { OnOk result
        (Puts name.now (framed (header_bytes index.now)) [] buffer.old buffer.new
        (H.seen host.old) (H.seen host.new)) }
    ensures there { ¬ Lacks (H.seen host.new) name.now }
    ensures fault { OnErr result
        (Breaks name.now (framed (header_bytes index.now)) buffer.old (H.seen host.old)
        (H.seen host.new)) }
{
    index.is_sound();
    let size = header_size(index);
    buffer.make_room(96, host, name)?;
    put_header_front(index, size, buffer);
    let description = index.header().description.as_str();
    write_text(8, description, buffer, host, name)?;
    Ok(varint_len(size) as u64 + size)
}

/// Holds the header's length and its fields up to the description.
fn put_header_front<const N: usize>(index: &Index, size: u64, buffer: &mut Buffer<N>)
    requires room { length buffer.old + 96 ≤ N }
    requires size { size ≡ length (header_bytes index.now) }
    ensures { buffer.new ++ message_of (text_field 8 index.now.header.description)
        ≡ buffer.old ++ framed (header_bytes index.now) }
{
    index.is_sound();
    let header = index.header();
    buffer.put_varint(size);
    buffer.put_number(1, i64::from(header.version));
    buffer.put_number(2, i64::from(index.lists()));
    buffer.put_number(3, i64::from(index.documents()));
    buffer.put_number(4, i64::from(header.total_lists));
    buffer.put_number(5, i64::from(header.total_docs));
    buffer.put_number(6, header.total_terms);
    buffer.put_eight(7, header.average_bits);
}

/// Writes the lists in order, each behind its length.
fn write_lists<H: Host, const N: usize>(
    index: &Index,
    buffer: &mut Buffer<N>,
    host: &mut H,
    name: &str,
) -> Result<u64, Failed>
    requires there { ¬ Lacks (H.seen host.old) name.now }
    requires room { 128 ≤ N }
    ensures len { IfOk result (λ n. n ≡ length (lists_bytes index.now.lists)) }
    ensures ok { OnOk result
        (Puts name.now (lists_bytes index.now.lists) [] buffer.old buffer.new (H.seen host.old)
        (H.seen host.new)) }
    ensures there { ¬ Lacks (H.seen host.new) name.now }
    ensures fault { OnErr result
        (Breaks name.now (lists_bytes index.now.lists) buffer.old (H.seen host.old)
        (H.seen host.new)) }
{
    index.is_sound();
    let mut len = 0;
    for list in 0..index.lists() {
        len += write_list(index, list, buffer, host, name)?;
    }
    Ok(len)
}

/// Writes the documents by rising number, each behind its length.
fn write_records<H: Host, const N: usize>(
    index: &Index,
    buffer: &mut Buffer<N>,
    host: &mut H,
    name: &str,
) -> Result<u64, Failed>
    requires there { ¬ Lacks (H.seen host.old) name.now }
    requires room { 128 ≤ N }
    ensures len { IfOk result (λ n. n ≡ length (records_from 0 index.now.documents)) }
    ensures ok { OnOk result
        (Puts name.now (records_from 0 index.now.documents) [] buffer.old buffer.new
        (H.seen host.old) (H.seen host.new)) }
    ensures there { ¬ Lacks (H.seen host.new) name.now }
    ensures fault { OnErr result
        (Breaks name.now (records_from 0 index.now.documents) buffer.old (H.seen host.old)
        (H.seen host.new)) }
{
    index.is_sound();
    let mut len = 0;
    for doc in 0..index.documents() {
        len += write_record(index, doc, buffer, host, name)?;
    }
    Ok(len)
}

/// Writes a list behind its length.
fn write_list<H: Host, const N: usize>(
    index: &Index,
    list: u32,
    buffer: &mut Buffer<N>,
    host: &mut H,
    name: &str,
) -> Result<u64, Failed>
    requires there { ¬ Lacks (H.seen host.old) name.now }
    requires room { 128 ≤ N }
    requires inside { list < length index.now.lists }
    ensures len { IfOk result
        (λ n. IfSome (slice_get index.now.lists list) (λ l. n ≡ length (framed (list_bytes l)))) }
    ensures ok { OnOk result
        (IfSome (slice_get index.now.lists list)
        (λ l. Puts name.now (framed (list_bytes l)) [] buffer.old buffer.new (H.seen host.old)
        (H.seen host.new))) }
    ensures there { ¬ Lacks (H.seen host.new) name.now }
    ensures fault { OnErr result
        (IfSome (slice_get index.now.lists list)
        (λ l. Breaks name.now (framed (list_bytes l)) buffer.old (H.seen host.old)
        (H.seen host.new))) }
{
    index.is_sound();
    let size = list_size(index, list);
    buffer.make_room(16, host, name)?;
    buffer.put_varint(size);
    write_text(1, index.term(list), buffer, host, name)?;
    buffer.make_room(32, host, name)?;
    buffer.put_number(2, index.df(list));
    buffer.put_number(3, index.cf(list));
    write_postings(index.postings(list), buffer, host, name)?;
    Ok(varint_len(size) as u64 + size)
}

/// Writes a field for each posting of a list.
fn write_postings<H: Host, const N: usize>(
    postings: &[Posting],
    buffer: &mut Buffer<N>,
    host: &mut H,
    name: &str,
) -> Result<(), Failed>
    requires there { ¬ Lacks (H.seen host.old) name.now }
    requires room { 128 ≤ N }
    requires rising { IsStrictlyIncreasing (map (λ posting. posting.doc) postings.now) }
    ensures ok { OnOk result
        (Puts name.now (message_of (postings_fields 0 postings.now)) [] buffer.old buffer.new
        (H.seen host.old) (H.seen host.new)) }
    ensures there { ¬ Lacks (H.seen host.new) name.now }
    ensures fault { OnErr result
        (Breaks name.now (message_of (postings_fields 0 postings.now)) buffer.old
        (H.seen host.old) (H.seen host.new)) }
{
    let mut before = 0;
    for posting in postings {
        let Posting { doc, tf } = *posting;
        buffer.make_room(24, host, name)?;
        buffer.put_posting(doc - before, tf);
        before = doc;
    }
    Ok(())
}

/// Writes a document's record behind its length.
fn write_record<H: Host, const N: usize>(
    index: &Index,
    doc: u32,
    buffer: &mut Buffer<N>,
    host: &mut H,
    name: &str,
) -> Result<u64, Failed>
    requires there { ¬ Lacks (H.seen host.old) name.now }
    requires room { 128 ≤ N }
    requires inside { doc < length index.now.documents }
    ensures len { IfOk result
        (λ n. IfSome (slice_get index.now.documents doc)
        (λ d. n ≡ length (framed (record_bytes doc d)))) }
    ensures ok { OnOk result
        (IfSome (slice_get index.now.documents doc)
        (λ d. Puts name.now (framed (record_bytes doc d)) [] buffer.old buffer.new
        (H.seen host.old) (H.seen host.new))) }
    ensures there { ¬ Lacks (H.seen host.new) name.now }
    ensures fault { OnErr result
        (IfSome (slice_get index.now.documents doc)
        (λ d. Breaks name.now (framed (record_bytes doc d)) buffer.old (H.seen host.old)
        (H.seen host.new))) }
{
    index.is_sound();
    let size = record_size(index, doc);
    buffer.make_room(32, host, name)?;
    buffer.put_varint(size);
    buffer.put_number(1, i64::from(doc));
    write_text(2, index.name(doc), buffer, host, name)?;
    buffer.make_room(16, host, name)?;
    buffer.put_number(3, i64::from(index.length(doc)));
    Ok(varint_len(size) as u64 + size)
}

/// Writes a text's field, or nothing where the text is empty.
fn write_text<H: Host, const N: usize>(
    number: u32,
    text: &str,
    buffer: &mut Buffer<N>,
    host: &mut H,
    name: &str,
) -> Result<(), Failed>
    requires there { ¬ Lacks (H.seen host.old) name.now }
    requires room { 128 ≤ N }
    requires some { 0 < number }
    requires most { number < 16 }
    ensures ok { OnOk result
        (Puts name.now (message_of (text_field number text.now)) [] buffer.old buffer.new
        (H.seen host.old) (H.seen host.new)) }
    ensures there { ¬ Lacks (H.seen host.new) name.now }
    ensures fault { OnErr result
        (Breaks name.now (message_of (text_field number text.now)) buffer.old (H.seen host.old)
        (H.seen host.new)) }
{
    if text.is_empty() {
        return Ok(());
    }
    buffer.make_room(16, host, name)?;
    buffer.put_head(number, text.len() as u64);
    buffer.send(text.as_bytes(), host, name)
}
