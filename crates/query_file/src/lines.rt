//! The lines of a file, one at a time.
ghost use Rattle.std.specs.Prelude.{◌≡◌, ◌+◌, ◌≤◌, ◌<◌, ◌↔◌, length, IsTrue, IfSome, option_copied};
ghost use Rattle.bool_query.specs.Token.{AreBlank};
ghost use Rattle.query_file.specs.Lines.{without_return};
ghost use Rattle.query_file.specs.Steps.{IsFirstLine};

use memchr::memchr;

/// The first line, lent from the bytes, and what stands behind its line feed, if it has one.
pub(crate) fn first_line(bytes: &[u8]) -> (&[u8], Option<&[u8]>)
    ensures line { IsFirstLine bytes.now result.0.now (option_copied result.1) }
    ensures short { length result.0.now ≤ length bytes.now }
    ensures less { IfSome result.1 (λ rest. length rest.now < length bytes.now) }
{
    match memchr(b'\n', bytes) {
        Some(end) => (without_return(&bytes[..end]), Some(&bytes[end + 1..])),
        None => (bytes, None),
    }
}

/// What stands before a line feed, without one carriage return at its end.
fn without_return(bytes: &[u8]) -> &[u8]
    ensures same { result.now ≡ without_return bytes.now }
    ensures short { length result.now ≤ length bytes.now }
{
    match bytes.last() {
        Some(b'\r') => &bytes[..bytes.len() - 1],
        _ => bytes,
    }
}

/// Whether spaces and tabs stand on the line alone, or nothing.
pub(crate) fn is_blank(line: &[u8]) -> bool
    ensures { IsTrue result ↔ AreBlank line.now }
{
    line.iter().all(|byte| *byte == b' ' || *byte == b'\t')
}
