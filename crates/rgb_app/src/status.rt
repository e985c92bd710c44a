//! What a command ends with.
ghost use Rattle.std.specs.Prelude.{◌≡◌, ◌<◌, ◌≤◌, length, option_map};
ghost use Rattle.rgb_app.specs.Text.{line_of, name_of, malformed_words, name_of_line_cause, bad_query_words};
ghost use Rattle.rgb_app.specs.Status.{code_of, warning_of};

use arrayvec::ArrayString;
use bool_query::QueryCause;
use ciff_format::Cause;
use ciff_reader::ReadError;
use ciff_writer::WriteError;
use itoa::Buffer;
use query_file::{LineCause, QueriesError};
use rgb_base::OutOfMemory;
use rgb_host::Failed;

/// How a command ended.
#[derive(Clone, Copy, Debug, PartialEq, Eq)]
pub enum Status {
    Done,
    Usage,
    /// A file is refused: the byte at which the length of its first bad message starts, and why.
    Malformed {
        place: u64,
        cause: Cause,
    },
    ReadFault,
    WriteFault,
    Memory,
    /// Queries are refused: the number of the first line at fault, from 1 on, the byte of the line,
    /// and why.
    BadQuery {
        line: u32,
        at: u32,
        cause: LineCause,
    },
    /// Queries have more than 2^24 bytes.
    TooLong,
}

impl From<ReadError> for Status {
    ghost use Rattle.std.specs.Prelude.{◌≡◌};
    ghost use Rattle.rgb_app.specs.Status.{status_of_read};

    ghost from_gives = { λ error status. status ≡ status_of_read error };

    fn from(error: ReadError) -> Self {
        match error {
            ReadError::Fault => Status::ReadFault,
            ReadError::Malformed { place, cause } => Status::Malformed { place, cause },
            ReadError::OutOfMemory => Status::Memory,
        }
    }
}

impl From<QueriesError> for Status {
    ghost use Rattle.std.specs.Prelude.{◌≡◌};
    ghost use Rattle.rgb_app.specs.Status.{status_of_queries};

    ghost from_gives = { λ error status. status ≡ status_of_queries error };

    fn from(error: QueriesError) -> Self {
        match error {
            QueriesError::Fault => Status::ReadFault,
            QueriesError::OutOfMemory => Status::Memory,
            QueriesError::TooLong => Status::TooLong,
            QueriesError::BadLine(fault) => Status::BadQuery {
                line: fault.line,
                at: fault.at,
                cause: fault.cause,
            },
        }
    }
}

impl From<OutOfMemory> for Status {
    ghost use Rattle.std.specs.Prelude.{◌≡◌};
    ghost use Rattle.rgb_app.specs.declared.status.Status.TheVariants.{Memory};

    ghost from_gives = { λ _ status. status ≡ Memory };

    fn from(_: OutOfMemory) -> Self {
        Status::Memory
    }
}

impl From<WriteError> for Status {
    ghost use Rattle.std.specs.Prelude.{◌≡◌};
    ghost use Rattle.rgb_app.specs.declared.status.Status.TheVariants.{WriteFault};

    ghost from_gives = { λ _ status. status ≡ WriteFault };

    fn from(_: WriteError) -> Self {
        Status::WriteFault
    }
}

impl From<Failed> for Status {
    ghost use Rattle.std.specs.Prelude.{◌≡◌};
    ghost use Rattle.rgb_app.specs.declared.status.Status.TheVariants.{WriteFault};

    ghost from_gives = { λ _ status. status ≡ WriteFault };

    fn from(_: Failed) -> Self {
        Status::WriteFault
    }
}

/// A warned line. The longest has 41 bytes: the words, twenty digits and a cause of nine letters.
pub(crate) type Line = ArrayString<64>;

/// The cause's name, as it is warned.
fn name_of(cause: Cause) -> &'static str
    ensures name { result.now ≡ name_of cause }
    ensures short { length result.now < 10 }
{
    match cause {
        Cause::CutShort => "CutShort",
        Cause::BadLength => "BadLength",
        Cause::BadField => "BadField",
        Cause::BadText => "BadText",
        Cause::BadCount => "BadCount",
        Cause::BadGap => "BadGap",
        Cause::SameTerm => "SameTerm",
        Cause::BadDoc => "BadDoc",
        Cause::Trailing => "Trailing",
        Cause::TooMuch => "TooMuch",
    }
}

/// The name of what is wrong with a line of queries, as it is warned.
fn name_of_line_cause(cause: LineCause) -> &'static str
    ensures name { result.now ≡ name_of_line_cause cause }
    ensures short { length result.now ≤ 10 }
{
    match cause {
        LineCause::NotText => "NotText",
        LineCause::NoQuery(QueryCause::Ended) => "Ended",
        LineCause::NoQuery(QueryCause::Unexpected) => "Unexpected",
        LineCause::NoQuery(QueryCause::OpenQuote) => "OpenQuote",
        LineCause::NoQuery(QueryCause::OpenParen) => "OpenParen",
        LineCause::NoQuery(QueryCause::TooDeep) => "TooDeep",
    }
}

/// The line of these words.
fn line_of(words: &str) -> Line
    requires { length words.now < 64 }
    ensures { result.bytes ≡ line_of words.now }
{
    let mut line = Line::new();
    line.push_str(words);
    line.push_str("\n");
    line
}

/// The line of a file that is refused.
fn malformed_line(place: u64, cause: Cause) -> Line
    ensures { result.bytes ≡ line_of (malformed_words place cause) }
{
    let mut digits = Buffer::new();
    let mut line = Line::new();
    line.push_str("malformed ");
    line.push_str(digits.format(place));
    line.push_str(" ");
    line.push_str(name_of(cause));
    line.push_str("\n");
    line
}

/// The line of queries that are refused. It has at most 39 bytes: the words, two numbers of ten
/// digits and a cause of ten letters.
fn bad_query_line(line: u32, at: u32, cause: LineCause) -> Line
    ensures { result.bytes ≡ line_of (bad_query_words line at cause) }
{
    let mut digits = Buffer::new();
    let mut words = Line::new();
    words.push_str("query ");
    words.push_str(digits.format(line));
    words.push_str(" ");
    words.push_str(digits.format(at));
    words.push_str(" ");
    words.push_str(name_of_line_cause(cause));
    words.push_str("\n");
    words
}

impl Status {
    /// The number that the program ends with.
    pub(crate) fn code(self) -> u8
        ensures code { result ≡ code_of self }
    {
        match self {
            Status::Done => 0,
            Status::Usage => 2,
            Status::Malformed { .. } => 3,
            Status::ReadFault => 4,
            Status::WriteFault => 5,
            Status::Memory => 6,
            Status::BadQuery { .. } => 7,
            Status::TooLong => 8,
        }
    }

    /// The line on standard error, if there is one. It takes no memory.
    pub(crate) fn warning(self) -> Option<Line>
        ensures line { option_map (λ line. line.bytes) result ≡ warning_of self }
    {
        match self {
            Status::Done => None,
            Status::Usage => Some(line_of("usage")),
            Status::Malformed { place, cause } => Some(malformed_line(place, cause)),
            Status::ReadFault => Some(line_of("read fault")),
            Status::WriteFault => Some(line_of("write fault")),
            Status::Memory => Some(line_of("memory")),
            Status::BadQuery { line, at, cause } => Some(bad_query_line(line, at, cause)),
            Status::TooLong => Some(line_of("queries too long")),
        }
    }
}
