//! Why a file couldn't be read as queries.
use bool_query::QueryCause;
use rgb_host::Failed;
use std::alloc::{AllocError, AllocFailed};
use thiserror::Error;

/// Why a line is no query.
#[derive(Clone, Copy, Debug, PartialEq, Eq)]
pub enum LineCause {
    /// The line isn't UTF-8.
    NotText,
    /// Its text is no query.
    NoQuery(QueryCause),
}

/// The first line at fault.
#[derive(Clone, Copy, Debug, PartialEq, Eq)]
pub struct LineFault {
    /// The number of the line, from 1 on.
    pub line: u32,
    /// The byte of the line at which the fault stands, and 0 where the line isn't UTF-8.
    pub at: u32,
    pub cause: LineCause,
}

/// Why a file couldn't be read as queries.
#[derive(Clone, Copy, Debug, PartialEq, Eq, Error)]
pub enum QueriesError {
    /// A read of the host failed, or the file isn't there.
    #[error("a read failed")]
    Fault,
    /// Memory ran out.
    #[error("out of memory")]
    OutOfMemory,
    /// The file has more than 2^24 bytes.
    #[error("too long")]
    TooLong,
    /// A line is no query.
    #[error("no query in line {}", .0.line)]
    BadLine(LineFault),
}

impl From<Failed> for QueriesError {
    ghost use Rattle.std.specs.Prelude.{◌≡◌};
    ghost use Rattle.query_file.specs.declared.error.QueriesError.TheVariants.{Fault};

    ghost from_gives = { λ _ error. error ≡ Fault };

    fn from(_: Failed) -> Self {
        QueriesError::Fault
    }
}

impl From<AllocError> for QueriesError {
    ghost use Rattle.std.specs.Prelude.{◌≡◌};
    ghost use Rattle.query_file.specs.declared.error.QueriesError.TheVariants.{OutOfMemory as no_memory};

    ghost from_gives = { λ _ error. error ≡ no_memory };

    fn from(_: AllocError) -> Self {
        QueriesError::OutOfMemory
    }
}

impl<T: Drop> From<AllocFailed<T>> for QueriesError {
    ghost use Rattle.std.specs.Prelude.{◌≡◌};
    ghost use Rattle.query_file.specs.declared.error.QueriesError.TheVariants.{OutOfMemory as no_memory};

    ghost from_gives = { λ _ error. error ≡ no_memory };

    fn from(_: AllocFailed<T>) -> Self {
        QueriesError::OutOfMemory
    }
}
