//! Why a text is no query.
use std::alloc::{AllocError, AllocFailed};
use thiserror::Error;

/// What is wrong with a text that is no query.
#[derive(Clone, Copy, Debug, PartialEq, Eq)]
pub enum QueryCause {
    /// The text ends where a term, `NOT` or `(` is needed.
    Ended,
    /// A token stands where the grammar allows none such.
    Unexpected,
    /// A `"` has no later one.
    OpenQuote,
    /// The text ends and a `(` is still open.
    OpenParen,
    /// A `(` or `NOT` would be the 65th that is open at once.
    TooDeep,
}

/// The first fault of a text from the left.
#[derive(Clone, Copy, Debug, PartialEq, Eq)]
pub struct QueryFault {
    /// The byte of the text at which it stands.
    pub at: u32,
    pub cause: QueryCause,
}

/// Why a text couldn't be read as a query.
#[derive(Clone, Copy, Debug, PartialEq, Eq, Error)]
pub enum ParseError {
    /// The text is no query.
    #[error("no query at byte {}", .0.at)]
    Fault(QueryFault),
    /// Memory ran out.
    #[error("out of memory")]
    OutOfMemory,
}

impl From<AllocError> for ParseError {
    ghost use Rattle.std.specs.Prelude.{◌≡◌};
    ghost use Rattle.bool_query.specs.declared.error.ParseError.TheVariants.{OutOfMemory as no_memory};

    ghost from_gives = { λ _ error. error ≡ no_memory };

    fn from(_: AllocError) -> Self {
        ParseError::OutOfMemory
    }
}

impl<T: Drop> From<AllocFailed<T>> for ParseError {
    ghost use Rattle.std.specs.Prelude.{◌≡◌};
    ghost use Rattle.bool_query.specs.declared.error.ParseError.TheVariants.{OutOfMemory as no_memory};

    ghost from_gives = { λ _ error. error ≡ no_memory };

    fn from(_: AllocFailed<T>) -> Self {
        ParseError::OutOfMemory
    }
}
