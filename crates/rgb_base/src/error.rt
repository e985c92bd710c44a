//! Why a value couldn't be made.
ghost use Rattle.std.specs.Prelude.{◌≡◌};

use std::alloc::{AllocError, AllocFailed};
use thiserror::Error;

/// Memory ran out.
#[derive(Clone, Copy, Debug, PartialEq, Eq, Error)]
#[error("out of memory")]
pub struct OutOfMemory;

impl From<AllocError> for OutOfMemory {
    fn from(_: AllocError) -> Self {
        OutOfMemory
    }
}

impl<T: Drop> From<AllocFailed<T>> for OutOfMemory {
    fn from(_: AllocFailed<T>) -> Self {
        OutOfMemory
    }
}

/// Why parts are no index: the first cause in this order.
#[derive(Clone, Copy, Debug, PartialEq, Eq, Error)]
pub enum PartsError {
    /// There are 2^31 lists or documents, or more.
    #[error("too many lists or documents")]
    Counts,
    /// The first list whose documents don't strictly rise or aren't below the number of documents.
    #[error("list {list} isn't in order")]
    Order { list: u32 },
    /// The first list whose term an earlier list has.
    #[error("list {list} has the term of an earlier one")]
    Same { list: u32 },
    /// There are 2^32 postings or more, or more than 2^40 bytes of text.
    #[error("too many postings or too much text")]
    Size,
    /// Memory ran out.
    #[error("out of memory")]
    OutOfMemory,
}

impl From<AllocError> for PartsError {
    ghost use Rattle.rgb_base.specs.declared.error.PartsError.TheVariants.{OutOfMemory as no_memory};

    ghost from_gives = { λ _ e. e ≡ no_memory };

    fn from(_: AllocError) -> Self {
        PartsError::OutOfMemory
    }
}

impl<T: Drop> From<AllocFailed<T>> for PartsError {
    ghost use Rattle.rgb_base.specs.declared.error.PartsError.TheVariants.{OutOfMemory as no_memory};

    ghost from_gives = { λ _ e. e ≡ no_memory };

    fn from(_: AllocFailed<T>) -> Self {
        PartsError::OutOfMemory
    }
}

/// Why entries are no permutation.
#[derive(Clone, Copy, Debug, PartialEq, Eq, Error)]
pub enum OrderError {
    /// The first place whose entry isn't below the length or repeats an earlier one.
    #[error("place {place} has {value}, which is too large or stands before it")]
    NotAPermutation { place: u32, value: u32 },
    /// Memory ran out.
    #[error("out of memory")]
    OutOfMemory,
}

impl From<AllocError> for OrderError {
    ghost use Rattle.rgb_base.specs.declared.error.OrderError.TheVariants.{OutOfMemory as no_memory};

    ghost from_gives = { λ _ e. e ≡ no_memory };

    fn from(_: AllocError) -> Self {
        OrderError::OutOfMemory
    }
}

/// Why a builder refuses a piece: the first cause in the order of the call's definition.
#[derive(Clone, Copy, Debug, PartialEq, Eq, Error)]
pub enum BuildError {
    /// There would be 2^31 lists or documents, or more records than documents.
    #[error("too many lists, documents or records")]
    Counts,
    /// The document isn't above the one before it, or not below the number of documents.
    #[error("the document isn't in order")]
    Order,
    /// An earlier list has the term.
    #[error("an earlier list has the term")]
    Same,
    /// There would be 2^32 postings, or more than 2^40 bytes of text.
    #[error("too many postings or too much text")]
    Size,
    /// Memory ran out.
    #[error("out of memory")]
    OutOfMemory,
}

impl From<AllocError> for BuildError {
    ghost use Rattle.rgb_base.specs.declared.error.BuildError.TheVariants.{OutOfMemory as no_memory};

    ghost from_gives = { λ _ e. e ≡ no_memory };

    fn from(_: AllocError) -> Self {
        BuildError::OutOfMemory
    }
}

impl<T: Drop> From<AllocFailed<T>> for BuildError {
    ghost use Rattle.rgb_base.specs.declared.error.BuildError.TheVariants.{OutOfMemory as no_memory};

    ghost from_gives = { λ _ e. e ≡ no_memory };

    fn from(_: AllocFailed<T>) -> Self {
        BuildError::OutOfMemory
    }
}
