//! Why a file couldn't be read as an index.
use ciff_format::Cause;
use rgb_base::OutOfMemory;
use rgb_host::Failed;
use std::alloc::AllocError;
use thiserror::Error;

/// Why a file couldn't be read as an index.
#[derive(Clone, Copy, Debug, PartialEq, Eq, Error)]
pub enum ReadError {
    /// A read of the host failed, or the file isn't there.
    #[error("a read failed")]
    Fault,
    /// Memory ran out.
    #[error("out of memory")]
    OutOfMemory,
    /// The file is refused: the byte at which the length of its first bad message starts, and why.
    #[error("malformed at byte {place}")]
    Malformed { place: u64, cause: Cause },
}

impl From<Failed> for ReadError {
    ghost use Rattle.std.specs.Prelude.{◌≡◌};
    ghost use Rattle.ciff_reader.specs.declared.error.ReadError.TheVariants.{Fault};

    ghost from_gives = { λ _ error. error ≡ Fault };

    fn from(_: Failed) -> Self {
        ReadError::Fault
    }
}

impl From<AllocError> for ReadError {
    ghost use Rattle.std.specs.Prelude.{◌≡◌};
    ghost use Rattle.ciff_reader.specs.declared.error.ReadError.TheVariants.{OutOfMemory as no_memory};

    ghost from_gives = { λ _ error. error ≡ no_memory };

    fn from(_: AllocError) -> Self {
        ReadError::OutOfMemory
    }
}

/// Why a message isn't taken.
#[derive(Clone, Copy)]
pub(crate) enum Refusal {
    /// It is wrong.
    Cause(Cause),
    /// Memory ran out.
    OutOfMemory,
}

impl From<OutOfMemory> for Refusal {
    ghost use Rattle.std.specs.Prelude.{◌≡◌};
    ghost use Rattle.ciff_reader.specs.declared.error.Refusal.TheVariants.{OutOfMemory as no_memory};

    ghost from_gives = { λ _ error. error ≡ no_memory };

    fn from(_: OutOfMemory) -> Self {
        Refusal::OutOfMemory
    }
}
