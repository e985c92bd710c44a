//! Why an index couldn't be written.
use rgb_host::Failed;
use thiserror::Error;

/// Why an index couldn't be written.
#[derive(Clone, Copy, Debug, PartialEq, Eq, Error)]
pub enum WriteError {
    /// A write of the host failed.
    #[error("a write failed")]
    Fault,
}

impl From<Failed> for WriteError {
    fn from(_: Failed) -> Self {
        WriteError::Fault
    }
}
