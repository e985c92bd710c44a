//! Laws of a host's steps, for the proofs of the crates above. Each call does nothing.
ghost use Rattle.rgb_host.specs.Laws.{CreatedThenAppended, AppendedTwice, NothingAppended, AppendedIsThere, FailedLater};

/// Bytes that are appended to a file just created are all that it holds.
pub fn created_then_appended()
    ensures whole { CreatedThenAppended }
{}

/// Pieces that are appended one behind the other are one, and a failure in a later piece is a
/// failure in the whole.
pub fn pieces_join()
    ensures twice { AppendedTwice }
    ensures nothing { NothingAppended }
    ensures there { AppendedIsThere }
    ensures failed { FailedLater }
{}
