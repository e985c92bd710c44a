//! The outside as a trait: named files, printed and warned text, and counts of failed calls.
ghost use Rattle.std.specs.Prelude.{◌≡◌, ◌⊎◌, ℕ, ◌≤◌, length, take, IfOk, OnOk, OnErr, IsErr};
ghost use Rattle.rgb_host.specs.Files.{one_more, ReadsTold, Takes};
ghost use Rattle.rgb_host.specs.Seen.{Seen, Lacks, created, grown, with_print, with_warning, ReadFailed, WriteFailed, WarnFailed};
ghost use Rattle.rgb_host.specs.declared.host.Failed.{Failed};

use thiserror::Error;

/// A call on the outside failed.
#[derive(Clone, Copy, Debug, PartialEq, Eq, Error)]
#[error("a call on the host failed")]
pub struct Failed;

/// Files by name, standard output and standard error. A name is the file's path as it stands.
pub trait Host {
    /// What it tells, and how many of its calls failed.
    ghost seen: { Self → Seen };

    /// Reads bytes of a file from a place on into the front of the buffer, and answers how many.
    /// 0 says that no byte is left there, or that the buffer is empty. What stands in the buffer
    /// behind them, or after a failure, is free.
    fn read_at(&mut self, name: &str, at: u64, buf: &mut [u8]) -> Result<usize, Failed>
        ensures within { IfOk result (λ n. n ≤ length buf.new) }
        ensures bytes { IfOk result (λ n. ReadsTold (seen self.old).files name.now at buf.new n) }
        ensures ok { OnOk result (seen self.new ≡ seen self.old) }
        ensures missing { Lacks (seen self.old) name.now
            → IsErr result × (seen self.new ≡ seen self.old) }
        ensures fault { OnErr result
            (Lacks (seen self.old) name.now ⊎ ReadFailed (seen self.old) (seen self.new)) };

    /// Makes the named file empty, whether or not it was there.
    fn create(&mut self, name: &str) -> Result<(), Failed>
        ensures ok { OnOk result (seen self.new ≡ created name.now (seen self.old)) }
        ensures there { OnOk result (¬ Lacks (seen self.new) name.now) }
        ensures fault { OnErr result (WriteFailed (seen self.old) (seen self.new)) };

    /// Adds the first bytes of the piece at the end of the named file, and answers how many.
    fn append(&mut self, name: &str, piece: &[u8]) -> Result<usize, Failed>
        requires { ¬ Lacks (seen self.old) name.now }
        ensures takes { IfOk result (λ n. Takes piece.now n) }
        ensures ok { IfOk result
            (λ n. seen self.new ≡ grown name.now (take n piece.now) (seen self.old)) }
        ensures there { ¬ Lacks (seen self.new) name.now }
        ensures fault { OnErr result (WriteFailed (seen self.old) (seen self.new)) };

    /// Prints the first bytes of the piece, and answers how many.
    fn print(&mut self, piece: &[u8]) -> Result<usize, Failed>
        ensures takes { IfOk result (λ n. Takes piece.now n) }
        ensures ok { IfOk result
            (λ n. seen self.new ≡ with_print (take n piece.now) (seen self.old)) }
        ensures fault { OnErr result (WriteFailed (seen self.old) (seen self.new)) };

    /// Warns the first bytes of the piece, and answers how many.
    fn warn(&mut self, piece: &[u8]) -> Result<usize, Failed>
        ensures takes { IfOk result (λ n. Takes piece.now n) }
        ensures ok { IfOk result
            (λ n. seen self.new ≡ with_warning (take n piece.now) (seen self.old)) }
        ensures fault { OnErr result (WarnFailed (seen self.old) (seen self.new)) };
}

/// Counts one more.
pub(crate) fn raise(count: &mut u64)
    ensures one { count.new ≡ one_more count.old }
    ensures kept { count.old ≤ count.new }
{
    *count = count.saturating_add(1);
}
