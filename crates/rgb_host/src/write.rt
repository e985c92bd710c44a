//! Writing whole pieces through calls that may take a part of one.
ghost use Rattle.std.specs.Prelude.{◌≡◌, OnOk, OnErr};
ghost use Rattle.rgb_host.specs.Seen.{Lacks, grown, with_print, with_warning, AppendedThenFailed, PrintedThenFailed, WarnedThenFailed};

use crate::host::{Failed, Host};

/// Appends all of the bytes to the named file. After a failure the first of them were appended.
pub fn write_all<H: Host>(host: &mut H, name: &str, bytes: &[u8]) -> Result<(), Failed>
    requires { ¬ Lacks (H.seen host.old) name.now }
    ensures ok { OnOk result (H.seen host.new ≡ grown name.now bytes.now (H.seen host.old)) }
    ensures there { ¬ Lacks (H.seen host.new) name.now }
    ensures fault { OnErr result
        (AppendedThenFailed name.now bytes.now (H.seen host.old) (H.seen host.new)) }
{
    let mut rest = bytes;
    while !rest.is_empty() {
        let taken = host.append(name, rest)?;
        rest = &rest[taken..];
    }
    Ok(())
}

/// Prints all of the text. After a failure the first bytes of it were printed.
pub fn print_all<H: Host>(host: &mut H, text: &[u8]) -> Result<(), Failed>
    ensures ok { OnOk result (H.seen host.new ≡ with_print text.now (H.seen host.old)) }
    ensures fault { OnErr result (PrintedThenFailed text.now (H.seen host.old) (H.seen host.new)) }
{
    let mut rest = text;
    while !rest.is_empty() {
        let taken = host.print(rest)?;
        rest = &rest[taken..];
    }
    Ok(())
}

/// Warns all of the text. After a failure the first bytes of it were warned.
pub fn warn_all<H: Host>(host: &mut H, text: &[u8]) -> Result<(), Failed>
    ensures ok { OnOk result (H.seen host.new ≡ with_warning text.now (H.seen host.old)) }
    ensures fault { OnErr result (WarnedThenFailed text.now (H.seen host.old) (H.seen host.new)) }
{
    let mut rest = text;
    while !rest.is_empty() {
        let taken = host.warn(rest)?;
        rest = &rest[taken..];
    }
    Ok(())
}
