//! Printing a text of any length without memory: lines are made one by one, and held until there are
//! enough of them for one call.
ghost use Rattle.std.specs.Prelude.{◌≡◌, ◌+◌, ◌≤◌, ◌<◌, [], ◌++◌, length, OnOk, OnErr};
ghost use Rattle.rgb_host.specs.Seen.{with_print, PrintedThenFailed};
ghost use Rattle.rgb_app.specs.Text.{line_of, round_words, round_lines};
ghost use Rattle.rgb_app.specs.Printing.{Adds};
ghost use Rattle.rgb_app.specs.Prepared.{text_of};

use crate::reordering::Reordered;
use arrayvec::ArrayString;
use bisection::KeptRound;
use itoa::Buffer;
use rgb_host::{Failed, Host, print_all};

/// How many bytes are held until they are printed in one call.
const PIECE: usize = 65536;

/// Bytes that are still to be printed.
pub(crate) type Piece = ArrayString<PIECE>;

/// A line of a kept round. The longest has 133 bytes: six numbers of at most forty digits, and the
/// words between them.
type RoundLine = ArrayString<256>;

/// Prints what is held.
pub(crate) fn flush<H: Host>(held: &mut Piece, host: &mut H) -> Result<(), Failed>
    ensures ok { OnOk result
        (Adds [] held.old.bytes held.new.bytes (H.seen host.old) (H.seen host.new)) }
    ensures empty { OnOk result (held.new.bytes ≡ []) }
    ensures fault { OnErr result
        (PrintedThenFailed held.old.bytes (H.seen host.old) (H.seen host.new)) }
{
    print_all(host, held.as_str().as_bytes())?;
    held.clear();
    Ok(())
}

/// Sends a text on its way: it is held, or printed where it is longer than what can be held.
pub(crate) fn send<H: Host>(text: &str, held: &mut Piece, host: &mut H) -> Result<(), Failed>
    ensures ok { OnOk result
        (Adds text.now held.old.bytes held.new.bytes (H.seen host.old) (H.seen host.new)) }
    ensures fault { OnErr result
        (PrintedThenFailed (held.old.bytes ++ text.now) (H.seen host.old) (H.seen host.new)) }
{
    if held.remaining_capacity() < text.len() {
        flush(held, host)?;
        if PIECE < text.len() {
            return print_all(host, text.as_bytes());
        }
    }
    held.push_str(text);
    Ok(())
}

/// The line of a kept round.
fn round_line(round: &KeptRound) -> RoundLine
    ensures { result.bytes ≡ line_of (round_words round.now) }
{
    let mut digits = Buffer::new();
    let mut line = RoundLine::new();
    line.push_str("round ");
    line.push_str(digits.format(round.level));
    line.push_str(" ");
    line.push_str(digits.format(round.start));
    line.push_str(" ");
    line.push_str(digits.format(round.size));
    line.push_str(" ");
    line.push_str(digits.format(round.pairs));
    line.push_str(" ");
    line.push_str(digits.format(round.before));
    line.push_str(" ");
    line.push_str(digits.format(round.after));
    line.push_str("\n");
    line
}

/// Sends the lines of kept rounds on their way.
fn send_rounds<H: Host>(rounds: &[KeptRound], held: &mut Piece, host: &mut H) -> Result<(), Failed>
    ensures ok { OnOk result (Adds (round_lines rounds.now) held.old.bytes held.new.bytes
        (H.seen host.old) (H.seen host.new)) }
    ensures fault { OnErr result (PrintedThenFailed (held.old.bytes ++ round_lines rounds.now)
        (H.seen host.old) (H.seen host.new)) }
{
    for round in rounds {
        send(round_line(round).as_str(), held, host)?;
    }
    Ok(())
}

/// Sends a text on its way that has the lines of kept rounds between its first and its last lines.
fn send_parts<H: Host>(
    first: &str,
    rounds: &[KeptRound],
    last: &str,
    held: &mut Piece,
    host: &mut H,
) -> Result<(), Failed>
    ensures ok { OnOk result (Adds (first.now ++ (round_lines rounds.now ++ last.now)) held.old.bytes
        held.new.bytes (H.seen host.old) (H.seen host.new)) }
    ensures fault { OnErr result
        (PrintedThenFailed (held.old.bytes ++ (first.now ++ (round_lines rounds.now ++ last.now)))
        (H.seen host.old) (H.seen host.new)) }
{
    send(first, held, host)?;
    send_rounds(rounds, held, host)?;
    send(last, held, host)
}

/// Sends the text of a reordering on its way.
pub(crate) fn send_reordering<H: Host>(
    work: &Reordered,
    held: &mut Piece,
    host: &mut H,
) -> Result<(), Failed>
    ensures ok { OnOk result (Adds (text_of work.now) held.old.bytes held.new.bytes
        (H.seen host.old) (H.seen host.new)) }
    ensures fault { OnErr result (PrintedThenFailed (held.old.bytes ++ text_of work.now)
        (H.seen host.old) (H.seen host.new)) }
{
    let rounds = work.rounds.as_slice();
    send_parts(&work.first, rounds, &work.last, held, host)
}

/// Prints the text of a reordering. It takes no memory.
pub(crate) fn print_reordering<H: Host>(host: &mut H, work: &Reordered) -> Result<(), Failed>
    ensures ok { OnOk result
        (H.seen host.new ≡ with_print (text_of work.now) (H.seen host.old)) }
    ensures fault { OnErr result
        (PrintedThenFailed (text_of work.now) (H.seen host.old) (H.seen host.new)) }
{
    let mut held = Piece::new();
    send_reordering(work, &mut held, host)?;
    flush(&mut held, host)
}
