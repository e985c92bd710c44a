//! The answers to queries that were asked beside a reordering, and their printing without memory.
ghost use Rattle.std.specs.Prelude.{◌≡◌, ◌<◌, ◌≤◌, ◌++◌, length, map, zip, codes, All, OnOk, OnErr};
ghost use Rattle.rgb_host.specs.Seen.{with_print, PrintedThenFailed};
ghost use Rattle.rgb_app.specs.Text.{line_of, block_words, renumbered_words, renumbered_lines, block_text, blocks, readers_line};
ghost use Rattle.rgb_app.specs.Printing.{Adds};
ghost use Rattle.rgb_app.specs.Prepared.{text_of, HasOwners, all_lent};

use crate::answers::head_of;
use crate::printing::{Piece, flush, send, send_reordering};
use crate::reordering::Reordered;
use arrayvec::ArrayString;
use itoa::Buffer;
use rgb_base::{Ids, Index};
use rgb_host::{Failed, Host};

/// The documents that a query means, at a version.
#[derive(Drop)]
pub struct LiveAnswer {
    /// The number of the query's line, from 1 on.
    pub line: u32,
    /// The version by whose numbers the documents are told.
    pub version: u32,
    /// The numbers of the documents at that version, rising.
    pub ids: Ids,
    /// At each place the document of the index whose number stands there in `ids`.
    pub originals: Ids,
}

/// The first line of a block. The longest has 65 bytes: three numbers of at most twenty digits, and the
/// words between them.
type BlockLine = ArrayString<128>;

/// The line of the readers: at most 19 bytes.
type ReadersLine = ArrayString<32>;

/// The line that says how many readers asked.
fn readers_line(readers: u32) -> ReadersLine
    ensures { result.bytes ≡ readers_line readers }
{
    let mut digits = Buffer::new();
    let mut line = ReadersLine::new();
    line.push_str("readers ");
    line.push_str(digits.format(readers));
    line.push_str("\n");
    line
}

/// The line that says at which version a query was answered, and how many documents it means.
fn block_line(word: &str, line: u32, version: u32, count: usize) -> BlockLine
    requires { length word.now ≤ 5 }
    ensures { result.bytes ≡ line_of (block_words word.now line version count) }
{
    let mut digits = Buffer::new();
    let mut words = BlockLine::new();
    words.push_str(word);
    words.push_str(" ");
    words.push_str(digits.format(line));
    words.push_str(" version ");
    words.push_str(digits.format(version));
    words.push_str(" matches ");
    words.push_str(digits.format(count));
    words.push_str("\n");
    words
}

/// Sends the line of a document on its way, by its number at a version.
fn send_renumbered<H: Host>(
    index: &Index,
    id: u32,
    original: u32,
    held: &mut Piece,
    host: &mut H,
) -> Result<(), Failed>
    requires { original < length index.now.documents }
    ensures ok { OnOk result (Adds (line_of (renumbered_words index.now (id, original)))
        held.old.bytes held.new.bytes (H.seen host.old) (H.seen host.new)) }
    ensures fault { OnErr result (PrintedThenFailed
        (held.old.bytes ++ line_of (renumbered_words index.now (id, original)))
        (H.seen host.old) (H.seen host.new)) }
{
    send(head_of(id).as_str(), held, host)?;
    send(index.name(original), held, host)?;
    send("\n", held, host)
}

/// Sends the lines of documents on their way.
fn send_all_renumbered<H: Host>(
    index: &Index,
    ids: &[u32],
    originals: &[u32],
    held: &mut Piece,
    host: &mut H,
) -> Result<(), Failed>
    requires len { length originals.now ≡ length ids.now }
    requires within { All (λ doc. doc < length index.now.documents) originals.now }
    ensures ok { OnOk result (Adds (renumbered_lines index.now (zip ids.now originals.now))
        held.old.bytes held.new.bytes (H.seen host.old) (H.seen host.new)) }
    ensures fault { OnErr result (PrintedThenFailed
        (held.old.bytes ++ renumbered_lines index.now (zip ids.now originals.now))
        (H.seen host.old) (H.seen host.new)) }
{
    for place in 0..ids.len() {
        send_renumbered(index, ids[place], originals[place], held, host)?;
    }
    Ok(())
}

/// Sends a block on its way.
fn send_block<H: Host>(
    word: &str,
    index: &Index,
    answer: &LiveAnswer,
    held: &mut Piece,
    host: &mut H,
) -> Result<(), Failed>
    requires word { length word.now ≤ 5 }
    requires owners { HasOwners index.now answer.now }
    ensures ok { OnOk result (Adds (block_text word.now index.now answer.now) held.old.bytes
        held.new.bytes (H.seen host.old) (H.seen host.new)) }
    ensures fault { OnErr result
        (PrintedThenFailed (held.old.bytes ++ block_text word.now index.now answer.now)
        (H.seen host.old) (H.seen host.new)) }
{
    let ids = answer.ids.as_slice();
    let originals = answer.originals.as_slice();
    let line = block_line(word, answer.line, answer.version, ids.len());
    send(line.as_str(), held, host)?;
    send_all_renumbered(index, ids, originals, held, host)
}

/// Sends blocks on their way.
fn send_blocks<H: Host>(
    word: &str,
    index: &Index,
    answers: &[&LiveAnswer],
    held: &mut Piece,
    host: &mut H,
) -> Result<(), Failed>
    requires word { length word.now ≤ 5 }
    requires owners { All (HasOwners index.now) (all_lent answers.now) }
    ensures ok { OnOk result (Adds (blocks word.now index.now (all_lent answers.now)) held.old.bytes
        held.new.bytes (H.seen host.old) (H.seen host.new)) }
    ensures fault { OnErr result
        (PrintedThenFailed (held.old.bytes ++ blocks word.now index.now (all_lent answers.now))
        (H.seen host.old) (H.seen host.new)) }
{
    for answer in answers {
        send_block(word, index, *answer, held, host)?;
    }
    Ok(())
}

/// Sends what readers were answered and the final answers on their way.
fn send_both<H: Host>(
    index: &Index,
    answers: &[&LiveAnswer],
    finals: &[&LiveAnswer],
    held: &mut Piece,
    host: &mut H,
) -> Result<(), Failed>
    requires owners { All (HasOwners index.now) (all_lent answers.now) }
    requires final_owners { All (HasOwners index.now) (all_lent finals.now) }
    ensures ok { OnOk result (Adds (blocks (codes "live") index.now (all_lent answers.now)
        ++ blocks (codes "final") index.now (all_lent finals.now))
        held.old.bytes held.new.bytes (H.seen host.old) (H.seen host.new)) }
    ensures fault { OnErr result (PrintedThenFailed
        (held.old.bytes ++ (blocks (codes "live") index.now (all_lent answers.now)
        ++ blocks (codes "final") index.now (all_lent finals.now)))
        (H.seen host.old) (H.seen host.new)) }
{
    send_blocks("live", index, answers, held, host)?;
    send_blocks("final", index, finals, held, host)
}

/// The same behind the line of the readers.
fn send_answered<H: Host>(
    index: &Index,
    readers: u32,
    answers: &[&LiveAnswer],
    finals: &[&LiveAnswer],
    held: &mut Piece,
    host: &mut H,
) -> Result<(), Failed>
    requires owners { All (HasOwners index.now) (all_lent answers.now) }
    requires final_owners { All (HasOwners index.now) (all_lent finals.now) }
    ensures ok { OnOk result (Adds (readers_line readers
        ++ (blocks (codes "live") index.now (all_lent answers.now)
        ++ blocks (codes "final") index.now (all_lent finals.now)))
        held.old.bytes held.new.bytes (H.seen host.old) (H.seen host.new)) }
    ensures fault { OnErr result (PrintedThenFailed (held.old.bytes ++ (readers_line readers
        ++ (blocks (codes "live") index.now (all_lent answers.now)
        ++ blocks (codes "final") index.now (all_lent finals.now))))
        (H.seen host.old) (H.seen host.new)) }
{
    send(readers_line(readers).as_str(), held, host)?;
    send_both(index, answers, finals, held, host)
}

/// The same behind the text of the reordering.
fn send_live<H: Host>(
    index: &Index,
    work: &Reordered,
    readers: u32,
    answers: &[&LiveAnswer],
    finals: &[&LiveAnswer],
    held: &mut Piece,
    host: &mut H,
) -> Result<(), Failed>
    requires owners { All (HasOwners index.now) (all_lent answers.now) }
    requires final_owners { All (HasOwners index.now) (all_lent finals.now) }
    ensures ok { OnOk result (Adds (text_of work.now ++ (readers_line readers
        ++ (blocks (codes "live") index.now (all_lent answers.now)
        ++ blocks (codes "final") index.now (all_lent finals.now))))
        held.old.bytes held.new.bytes (H.seen host.old) (H.seen host.new)) }
    ensures fault { OnErr result (PrintedThenFailed (held.old.bytes ++ (text_of work.now
        ++ (readers_line readers ++ (blocks (codes "live") index.now (all_lent answers.now)
        ++ blocks (codes "final") index.now (all_lent finals.now)))))
        (H.seen host.old) (H.seen host.new)) }
{
    send_reordering(work, held, host)?;
    send_answered(index, readers, answers, finals, held, host)
}

/// Prints the text of a reordering and of what was answered beside it. It takes no memory.
pub(crate) fn print_live<H: Host>(
    host: &mut H,
    index: &Index,
    work: &Reordered,
    readers: u32,
    answers: &[&LiveAnswer],
    finals: &[&LiveAnswer],
) -> Result<(), Failed>
    requires owners { All (HasOwners index.now) (all_lent answers.now) }
    requires final_owners { All (HasOwners index.now) (all_lent finals.now) }
    ensures ok { OnOk result (H.seen host.new
        ≡ with_print (text_of work.now ++ (readers_line readers
        ++ (blocks (codes "live") index.now (all_lent answers.now)
        ++ blocks (codes "final") index.now (all_lent finals.now)))) (H.seen host.old)) }
    ensures fault { OnErr result (PrintedThenFailed (text_of work.now ++ (readers_line readers
        ++ (blocks (codes "live") index.now (all_lent answers.now)
        ++ blocks (codes "final") index.now (all_lent finals.now))))
        (H.seen host.old) (H.seen host.new)) }
{
    let mut held = Piece::new();
    send_live(index, work, readers, answers, finals, &mut held, host)?;
    flush(&mut held, host)
}
