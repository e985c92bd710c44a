//! The top call: a command's work in its order.
ghost use Rattle.std.specs.Prelude.{◌≡◌, ℕ, ◌<◌, ◌≤◌, ◌↔◌, ◌++◌, List, codes, All, IfOk, OnOk, OnErr, MatchResult, Err};
ghost use Rattle.ciff_format.specs.Canonical.{bytes_of};
ghost use Rattle.rgb_host.specs.Seen.{with_file};
ghost use Rattle.bisection.specs.Progress.{AreOptions};
ghost use Rattle.command_words.specs.Command.{copy, report, reorder, query, make, live, texts_of};
ghost use Rattle.rgb_app.specs.Reordering.{options_of};
ghost use Rattle.rgb_app.specs.Prepared.{text_of, HasOwners, all_lent};
ghost use Rattle.rgb_app.specs.Text.{readers_line, blocks};
ghost use Rattle.rgb_app.specs.Outcome.{writing, printing, IsPlain, IsAny};
ghost use Rattle.rgb_app.specs.Status.{code_of, warning_of};
ghost use Rattle.rgb_app.specs.Ends.{delivered, IsCutOff, Says, SpellsNone, SpellsOne, Runs, Warned, Ends, IsExact};

use crate::answers::{answers_to, print_answers};
use crate::laws::exactly_one_outcome;
use crate::live_answers::{LiveAnswer, print_live};
use crate::living::live_beside;
use crate::merging::{in_order, lent};
use crate::printing::print_reordering;
use crate::reordering::{Reordered, prepare, summary};
use crate::status::Status;
use crate::text::{index_line, report_text};
use bool_query::answer_laws::answers_are_renumbered;
use ciff_reader::{read_costs, read_index};
use ciff_writer::{WriteError, write_index};
use command_words::{Command, Reordering, command_of};
use generated_index::generate;
use query_file::read_queries;
use rgb_base::{Index, Pace};
use rgb_host::laws::created_then_appended;
use rgb_host::{Failed, Host, print_all, warn_all};
use std::alloc::Global;
use std::io;
use std::io::ErrorKind;
use std::sync::Wait;
use std::thread::Threads;

/// Creates the file and writes the index to it. It takes no memory.
fn store<H: Host>(host: &mut H, name: &str, index: &Index) -> Result<(), WriteError>
    ensures ok { OnOk result (H.seen host.new
        ≡ with_file name.now (bytes_of index.now) (H.seen host.old)) }
    ensures fault { OnErr result ((text : List ℕ)
        → IsCutOff (writing name.now (bytes_of index.now) text) (H.seen host.old) (H.seen host.new)) }
{
    created_then_appended();
    host.create(name)?;
    write_index(index, host, name)?;
    Ok(())
}

/// Creates the file, writes the index to it and prints the text. It takes no memory.
fn deliver<H: Host>(host: &mut H, name: &str, index: &Index, text: &str) -> Result<(), WriteError>
    ensures ok { OnOk result (H.seen host.new
        ≡ delivered (writing name.now (bytes_of index.now) text.now) (H.seen host.old)) }
    ensures fault { OnErr result (IsCutOff (writing name.now (bytes_of index.now) text.now)
        (H.seen host.old) (H.seen host.new)) }
{
    store(host, name, index)?;
    print_all(host, text.as_bytes())?;
    Ok(())
}

/// Creates the file, writes the new index to it and prints the text. It takes no memory.
fn deliver_reordered<H: Host>(host: &mut H, name: &str, work: &Reordered) -> Result<(), WriteError>
    ensures ok { OnOk result (H.seen host.new
        ≡ delivered (writing name.now (bytes_of work.now.new) (text_of work.now))
        (H.seen host.old)) }
    ensures fault { OnErr result (IsCutOff
        (writing name.now (bytes_of work.now.new) (text_of work.now))
        (H.seen host.old) (H.seen host.new)) }
{
    store(host, name, &work.new)?;
    print_reordering(host, work)?;
    Ok(())
}

/// Creates the file, writes the new index to it and prints the text of the reordering and of the answers
/// beside it. It takes no memory.
fn deliver_live<H: Host>(
    host: &mut H,
    name: &str,
    index: &Index,
    reordered: &Reordered,
    readers: u32,
    answers: &[&LiveAnswer],
    finals: &[&LiveAnswer],
) -> Result<(), WriteError>
    requires owners { All (HasOwners index.now) (all_lent answers.now) }
    requires final_owners { All (HasOwners index.now) (all_lent finals.now) }
    ensures ok { OnOk result (H.seen host.new
        ≡ delivered (writing name.now (bytes_of reordered.now.new)
        (text_of reordered.now ++ (readers_line readers
        ++ (blocks (codes "live") index.now (all_lent answers.now)
        ++ blocks (codes "final") index.now (all_lent finals.now))))) (H.seen host.old)) }
    ensures fault { OnErr result (IsCutOff (writing name.now (bytes_of reordered.now.new)
        (text_of reordered.now ++ (readers_line readers
        ++ (blocks (codes "live") index.now (all_lent answers.now)
        ++ blocks (codes "final") index.now (all_lent finals.now)))))
        (H.seen host.old) (H.seen host.new)) }
{
    store(host, name, &reordered.new)?;
    print_live(host, index, reordered, readers, answers, finals)?;
    Ok(())
}

/// Prints the text, where no file is written.
fn show<H: Host>(host: &mut H, text: &str) -> Result<(), Failed>
    ensures ok { OnOk result (H.seen host.new ≡ delivered (printing text.now) (H.seen host.old)) }
    ensures fault { OnErr result
        (IsCutOff (printing text.now) (H.seen host.old) (H.seen host.new)) }
{
    print_all(host, text.as_bytes())
}

/// Writes the index of one file in canonical form to another.
fn copy<H: Host>(alloc: Global, host: &mut H, input: &str, output: &str) -> Result<(), Status>
    ensures says { MatchResult result
        (λ _. Says Status.Done (copy input.now output.now) (H.seen host.old) (H.seen host.new))
        (λ status. Says status (copy input.now output.now) (H.seen host.old) (H.seen host.new)) }
{
    let index = read_index(alloc, host, input)?;
    let text = index_line(alloc, &index)?;
    deliver(host, output, &index, &text)?;
    Ok(())
}

/// Prints what the gaps of a file's index cost. They are counted while the file is read, on one
/// thread: the number of workers is part of the command and changes nothing.
fn report<H: Host>(alloc: Global, host: &mut H, input: &str, workers: u32) -> Result<(), Status>
    ensures says { MatchResult result
        (λ _. Says Status.Done (report input.now workers) (H.seen host.old) (H.seen host.new))
        (λ status. Says status (report input.now workers) (H.seen host.old) (H.seen host.new)) }
{
    let counted = read_costs(alloc, host, input)?;
    let text = report_text(alloc, counted)?;
    show(host, &text)?;
    Ok(())
}

/// Renumbers the documents of a file's index and writes it to another, and prints what it kept of
/// the work and what the gaps cost before and after.
fn reorder<R: Threads + Sync, H: Host>(
    rt: &R,
    alloc: Global,
    host: &mut H,
    input: &str,
    output: &str,
    options: Reordering,
) -> Result<(), Status>
    requires options { AreOptions (options_of options) }
    ensures says { MatchResult result
        (λ _. Says Status.Done (reorder input.now output.now options)
        (H.seen host.old) (H.seen host.new))
        (λ status. Says status (reorder input.now output.now options)
        (H.seen host.old) (H.seen host.new)) }
{
    let index = read_index(alloc, host, input)?;
    let work = prepare(rt, alloc, &index, options)?;
    deliver_reordered(host, output, &work)?;
    Ok(())
}

/// Answers each query of one file over the index of another, and prints the answers.
fn query<H: Host>(alloc: Global, host: &mut H, input: &str, queries: &str) -> Result<(), Status>
    ensures says { MatchResult result
        (λ _. Says Status.Done (query input.now queries.now) (H.seen host.old) (H.seen host.new))
        (λ status. Says status (query input.now queries.now) (H.seen host.old) (H.seen host.new)) }
{
    let index = read_index(alloc, host, input)?;
    let asked = read_queries(alloc, host, queries)?;
    let answers = answers_to(alloc, &index, &asked)?;
    print_answers(host, &index, &answers)?;
    Ok(())
}

/// Draws an index of so many documents from a number and writes it to a file, and prints what its
/// reordering comes to.
fn make<R: Threads + Sync, H: Host>(
    rt: &R,
    alloc: Global,
    host: &mut H,
    documents: u32,
    output: &str,
    number: u32,
    options: Reordering,
) -> Result<(), Status>
    requires documents { documents ≤ 1000000 }
    requires options { AreOptions (options_of options) }
    ensures says { MatchResult result
        (λ _. Says Status.Done (make documents output.now number options)
        (H.seen host.old) (H.seen host.new))
        (λ status. Says status (make documents output.now number options)
        (H.seen host.old) (H.seen host.new)) }
{
    let index = generate(alloc, documents, number)?;
    let text = summary(rt, alloc, &index, options)?;
    deliver(host, output, &index, &text)?;
    Ok(())
}

/// Renumbers as `reorder` does, while so many readers answer the queries of a file, and prints their
/// answers and those under the last numbering too.
fn live<R: Threads + Wait + Sync, H: Host, P: Pace>(
    rt: &R,
    alloc: Global,
    host: &mut H,
    input: &str,
    output: &str,
    queries: &str,
    options: Reordering,
    readers: u32,
    pace: &P,
) -> Result<(), Status>
    requires options { AreOptions (options_of options) }
    requires some { 0 < readers }
    requires few { readers ≤ 16 }
    ensures says { MatchResult result
        (λ _. Says Status.Done (live input.now output.now queries.now options readers)
        (H.seen host.old) (H.seen host.new))
        (λ status. Says status (live input.now output.now queries.now options readers)
        (H.seen host.old) (H.seen host.new)) }
{
    // That each document of an answer has a name: for the proof.
    answers_are_renumbered();
    let index = read_index(alloc, host, input)?;
    let queries = read_queries(alloc, host, queries)?;
    let lived = live_beside(rt, alloc, &index, &queries, options, readers, pace)?;
    let answers = in_order(alloc, &lived.by_reader, queries.len())?;
    let finals = lent(alloc, &lived.finals)?;
    deliver_live(
        host,
        output,
        &index,
        &lived.work,
        readers,
        &answers,
        &finals,
    )?;
    Ok(())
}

/// Warns the line of a status, as far as the host takes it, and answers the status's number.
fn end<H: Host>(host: &mut H, status: Status) -> u8
    ensures code { result ≡ code_of status }
    ensures warned { Warned (warning_of status) (H.seen host.old) (H.seen host.new) }
{
    if let Some(line) = status.warning() {
        let _ = warn_all(host, line.as_str().as_bytes());
    }
    status.code()
}

/// Does the plain command that the words spell, and says how it ended.
fn work<R: Threads + Sync, H: Host>(rt: &R, alloc: Global, words: &[String], host: &mut H) -> Status
    ensures runs { Runs IsPlain result (texts_of words.now) (H.seen host.old) (H.seen host.new) }
    ensures one { SpellsOne (texts_of words.now) }
{
    let Some(command) = command_of(words) else {
        return Status::Usage;
    };
    let done = match command {
        Command::Copy { input, output } => copy(alloc, host, input, output),
        Command::Report { input, workers } => report(alloc, host, input, workers),
        Command::Reorder {
            input,
            output,
            options,
        } => reorder(rt, alloc, host, input, output, options),
        Command::Query { input, queries } => query(alloc, host, input, queries),
        Command::Make {
            documents,
            output,
            number,
            options,
        } => make(rt, alloc, host, documents, output, number, options),
        Command::Live { .. } => return Status::Usage,
    };
    match done {
        Ok(()) => Status::Done,
        Err(status) => status,
    }
}

/// Does the command that the words spell, but for `live`, which it refuses, and answers the status that
/// the program ends with. It always returns. `rt` makes the threads of commands that have workers.
pub fn run_plain<R: Threads + Sync, H: Host>(
    rt: &R,
    alloc: Global,
    words: &[String],
    host: &mut H,
) -> u8
    ensures ends { Ends IsPlain (texts_of words.now) (H.seen host.old) (H.seen host.new) result }
    ensures usage { (result ≡ 2) ↔ SpellsNone IsPlain (texts_of words.now) }
    ensures exact { IsExact IsPlain (texts_of words.now) (H.seen host.old) (H.seen host.new) result }
{
    exactly_one_outcome();
    let status = work(rt, alloc, words, host);
    end(host, status)
}

/// Does the command that the words spell: `live` itself, and any other as `run_plain` does. `rt` makes
/// the threads of readers and workers. `live` waits for them, so that what is said here holds where it
/// returns. `pace` is told where readers and publisher are.
pub fn run<R: Threads + Wait + Sync, H: Host, P: Pace>(
    rt: &R,
    alloc: Global,
    words: &[String],
    host: &mut H,
    pace: &P,
) -> u8
    ensures ends { Ends IsAny (texts_of words.now) (H.seen host.old) (H.seen host.new) result }
    ensures usage { (result ≡ 2) ↔ SpellsNone IsAny (texts_of words.now) }
    ensures exact { IsExact IsAny (texts_of words.now) (H.seen host.old) (H.seen host.new) result }
{
    exactly_one_outcome();
    let Some(
        Command::Live {
            input,
            output,
            queries,
            options,
            readers,
        },
    ) = command_of(words)
    else {
        return run_plain(rt, alloc, words, host);
    };
    match live(
        rt, alloc, host, input, output, queries, options, readers, pace,
    ) {
        Ok(()) => end(host, Status::Done),
        Err(status) => end(host, status),
    }
}

/// Why the program doesn't have its words.
#[derive(Clone, Copy, Debug, PartialEq, Eq)]
pub enum WordsFault {
    /// One of them is no text.
    NotText,
    OutOfMemory,
}

impl From<io::Error> for WordsFault {
    ghost use Rattle.std.specs.Prelude.{◌≡◌, ◌↔◌};
    ghost use Rattle.std.specs.IoError.{error_kind};
    ghost use Rattle.std.specs.declared.io.ErrorKind.TheVariants as kinds;
    ghost use Rattle.rgb_app.specs.declared.running.WordsFault.TheVariants.{OutOfMemory as no_memory};

    ghost from_gives = { λ error fault.
        (fault ≡ no_memory) ↔ (error_kind error ≡ kinds.OutOfMemory) };

    fn from(error: io::Error) -> Self {
        match error.kind() {
            ErrorKind::OutOfMemory => WordsFault::OutOfMemory,
            _ => WordsFault::NotText,
        }
    }
}

/// The same from the words as the system gives them. Words that are no text are no command.
pub fn run_words<R: Threads + Wait + Sync, H: Host, P: Pace>(
    rt: &R,
    alloc: Global,
    words: Result<Vec<String>, WordsFault>,
    host: &mut H,
    pace: &P,
) -> u8
    ensures ends { IfOk words (λ words.
        Ends IsAny (texts_of words.items) (H.seen host.old) (H.seen host.new) result) }
    ensures exact { IfOk words (λ words.
        IsExact IsAny (texts_of words.items) (H.seen host.old) (H.seen host.new) result) }
    ensures usage { IfOk words (λ words. (result ≡ 2) ↔ SpellsNone IsAny (texts_of words.items)) }
    ensures not_text { words ≡ Err WordsFault.NotText
        → (result ≡ 2) × Warned (warning_of Status.Usage) (H.seen host.old) (H.seen host.new) }
    ensures memory { words ≡ Err WordsFault.OutOfMemory
        → (result ≡ 6) × Warned (warning_of Status.Memory) (H.seen host.old) (H.seen host.new) }
{
    match words {
        Ok(words) => run(rt, alloc, &words, host, pace),
        Err(WordsFault::NotText) => end(host, Status::Usage),
        Err(WordsFault::OutOfMemory) => end(host, Status::Memory),
    }
}
