//! The commands that words spell.
ghost use Rattle.std.specs.Prelude.{◌≡◌, ◌↔◌, ◌∷◌, Some, option_map};
ghost use Rattle.command_words.specs.Line.{OfParts, ComeTo};
ghost use Rattle.command_words.specs.Command.{Answers, copy_row, report_row, reorder_row, query_row, make_row, live_row, reordering_options, numbers_of, texts_of};
ghost use Rattle.command_words.specs.View.{command_seen};

use crate::number::meaning;
use crate::part::{follow, operand, value_of};
use crate::reordering::Reordering;
use crate::table::{
    COPY, DEPTH, DOCUMENTS, LEAF, LIVE, MAKE, MIN_DF, NUMBER, QUERY, READERS, REORDER, REPORT,
    ROUNDS, START, STEP, WORKERS,
};

/// A command with its operands and the numbers of its options.
#[derive(Clone, Copy, Debug, PartialEq, Eq)]
pub enum Command<'a> {
    /// Writes the index of the file `input` to the file `output`.
    Copy {
        input: &'a str,
        output: &'a str,
    },
    /// Prints the gap costs of the index of the file `input`, worked out by so many threads.
    Report {
        input: &'a str,
        workers: u32,
    },
    /// Renumbers the documents of the index of the file `input`, writes it to the file `output`, and
    /// prints the kept rounds and the gap costs before and after.
    Reorder {
        input: &'a str,
        output: &'a str,
        options: Reordering,
    },
    /// Answers each query of the file `queries` over the index of the file `input`.
    Query {
        input: &'a str,
        queries: &'a str,
    },
    /// Draws an index of so many documents from a number, writes it to the file `output`, reorders it
    /// in memory, and prints how many rounds were kept and the gap costs before and after.
    Make {
        documents: u32,
        output: &'a str,
        number: u32,
        options: Reordering,
    },
    /// As `Reorder`, while so many readers answer the queries of the file `queries`.
    Live {
        input: &'a str,
        output: &'a str,
        queries: &'a str,
        options: Reordering,
        readers: u32,
    },
}

// The words behind `copy`.
fn copy_of(words: &[String]) -> Option<Command<'_>>
    ensures { Answers (copy_row.name ∷ texts_of words.now) (option_map command_seen result) }
{
    if !follow(words, &COPY) {
        return None;
    }
    let input = operand(words, 0)?;
    let output = operand(words, 1)?;
    Some(Command::Copy { input, output })
}

// The words behind `report`.
fn report_of(words: &[String]) -> Option<Command<'_>>
    ensures { Answers (report_row.name ∷ texts_of words.now) (option_map command_seen result) }
{
    if !follow(words, &REPORT) {
        return None;
    }
    let input = operand(words, 0)?;
    let workers = value_of(words, &WORKERS)?;
    Some(Command::Report { input, workers })
}

// What the options of a reordering come to in a line.
fn reordering_of(words: &[String]) -> Option<Reordering>
    ensures { OfParts (texts_of words.now) (λ parts. (options : Reordering)
        → (result ≡ Some options) ↔ ComeTo parts reordering_options (numbers_of options)) }
{
    let depth = value_of(words, &DEPTH)?;
    let rounds = value_of(words, &ROUNDS)?;
    let leaf = value_of(words, &LEAF)?;
    let workers = value_of(words, &WORKERS)?;
    let step = value_of(words, &STEP)?;
    let min_df = value_of(words, &MIN_DF)?;
    let start = value_of(words, &START)?;
    Some(Reordering {
        depth,
        rounds,
        leaf,
        workers,
        step,
        min_df,
        by_name: start == 1,
    })
}

// The words behind `reorder`.
fn reorder_of(words: &[String]) -> Option<Command<'_>>
    ensures { Answers (reorder_row.name ∷ texts_of words.now) (option_map command_seen result) }
{
    if !follow(words, &REORDER) {
        return None;
    }
    let input = operand(words, 0)?;
    let output = operand(words, 1)?;
    let options = reordering_of(words)?;
    Some(Command::Reorder {
        input,
        output,
        options,
    })
}

// The words behind `query`.
fn query_of(words: &[String]) -> Option<Command<'_>>
    ensures { Answers (query_row.name ∷ texts_of words.now) (option_map command_seen result) }
{
    if !follow(words, &QUERY) {
        return None;
    }
    let input = operand(words, 0)?;
    let queries = operand(words, 1)?;
    Some(Command::Query { input, queries })
}

// The words behind `make`.
fn make_of(words: &[String]) -> Option<Command<'_>>
    ensures { Answers (make_row.name ∷ texts_of words.now) (option_map command_seen result) }
{
    if !follow(words, &MAKE) {
        return None;
    }
    let count = operand(words, 0)?;
    let documents = meaning(DOCUMENTS, count)?;
    let output = operand(words, 1)?;
    let number = value_of(words, &NUMBER)?;
    let options = reordering_of(words)?;
    Some(Command::Make {
        documents,
        output,
        number,
        options,
    })
}

// The words behind `live`.
fn live_of(words: &[String]) -> Option<Command<'_>>
    ensures { Answers (live_row.name ∷ texts_of words.now) (option_map command_seen result) }
{
    if !follow(words, &LIVE) {
        return None;
    }
    let input = operand(words, 0)?;
    let output = operand(words, 1)?;
    let queries = operand(words, 2)?;
    let readers = value_of(words, &READERS)?;
    let options = reordering_of(words)?;
    Some(Command::Live {
        input,
        output,
        queries,
        options,
        readers,
    })
}

/// The command that the words spell, or nothing where they spell none. It takes no memory.
pub fn command_of(words: &[String]) -> Option<Command<'_>>
    ensures command { Answers (texts_of words.now) (option_map command_seen result) }
{
    let [name, rest @ ..] = words else {
        return None;
    };
    match name.as_str() {
        "copy" => copy_of(rest),
        "report" => report_of(rest),
        "reorder" => reorder_of(rest),
        "query" => query_of(rest),
        "make" => make_of(rest),
        "live" => live_of(rest),
        _ => None,
    }
}
