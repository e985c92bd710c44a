//! The answers to queries: all are worked out, and then printed without memory.
ghost use Rattle.std.specs.Prelude.{◌≡◌, ◌<◌, ◌++◌, length, map, codes, decimal, All, IfOk, OnOk, OnErr};
ghost use Rattle.rgb_host.specs.Seen.{with_print, PrintedThenFailed};
ghost use Rattle.postings_rewrite.specs.Stores.{stored_of};
ghost use Rattle.query_file.specs.View.{all_seen};
ghost use Rattle.rgb_app.specs.Answering.{AreAnswers, AreWithin};
ghost use Rattle.rgb_app.specs.Text.{line_of, query_words, document_words, document_lines, answer_text, query_text};
ghost use Rattle.rgb_app.specs.Printing.{Adds};

use crate::printing::{Piece, flush, send};
use arrayvec::ArrayString;
use bool_query::answer_laws::{answers_are_renumbered, store_answers_as_the_index};
use bool_query::{Dictionary, evaluate};
use itoa::Buffer;
use postings_rewrite::BlockStore;
use query_file::NumberedQuery;
use rgb_base::{Ids, Index, OutOfMemory};
use rgb_host::{Failed, Host};
use std::alloc::Global;

/// The documents that a query means.
#[derive(Drop)]
pub struct Answer {
    /// The number of the query's line, from 1 on.
    pub line: u32,
    pub ids: Ids,
}

/// The first line of an answer. The longest has 36 bytes: two numbers of at most twenty digits, and
/// the words between them.
type QueryLine = ArrayString<64>;

/// A number and the space behind it: at most eleven bytes.
type Head = ArrayString<32>;

/// The answers to all queries over the index.
pub(crate) fn answers_to(
    alloc: Global,
    index: &Index,
    queries: &[NumberedQuery],
) -> Result<Vec<Answer>, OutOfMemory>
    ensures ok { IfOk result (λ answers.
        AreAnswers index.now (all_seen queries.now) answers.items) }
    ensures within { IfOk result (λ answers. AreWithin index.now answers.items) }
{
    let dictionary = Dictionary::new(alloc, index)?;
    let store = BlockStore::new(alloc, index)?;
    answers_over(alloc, index, &dictionary, &store, queries)
}

/// The same, by the terms of the index and the documents of its lists.
fn answers_over(
    alloc: Global,
    index: &Index,
    dictionary: &Dictionary,
    store: &BlockStore,
    queries: &[NumberedQuery],
) -> Result<Vec<Answer>, OutOfMemory>
    requires terms { dictionary.now ≡ map (λ list. list.term) index.now.lists }
    requires store { store.now ≡ stored_of index.now }
    ensures ok { IfOk result (λ answers.
        AreAnswers index.now (all_seen queries.now) answers.items) }
    ensures within { IfOk result (λ answers. AreWithin index.now answers.items) }
{
    index.is_sound();
    answers_are_renumbered();
    store_answers_as_the_index();
    let mut answers = Vec::new(alloc);
    for query in queries {
        let ids = evaluate(alloc, &query.query, dictionary, store)?;
        answers.push(Answer {
            line: query.line,
            ids,
        })?;
    }
    Ok(answers)
}

/// The line that says how many documents a query means.
fn query_line(line: u32, count: usize) -> QueryLine
    ensures { result.bytes ≡ line_of (query_words line count) }
{
    let mut digits = Buffer::new();
    let mut words = QueryLine::new();
    words.push_str("query ");
    words.push_str(digits.format(line));
    words.push_str(" matches ");
    words.push_str(digits.format(count));
    words.push_str("\n");
    words
}

/// The number of a document, and the space behind it.
pub(crate) fn head_of(doc: u32) -> Head
    ensures { result.bytes ≡ decimal doc ++ codes " " }
{
    let mut digits = Buffer::new();
    let mut head = Head::new();
    head.push_str(digits.format(doc));
    head.push_str(" ");
    head
}

/// Sends the line of a document on its way.
fn send_document<H: Host>(
    index: &Index,
    doc: u32,
    held: &mut Piece,
    host: &mut H,
) -> Result<(), Failed>
    requires { doc < length index.now.documents }
    ensures ok { OnOk result (Adds (line_of (document_words index.now doc)) held.old.bytes
        held.new.bytes (H.seen host.old) (H.seen host.new)) }
    ensures fault { OnErr result
        (PrintedThenFailed (held.old.bytes ++ line_of (document_words index.now doc))
        (H.seen host.old) (H.seen host.new)) }
{
    send(head_of(doc).as_str(), held, host)?;
    send(index.name(doc), held, host)?;
    send("\n", held, host)
}

/// Sends the lines of documents on their way.
fn send_documents<H: Host>(
    index: &Index,
    ids: &[u32],
    held: &mut Piece,
    host: &mut H,
) -> Result<(), Failed>
    requires { All (λ doc. doc < length index.now.documents) ids.now }
    ensures ok { OnOk result (Adds (document_lines index.now ids.now) held.old.bytes
        held.new.bytes (H.seen host.old) (H.seen host.new)) }
    ensures fault { OnErr result
        (PrintedThenFailed (held.old.bytes ++ document_lines index.now ids.now)
        (H.seen host.old) (H.seen host.new)) }
{
    for doc in ids {
        send_document(index, *doc, held, host)?;
    }
    Ok(())
}

/// Sends an answer on its way.
fn send_answer<H: Host>(
    index: &Index,
    answer: &Answer,
    held: &mut Piece,
    host: &mut H,
) -> Result<(), Failed>
    requires { All (λ doc. doc < length index.now.documents) answer.now.ids }
    ensures ok { OnOk result (Adds (answer_text index.now answer.now) held.old.bytes
        held.new.bytes (H.seen host.old) (H.seen host.new)) }
    ensures fault { OnErr result
        (PrintedThenFailed (held.old.bytes ++ answer_text index.now answer.now)
        (H.seen host.old) (H.seen host.new)) }
{
    let ids = answer.ids.as_slice();
    send(query_line(answer.line, ids.len()).as_str(), held, host)?;
    send_documents(index, ids, held, host)
}

/// Sends answers on their way.
fn send_answers<H: Host>(
    index: &Index,
    answers: &[Answer],
    held: &mut Piece,
    host: &mut H,
) -> Result<(), Failed>
    requires { AreWithin index.now answers.now }
    ensures ok { OnOk result (Adds (query_text index.now answers.now) held.old.bytes
        held.new.bytes (H.seen host.old) (H.seen host.new)) }
    ensures fault { OnErr result
        (PrintedThenFailed (held.old.bytes ++ query_text index.now answers.now)
        (H.seen host.old) (H.seen host.new)) }
{
    for answer in answers {
        send_answer(index, answer, held, host)?;
    }
    Ok(())
}

/// Prints the answers. It takes no memory.
pub(crate) fn print_answers<H: Host>(
    host: &mut H,
    index: &Index,
    answers: &[Answer],
) -> Result<(), Failed>
    requires { AreWithin index.now answers.now }
    ensures ok { OnOk result
        (H.seen host.new ≡ with_print (query_text index.now answers.now) (H.seen host.old)) }
    ensures fault { OnErr result (PrintedThenFailed (query_text index.now answers.now)
        (H.seen host.old) (H.seen host.new)) }
{
    let mut held = Piece::new();
    send_answers(index, answers, &mut held, host)?;
    flush(&mut held, host)
}
