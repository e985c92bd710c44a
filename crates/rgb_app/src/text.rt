//! The texts that are printed.
ghost use Rattle.std.specs.Prelude.{◌≡◌, ◌++◌, length, codes, decimal, Some, IfOk, string_bytes};
ghost use Rattle.rgb_base.specs.Parts.{IndexParts, posting_count};
ghost use Rattle.ciff_reader.specs.Counting.{AreCostsOf};
ghost use Rattle.rgb_app.specs.Text.{line_of, index_words, index_line, cost_words, cost_lines, report_text};

use ciff_reader::IndexCosts;
use gap_report::Costs;
use rgb_base::{Index, OutOfMemory};
use std::alloc::Global;
use std::fmt;

/// How many documents, lists and postings there are.
#[derive(Clone, Copy)]
struct IndexWords {
    documents: u32,
    lists: u32,
    postings: u128,
}

impl fmt::Display for IndexWords {
    ghost output = { λ words. Some (index_words words.documents words.lists words.postings) };

    fn fmt<W: fmt::Write>(&self, f: &mut fmt::Formatter<W>) -> fmt::Result {
        let documents = self.documents;
        let lists = self.lists;
        let postings = self.postings;
        write!(f, "documents {documents} lists {lists} postings {postings}")
    }
}

/// What the gaps of an index cost.
#[derive(Clone, Copy)]
struct CostWords {
    costs: Costs,
}

impl fmt::Display for CostWords {
    ghost output = { λ words. Some (cost_words words.costs) };

    fn fmt<W: fmt::Write>(&self, f: &mut fmt::Formatter<W>) -> fmt::Result {
        let gamma = self.costs.gamma;
        let delta = self.costs.delta;
        let bytes = self.costs.bytes;
        write!(f, "gamma {gamma} delta {delta} bytes {bytes}")
    }
}

fn words_of(index: &Index) -> IndexWords
    ensures documents { result.documents ≡ length index.now.documents }
    ensures lists { result.lists ≡ length index.now.lists }
    ensures postings { result.postings ≡ posting_count index.now.lists }
{
    IndexWords {
        documents: index.documents(),
        lists: index.lists(),
        postings: u128::from(index.total_postings()),
    }
}

/// The index line, which is the text of `copy` and the first line of the others.
pub(crate) fn index_line(alloc: Global, index: &Index) -> Result<String, OutOfMemory>
    ensures line { IfOk result (λ text. string_bytes text ≡ index_line index.now) }
{
    let line = words_of(index);
    Ok(format!(in alloc; "{line}\n")?)
}

/// The text of `report`: the index line, and the line of the costs, as they were counted.
pub(crate) fn report_text(alloc: Global, counted: IndexCosts) -> Result<String, OutOfMemory>
    ensures text { IfOk result (λ text. (index : IndexParts)
        → AreCostsOf counted index → string_bytes text ≡ report_text index) }
{
    let line = IndexWords {
        documents: counted.documents,
        lists: counted.lists,
        postings: counted.costs.postings,
    };
    let costs = CostWords {
        costs: counted.costs,
    };
    Ok(format!(in alloc; "{line}\n{costs}\n")?)
}

/// The last lines of `reorder`: the costs before and after.
pub(crate) fn cost_lines(alloc: Global, before: Costs, after: Costs) -> Result<String, OutOfMemory>
    ensures lines { IfOk result (λ text. string_bytes text ≡ cost_lines before after) }
{
    let before = CostWords { costs: before };
    let after = CostWords { costs: after };
    Ok(format!(in alloc; "before {before}\nafter {after}\n")?)
}

/// The line of `make` that says how many rounds were kept.
fn kept_line(alloc: Global, kept: usize) -> Result<String, OutOfMemory>
    ensures line { IfOk result
        (λ text. string_bytes text ≡ line_of (codes "kept " ++ decimal kept)) }
{
    Ok(format!(in alloc; "kept {kept}\n")?)
}

/// The text of `make`: the index line, how many rounds were kept, and the costs before and after.
pub(crate) fn make_text(
    alloc: Global,
    index: &Index,
    kept: usize,
    before: Costs,
    after: Costs,
) -> Result<String, OutOfMemory>
    ensures text { IfOk result (λ text. string_bytes text ≡ index_line index.now
        ++ (line_of (codes "kept " ++ decimal kept) ++ cost_lines before after)) }
{
    let mut text = index_line(alloc, index)?;
    let mut lines = kept_line(alloc, kept)?;
    lines.push_str(cost_lines(alloc, before, after)?.as_str())?;
    text.push_str(lines.as_str())?;
    Ok(text)
}
