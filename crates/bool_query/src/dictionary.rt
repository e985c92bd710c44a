//! The terms of an index, by which its lists are found.
ghost use Rattle.std.specs.Prelude.{◌≡◌, ◌<◌, ◌^◌, ◌↔◌, ℕ, length, map, slice_get, Some, IfOk};

use indexmap::IndexSet;
use rgb_base::{Index, OutOfMemory};
use std::alloc::Global;
use std::marker::Model;

/// The terms of an index. Contracts see the list of them, in the order of the index's lists.
#[derive(Drop)]
pub struct Dictionary {
    terms: IndexSet<String>,
}

impl Model for Dictionary {
    ghost use Rattle.std.specs.Prelude.{ℕ, List};

    ghost Value = { List (List ℕ) };

    ghost use Rattle.bool_query.specs.Dictionary.{terms_in, IsDictionary};

    ghost view = { terms_in };

    ghost invariant = { IsDictionary };
}

impl Dictionary {
    /// The dictionary of an index. It takes a text of its own for each term.
    pub fn new(alloc: Global, index: &Index) -> Result<Dictionary, OutOfMemory>
        ensures ok { IfOk result (λ d. d ≡ map (λ list. list.term) index.now.lists) }
    {
        index.is_sound();
        let mut terms = IndexSet::with_capacity(alloc, index.lists() as usize)?;
        for list in 0..index.lists() {
            terms.insert(String::from_str(alloc, index.term(list))?)?;
        }
        Ok(Dictionary { terms })
    }

    /// The number of the list with the term, where one has it.
    pub fn list_of(&self, term: &str) -> Option<u32>
        ensures list { (n : ℕ) → (result ≡ Some n) ↔ (slice_get self.now n ≡ Some term.now) }
    {
        let list = self.terms.get_index_of(term)?;
        Some(list as u32)
    }
}
