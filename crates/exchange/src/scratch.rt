//! Room for the work on a cell.
ghost use Rattle.std.specs.Prelude.{◌≡◌, IfOk};

use crate::entry::Entry;
use rgb_base::OutOfMemory;
use std::alloc::Global;
use std::marker::Model;

/// Room for cells of at most so many documents, at 28 bytes a document. Contracts see that number.
/// With room for all terms, at 8 bytes a term, rounds are faster.
#[derive(Drop)]
pub struct Scratch {
    pub(crate) entries: Vec<Entry>,
    pub(crate) keys: Vec<u64>,
    pub(crate) leaving: Vec<u32>,
    pub(crate) steps: Vec<i32>,
}

impl Model for Scratch {
    ghost use Rattle.std.specs.Prelude.{ℕ, ◌≡◌, vec_len};

    ghost Value = { ℕ };

    ghost view = { λ s. vec_len s.entries };

    ghost invariant = { λ s. (vec_len s.keys ≡ vec_len s.entries)
        × (vec_len s.leaving ≡ vec_len s.entries) };
}

impl Scratch {
    /// Room for cells of at most so many documents.
    pub fn new(alloc: Global, most: u32) -> Result<Scratch, OutOfMemory>
        ensures { IfOk result (λ scratch. scratch ≡ most) }
    {
        Scratch::with_terms(alloc, most, 0)
    }

    /// The same with room for the work on so many terms.
    pub fn with_terms(alloc: Global, most: u32, terms: u32) -> Result<Scratch, OutOfMemory>
        ensures { IfOk result (λ scratch. scratch ≡ most) }
    {
        let none = Entry { gain: 0, doc: 0 };
        let entries = vec![in alloc; none; most as usize]?;
        let keys = vec![in alloc; 0; most as usize]?;
        let leaving = vec![in alloc; 0; most as usize]?;
        let steps = vec![in alloc; 0; 2 * terms as usize]?;
        Ok(Scratch {
            entries,
            keys,
            leaving,
            steps,
        })
    }
}
