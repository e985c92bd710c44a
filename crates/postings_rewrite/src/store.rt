//! Stores of postings: the documents of each list, which are searched from a place on.
ghost use Rattle.std.specs.Prelude.{◌≡◌, ℕ, ◌<◌, length};
ghost use Rattle.postings_rewrite.specs.declared.store.Place.{Place};
ghost use Rattle.postings_rewrite.specs.Stores.{StoredLists, IsStore, list_at};
ghost use Rattle.postings_rewrite.specs.Places.{start, StandsIn, IsNext};

/// A place in a list of a store: before one of its entries, or at its end. It is of use with the
/// list and the store that it was moved along.
#[derive(Clone, Copy, Debug, PartialEq, Eq)]
pub struct Place {
    /// The number of the entry.
    pub(crate) entry: u32,
    /// Where its gap begins in a block store, counted in bytes from the list's first gap.
    pub(crate) bytes: u32,
    /// The least number that the entry can have there: one more than the entry before it.
    pub(crate) before: u32,
}

impl Place {
    /// The place before entry 0 of every list.
    pub fn start() -> Place
        ensures same { result ≡ start }
    {
        Place {
            entry: 0,
            bytes: 0,
            before: 0,
        }
    }
}

/// The documents of lists of postings. Lists are named by their numbers, from 0 on. No call takes
/// memory.
pub trait PostingStore {
    /// The documents of each list, and how many documents there are.
    ghost stored: { Self → StoredLists };

    /// The place stands before this entry of this list.
    ghost stands: { Self → ℕ → Place → ℕ → Type 0 };

    /// The number of lists.
    fn lists(&self) -> u32
        ensures same { result ≡ length (stored self.now).lists }
        ensures sound { IsStore (stored self.now) };

    /// The number of documents, below which the numbers of all lists lie.
    fn documents(&self) -> u32
        ensures same { result ≡ (stored self.now).documents }
        ensures sound { IsStore (stored self.now) };

    /// The number of entries of a list.
    fn len(&self, list: u32) -> u32
        requires { list < length (stored self.now).lists }
        ensures same { result ≡ length (list_at (stored self.now) list) };

    /// Moves the place forward to the first entry from it on that is at least the target, and gives
    /// that entry without passing it. Where there is none, the place then stands at the end.
    fn next_geq(&self, list: u32, place: &mut Place, target: u32) -> Option<u32>
        requires list { list < length (stored self.now).lists }
        requires place { StandsIn
            (stands self.now list) (list_at (stored self.now) list) place.old }
        ensures next { (n : ℕ) → stands self.now list place.old n
            → IsNext (stands self.now list) (list_at (stored self.now) list)
            n target place.new result };

    /// The start stands before entry 0 of every list.
    ghost starts: { (store : Self) (list : ℕ) → stands store list start 0 };
}
