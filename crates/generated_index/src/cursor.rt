//! Where the postings of a term end so far.
ghost use Rattle.std.specs.Prelude.{◌≡◌, ◌-◌, ◌<◌, ◌^◌};
ghost use Rattle.generated_index.specs.Steps.{advanced, no_cursor};

/// Where the postings of a term end so far, and how often it was drawn: 16 bytes together.
#[derive(Clone, Copy)]
pub(crate) struct Cursor {
    /// The place behind the last posting.
    pub(crate) end: u32,
    /// How often the term was drawn for all documents.
    pub(crate) draws: u32,
    /// The number after that of the last document that drew the term, or 0.
    pub(crate) after: u32,
    /// How often that document drew it.
    pub(crate) times: u32,
}

impl Cursor {
    /// No postings yet, the first of which is to stand at this place.
    pub(crate) fn at(end: u32) -> Cursor
        ensures same { result ≡ record no_cursor { end = end } }
    {
        Cursor {
            end,
            draws: 0,
            after: 0,
            times: 0,
        }
    }

    /// The cursor after one more draw of its term, for a document not below the one before.
    pub(crate) fn advanced(self, document: u32) -> Cursor
        requires few { document < 2 ^ 31 }
        requires end { self.end < 2 ^ 32 - 1 }
        requires draws { self.draws < 2 ^ 32 - 1 }
        requires times { document < self.after → self.times < 2 ^ 32 - 1 }
        ensures same { result ≡ advanced document self }
    {
        if self.after <= document {
            Cursor {
                end: self.end + 1,
                draws: self.draws + 1,
                after: document + 1,
                times: 1,
            }
        } else {
            Cursor {
                end: self.end,
                draws: self.draws + 1,
                after: self.after,
                times: self.times + 1,
            }
        }
    }
}
