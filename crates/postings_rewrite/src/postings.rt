//! The postings of one list with the new numbers of their documents.
ghost use Rattle.std.specs.Prelude.{◌≡◌, length, map};
ghost use Rattle.rgb_base.specs.Parts.{IsPostings};
ghost use Rattle.postings_rewrite.specs.Renumbering.{moved, ArePostingsRenumbered};

use rgb_base::laws::numbers_undo_the_order;
use rgb_base::{Permutation, Posting};

/// Fills the part with the postings, each with its new number, in the old order.
fn map_list(postings: &[Posting], by: &Permutation, part: &mut [Posting])
    requires len { length part.old ≡ length postings.now }
    requires below { IsPostings (length by.now) postings.now }
    ensures { part.new ≡ map (moved by.now) postings.now }
{
    for place in 0..part.len() {
        let posting = postings[place];
        part[place] = Posting {
            doc: by.new_of(posting.doc),
            tf: posting.tf,
        };
    }
}

/// Fills the part with the postings renumbered. Takes no memory.
pub fn renumber_list(postings: &[Posting], by: &Permutation, part: &mut [Posting])
    requires len { length part.old ≡ length postings.now }
    requires below { IsPostings (length by.now) postings.now }
    ensures { ArePostingsRenumbered by.now postings.now part.new }
{
    by.is_sound();
    numbers_undo_the_order();
    map_list(postings, by, part);
    // The numbers of a list differ, so that an unstable sort has one result.
    part.sort_unstable_by_key(|posting| posting.doc);
}
