//! How much room the tables of a block store take, so that it is taken once.
use crate::block_tables::skip_count;
use ciff_wire::varint_len;
use rgb_base::Posting;

/// The lengths of the tables, or what usize has at most.
#[derive(Clone, Copy)]
pub struct Room {
    /// Bytes of the lists' regions.
    pub bytes: usize,
    /// Skip entries.
    pub skips: usize,
}

impl Room {
    /// The room of the lists of a table that end at these places.
    pub fn of_lists(ends: &[u32], table: &[Posting]) -> Room {
        let mut room = Room { bytes: 0, skips: 0 };
        let mut from = 0;
        for end in ends {
            if let Some(postings) = table.get(from as usize..*end as usize) {
                room = room.with_list(postings);
            }
            from = *end;
        }
        room
    }

    /// The room with one more list.
    fn with_list(self, postings: &[Posting]) -> Room {
        let skips = skip_count(postings.len());
        let mut bytes = self.bytes.saturating_add(varint_len(postings.len() as u64));
        if skips > 0 {
            bytes = bytes.saturating_add(varint_len(self.skips as u64));
        }
        Room {
            bytes: bytes.saturating_add(gap_bytes(postings)),
            skips: self.skips.saturating_add(skips),
        }
    }
}

/// How many bytes the gaps of a list take.
fn gap_bytes(postings: &[Posting]) -> usize {
    let mut bytes = 0usize;
    let mut before = 0;
    for posting in postings {
        let gap = posting.doc.saturating_sub(before);
        bytes = bytes.saturating_add(varint_len(u64::from(gap)));
        before = posting.doc.saturating_add(1);
    }
    bytes
}
