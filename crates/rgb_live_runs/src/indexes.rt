//! Runs of `live` over the index of twelve documents.

/// The versions where each level is a slab, three of them: the first level leaves all as it is.
pub const TWELVE_BY_SLAB: &[u32] = &[
    0, 1, 2, 3, 4, 5, 6, 7, 8, 9, 10, 11, 0, 1, 2, 3, 4, 5, 6, 7, 8, 9, 10, 11, 0, 1, 3, 2, 4, 5,
    6, 7, 8, 9, 10, 11,
];

/// The two versions where both levels are one slab.
pub const TWELVE_IN_ONE_SLAB: &[u32] = &[
    0, 1, 2, 3, 4, 5, 6, 7, 8, 9, 10, 11, 0, 1, 3, 2, 4, 5, 6, 7, 8, 9, 10, 11,
];

/// The names of the documents.
pub const TWELVE_NAMES: &str = "d0 d1 d2 d3 d4 d5 d6 d7 d8 d9 d10 d11";

/// What `reorder` prints of two levels.
pub const OF_TWELVE: &str = "documents 12 lists 2 postings 6\nround 1 0 6 1 76672 -163200\n\
    before gamma 12 delta 15 bytes 6\nafter gamma 10 delta 10 bytes 6\n";

/// Two levels, each a slab, beside two readers.
pub const TWELVE_WORDS: &str = "live in out queries --depth 2 --leaf 1 --step 1 --readers 2";

/// The queries `a` and `NOT a` in the first two lines.
pub const TWELVE_QUERIES: [(u32, u32); 2] = [(1, 0b1011), (2, 0b1111_1111_0100)];
