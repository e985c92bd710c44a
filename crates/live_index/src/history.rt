//! What the publisher, a note or a reader knows of what was published.
use rgb_base::Index;

/// The history of a live index as far as one party knows it: its first versions, so many. Contracts see
/// publishers, notes and readers as one. No value of it is made.
pub struct History<K> {
    /// The index that was opened, which stays.
    pub base: Index,
    /// Which numbering may be published as which version.
    pub plan: K,
    /// How many versions there are, from version 0 on.
    pub length: u64,
}
