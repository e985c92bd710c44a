//! The causes for which a file is refused.

/// Why a file is refused, at the place where the length of the first bad message starts. Where several
/// causes hold for one message, the one that stands first here is given.
#[derive(Clone, Copy, Debug, PartialEq, Eq)]
pub enum Cause {
    /// The bytes end before the message's length or the message does.
    CutShort,
    /// The length has ten bytes that all carry the top bit, or the message would end after byte 2^41.
    BadLength,
    /// A field can't be read, is a group, or is a known field of another wire type.
    BadField,
    /// A text isn't UTF-8.
    BadText,
    /// The number of lists or of documents is negative.
    BadCount,
    /// A first gap below 0, a later one below 1, or a document that isn't below the number of documents.
    BadGap,
    /// An earlier list has this term.
    SameTerm,
    /// A record's number is negative, not below the number of documents, or that of an earlier record.
    BadDoc,
    /// A byte follows the last message.
    Trailing,
    /// More than 2^32 - 1 postings or more than 2^40 bytes of text up to here.
    TooMuch,
}
