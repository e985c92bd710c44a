//! Laws of spellings and messages, for the proofs of the crates above. Each call does nothing.
ghost use Rattle.ciff_wire.specs.Laws.{VarintIsShortest, ShortestIsOne, VarintIsCanonical, CanonicalVarintIsOne, NoneIsFront, SpellingIsReadAgain, ReadIsOne, CanonicalSpells, CanonicalIsMessage, OneMessage, FirstIsTaken, FirstIsPut, FaultIsNoMessage, OneFault, FieldIsTakenAgain, FieldIsNoFault, ReadAlways, FrontAlways, MessageOrFault, FaultyIsNoMessage, FieldIsAdded, FrontIsFirst};

/// A number of 64 bits has a shortest spelling, and the canonical varint is the only one so short.
pub fn varint_is_shortest()
    ensures shortest { VarintIsShortest }
    ensures one { ShortestIsOne }
    ensures canonical { VarintIsCanonical }
    ensures only { CanonicalVarintIsOne }
{}

/// No spelling is the front of another, so each is read again whatever follows it, and bytes are
/// read in one way.
pub fn spelling_is_read_again()
    ensures front { NoneIsFront }
    ensures again { SpellingIsReadAgain }
    ensures one { ReadIsOne }
{}

/// The canonical spelling of fields is a message of them.
pub fn canonical_is_message()
    ensures field { CanonicalSpells }
    ensures message { CanonicalIsMessage }
{}

/// A message has at most one list of fields, which are those that are taken off its front, and bytes
/// have at most one fault at their front.
pub fn message_is_one()
    ensures one { OneMessage }
    ensures taken { FirstIsTaken }
    ensures put { FirstIsPut }
    ensures fault { FaultIsNoMessage }
    ensures one_fault { OneFault }
{}

/// A field is taken off the front again, whatever follows it.
pub fn field_is_taken_again()
    ensures again { FieldIsTakenAgain }
    ensures no_fault { FieldIsNoFault }
{}

/// Bytes always have a reading: as a varint, as what stands at the front of a message (nothing, a field
/// or a fault), and as fields or good fields and then a fault, never both.
pub fn bytes_are_read()
    ensures read { ReadAlways }
    ensures front { FrontAlways }
    ensures message { MessageOrFault }
    ensures never_both { FaultyIsNoMessage }
{}

/// A message is read field after field: one more field is one more of its front, and the fields of a
/// front are the first of the whole.
pub fn field_after_field()
    ensures added { FieldIsAdded }
    ensures first { FrontIsFirst }
{}
