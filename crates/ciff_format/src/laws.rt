//! Laws of accepted, refused and canonical files, for the proofs of the crates above. Each call does nothing.
ghost use Rattle.ciff_format.specs.Growing.{HeaderIsGood, ListIsAdded, RecordIsAdded, NothingHeld, LaterWins, EachIsAdded, TypesGrow, TextsGrow, WrongTypeIsBad, BadPostingIsBad, SumsGrow, SumGrows, GapsGrow};
ghost use Rattle.ciff_format.specs.Laws.{FileIsOneIndex, AcceptedIsIndex, RefusalIsOne, NeverBoth, EveryFileIsRead, NothingFollows, CutIsCutShort, CanonicalIsAccepted, CanonicalIsOnly, FileTellsIndex};

use ciff_wire::laws::{
    bytes_are_read, canonical_is_message, field_after_field, message_is_one,
    spelling_is_read_again, varint_is_shortest,
};

/// A file is accepted as one index at most, and that is an index.
pub fn file_is_one_index()
    ensures one { FileIsOneIndex }
    ensures sound { AcceptedIsIndex }
{
    spelling_is_read_again();
    message_is_one();
}

/// A file is refused at one place at most, for one cause.
pub fn refusal_is_one()
    ensures one { RefusalIsOne }
{
    spelling_is_read_again();
    message_is_one();
}

/// No file is both accepted and refused.
pub fn never_both()
    ensures never_both { NeverBoth }
{
    spelling_is_read_again();
    message_is_one();
}

/// Each file is accepted as an index, or refused at a place for a cause.
pub fn every_file_is_read()
    ensures read { EveryFileIsRead }
{
    spelling_is_read_again();
    message_is_one();
    bytes_are_read();
}

/// Behind an accepted file each byte is refused, and so is an accepted file that is cut anywhere.
pub fn accepted_is_whole()
    ensures nothing_follows { NothingFollows }
    ensures cut { CutIsCutShort }
{
    spelling_is_read_again();
    message_is_one();
}

/// Good messages grow by one: the header is good, and behind good messages the next list, and the
/// next record.
pub fn messages_grow()
    ensures header { HeaderIsGood }
    ensures list { ListIsAdded }
    ensures record { RecordIsAdded }
{}

/// Fields grow by one: the last of a number wins, the others of a repeated field stand in order, and
/// types and texts are good where those of a front and of the next field are. A front that is bad
/// makes the message bad.
pub fn fields_grow()
    ensures nothing { NothingHeld }
    ensures held { LaterWins }
    ensures each { EachIsAdded }
    ensures types { TypesGrow }
    ensures texts { TextsGrow }
    ensures wrong_type { WrongTypeIsBad }
    ensures bad_posting { BadPostingIsBad }
{
    field_after_field();
}

/// Gaps grow by one: the next partial sum, and when the gaps stay good.
pub fn gaps_grow()
    ensures sums { SumsGrow }
    ensures sum { SumGrows }
    ensures good { GapsGrow }
{}

/// The canonical file of an index is accepted as that index, and no other.
pub fn canonical_is_accepted()
    ensures accepted { CanonicalIsAccepted }
    ensures only { CanonicalIsOnly }
{
    spelling_is_read_again();
    message_is_one();
    varint_is_shortest();
    canonical_is_message();
}

/// A canonical file is that of one index alone.
pub fn file_tells_index()
    ensures one { FileTellsIndex }
{
    spelling_is_read_again();
    message_is_one();
    varint_is_shortest();
    canonical_is_message();
}
