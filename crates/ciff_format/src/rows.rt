//! Small files and what they are, byte by byte. Each call does nothing.
ghost use Rattle.std.specs.Prelude.{◌≡◌, []};
ghost use Rattle.ciff_wire.specs.Canonical.{message_of};
ghost use Rattle.ciff_format.specs.Canonical.{bytes_of, list_fields};
ghost use Rattle.ciff_format.specs.Accepted.{Accepted};
ghost use Rattle.ciff_format.specs.Refused.{Refused};
ghost use Rattle.ciff_format.specs.declared.cause.Cause.TheVariants.{CutShort, BadLength, BadField, BadText, BadCount, BadGap, SameTerm, BadDoc};
ghost use Rattle.ciff_format.specs.Rows.{nothing, nothing_bytes, two_documents, two_documents_bytes, one_list, one_list_bytes, one_posting, one_posting_bytes, negative, negative_bytes, six, six_bytes, long, long_bytes, far, far_message, endless_length, huge_length, group_field, version_as_bytes, broken_text, negative_count, one_posting_reversed, second_gap, past_documents, same_term, same_document, absent_list};

use ciff_wire::laws::{message_is_one, varint_is_shortest};

/// The canonical files of small indexes, and the message of a list with long gaps.
pub fn files_of_small_indexes()
    ensures nothing { bytes_of nothing ≡ nothing_bytes }
    ensures two_documents { bytes_of two_documents ≡ two_documents_bytes }
    ensures one_list { bytes_of one_list ≡ one_list_bytes }
    ensures one_posting { bytes_of one_posting ≡ one_posting_bytes }
    ensures negative { bytes_of negative ≡ negative_bytes }
    ensures six { bytes_of six ≡ six_bytes }
    ensures long { bytes_of long ≡ long_bytes }
    ensures far { message_of (list_fields far) ≡ far_message }
{}

/// Small files that are refused at their first byte.
pub fn refused_files()
    ensures empty { Refused [] 0 CutShort }
    ensures endless_length { Refused endless_length 0 BadLength }
    ensures huge_length { Refused huge_length 0 BadLength }
    ensures group { Refused group_field 0 BadField }
    ensures other_type { Refused version_as_bytes 0 BadField }
    ensures not_utf8 { Refused broken_text 0 BadText }
    ensures negative { Refused negative_count 0 BadCount }
{
    varint_is_shortest();
    message_is_one();
}

/// Small files that are read past their header: one that is accepted though it isn't canonical, and
/// some that are refused.
pub fn files_past_their_header()
    ensures reversed { Accepted one_posting_reversed one_posting }
    ensures second_gap { Refused second_gap 7 BadGap }
    ensures past_documents { Refused past_documents 7 BadGap }
    ensures same_term { Refused same_term 6 SameTerm }
    ensures same_document { Refused same_document 6 BadDoc }
    ensures absent_list { Refused absent_list 7 CutShort }
{
    varint_is_shortest();
}
