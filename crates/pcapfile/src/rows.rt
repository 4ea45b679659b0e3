//! Captures written out by hand, and what the definition of a capture gives for them, by computation.
ghost use Rattle.std.specs.Prelude.{◌≡◌, ◌∷◌, [], ◌++◌, take, Ok, Err};
ghost use Rattle.pcapfile.specs.declared.head_fault.HeadFault.TheVariants as fault;
ghost use Rattle.pcapfile.specs.Capture.{capture_of, Whole, Cut, TooBig, TooLong};
ghost use Rattle.pcapfile.specs.Rows.{ample, little_head, little, newer_head, big_head, big, datagram_record, datagram_frame, too_big_header};

use crate::{HEAD_SIZE, HEADER_SIZE, LONGEST_RECORD, MOST_BYTES, MOST_RECORDS, READ_SIZE};

/// The sizes of the two headers; the longest record; the most records, 2^22, and the most bytes, 2^32; the size of a read.
pub fn limits_are_the_stated_ones()
    ensures head { HEAD_SIZE ≡ 24 }
    ensures header { HEADER_SIZE ≡ 16 }
    ensures longest { LONGEST_RECORD ≡ 262144 }
    ensures records { MOST_RECORDS ≡ 4194304 }
    ensures bytes { MOST_BYTES ≡ 4294967296 }
    ensures read { READ_SIZE ≡ 65536 }
{}

/// A file header alone is a whole capture without records.
pub fn a_head_alone_is_empty()
    ensures { capture_of ample little_head ≡ Ok (little, record { frames = []; end = Whole }) }
{}

/// Ten bytes of a file header are too short.
pub fn ten_bytes_are_short()
    ensures { capture_of ample (take 10 little_head) ≡ Err fault.Short }
{}

/// A file of pcapng is refused as such.
pub fn the_newer_format_is_refused()
    ensures { capture_of ample newer_head ≡ Err fault.PcapNg }
{}

/// A big-endian capture with nanoseconds and one datagram.
pub fn one_datagram_is_read()
    ensures { capture_of ample (big_head ++ datagram_record) ≡ Ok (big, record { frames = datagram_frame ∷ []; end = Whole }) }
{}

/// The same, and 26 bytes of the same record again.
pub fn a_second_record_is_cut()
    ensures { capture_of ample (big_head ++ datagram_record ++ take 26 datagram_record) ≡ Ok (big, record { frames = datagram_frame ∷ []; end = Cut 26 }) }
{}

/// The same, and the header of a record of 262,145 bytes at 84.
pub fn a_second_record_is_too_big()
    ensures { capture_of ample (big_head ++ datagram_record ++ too_big_header) ≡ Ok (big, record { frames = datagram_frame ∷ []; end = TooBig 84 262145 }) }
{}

/// One record is the most, and a byte follows it.
pub fn a_byte_behind_the_last_record_is_too_long()
    ensures { capture_of (record { frames = 1; bytes = 4294967296 }) (big_head ++ datagram_record ++ 0 ∷ []) ≡ Ok (big, record { frames = datagram_frame ∷ []; end = TooLong }) }
{}

/// Eighty-three bytes are the most, and the record ends at 84.
pub fn a_record_past_the_last_byte_is_too_long()
    ensures { capture_of (record { frames = 1; bytes = 83 }) (big_head ++ datagram_record) ≡ Ok (big, record { frames = []; end = TooLong }) }
{}
