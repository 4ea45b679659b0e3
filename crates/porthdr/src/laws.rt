//! What the definition of a record's kind means: a body put together from its parts is read as these parts. Each law is
//! the contract of a function with an empty body.
ghost use Rattle.std.specs.Prelude.{◌≡◌, ℕ, List, length, true};
ghost use Rattle.pcapfile.specs.declared.link.Link.{Link};
ghost use Rattle.streamkey.specs.declared.addr.Addr.{Addr};
ghost use Rattle.linkip.specs.Carried.{Carried, IsWithinDeclared};
ghost use Rattle.porthdr.specs.Kind.{IsWithin};
ghost use Rattle.porthdr.specs.Transport.{transport, kind_of};
ghost use Rattle.porthdr.specs.Laws.{IsSegmentHeader, SegmentIsRead, SegmentIsShort, DatagramIsRead, DatagramIsShort, PayloadLiesIn};

use crate::Skip;

/// A segment of TCP is a header with its options, and a payload.
pub fn a_segment_is_a_header_and_a_payload()
    ensures { (source target : Addr) (declared : ℕ) (header payload : List ℕ) → IsSegmentHeader header
        → SegmentIsRead source target declared header payload }
{}

/// A datagram of UDP is a header of eight bytes, a payload of which some may be cut, and padding.
pub fn a_datagram_is_a_header_and_a_payload()
    ensures { (source target : Addr) (declared : ℕ) (header payload rest : List ℕ) → length header ≡ 8
        → DatagramIsRead source target declared header payload rest }
{}

/// A header of TCP that is cut anywhere is short.
pub fn a_cut_segment_is_short()
    ensures { (source target : Addr) (declared : ℕ) (header : List ℕ) → IsSegmentHeader header
        → SegmentIsShort source target declared header }
{}

/// A header of UDP that is cut anywhere is short, and so is one that is said to end in itself.
pub fn a_cut_datagram_is_short()
    ensures { (source target : Addr) (declared : ℕ) (header rest : List ℕ) → length header ≡ 8
        → DatagramIsShort source target declared header rest }
{}

/// No more of a payload was captured than is declared for it.
pub fn a_payload_is_within_its_declared_length()
    ensures { (c : Carried) → IsWithinDeclared c → IsWithin (transport c) }
{}

/// The payload of a record lies in its frame.
pub fn a_payload_lies_in_its_frame()
    ensures { (link : Link) (frame : List ℕ) → PayloadLiesIn frame (kind_of link frame) }
{}

/// Kinds of skip compare as equal where they are the same.
pub fn skips_compare(a: Skip, b: Skip)
    ensures { ⟦<Skip as PartialEq>⟧.eq a b ≡ true → a ≡ b }
{}
