//! What a match asks for, evaluated on small captures: each is the contract of a function with an empty body.
#![tactic(auto, unfolding(pcapfile::specs::Head::head_of, pcapfile::specs::Capture::place_of, pcapfile::specs::Capture::record_at, pcapfile::specs::Capture::records_from, linkip::specs::Frames::behind_tag, linkip::specs::Frames::by_ether_type, linkip::specs::Frames::behind_header, linkip::specs::Frames::by_version, linkip::specs::Ipv4::is_short, linkip::specs::Ipv4::is_fragment, linkip::specs::Ipv4::ipv4, linkip::specs::Ipv6::is_short, linkip::specs::Ipv6::upper_within, linkip::specs::Ipv6::by_next, linkip::specs::Ipv6::above, linkip::specs::Ipv6::ipv6, porthdr::specs::Udp::is_short, porthdr::specs::Udp::udp, porthdr::specs::Tcp::is_short, porthdr::specs::Tcp::tcp, crate::specs::Rows::file_head, crate::specs::Rows::record_head, crate::specs::Rows::ethernet_addresses, crate::specs::Rows::ipv4_datagram, crate::specs::Rows::ipv4_fragment, crate::specs::Rows::ipv4_segment, crate::specs::Matching::match_text, crate::specs::Matching::matched_in, crate::specs::Scapconf::fates_from))]

ghost use Rattle.std.specs.Prelude.{◌≡◌, [], ◌++◌, codes, take, Some, None};
ghost use Rattle.capfilter.specs.Expr.{Test};
ghost use Rattle.capfilter.specs.declared.prim.Primitive.TheVariants.{Tcp, Udp};
ghost use Rattle.labtop.specs.Rows.{file_head, mixed, one_segment};
ghost use Rattle.labtop.specs.Matching.{matched_of, Writes, Refuses, Unread};

use pcapfile::HeadFault;
use scapconf::Status;

/// The numbers are those of the records: the skipped ones count, and a segment of TCP matches as a datagram does.
pub fn a_match_has_the_numbers_of_records()
    ensures datagrams { matched_of (Test Udp) (Some mixed) ≡ Writes (codes "1\n4\n") Status.Done }
    ensures segment { matched_of (Test Tcp) (Some one_segment) ≡ Writes (codes "1\n") Status.Done }
    ensures none { matched_of (Test Tcp) (Some mixed) ≡ Writes [] Status.Done }
{}

/// A capture that is cut has the matches before, and one with a foreign or short head is refused.
pub fn a_match_ends_as_the_capture_does()
    ensures cut { matched_of (Test Tcp) (Some (one_segment ++ take 7 file_head)) ≡ Writes (codes "1\n") (Status.CutShort 7) }
    ensures short { matched_of (Test Tcp) (Some (take 10 file_head)) ≡ Refuses HeadFault.Short }
    ensures unread { matched_of (Test Tcp) None ≡ Unread }
{}
