//! The definitions, evaluated on small captures: each is the contract of a function with an empty body.
#![tactic(auto, unfolding(pcapfile::specs::Head::head_of, pcapfile::specs::Capture::place_of, pcapfile::specs::Capture::record_at, pcapfile::specs::Capture::records_from, linkip::specs::Frames::behind_tag, linkip::specs::Frames::by_ether_type, linkip::specs::Frames::behind_header, linkip::specs::Frames::by_version, linkip::specs::Ipv4::is_short, linkip::specs::Ipv4::is_fragment, linkip::specs::Ipv4::ipv4, linkip::specs::Ipv6::is_short, linkip::specs::Ipv6::upper_within, linkip::specs::Ipv6::by_next, linkip::specs::Ipv6::above, linkip::specs::Ipv6::ipv6, porthdr::specs::Udp::is_short, porthdr::specs::Udp::udp, porthdr::specs::Tcp::is_short, porthdr::specs::Tcp::tcp, crate::specs::Rows::file_head, crate::specs::Rows::record_head, crate::specs::Rows::ethernet_addresses, crate::specs::Rows::ipv4_datagram, crate::specs::Rows::ipv4_fragment, crate::specs::Rows::ipv4_segment, crate::specs::Drill::verdict_of, crate::specs::Drill::whole_of, crate::specs::Scapconf::fates_from))]

ghost use Rattle.std.specs.Prelude.{◌≡◌, [], ◌∷◌, take};
ghost use Rattle.capfilter.specs.declared.prim.Primitive.TheVariants.{Tcp, Udp};
ghost use Rattle.labtop.specs.Rows.{file_head, one_datagram, one_segment, mixed, late, begins_skipped, packet_at, filtered_by};
ghost use Rattle.labtop.specs.Drill.{limits, verdict_of, Delivers, Refused, NotBuilt};
ghost use Rattle.labtop.specs.declared.limits.TheConstants.{MOST_BUILT};
ghost use Rattle.scapconf.specs.Defaults.{default_settings};

use pcapfile::HeadFault;

/// The most records and bytes of a capture, and its bytes that are taken yet.
pub fn limits_are_the_stated_ones()
    ensures records { limits.frames ≡ 4194304 }
    ensures bytes { limits.bytes ≡ 4294967296 }
    ensures taken { MOST_BUILT ≡ 16777216 }
{}

/// A capture of one datagram is delivered.
pub fn one_datagram_is_delivered()
    ensures { verdict_of default_settings one_datagram ≡ Delivers (record {
      packets = packet_at 1 1000005000 ∷ [];
      counts = record { accepted = 1; filtered = 0; other = 0; fragment = 0; short = 0 };
      first = 1000005000;
      last = 1000005000;
    }) }
{}

/// Skipped records are counted by their kind; they have numbers, and their moments count for the clock.
pub fn skipped_records_are_counted()
    ensures { verdict_of default_settings mixed ≡ Delivers (record {
      packets = packet_at 1 1000005000 ∷ packet_at 4 9000005000 ∷ [];
      counts = record { accepted = 2; filtered = 0; other = 1; fragment = 1; short = 1 };
      first = 1000005000;
      last = 9000005000;
    }) }
{}

/// A packet that the filter refuses is filtered, and what has no packet is not asked.
pub fn packets_are_filtered()
    ensures none { verdict_of (filtered_by Tcp) mixed ≡ Delivers (record {
      packets = [];
      counts = record { accepted = 0; filtered = 2; other = 1; fragment = 1; short = 1 };
      first = 1000005000;
      last = 9000005000;
    }) }
    ensures all { verdict_of (filtered_by Udp) mixed ≡ verdict_of default_settings mixed }
{}

/// A segment of TCP is not built yet, but where it is filtered.
pub fn a_segment_is_not_built()
    ensures taken { verdict_of default_settings one_segment ≡ NotBuilt }
    ensures filtered { verdict_of (filtered_by Udp) one_segment ≡ Delivers (record {
      packets = [];
      counts = record { accepted = 0; filtered = 1; other = 0; fragment = 0; short = 0 };
      first = 1000005000;
      last = 1000005000;
    }) }
{}

/// A skipped record can be the one that is too late, or the one from which the idle time counts.
pub fn skipped_records_have_moments()
    ensures late { verdict_of default_settings (late 301) ≡ NotBuilt }
    ensures in_time { verdict_of default_settings (late 300) ≡ Delivers (record {
      packets = packet_at 1 1000005000 ∷ [];
      counts = record { accepted = 1; filtered = 0; other = 1; fragment = 0; short = 0 };
      first = 1000005000;
      last = 300000005000;
    }) }
    ensures early { verdict_of default_settings (begins_skipped 301) ≡ NotBuilt }
{}

/// A capture without a record is delivered.
pub fn an_empty_capture_is_delivered()
    ensures { verdict_of default_settings file_head ≡ Delivers (record {
      packets = [];
      counts = record { accepted = 0; filtered = 0; other = 0; fragment = 0; short = 0 };
      first = 0;
      last = 0;
    }) }
{}

/// A front of a file header is short.
pub fn a_short_file_is_refused()
    ensures { verdict_of default_settings (take 10 file_head) ≡ Refused HeadFault.Short }
{}
