//! Frames written out by hand, and what the definition gives for them, by computation.
#![tactic(auto, unfolding(crate::specs::Tcp::is_short, crate::specs::Tcp::tcp, crate::specs::Udp::is_short, crate::specs::Udp::udp, linkip::specs::Frames::behind_tag, linkip::specs::Frames::by_ether_type, linkip::specs::Frames::behind_header, linkip::specs::Frames::by_version, linkip::specs::Ipv4::is_short, linkip::specs::Ipv4::is_fragment, linkip::specs::Ipv4::ipv4, linkip::specs::Ipv6::is_short, linkip::specs::Ipv6::upper_within, linkip::specs::Ipv6::by_next, linkip::specs::Ipv6::above, linkip::specs::Ipv6::ipv6))]

ghost use Rattle.std.specs.Prelude.{◌≡◌, [], ◌∷◌, ◌++◌};
ghost use Rattle.streamkey.specs.declared.toward.Toward.TheVariants.{Up};
ghost use Rattle.pcapfile.specs.declared.link.Link.TheVariants as link;
ghost use Rattle.linkip.specs.Rows.{ipv4_packet, stations, to_ipv4, customer_tag, service_tag, fourteen, eighteen, ipv6_packet};
ghost use Rattle.porthdr.specs.declared.skip.Skip.TheVariants as skip;
ghost use Rattle.porthdr.specs.Kind.{Accepted, Skipped};
ghost use Rattle.porthdr.specs.Transport.{kind_of};
ghost use Rattle.porthdr.specs.Rows.{hi, names, newer_names, pages, frame_of_total, ten};

/// A datagram over Ethernet.
pub fn a_datagram_is_accepted()
    ensures { kind_of link.Ethernet (stations ++ to_ipv4 ++ ipv4_packet) ≡ Accepted names Up 0 0 2 hi }
{}

/// The same over the cooked link of Linux, and over its second version.
pub fn a_datagram_over_cooked_links_is_accepted()
    ensures first { kind_of link.Cooked (fourteen ++ to_ipv4 ++ ipv4_packet) ≡ Accepted names Up 0 0 2 hi }
    ensures second { kind_of link.Cooked2 (to_ipv4 ++ eighteen ++ ipv4_packet) ≡ Accepted names Up 0 0 2 hi }
{}

/// The same behind two tags, and a third tag.
pub fn a_datagram_behind_two_tags_is_accepted()
    ensures two { kind_of link.Ethernet (stations ++ customer_tag ++ service_tag ++ to_ipv4 ++ ipv4_packet) ≡ Accepted names Up 0 0 2 hi }
    ensures third { kind_of link.Ethernet (stations ++ customer_tag ++ service_tag ++ customer_tag ++ to_ipv4 ++ ipv4_packet) ≡ Skipped skip.Other }
{}

/// The same over IPv6 behind hop-by-hop options.
pub fn a_datagram_over_ipv6_is_accepted()
    ensures { kind_of link.Raw ipv6_packet ≡ Accepted newer_names Up 0 0 2 hi }
{}

/// A segment with one byte of payload, whose frame has five bytes of padding.
pub fn padding_is_no_payload()
    ensures { kind_of link.Ethernet (frame_of_total 0 41 (0x78 ∷ 0 ∷ 0 ∷ 0 ∷ 0 ∷ 0 ∷ [])) ≡ Accepted pages Up 1000 0x11 1 (0x78 ∷ []) }
{}

/// A segment of 100 bytes of payload, of which ten were captured.
pub fn a_cut_segment_declares_what_was_sent()
    ensures { kind_of link.Ethernet (frame_of_total 0 140 ten) ≡ Accepted pages Up 1000 0x11 100 ten }
{}

/// A segment whose total length is 0 declares what was captured.
pub fn a_total_length_of_0_declares_what_was_captured()
    ensures { kind_of link.Ethernet (frame_of_total 0 0 ten) ≡ Accepted pages Up 1000 0x11 10 ten }
{}
