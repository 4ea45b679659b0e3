//! Frames written out by hand, and what the definition gives for them, by computation.
#![tactic(auto, unfolding(crate::specs::Frames::behind_tag, crate::specs::Frames::by_ether_type, crate::specs::Frames::behind_header, crate::specs::Frames::by_version, crate::specs::Ipv4::is_short, crate::specs::Ipv4::is_fragment, crate::specs::Ipv4::ipv4, crate::specs::Ipv6::is_short, crate::specs::Ipv6::upper_within, crate::specs::Ipv6::by_next, crate::specs::Ipv6::above, crate::specs::Ipv6::ipv6))]

ghost use Rattle.std.specs.Prelude.{◌≡◌, ◌++◌};
ghost use Rattle.pcapfile.specs.declared.link.Link.TheVariants as link;
ghost use Rattle.linkip.specs.Carried.{Ip, Fragment, Other, Short};
ghost use Rattle.linkip.specs.Frames.{network as network_of};
ghost use Rattle.linkip.specs.Rows.{datagram, ipv4_packet, first, second, stations, to_ipv4, customer_tag, service_tag, fourteen, eighteen, ipv6_packet, newer_first, newer_second};

/// A datagram over Ethernet.
pub fn ethernet_carries_a_datagram()
    ensures { network_of link.Ethernet (stations ++ to_ipv4 ++ ipv4_packet) ≡ Ip 17 first second 10 datagram }
{}

/// The same over the cooked link of Linux.
pub fn the_cooked_link_carries_a_datagram()
    ensures { network_of link.Cooked (fourteen ++ to_ipv4 ++ ipv4_packet) ≡ Ip 17 first second 10 datagram }
{}

/// The same over its second version.
pub fn the_second_cooked_link_carries_a_datagram()
    ensures { network_of link.Cooked2 (to_ipv4 ++ eighteen ++ ipv4_packet) ≡ Ip 17 first second 10 datagram }
{}

/// Two tags are passed.
pub fn two_tags_are_passed()
    ensures { network_of link.Ethernet (stations ++ customer_tag ++ service_tag ++ to_ipv4 ++ ipv4_packet) ≡ Ip 17 first second 10 datagram }
{}

/// A third tag is something else.
pub fn a_third_tag_is_something_else()
    ensures { network_of link.Ethernet (stations ++ customer_tag ++ service_tag ++ customer_tag ++ to_ipv4 ++ ipv4_packet) ≡ Other }
{}

/// Hop-by-hop options are passed.
pub fn options_are_passed()
    ensures { network_of link.Raw ipv6_packet ≡ Ip 17 newer_first newer_second 10 datagram }
{}
