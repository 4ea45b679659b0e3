//! What the definition of what a frame carries means: a frame put together from its parts is read as these parts. Each law
//! is the contract of a function with an empty body.
ghost use Rattle.std.specs.Prelude.{◌≡◌, ◌<◌, ℕ, List, true, ◌++◌, length, slice_index};
ghost use Rattle.pcapfile.specs.declared.link.Link.{Link};
ghost use Rattle.linkip.specs.Carried.{is_transport, IsWithinDeclared};
ghost use Rattle.linkip.specs.Ipv6.{upper_within, upper_in};
ghost use Rattle.linkip.specs.Frames.{Typed, network};
ghost use Rattle.linkip.specs.Chains.{IsChain, joined};
ghost use Rattle.linkip.specs.Laws.{LeadsOn, Tag, TagsArePassed, ThirdTagIsOther, IsHeader4, IsPlainHeader, Ipv4IsRead, Ipv4IsSkipped, IsHeader6, payload_length, Ipv6IsRead, Ipv6IsSkipped, ChainIsPassed, ChainIsFound, LiesIn};

/// A frame is a link's header, an EtherType in it, and what that is said of.
pub fn a_frame_is_a_header_and_what_it_leads_to()
    ensures { (header : List ℕ) (typed : Typed) → LeadsOn header typed }
{}

/// Up to two tags are passed, whatever their control says.
pub fn tags_are_passed()
    ensures { (tags : List Tag) (inner : Typed) → TagsArePassed tags inner }
{}

/// A third tag is something else, whatever follows it.
pub fn a_third_tag_is_something_else()
    ensures { (a b c : Tag) (inner : Typed) → ThirdTagIsOther a b c inner }
{}

/// A packet of IPv4 is a header with its options, a body of which some may be cut, and padding.
pub fn ipv4_is_a_header_and_a_body()
    ensures { (header body rest : List ℕ) → IsPlainHeader header → Ipv4IsRead header body rest }
{}

/// A packet of IPv4 that carries no datagram or segment is skipped by the first rule that holds: a header that is cut or
/// contradicts itself, a fragment, another protocol.
pub fn ipv4_is_skipped_by_the_first_rule()
    ensures { (header rest : List ℕ) → IsHeader4 header → Ipv4IsSkipped header rest }
{}

/// A chain of whole extension headers is passed.
pub fn a_chain_is_passed()
    ensures { (first : ℕ) (headers : List (List ℕ)) (last : ℕ) (rest : List ℕ) → ChainIsPassed first headers last rest }
{}

/// What is passed is a chain of whole extension headers, and where nothing is found behind it the next one is cut.
pub fn what_is_passed_is_a_chain()
    ensures { (next : ℕ) (bytes : List ℕ) → ChainIsFound next bytes }
{}

/// More turns than there are bytes change nothing, so the definition doesn't depend on the number of turns.
pub fn any_turns_serve()
    ensures { (turns next : ℕ) (bytes : List ℕ) → length bytes < turns
        → upper_within turns next bytes ≡ upper_in next bytes }
{}

/// A packet of IPv6 is a header, a chain of extension headers, a body of which some may be cut, and padding.
pub fn ipv6_is_a_header_a_chain_and_a_body()
    ensures { (header : List ℕ) (headers : List (List ℕ)) (proto : ℕ) (body rest : List ℕ) → IsHeader6 header
        → IsChain (slice_index header 6) headers proto → is_transport proto ≡ true
        → Ipv6IsRead header headers proto body rest }
{}

/// A packet of IPv6 that carries no datagram or segment is skipped by what stands behind its extension headers, or where
/// one of them is cut.
pub fn ipv6_is_skipped_by_its_chain()
    ensures { (header : List ℕ) (headers : List (List ℕ)) (last : ℕ) (rest : List ℕ) → IsHeader6 header
        → IsChain (slice_index header 6) headers last → payload_length header ≡ length (joined headers ++ rest)
        → Ipv6IsSkipped header headers last rest }
{}

/// The body of what a frame carries lies in the frame.
pub fn a_body_lies_in_its_frame()
    ensures { (link : Link) (frame : List ℕ) → LiesIn frame (network link frame) }
{}

/// No more of a body was captured than is declared for it.
pub fn a_body_is_within_its_declared_length()
    ensures { (link : Link) (frame : List ℕ) → IsWithinDeclared (network link frame) }
{}
