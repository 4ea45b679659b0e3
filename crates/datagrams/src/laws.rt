//! What a replay of datagrams does, each law as the contract of a function with an empty body.
ghost use Rattle.datagrams.specs.Laws.{AnswerIsReplayed, DatagramIsEntered, DatagramIsReplayed, EmptyIsNothing, EndHandsOver, EndIsReplayed, FinishIsEntered, FirstIsReplayed, GrantedIsPassed, RefusedIsShed, ReplayBegins, ReplayIsLawful};

/// A direction of datagrams is known by how many bytes came, its front and its open chunk: so are its asks, deliveries and
/// counts at each entry, and the direction behind it.
pub fn a_direction_is_known_by_what_is_kept()
    ensures granted { GrantedIsPassed }
    ensures refused { RefusedIsShed }
    ensures empty { EmptyIsNothing }
    ensures end { EndHandsOver }
{}

/// So is a conversation of datagrams.
pub fn a_conversation_is_known_by_what_is_kept()
    ensures datagram { DatagramIsEntered }
    ensures finish { FinishIsEntered }
{}

/// A replay begins with nothing, and each entry keeps it lawful: a datagram, an answer, and an end.
pub fn entries_are_replayed()
    ensures begins { ReplayBegins }
    ensures datagram { DatagramIsReplayed }
    ensures first { FirstIsReplayed }
    ensures answer { AnswerIsReplayed }
    ensures end { EndIsReplayed }
{}

/// The journal of a replay that is over is lawful, its budget history is one, and the text written is that of its events.
pub fn a_replay_is_lawful()
    ensures { ReplayIsLawful }
{}
