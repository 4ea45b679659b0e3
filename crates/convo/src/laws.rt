// What holds of every history of a conversation.
ghost use Rattle.std.specs.Prelude.{◌≡◌, List};
ghost use Rattle.evring.specs.declared.way.Way.{Way};
ghost use Rattle.streamdefs.specs.Both.{of_way};
ghost use Rattle.streamdefs.specs.Terms.{Terms};
ghost use Rattle.streamdefs.specs.Packet.{Packet as Accepted};
ghost use Rattle.streamdefs.specs.Convo.{Act, convo_after, new_convo};
ghost use Rattle.streamdefs.specs.Totals.{counts_of, deliveries_of, gaps_before};
ghost use Rattle.convo.specs.Talk.{new_talk, talk_at};

/// What a conversation stands for behind a history is the definition's conversation behind it, and its sums are the
/// classes of the history's bytes and the gaps before its deliveries, in each direction.
pub fn sums_are_those_of_the_history()
    ensures convo { (t : Terms) (first : Accepted) (acts : List Act) → (talk_at t (new_talk first) acts).convo ≡ convo_after t (new_convo first) acts }
    ensures counts { (t : Terms) (first : Accepted) (way : Way) (acts : List Act) → (of_way way (talk_at t (new_talk first) acts).sums).counts ≡ counts_of t (new_convo first) way acts }
    ensures gaps { (t : Terms) (first : Accepted) (way : Way) (acts : List Act) → (of_way way (talk_at t (new_talk first) acts).sums).gaps ≡ gaps_before (deliveries_of t (new_convo first) way acts) }
{}
