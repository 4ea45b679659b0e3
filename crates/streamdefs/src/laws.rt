//! What follows from the definitions, each law as the contract of a function with an empty body.
ghost use Rattle.std.specs.Prelude.{◌≡◌, ℕ, ◌+◌, max, true, false, List, [], ◌∷◌, ◌++◌, length, map, Option, Some, ℤ};
ghost use Rattle.histbook.specs.declared.look_entry.LookEntry.{LookEntry as Look};
ghost use Rattle.streamdefs.specs.Terms.{Terms};
ghost use Rattle.streamdefs.specs.Reorder.{Placed, placed_from};
ghost use Rattle.streamdefs.specs.Ranges.{range_of, between, cut_at};
ghost use Rattle.streamdefs.specs.View.{charged, front_after, runs};
ghost use Rattle.streamdefs.specs.Pending.{fresh_in, bytes_in, blocks};
ghost use Rattle.streamdefs.specs.Direction.{Direction, Deed, Segment, Kind, counts_by, runs_of, pieces_by, pending_by, gone_by, view_after, direction_after, spares_by, sum_of};
ghost use Rattle.streamdefs.specs.Direction.Deed.{Arrives};
ghost use Rattle.streamdefs.specs.Packet.{Packet};
ghost use Rattle.streamdefs.specs.Convo.{Convo, Act, new_convo, after, convo_after, is_live, kind_of};
ghost use Rattle.streamdefs.specs.Totals.{deliveries_of, total_of};
ghost use Rattle.streamdefs.specs.Accounts.{waiting_of, IsAccountedWith, IsAccounted};
ghost use Rattle.evring.specs.declared.way.Way.{Way};
ghost use Rattle.streamdefs.specs.Core.{Core, Line, core_after, core_at, find_convo, history};
ghost use Rattle.streamdefs.specs.Ordered.{IsOrdered};
ghost use Rattle.streamdefs.specs.Once.{IsDelivered, EachOnce, delivered_at, direction_of, places};
ghost use Rattle.streamdefs.specs.RunSoFar.{WholeIsLawful};
ghost use Rattle.streamdefs.specs.Amounts.{amount, amount_in, amount_pieces, amount_granted};
ghost use Rattle.streamdefs.specs.FastMode.{ComesFast, IsOneAtMost, WaitsForNothing, block_behind};

/// Each byte of a payload has one class: the five counts are its length.
#[tactic(auto, using(crate::proofs::CountedOnce::counted_once))]
pub fn counted_once()
    ensures { (kind : Kind) (d : Direction) (s : Segment) (looks : List Look) → sum_of (counts_by kind d (Arrives s looks)) ≡ length s.payload }
{}

/// What an entry takes is held or passed: so what was held and taken is held or passed.
#[tactic(auto, using(crate::proofs::Conserved::conserved))]
pub fn taken_bytes_stay()
    ensures { (terms : Terms) (kind : Kind) (d : Direction) (deed : Deed)
        → length (view_after terms kind d deed).held + length (gone_by terms kind d deed) ≡ length d.view.held + (counts_by kind d deed).taken }
{}

/// The positions of the held bytes and of the flow rise, and each stands there once.
pub fn positions_rise()
    ensures order { (terms : Terms) (kind : Kind) (d : Direction) (deed : Deed) → IsOrdered d.view → IsOrdered (view_after terms kind d deed) }
{}

/// What an entry hands over, with what is pending behind it, is what was pending with what it passed: so each byte of the
/// flow is delivered once, in order.
#[tactic(auto, using(crate::proofs::Delivered::delivered))]
pub fn passed_bytes_are_delivered()
    ensures { (terms : Terms) (kind : Kind) (d : Direction) (deed : Deed)
        → fresh_in (pieces_by terms kind d deed) ++ bytes_in (pending_by terms kind d deed).bytes ≡ bytes_in d.pending.bytes ++ bytes_in (gone_by terms kind d deed) }
{}

/// Of all bytes that came in a direction each is delivered, waits (held, or pending), is duplicate, late or cut, or was shed;
/// once the conversation has ended none waits.
pub fn bytes_are_accounted_for()
    ensures so_far { (terms : Terms) (first : Packet) (way : Way) (acts : List Act)
        → IsAccountedWith (waiting_of way (convo_after terms (new_convo first) acts)) (total_of terms (new_convo first) way acts) }
    ensures at_end { (terms : Terms) (first : Packet) (way : Way) (acts : List Act) → is_live (convo_after terms (new_convo first) acts) ≡ false
        → IsAccounted (total_of terms (new_convo first) way acts) }
{}

/// No reserved byte is lost or made: what a direction had and was granted is what it has, handed over and gave back.
#[tactic(auto, using(crate::proofs::Balanced::balanced))]
pub fn charges_balance()
    ensures { (terms : Terms) (kind : Kind) (d : Direction) (deed : Deed)
        → amount_in (direction_after terms kind d deed) + amount_pieces (pieces_by terms kind d deed) + amount (spares_by terms kind d deed)
        ≡ amount_in d + amount_granted terms kind d deed }
{}

/// What a core's book makes of a conversation is what the conversation's own history makes of it.
#[tactic(auto, using(crate::proofs::Histories::history_of))]
pub fn book_follows_histories()
    ensures { (terms : Terms) (core : Core) (lines : List Line) (id : ℕ) (c : Convo) → find_convo id core.convos ≡ Some c
        → find_convo id (core_at terms core lines).convos ≡ Some (convo_after terms c (history id lines)) }
{}

/// In fast TCP and in UDP a live segment asks for one run at most. Where it is granted the front goes to its begin, with a gap
/// where that is past the front, and the run is passed; where it is refused the front stays. Nothing is ever held.
pub fn fast_mode_holds_nothing()
    ensures one { (kind : Kind) (d : Direction) (s : Segment) → ComesFast kind d s → IsOneAtMost (runs_of kind d s) }
    ensures granted { (terms : Terms) (kind : Kind) (d : Direction) (s : Segment) (look : Look) (run : List Placed) → ComesFast kind d s → runs_of kind d s ≡ run ∷ [] → look.granted ≡ true
        → view_after terms kind d (Arrives s (look ∷ [])) ≡ record { front = front_after d.view.front run; held = []; flow = d.view.flow ++ charged look run } }
    ensures gap { (terms : Terms) (kind : Kind) (d : Direction) (s : Segment) (look : Look) (run : List Placed) → ComesFast kind d s → runs_of kind d s ≡ run ∷ [] → look.granted ≡ true
        → blocks d.view.front (gone_by terms kind d (Arrives s (look ∷ []))) ≡ block_behind d.view.front (charged look run) ∷ [] }
    ensures refused { (terms : Terms) (kind : Kind) (d : Direction) (s : Segment) (look : Look) (run : List Placed) → ComesFast kind d s → runs_of kind d s ≡ run ∷ [] → look.granted ≡ false
        → view_after terms kind d (Arrives s (look ∷ [])) ≡ d.view }
    ensures none { (terms : Terms) (kind : Kind) (d : Direction) (s : Segment) (looks : List Look) → ComesFast kind d s → runs_of kind d s ≡ []
        → view_after terms kind d (Arrives s looks) ≡ d.view }
{}

/// Where nothing is held the runs of a segment are one range at most: from the front or its start up to its end or the cutoff.
#[tactic(auto, using(crate::proofs::FastRuns::fast_runs))]
pub fn a_fast_run_is_a_range()
    ensures { (front : ℕ) (flow : List Placed) (cutoff : Option ℕ) (at : ℕ) (start : ℤ) (bytes : List ℕ)
        → map range_of (runs (record { front = front; held = []; flow = flow }) cutoff (placed_from at start bytes)) ≡ between (max front at) (cut_at cutoff (at + length bytes)) }
{}

/// One entry more is one step more: of a conversation's history, and of a core's book.
pub fn histories_grow_by_an_entry()
    ensures history { (terms : Terms) (c : Convo) (acts : List Act) (act : Act) → convo_after terms c (acts ++ act ∷ []) ≡ after terms (convo_after terms c acts) act }
    ensures book { (terms : Terms) (core : Core) (lines : List Line) (line : Line) → core_at terms core (lines ++ line ∷ []) ≡ core_after terms (core_at terms core lines) line }
{}

/// Over every history of a conversation, from its first entry on, a direction delivers its flow, each byte once at its
/// position: what is delivered and what is pending behind it are the flow, and once the conversation has ended nothing is
/// pending. No position is delivered twice.
pub fn histories_deliver_each_byte_once()
    ensures so_far { (terms : Terms) (first : Packet) (way : Way) (acts : List Act)
        → IsDelivered (deliveries_of terms (new_convo first) way acts) (direction_of way (convo_after terms (new_convo first) acts)) }
    ensures at_end { (terms : Terms) (first : Packet) (way : Way) (acts : List Act) → is_live (convo_after terms (new_convo first) acts) ≡ false
        → delivered_at (deliveries_of terms (new_convo first) way acts) ≡ places (direction_of way (convo_after terms (new_convo first) acts)).view.flow }
    ensures once { (terms : Terms) (first : Packet) (way : Way) (acts : List Act) → EachOnce (delivered_at (deliveries_of terms (new_convo first) way acts)) }
{}

/// Over every history the positions of the held bytes and of the flow rise, and each stands there once.
pub fn histories_keep_order()
    ensures { (terms : Terms) (first : Packet) (way : Way) (acts : List Act) → IsOrdered (direction_of way (convo_after terms (new_convo first) acts)).view }
{}

/// Over every history a conversation in fast TCP or UDP holds nothing.
pub fn fast_histories_hold_nothing()
    ensures { (terms : Terms) (first : Packet) (way : Way) (acts : List Act) → WaitsForNothing (kind_of terms (new_convo first))
        → (direction_of way (convo_after terms (new_convo first) acts)).view.held ≡ [] }
{}

/// What is lawful so far and has nothing missing is a lawful journal with one budget history, in the order of its actors.
#[tactic(auto, using(crate::proofs::WholeMoments::whole_is_lawful))]
pub fn whole_moments_are_lawful_runs()
    ensures { WholeIsLawful }
{}
