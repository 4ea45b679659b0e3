//! What the values that a worker takes and gives mean to the definition of a conversation, each as the contract of a function that
//! does nothing.
ghost use Rattle.std.specs.Prelude.{◌≡◌, map};
ghost use Rattle.evring.specs.Charges.{charges_in};
ghost use Rattle.streamdefs.specs.Packet.{Packet};
ghost use Rattle.streamdefs.specs.Reorder.{Charge as Paid};
ghost use Rattle.streamdefs.specs.Convo.{Event as Made, seen_of};
ghost use Rattle.streamdefs.specs.Lawful.{Handler as Stated};
ghost use Rattle.handler.specs.Seen.{conv_of, seen_in};
ghost use Rattle.workrun.specs.AtWork.{IsRight};
ghost use Rattle.workrun.specs.Meant.{MeansAnswer, MeansEvent, charges_made};

use evring::{Answer, Event};
use prio_budget::Charge;

/// An event that a conversation made is seen as the definition has it seen, and has the charges that it has there.
pub fn events_mean_what_was_made<C: Charge>(event: &Event<C>)
    ensures conv { (paid : C → Paid) (first : Packet) (made : Made) → MeansEvent paid first made event.now → conv_of event.now ≡ first.number }
    ensures seen { (paid : C → Paid) (first : Packet) (made : Made) → MeansEvent paid first made event.now → seen_in event.now ≡ seen_of first made }
    ensures charges { (paid : C → Paid) (first : Packet) (made : Made) → MeansEvent paid first made event.now → map paid (charges_in event.now) ≡ charges_made made }
{}

/// An answer that is right for such an event is the one that is owed for it: with what the handler states of it, the deliveries
/// that come back, and as many bytes given back as its charges have.
pub fn right_answers_are_those_owed<C: Charge>(event: &Event<C>, answer: &Answer<C>)
    ensures { (paid : C → Paid) (first : Packet) (made : Made) (handler : Stated) → ((c : C) → C.amount c ≡ (paid c).bytes) → MeansEvent paid first made event.now → IsRight C.amount handler event.now answer.now
        → MeansAnswer paid (handler first.number (seen_of first made)) made answer.now }
{}
