// The course of a replay: all packets, and then the end of all conversations.
ghost use Rattle.std.specs.Prelude.{◌≡◌, ℕ, suc, ◌+◌, ◌<◌, ◌^◌, ◌++◌, [], ◌∷◌, List, length, map, take, OnOk};
ghost use Rattle.streamdefs.specs.Lists.{Each, total};
ghost use Rattle.streamdefs.specs.Packet.{Packet};
ghost use Rattle.streamdefs.specs.Terms.{Terms};
ghost use Rattle.datagrams.specs.Capture.{packet_for, IsCapture};
ghost use Rattle.datagrams.specs.Rows.{IsPlaced, NoneHasKey};
ghost use Rattle.datagrams.specs.Stands.{IsNext, IsShut, Stands};
ghost use Rattle.datagrams.specs.State.{answered_many};

use crate::{Datagram, Memory, Replay};
use evring::Way;
use std::alloc::Global;

/// The most events that may wait as an entry begins.
const MOST_WAITING: usize = 255;

/// Answers the first so many events that wait.
fn answer_many(alloc: Global, replay: &mut Replay, count: usize) -> Result<(), Memory>
    ensures { OnOk result (replay.new ≡ answered_many count replay.old) }
{
    for turn in 0..count {
        replay.answer(alloc)?;
    }
    Ok(())
}

/// Takes a datagram of the conversation at a place.
fn take_later(
    alloc: Global,
    replay: &mut Replay,
    place: usize,
    packet: &Datagram<'_>,
) -> Result<(), Memory>
    requires place { IsPlaced packet.now.key replay.old.table place }
    requires few { length packet.now.payload.now < 2 ^ 32 }
    requires fits { replay.old.came + length packet.now.payload.now < 2 ^ 64 }
    ensures came { OnOk result (replay.new.came ≡ replay.old.came + length packet.now.payload.now) }
    ensures stands { (t : Terms) (last first : ℕ) (packets done : List Packet) → Stands t last first packets done 0 replay.old → replay.old.waiting ≡ []
        → IsNext t first packets done (packet_for packet.now) → OnOk result (Stands t last first packets (done ++ packet_for packet.now ∷ []) 0 replay.new) }
{
    let (conv, way) = replay.number_and_way(place, packet.toward);
    replay.enter_at(
        alloc,
        place,
        conv,
        way,
        packet.number,
        packet.clock,
        packet.payload,
    )
}

/// Takes a datagram that opens a conversation.
fn take_first(alloc: Global, replay: &mut Replay, packet: &Datagram<'_>) -> Result<(), Memory>
    requires new { NoneHasKey packet.now.key replay.old.table }
    requires few { length packet.now.payload.now < 2 ^ 32 }
    requires fits { replay.old.came + length packet.now.payload.now < 2 ^ 64 }
    ensures came { OnOk result (replay.new.came ≡ replay.old.came + length packet.now.payload.now) }
    ensures stands { (t : Terms) (last first : ℕ) (packets done : List Packet) → Stands t last first packets done 0 replay.old → replay.old.waiting ≡ []
        → IsNext t first packets done (packet_for packet.now) → OnOk result (Stands t last first packets (done ++ packet_for packet.now ∷ []) 0 replay.new) }
{
    let place = replay.conversations();
    replay.open(packet.number, packet.key, packet.toward)?;
    replay.enter_at(
        alloc,
        place,
        packet.number,
        Way::Fore,
        packet.number,
        packet.clock,
        packet.payload,
    )
}

/// Takes a datagram, once all events before it are told.
fn take(alloc: Global, replay: &mut Replay, packet: &Datagram<'_>) -> Result<(), Memory>
    requires few { length packet.now.payload.now < 2 ^ 32 }
    requires fits { replay.old.came + length packet.now.payload.now < 2 ^ 64 }
    ensures came { OnOk result (replay.new.came ≡ replay.old.came + length packet.now.payload.now) }
    ensures stands { (t : Terms) (last first : ℕ) (packets done : List Packet) → Stands t last first packets done 0 replay.old
        → IsNext t first packets done (packet_for packet.now) → OnOk result (Stands t last first packets (done ++ packet_for packet.now ∷ []) 0 replay.new) }
{
    let waiting = replay.waiting_len();
    answer_many(alloc, replay, waiting)?;
    match replay.place(&packet.key) {
        Some(place) => take_later(alloc, replay, place, packet),
        None => take_first(alloc, replay, packet),
    }
}

/// Takes all datagrams.
pub(crate) fn take_all(
    alloc: Global,
    replay: &mut Replay,
    packets: &[Datagram<'_>],
) -> Result<(), Memory>
    requires { replay.old.came + total (λ p. length p.payload.now) packets.now < 2 ^ 32 }
    ensures { (t : Terms) (last first : ℕ) → IsCapture t first (map packet_for packets.now) → Stands t last first (map packet_for packets.now) [] 0 replay.old
        → OnOk result (Stands t last first (map packet_for packets.now) (map packet_for packets.now) 0 replay.new) }
{
    for packet in packets {
        take(alloc, replay, packet)?;
    }
    Ok(())
}

/// Ends the conversation at a place, once few events wait.
fn end_one(alloc: Global, replay: &mut Replay, place: usize, last: u64) -> Result<(), Memory>
    requires { place < length replay.old.table }
    ensures as_many { OnOk result (length replay.new.table ≡ length replay.old.table) }
    ensures shut { Each IsShut (take place replay.old.table) → OnOk result (Each IsShut (take (suc place) replay.new.table)) }
    ensures stands { (t : Terms) (first : ℕ) (packets done : List Packet) → Stands t last first packets done place replay.old → last < first + t.idle
        → OnOk result (Stands t last first packets done (suc place) replay.new) }
{
    let more = replay.waiting_len().saturating_sub(MOST_WAITING);
    answer_many(alloc, replay, more)?;
    let conv = replay.number_at(place);
    replay.end_at(alloc, place, conv, last)
}

/// Ends each conversation in turn, and answers what then waits.
fn end_each(alloc: Global, replay: &mut Replay, last: u64) -> Result<(), Memory>
    ensures calm { OnOk result (replay.new.waiting ≡ []) }
    ensures shut { OnOk result (Each IsShut replay.new.table) }
    ensures stands { (t : Terms) (first : ℕ) (packets done : List Packet) → Stands t last first packets done 0 replay.old → last < first + t.idle
        → OnOk result (Stands t last first packets done (length replay.new.table) replay.new) }
{
    for place in 0..replay.conversations() {
        end_one(alloc, replay, place, last)?;
    }
    let waiting = replay.waiting_len();
    answer_many(alloc, replay, waiting)
}

/// Ends all conversations, once all events of the packets are answered.
pub(crate) fn end_all(alloc: Global, replay: &mut Replay, last: u64) -> Result<(), Memory>
    ensures calm { OnOk result (replay.new.waiting ≡ []) }
    ensures shut { OnOk result (Each IsShut replay.new.table) }
    ensures stands { (t : Terms) (first : ℕ) (packets done : List Packet) → Stands t last first packets done 0 replay.old → last < first + t.idle
        → OnOk result (Stands t last first packets done (length replay.new.table) replay.new) }
{
    let waiting = replay.waiting_len();
    answer_many(alloc, replay, waiting)?;
    end_each(alloc, replay, last)
}
