// The line of an event in a delivery file.
ghost use Rattle.std.specs.Prelude.{◌≡◌, ◌++◌, OnOk, OnErr};
ghost use Rattle.textout.specs.Front.{IsFront};
ghost use Rattle.streamdefs.specs.Convo.Seen.{Created, Over};
ghost use Rattle.streamdefs.specs.Handler.{address_text, end_text, event_line, proto_word, reason_word, way_mark};
ghost use Rattle.handler.specs.Seen.{seen_in_view};

use crate::ChunkView;
use evring::{Reason, Way};
use streamkey::{Addr, End, Key, Proto, Toward};
use textout::{
    Memory, put_count, put_dotted, put_groups, put_hex, put_number, put_numbers, put_text,
};

fn put_address(out: &mut Vec<u8>, address: Addr) -> Result<(), Memory>
    ensures ok { OnOk result (out.new.items ≡ out.old.items ++ address_text address) }
    ensures err { OnErr result (IsFront out.old.items out.new.items) }
{
    match address {
        Addr::V4(octets) => put_dotted(out, octets),
        Addr::V6(octets) => put_groups(out, &octets),
    }
}

#[tactic(auto, unfolding(streamdefs::specs::Handler::end_text))]
fn put_end(out: &mut Vec<u8>, end: End) -> Result<(), Memory>
    ensures ok { OnOk result (out.new.items ≡ out.old.items ++ end_text end) }
    ensures err { OnErr result (IsFront out.old.items out.new.items) }
{
    put_address(out, end.addr)?;
    put_count(out, " ", u64::from(end.port))
}

fn word_of(proto: Proto) -> &'static str
    ensures { result.now ≡ proto_word proto }
{
    match proto {
        Proto::Tcp => "tcp",
        Proto::Udp => "udp",
    }
}

fn mark_of(way: Way) -> &'static str
    ensures { result.now ≡ way_mark way }
{
    match way {
        Way::Fore => ">",
        Way::Back => "<",
    }
}

fn reason_of(reason: Reason) -> &'static str
    ensures { result.now ≡ reason_word reason }
{
    match reason {
        Reason::Reset => "reset",
        Reason::Closed => "closed",
        Reason::Idle => "idle",
        Reason::Replaced => "replaced",
        Reason::Finish => "finish",
    }
}

/// Appends the line of a conversation that opened with a packet of this key that goes this way.
#[tactic(auto, unfolding(streamdefs::specs::Handler::new_line))]
pub fn put_created(out: &mut Vec<u8>, conv: u32, key: &Key, toward: Toward) -> Result<(), Memory>
    ensures ok { OnOk result (out.new.items ≡ out.old.items ++ event_line conv (Created key.now toward)) }
    ensures err { OnErr result (IsFront out.old.items out.new.items) }
{
    put_count(out, "new ", u64::from(conv))?;
    put_text(out, " ")?;
    put_text(out, word_of(key.proto))?;
    put_text(out, " ")?;
    put_end(out, key.source(toward))?;
    put_text(out, " ")?;
    put_end(out, key.target(toward))?;
    put_text(out, "\n")
}

/// Appends the line of a chunk. Its bytes become hexadecimal digits in place.
#[tactic(auto, unfolding(streamdefs::specs::Handler::data_line))]
pub fn put_chunk(out: &mut Vec<u8>, view: &ChunkView) -> Result<(), Memory>
    ensures ok { OnOk result (out.new.items ≡ out.old.items ++ event_line view.now.conv (seen_in_view view.now)) }
    ensures err { OnErr result (IsFront out.old.items out.new.items) }
{
    put_count(out, "data ", u64::from(view.conv))?;
    put_text(out, " ")?;
    put_text(out, mark_of(view.way))?;
    put_numbers(
        out,
        &[view.start, view.gap, view.over, view.kept.len() as u64],
    )?;
    put_text(out, " ")?;
    put_hex(out, view.shown)?;
    put_text(out, "\n")
}

/// Appends the line of a conversation that ended.
#[tactic(auto, unfolding(streamdefs::specs::Handler::end_line))]
pub fn put_ended(out: &mut Vec<u8>, conv: u32, reason: Reason) -> Result<(), Memory>
    ensures ok { OnOk result (out.new.items ≡ out.old.items ++ event_line conv (Over reason)) }
    ensures err { OnErr result (IsFront out.old.items out.new.items) }
{
    put_count(out, "end ", u64::from(conv))?;
    put_text(out, " ")?;
    put_text(out, reason_of(reason))?;
    put_text(out, "\n")
}
