// The lines of a delivery file.
ghost use Rattle.std.specs.Prelude.{◌≡◌, ◌++◌, OnOk};
ghost use Rattle.streamdefs.specs.Handler.{address_text, end_text, proto_word, way_mark, reason_word, new_line, data_line, end_line};

use crate::Memory;
use evring::{Reason, Way};
use streamkey::{Addr, End, Proto};
use textout::{put_count, put_dotted, put_groups, put_hex, put_number, put_numbers, put_text};

fn put_address(out: &mut Vec<u8>, address: Addr) -> Result<(), Memory>
    ensures { OnOk result (out.new.items ≡ out.old.items ++ address_text address) }
{
    match address {
        Addr::V4(bytes) => put_dotted(out, bytes),
        Addr::V6(bytes) => put_groups(out, &bytes),
    }
}

#[tactic(auto, unfolding(streamdefs::specs::Handler::end_text))]
fn put_end(out: &mut Vec<u8>, end: End) -> Result<(), Memory>
    ensures { OnOk result (out.new.items ≡ out.old.items ++ end_text end) }
{
    put_address(out, end.addr)?;
    put_text(out, " ")?;
    put_number(out, u64::from(end.port))
}

fn word_of(proto: Proto) -> &'static str
    ensures { result.now ≡ proto_word proto }
{
    match proto {
        Proto::Tcp => "tcp",
        Proto::Udp => "udp",
    }
}

pub(crate) fn mark_of(way: Way) -> &'static str
    ensures { result.now ≡ way_mark way }
{
    match way {
        Way::Fore => ">",
        Way::Back => "<",
    }
}

/// Appends the line of a conversation that begins.
#[tactic(auto, unfolding(streamdefs::specs::Handler::new_line))]
pub(crate) fn put_new_line(
    out: &mut Vec<u8>,
    conv: u32,
    proto: Proto,
    source: End,
    target: End,
) -> Result<(), Memory>
    ensures { OnOk result (out.new.items ≡ out.old.items ++ new_line conv proto source target) }
{
    put_count(out, "new ", u64::from(conv))?;
    put_text(out, " ")?;
    put_text(out, word_of(proto))?;
    put_text(out, " ")?;
    put_end(out, source)?;
    put_text(out, " ")?;
    put_end(out, target)?;
    put_text(out, "\n")
}

/// Appends the line of bytes that are delivered behind a gap, without a copy or kept bytes.
#[tactic(auto, unfolding(streamdefs::specs::Handler::data_line))]
pub(crate) fn put_data_line(
    out: &mut Vec<u8>,
    conv: u32,
    way: Way,
    start: u64,
    gap: u64,
    shown: &[u8],
) -> Result<(), Memory>
    ensures { OnOk result (out.new.items ≡ out.old.items ++ data_line conv way start gap 0 0 shown.now) }
{
    put_count(out, "data ", u64::from(conv))?;
    put_text(out, " ")?;
    put_text(out, mark_of(way))?;
    put_numbers(out, &[start, gap, 0, 0])?;
    put_text(out, " ")?;
    put_hex(out, shown)?;
    put_text(out, "\n")
}

fn reason_of(reason: Reason) -> &'static str
    ensures { result.now ≡ reason_word reason }
{
    match reason {
        Reason::Reset => "reset",
        Reason::Closed => "closed",
        Reason::Idle => "idle",
        Reason::Replaced => "replaced",
        Reason::Finish => "finish",
    }
}

/// Appends the line of a conversation that ends.
#[tactic(auto, unfolding(streamdefs::specs::Handler::end_line))]
pub(crate) fn put_end_line(out: &mut Vec<u8>, conv: u32, reason: Reason) -> Result<(), Memory>
    ensures { OnOk result (out.new.items ≡ out.old.items ++ end_line conv reason) }
{
    put_count(out, "end ", u64::from(conv))?;
    put_text(out, " ")?;
    put_text(out, reason_of(reason))?;
    put_text(out, "\n")
}
