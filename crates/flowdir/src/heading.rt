// Where a segment begins and ends.
ghost use Rattle.std.specs.Prelude.{◌≡◌, ℕ, ◌+◌, ◌%◌, ◌<◌, ◌≤◌, ◌^◌, cond, max, pos, Option, Some, unwrap_or, unsigned_abs, length};
ghost use Rattle.streamdefs.specs.Direction.{Direction, Segment, start_of as start_in, past_start, payload_seq as seq_of};
ghost use Rattle.streamdefs.specs.Seqspace.{place as position};
ghost use Rattle.flowdir.specs.Boundary.{kind_of, number_of};
ghost use Rattle.flowdir.specs.Classes.{at_of};
ghost use Rattle.flowdir.specs.Heading.{fin_with, start_by, Tells, Says, AimsAt};

use crate::aim::Aim;
use crate::head::Head;
use crate::{DirMode, Seg};
use seqspace::{Seq, after, place};

/// The sequence number of the first byte of a payload; SYN takes one.
pub(crate) fn payload_seq(seq: Seq, syn: bool) -> Seq
    ensures { result.0 ≡ cond syn ((seq.0 + 1) % 2 ^ 32) seq.0 }
{
    if syn { after(seq, 1) } else { seq }
}

/// The base of a direction, that of its first segment.
pub(crate) fn base_with(base: Option<Seq>, seq: Seq) -> Seq
    ensures { result.0 ≡ unwrap_or (number_of base) seq.0 }
{
    match base {
        Some(base) => base,
        None => seq,
    }
}

/// Where a segment begins.
#[tactic(auto, using(crate::proofs::Reach::at_near, crate::proofs::Reach::fits_near))]
pub(crate) fn start_at(mode: DirMode, base: Seq, seq: Seq, front: u64, sent: u64) -> i64
    requires near { (front < 2 ^ 62) × (sent < 2 ^ 62) }
    ensures start { result ≡ start_by mode base.0 seq.0 front sent }
    ensures near { at_of result ≤ max (front + 2 ^ 31) sent }
    ensures fits { unsigned_abs result < 2 ^ 63 }
{
    match mode {
        DirMode::Udp => sent as i64,
        DirMode::Strict | DirMode::Fast => place(base, seq, front),
    }
}

/// Where a segment ends by its declared length, at least 0.
fn end_by(start: i64, declared: u32) -> u64
    ensures { result ≡ past_start start declared }
{
    if start < 0 {
        u64::from(declared).saturating_sub(start.unsigned_abs())
    } else {
        start as u64 + u64::from(declared)
    }
}

/// The FIN position, that of the first segment with FIN.
pub(crate) fn fin_by(known: Option<u64>, fin: bool, start: i64, declared: u32) -> Option<u64>
    ensures { result ≡ fin_with known fin start declared }
{
    match known {
        Some(position) => Some(position),
        None => {
            if fin {
                Some(end_by(start, declared))
            } else {
                None
            }
        }
    }
}

/// Where a segment begins, and what is kept of its header behind it.
#[tactic(auto, using(crate::proofs::AimLemmas::aims_at))]
pub(crate) fn aim(
    mode: DirMode,
    base: Option<Seq>,
    sent: u64,
    fin: Option<u64>,
    front: u64,
    seg: &Seg<'_>,
) -> Aim
    requires near { (front < 2 ^ 62) × (sent < 2 ^ 62) }
    requires few { length seg.now.payload.now ≤ 262144 }
    ensures aims { (d : Direction) (s : Segment) → Tells (number_of base) sent front fin d
        → Says seg.entry.now.seq.0 seg.entry.now.declared (length seg.entry.now.payload.now) seg.entry.now.syn seg.entry.now.fin s → AimsAt result (kind_of mode) d s }
    ensures near { at_of result.start ≤ max (front + 2 ^ 31) sent }
    ensures fits { unsigned_abs result.start < 2 ^ 63 }
    ensures sent { result.head.sent ≡ sent + length seg.entry.now.payload.now }
    ensures last { result.head.last ≡ seg.entry.now.number }
{
    let seq = payload_seq(seg.seq, seg.syn);
    let base = base_with(base, seq);
    let start = start_at(mode, base, seq, front, sent);
    let fin = fin_by(fin, seg.fin, start, seg.declared);
    Aim {
        start,
        head: Head {
            base,
            sent: sent + seg.payload.len() as u64,
            fin,
            last: seg.number,
        },
    }
}
