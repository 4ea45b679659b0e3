// The files of a capture.
ghost use Rattle.std.specs.Prelude.{ℕ, ◌+◌, ◌<◌, ◌^◌, IfOk, length, map, sum_by};
ghost use Rattle.datagrams.specs.Capture.{packet_for, IsCapture};
ghost use Rattle.labtop.specs.Drill.{of_captured, verdict_of};
ghost use Rattle.labtop.specs.Found.{captured_by};
ghost use Rattle.labtop.specs.Gives.{Gives, HasTexts};
ghost use Rattle.labtop.specs.Scapconf.{captured};
ghost use Rattle.labtop.specs.Settings.{terms_of};
ghost use Rattle.streamdefs.specs.Lists.{total};
ghost use Rattle.streamdefs.specs.Report.{records_of};

use crate::capture::whole_frames;
use crate::intake::{Intake, intake_of};
use crate::limits::MOST_BUILT;
use crate::memory::Memory;
use crate::summary::report;
use datagrams::replay_all;
use histbook::Journal;
use pcapfile::{FileHead, Frame, Link};
use scapconf::{Settings, Status};
use std::alloc::Global;

/// The journal of a run, and the texts of its two files.
#[derive(Drop)]
pub(crate) struct Outcome {
    pub journal: Journal,
    pub delivery: Vec<u8>,
    pub report: Vec<u8>,
}

/// The files of what a capture's records are.
fn outcome_with(alloc: Global, settings: &Settings, intake: &Intake<'_>) -> Result<Outcome, Memory>
    requires few { records_of intake.now.counts < 2 ^ 64 }
    requires fits { total (λ p. length p.payload.now) intake.now.packets.items < 2 ^ 32 }
    ensures { (first : ℕ) → IsCapture (terms_of settings.now) first (map packet_for intake.now.packets.items) → intake.now.last < first + settings.now.set.shape.idle
        → IfOk result (HasTexts (terms_of settings.now) (captured_by intake.now)) }
{
    let (_, replayed) = replay_all(
        alloc,
        &settings.set.marks,
        u64::from(settings.set.shape.chunk),
        &intake.packets,
        intake.last,
    );
    let whole = replayed?;
    let report = report(alloc, &intake.counts, &whole)?;
    Ok(Outcome {
        journal: whole.journal,
        delivery: whole.text,
        report,
    })
}

/// The files of a capture's records.
fn outcome_of(
    alloc: Global,
    settings: &Settings,
    link: Link,
    frames: &[Frame],
) -> Result<Outcome, Status>
    requires few { length frames.now < 2 ^ 32 }
    requires fits { sum_by (λ f. length f.bytes) frames.now < 2 ^ 31 }
    ensures { Gives (terms_of settings.now) result (of_captured settings.now.set.shape.idle (captured settings.now.filter link frames.now)) }
{
    let found = intake_of(alloc, settings, link, frames)?;
    let Some(intake) = found else {
        return Err(Status::Unbuilt);
    };
    if intake.last.saturating_sub(intake.first) >= settings.set.shape.idle {
        return Err(Status::Unbuilt);
    }
    Ok(outcome_with(alloc, settings, &intake)?)
}

/// The files of a capture.
#[tactic(auto, unfolding(crate::specs::Drill::verdict_of))]
pub(crate) fn outcome_for(
    alloc: Global,
    settings: &Settings,
    bytes: &[u8],
) -> Result<Outcome, Status>
    ensures { Gives (terms_of settings.now) result (verdict_of settings.now bytes.now) }
{
    let head = match FileHead::read(bytes) {
        Ok(head) => head,
        Err(kind) => return Err(Status::NotPcap { kind }),
    };
    if bytes.len() > MOST_BUILT {
        return Err(Status::Unbuilt);
    }
    let found = whole_frames(alloc, head, &bytes[24..])?;
    let Some(frames) = found else {
        return Err(Status::Unbuilt);
    };
    outcome_of(alloc, settings, head.link, &frames)
}
