// What a capture's records are.
ghost use Rattle.std.specs.Prelude.{◌≡◌, ◌≤◌, ◌<◌, ◌^◌, true, false, length, map, IfOk, IfSome, MatchOption};
ghost use Rattle.std.specs.List.{sum_by};
ghost use Rattle.labtop.specs.Found.{captured_by};
ghost use Rattle.labtop.specs.Scapconf.{captured, first_moment, has_segment};
ghost use Rattle.streamdefs.specs.Report.{records_of};

use crate::counts::RecordCounts;
use crate::found::{Found, found_in};
use crate::memory::Memory;
use datagrams::Datagram;
use pcapfile::{Frame, Link};
use scapconf::Settings;
use std::alloc::Global;

/// The datagrams that are taken, how many records there are of each fate, the moment of the first record, and the greatest
/// moment of all.
#[derive(Drop)]
pub(crate) struct Intake<'a> {
    pub packets: Vec<Datagram<'a>>,
    pub counts: RecordCounts,
    pub first: u64,
    pub last: u64,
}

fn moment_of_first(frames: &[Frame]) -> u64
    ensures { result ≡ first_moment frames.now }
{
    match frames {
        [] => 0,
        [frame, ..] => frame.moment,
    }
}

/// What the records of a link are, where no segment of TCP is taken.
pub(crate) fn intake_of<'a>(
    alloc: Global,
    settings: &Settings,
    link: Link,
    frames: &'a [Frame],
) -> Result<Option<Intake<'a>>, Memory>
    requires few { length frames.now < 2 ^ 32 }
    requires short { sum_by (λ f. length f.bytes) frames.now < 2 ^ 31 }
    ensures segments { IfOk result (λ found. MatchOption found (has_segment (captured settings.now.filter link frames.now).packets ≡ true)
        (λ _. has_segment (captured settings.now.filter link frames.now).packets ≡ false)) }
    ensures captured { IfOk result (λ found. IfSome found (λ intake. captured_by intake ≡ captured settings.now.filter link frames.now)) }
    ensures counted { IfOk result (λ found. IfSome found (λ intake. records_of intake.counts ≡ length frames.now)) }
    ensures fits { IfOk result (λ found. IfSome found (λ intake. sum_by (λ p. length p.payload.now) intake.packets.items ≤ sum_by (λ f. length f.bytes) frames.now)) }
{
    let first = moment_of_first(frames);
    let mut packets = Vec::new(alloc);
    let mut counts = RecordCounts::none();
    let mut last = 0;
    let mut number = 0;
    for frame in frames {
        number += 1;
        last = frame.moment.max(last);
        let Some(found) = found_in(settings, number, last, link, frame) else {
            return Ok(None);
        };
        counts.add(&found);
        match found {
            Found::Taken(datagram) => {
                if packets.push(datagram).is_err() {
                    return Err(Memory);
                }
            }
            Found::Filtered => {}
            Found::Passed(_) => {}
        }
    }
    Ok(Some(Intake {
        packets,
        counts,
        first,
        last,
    }))
}
