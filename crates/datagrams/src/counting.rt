// The running numbers with a datagram's entry.
ghost use Rattle.std.specs.Prelude.{◌≡◌, ◌≤◌, ◌++◌, length, option_to_list};
ghost use Rattle.datagrams.specs.Flow.{chunk_list, open_in};
ghost use Rattle.datagrams.specs.Sums.{with_chunks, with_datagram};
ghost use Rattle.datagrams.specs.State.{granted_by, AreShort};
ghost use Rattle.streamdefs.specs.Totals.{refused};

use crate::{Entered, RunningSums};
use chunkpart::Chunk;
use histbook::LookEntry;
use prio_budget::PlainCharge;

/// The bytes that a look granted.
pub(crate) fn granted_bytes(look: &Option<LookEntry>) -> u64
    ensures { result ≡ granted_by (option_to_list look.now) }
{
    match look {
        Some(look) => {
            if look.granted {
                u64::from(look.asked)
            } else {
                0
            }
        }
        None => 0,
    }
}

/// How many looks were refused.
pub(crate) fn refusals_in(look: &Option<LookEntry>) -> u64
    ensures refused { result ≡ refused (option_to_list look.now) }
    ensures one { result ≤ 1 }
{
    match look {
        Some(look) => u64::from(!look.granted),
        None => 0,
    }
}

/// Counts a chunk that is handed over, where there is one.
pub(crate) fn count_over(sums: &mut RunningSums, over: &Option<Chunk<PlainCharge>>)
    requires short { AreShort (with_chunks sums.old (chunk_list (open_in over.now))) }
    requires gaps { sums.old.gaps ≤ sums.old.gap_bytes }
    ensures sums { sums.new ≡ with_chunks sums.old (chunk_list (open_in over.now)) }
    ensures gaps { sums.new.gaps ≤ sums.new.gap_bytes }
{
    if let Some(chunk) = over {
        sums.count_chunk(chunk);
    }
}

/// Counts a datagram of so many bytes, and the chunks that its entry hands over.
pub(crate) fn count_entered(sums: &mut RunningSums, bytes: u64, entered: &Entered)
    requires part { granted_by (option_to_list entered.now.look) ≤ bytes }
    requires short { AreShort (with_chunks (with_datagram sums.old bytes (granted_by (option_to_list entered.now.look))) (chunk_list (open_in entered.now.closed) ++ chunk_list (open_in entered.now.full))) }
    requires gaps { sums.old.gaps ≤ sums.old.gap_bytes }
    ensures { sums.new ≡ with_chunks (with_datagram sums.old bytes (granted_by (option_to_list entered.now.look))) (chunk_list (open_in entered.now.closed) ++ chunk_list (open_in entered.now.full)) }
{
    sums.count_datagram(bytes, granted_bytes(&entered.look));
    count_over(sums, &entered.closed);
    count_over(sums, &entered.full);
}
