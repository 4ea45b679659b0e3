// The end of one direction of a conversation.
ghost use Rattle.std.specs.Prelude.{◌≡◌, ◌<◌, ◌^◌, length, slice_set};
ghost use Rattle.std.specs.List.{HoldsAt};
ghost use Rattle.datagrams.specs.Flow.{chunk_list, open_in, HasNoCopy};
ghost use Rattle.datagrams.specs.Rows.{half_of, sums_of};
ghost use Rattle.datagrams.specs.State.{closed_half, FitsInto, IsSettled};
ghost use Rattle.evring.specs.declared.way.Way.TheVariants.{Fore, Back};

use crate::Conversations;
use crate::counting::count_over;
use chunkpart::Chunk;
use evring::Way;
use prio_budget::PlainCharge;

/// Takes the open chunk of a direction of the conversation at a place of the table, and counts it.
pub(crate) fn end_half(
    table: &mut Conversations,
    place: usize,
    way: Way,
) -> Option<Chunk<PlainCharge>>
    requires place { place < length table.old }
    requires fits { HoldsAt (FitsInto way 0) table.old place }
    ensures chunk { HoldsAt (λ c. open_in result ≡ (half_of way c).chunk) table.old place }
    ensures table { HoldsAt (λ c. table.new ≡ slice_set table.old place (closed_half way c)) table.old place }
    ensures bare { HasNoCopy result }
    ensures as_many { length table.new ≡ length table.old }
{
    let (mut half, mut sums) = table.take_half(place, way);
    let chunk = half.take_open();
    count_over(&mut sums, &chunk);
    table.put_half(place, way, half, sums);
    chunk
}

/// Takes the open chunks of both directions of the conversation at a place, and counts them.
pub(crate) fn end_place(
    table: &mut Conversations,
    place: usize,
) -> (Option<Chunk<PlainCharge>>, Option<Chunk<PlainCharge>>)
    requires place { place < length table.old }
    requires fits { HoldsAt IsSettled table.old place }
    ensures fore { HoldsAt (λ c. open_in result.0 ≡ c.fore.chunk) table.old place }
    ensures back { HoldsAt (λ c. open_in result.1 ≡ c.back.chunk) table.old place }
    ensures table { HoldsAt (λ c. table.new ≡ slice_set table.old place (closed_half Back (closed_half Fore c))) table.old place }
    ensures bare { HasNoCopy result.0 × HasNoCopy result.1 }
{
    let fore = end_half(table, place, Way::Fore);
    let back = end_half(table, place, Way::Back);
    (fore, back)
}
