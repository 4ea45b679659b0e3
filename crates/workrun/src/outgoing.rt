ghost use Rattle.std.specs.Prelude.{◌≡◌, ◌+◌, ◌<◌, ◌++◌, [], IsNone, drop, length};
ghost use Rattle.std.specs.Option.{option_to_list};
ghost use Rattle.evring.specs.Charges.{charges_of, charges_of_all};
ghost use Rattle.workrun.specs.Outgoing.{charges_left, charges_of_own};

use chunkpart::Chunk;
use prio_budget::Charge;

/// Chunks whose charges go out one after the other: those of the kept ones in order, then those of the event's own.
#[derive(Drop)]
pub(crate) struct Outgoing<C: Charge> {
    pub(crate) kept: Vec<Chunk<C>>,
    pub(crate) at: usize,
    pub(crate) own: Option<Chunk<C>>,
}

impl<C: Charge> Outgoing<C> {
    /// None went out yet.
    pub(crate) fn of(kept: Vec<Chunk<C>>, own: Option<Chunk<C>>) -> Outgoing<C>
        ensures { charges_left result ≡ charges_of_all kept.items ++ charges_of_own own }
    {
        Outgoing { kept, at: 0, own }
    }

    /// The next charge, none where none is left.
    pub(crate) fn take(&mut self) -> Option<C>
        ensures order { charges_left self.old ≡ option_to_list result ++ charges_left self.new }
        ensures none { IsNone result → charges_left self.old ≡ [] }
    {
        while self.at < self.kept.len() {
            if let Some(charge) = charge_at(&mut self.kept, self.at) {
                return Some(charge);
            }
            self.at += 1;
        }
        charge_of_own(&mut self.own)
    }
}

/// The next charge of the chunk at a place.
fn charge_at<C: Charge>(chunks: &mut Vec<Chunk<C>>, at: usize) -> Option<C>
    requires { at < length chunks.old.items }
    ensures order { charges_of_all (drop at chunks.old.items) ≡ option_to_list result ++ charges_of_all (drop at chunks.new.items) }
    ensures none { IsNone result → charges_of_all (drop at chunks.old.items) ≡ charges_of_all (drop (at + 1) chunks.new.items) }
    ensures len { length chunks.new.items ≡ length chunks.old.items }
{
    charge_of(&mut chunks[at])
}

/// The next charge of a chunk that may be missing.
fn charge_of_own<C: Charge>(own: &mut Option<Chunk<C>>) -> Option<C>
    ensures order { charges_of_own own.old ≡ option_to_list result ++ charges_of_own own.new }
    ensures none { IsNone result → charges_of_own own.old ≡ [] }
{
    match own {
        Some(chunk) => charge_of(chunk),
        None => None,
    }
}

/// The next charge of a chunk.
fn charge_of<C: Charge>(chunk: &mut Chunk<C>) -> Option<C>
    ensures order { charges_of chunk.old ≡ option_to_list result ++ charges_of chunk.new }
    ensures none { IsNone result → (charges_of chunk.old ≡ []) × (charges_of chunk.new ≡ []) }
{
    let part = chunk.take_part()?;
    let (_, charge) = part.unpack();
    Some(charge)
}
