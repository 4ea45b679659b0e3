// A made capture on its way to a sink.
ghost use Rattle.std.specs.Prelude.{◌≡◌, ◌+◌, ◌<◌, ◌≤◌, ◌++◌, [], IfOk, OnOk, OnErr, length, vec_len};
ghost use Rattle.scap_world.specs.Causes.{HasCause};
ghost use Rattle.scap_world.specs.Contents.{extended, GainsFront};
ghost use Rattle.pcapgen.specs.Kept.{StandsFor};
ghost use Rattle.pcapgen.specs.Made.{made_file};
ghost use Rattle.pcapgen.specs.Writing.{LeavesFront, ReachesNext, StaysReached};
ghost use Rattle.pcapfile.specs.Written.{written_head};
ghost use Rattle.pcapgen.specs.declared.limits.TheConstants.{BUFFER_SIZE};

use crate::limits::{BUFFER_SIZE, LONGEST_MADE, MOST_RECORDS};
use crate::{Generator, Memory};
use scap_world::{Sink, WorldFault, write_whole};
use std::alloc::Global;

/// The generator, and what it made and is not written yet.
#[derive(Drop)]
struct Writer {
    generator: Generator,
    waiting: Vec<u8>,
    ghost within: { vec_len waiting ≤ BUFFER_SIZE },
}

/// The file header waits, with room for all that ever will.
fn opened(alloc: Global) -> Result<Vec<u8>, Memory>
    ensures { IfOk result (λ v. v.items ≡ written_head) }
{
    let mut waiting = Vec::with_capacity(alloc, BUFFER_SIZE)?;
    pcapfile::put_head(&mut waiting)?;
    Ok(waiting)
}

impl Writer {
    /// Before the first record.
    fn new(alloc: Global, seed: u64) -> Result<Writer, Memory>
        ensures generator { IfOk result (λ w. StandsFor seed 0 w.generator) }
        ensures head { IfOk result (λ w. w.waiting.items ≡ written_head) }
    {
        let waiting = opened(alloc)?;
        let generator = Generator::new(alloc, seed);
        Ok(Writer { generator, waiting })
    }

    /// Writes what waits.
    fn flush<K: Sink>(&mut self, sink: &mut K) -> Result<(), WorldFault>
        ensures held { OnOk result (K.held sink.new ≡ extended (K.held sink.old) self.old.waiting.items) }
        ensures empty { OnOk result (self.new.waiting.items ≡ []) }
        ensures generator { self.new.generator ≡ self.old.generator }
        ensures err { OnErr result (GainsFront (K.held sink.old) (K.held sink.new) self.old.waiting.items) }
        ensures cause { HasCause (K.faults sink.old) (K.faults sink.new) result }
    {
        write_whole(sink, &self.waiting)?;
        self.waiting.clear();
        Ok(())
    }

    /// Writes what waits where one record more might be too much.
    fn make_room<K: Sink>(&mut self, sink: &mut K) -> Result<(), WorldFault>
        ensures same { OnOk result (StaysReached (K.held sink.old) (K.held sink.new) self.old.generator self.new.generator self.old.waiting.items self.new.waiting.items) }
        ensures room { OnOk result (length self.new.waiting.items + LONGEST_MADE ≤ BUFFER_SIZE) }
        ensures generator { self.new.generator ≡ self.old.generator }
        ensures err { OnErr result (LeavesFront (K.held sink.old) (K.held sink.new) self.old.generator self.old.waiting.items) }
        ensures cause { HasCause (K.faults sink.old) (K.faults sink.new) result }
    {
        if self.waiting.len() + LONGEST_MADE <= BUFFER_SIZE {
            return Ok(());
        }
        self.flush(sink)
    }

    /// Makes the next record.
    fn put_record<K: Sink>(&mut self, sink: &mut K) -> Result<(), WorldFault>
        requires { self.old.generator.number < MOST_RECORDS }
        ensures next { OnOk result (ReachesNext (K.held sink.old) (K.held sink.new) self.old.generator self.new.generator self.old.waiting.items self.new.waiting.items) }
        ensures number { OnOk result (self.new.generator.number ≡ self.old.generator.number + 1) }
        ensures err { OnErr result (LeavesFront (K.held sink.old) (K.held sink.new) self.old.generator self.old.waiting.items) }
        ensures cause { HasCause (K.faults sink.old) (K.faults sink.new) result }
    {
        self.make_room(sink)?;
        match self.generator.put_next(&mut self.waiting) {
            Ok(()) => Ok(()),
            Err(_) => Err(WorldFault::Memory),
        }
    }
}

/// Writes the capture of so many records of a seed, by pieces of at most `BUFFER_SIZE` bytes. At a fault a front of it was
/// written.
pub fn write_made<K: Sink>(
    alloc: Global,
    sink: &mut K,
    seed: u64,
    count: u32,
) -> Result<(), WorldFault>
    requires { count ≤ MOST_RECORDS }
    ensures ok { OnOk result (K.held sink.new ≡ extended (K.held sink.old) (made_file seed count)) }
    ensures err { OnErr result (GainsFront (K.held sink.old) (K.held sink.new) (made_file seed count)) }
    ensures cause { HasCause (K.faults sink.old) (K.faults sink.new) result }
{
    let mut writer = match Writer::new(alloc, seed) {
        Ok(writer) => writer,
        Err(_) => return Err(WorldFault::Memory),
    };
    for made in 0..count {
        writer.put_record(sink)?;
    }
    writer.flush(sink)
}
