ghost use Rattle.std.specs.Prelude.{◌≡◌, ◌++◌, OnOk};
ghost use Rattle.reorder.specs.Starts.{piece};

use chunkpart::Memory;

/// Neighbouring bytes of a part that came with segments of one start: how many they are, and that start.
#[derive(Clone, Copy)]
pub(crate) struct StartRun {
    pub(crate) len: u64,
    pub(crate) start: i64,
}

/// Puts a run behind others. One without bytes is left out.
pub(crate) fn put_run(runs: &mut Vec<StartRun>, len: u64, start: i64) -> Result<(), Memory>
    ensures { OnOk result (runs.new.items ≡ runs.old.items ++ piece len start) }
{
    if 0 < len && runs.push(StartRun { len, start }).is_err() {
        return Err(Memory);
    }
    Ok(())
}
