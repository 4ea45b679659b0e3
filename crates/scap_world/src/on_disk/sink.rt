ghost use Rattle.std.specs.Prelude.{◌≡◌, ◌≢◌, ◌<◌, ◌≤◌, IfOk, None, length};
ghost use Rattle.scap_world.specs.Causes.{counted};

use crate::{Sink, WorldFault};
use std::fs::File;
use std::io::Write;

/// A real file that is written.
#[derive(Drop)]
pub struct FileSink {
    pub(crate) file: File,
    pub(crate) faults: u64,
}

impl Sink for FileSink {
    ghost use Rattle.scap_world.specs.FileSink.{failed_writes};

    ghost held = { λ _. None };

    ghost faults = { failed_writes };

    fn write(&mut self, piece: &[u8]) -> Result<usize, WorldFault>
        ensures bound { IfOk result (λ n. n ≤ length piece.now) }
        ensures some { 0 < length piece.now → IfOk result (λ n. 0 < n) }

        // A failure alone is counted, and the call takes no memory.
        ensures counted { failed_writes self.new ≡ counted result (failed_writes self.old) }
        ensures no_memory { result ≢ Err WorldFault.Memory }
    {
        match self.file.write(piece) {
            Ok(n) if n > 0 || piece.is_empty() => Ok(n),
            // A device that takes nothing has failed too: asked again it might take nothing for ever.
            _ => {
                self.faults = self.faults.saturating_add(1);
                Err(WorldFault::Failed)
            }
        }
    }
}
