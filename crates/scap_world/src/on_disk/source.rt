ghost use Rattle.std.specs.Prelude.{◌≡◌, ◌≢◌, ◌≤◌, IfOk, None, length};
ghost use Rattle.scap_world.specs.Causes.{counted};

use crate::{Source, WorldFault};
use std::fs::File;
use std::io::Read;

/// A real file that is read.
#[derive(Drop)]
pub struct FileSource {
    pub(crate) file: File,
    pub(crate) faults: u64,
}

impl Source for FileSource {
    ghost use Rattle.scap_world.specs.FileSource.{failed_reads};

    ghost left = { λ _. None };

    ghost taken = { λ _. 0 };

    ghost faults = { failed_reads };

    fn read(&mut self, into: &mut [u8]) -> Result<usize, WorldFault>
        ensures bound { IfOk result (λ n. n ≤ length into.new) }

        // A failure alone is counted, and the call takes no memory.
        ensures counted { failed_reads self.new ≡ counted result (failed_reads self.old) }
        ensures no_memory { result ≢ Err WorldFault.Memory }
    {
        match self.file.read(into) {
            Ok(n) => Ok(n),
            Err(_) => {
                self.faults = self.faults.saturating_add(1);
                Err(WorldFault::Failed)
            }
        }
    }
}
