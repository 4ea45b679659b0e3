ghost use Rattle.std.specs.Prelude.{◌≡◌, ◌+◌, ◌-◌, IfOk, None, OnErr, OnOk};
ghost use Rattle.scap_world.specs.Causes.{counted, ended, raised};

use super::sink::FileSink;
use super::source::FileSource;
use crate::{Failed, Shelf, WorldFault};
use std::fs;
use std::fs::File;
use std::io::Write;
use std::rt::Files;

/// Real files. It tells nothing, and has one count of faults for every name.
#[derive(Drop)]
pub struct FileShelf<R: Files<File = File> + Drop> {
    rt: R,
    faults: u64,
    open_files: u64,
}

impl<R: Files<File = File> + Drop> FileShelf<R> {
    ghost use Rattle.std.specs.Prelude.{◌≡◌, ℕ, List};

    pub fn new(rt: R) -> FileShelf<R>
        ensures read_faults { (name : List ℕ) → ⟦<FileShelf<R> as Shelf>⟧.read_faults result name ≡ 0 }
        ensures write_faults { (name : List ℕ) → ⟦<FileShelf<R> as Shelf>⟧.write_faults result name ≡ 0 }
        ensures open_files { ⟦<FileShelf<R> as Shelf>⟧.open_files result ≡ 0 }
    {
        FileShelf {
            rt,
            faults: 0,
            open_files: 0,
        }
    }
}

impl<R: Files<File = File> + Drop> Shelf for FileShelf<R> {
    ghost use Rattle.scap_world.specs.FileShelf.{fault_count, open_count};
    ghost use Rattle.scap_world.specs.FileSink.{failed_writes};
    ghost use Rattle.scap_world.specs.FileSource.{failed_reads};

    type Source = FileSource;

    type Sink = FileSink;

    ghost files = { λ _. None };

    ghost read_faults = { λ s _. fault_count s };

    ghost write_faults = { λ s _. fault_count s };

    ghost taken = { λ _ _. 0 };

    ghost open_files = { open_count };

    fn open_read(&mut self, name: &str) -> Result<FileSource, WorldFault>
        ensures no_faults { IfOk result (λ source. failed_reads source ≡ 0) }
        ensures open_files { OnOk result (open_count self.new ≡ open_count self.old + 1) }
        ensures open_files_err { OnErr result (open_count self.new ≡ open_count self.old) }

        // A failure alone is counted, and memory is wanting only for the number of what is out.
        ensures counted { fault_count self.new ≡ counted result (fault_count self.old) }
        ensures memory { result ≡ Err WorldFault.Memory → open_count self.old ≡ u64.MAX }
    {
        if self.open_files == u64::MAX {
            return Err(WorldFault::Memory);
        }
        match fs::open(&self.rt, name) {
            Ok(file) => {
                self.open_files += 1;
                Ok(FileSource { file, faults: 0 })
            }
            Err(_) => {
                self.faults = self.faults.saturating_add(1);
                Err(WorldFault::Failed)
            }
        }
    }

    fn end_read(&mut self, _name: &str, source: FileSource)
        ensures open_files { open_count self.new ≡ open_count self.old - 1 }
        ensures counted { fault_count self.new ≡ ended (failed_reads source) (fault_count self.old) }
    {
        if source.faults > 0 {
            self.faults = self.faults.saturating_add(1);
        }
        self.open_files = self.open_files.saturating_sub(1);
    }

    fn create(&mut self, name: &str) -> Result<FileSink, WorldFault>
        ensures no_faults { IfOk result (λ sink. failed_writes sink ≡ 0) }
        ensures open_files { OnOk result (open_count self.new ≡ open_count self.old + 1) }
        ensures open_files_err { OnErr result (open_count self.new ≡ open_count self.old) }

        // A failure alone is counted, and memory is wanting only for the number of what is out.
        ensures counted { fault_count self.new ≡ counted result (fault_count self.old) }
        ensures memory { result ≡ Err WorldFault.Memory → open_count self.old ≡ u64.MAX }
    {
        if self.open_files == u64::MAX {
            return Err(WorldFault::Memory);
        }
        match fs::create(&self.rt, name) {
            Ok(file) => {
                self.open_files += 1;
                Ok(FileSink { file, faults: 0 })
            }
            Err(_) => {
                self.faults = self.faults.saturating_add(1);
                Err(WorldFault::Failed)
            }
        }
    }

    fn finish(&mut self, _name: &str, mut sink: FileSink) -> Result<(), Failed>
        ensures open_files { open_count self.new ≡ open_count self.old - 1 }
        ensures counted { OnOk result (fault_count self.new ≡ ended (failed_writes sink) (fault_count self.old)) }
        ensures counted_err { OnErr result (fault_count self.new ≡ raised (fault_count self.old)) }
    {
        self.open_files = self.open_files.saturating_sub(1);
        let flushed = sink.file.flush();
        if flushed.is_err() || sink.faults > 0 {
            self.faults = self.faults.saturating_add(1);
        }
        flushed.map_err(|_| Failed)
    }
}
