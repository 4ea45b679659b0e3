ghost use Rattle.std.specs.Prelude.{◌<◌, length};
ghost use Rattle.scap_world.specs.Tables.{Covers};

use super::bytes::Bytes;
use super::counts::Counts;
use super::fail_call::FailCall;
use super::plans::Plans;
use super::sink::MemSink;
use super::source::MemSource;
use super::table::Table;
use crate::{Failed, Memory, Shelf, WorldFault};
use std::alloc::{AllocError, Global};

/// Files in memory. It tells them, and fails where it is told to.
#[derive(Drop)]
pub struct MemShelf {
    alloc: Global,
    files: Table<Bytes>,
    reads: Counts,
    writes: Counts,
    plans: Plans,
    // Of the source that was ended last: the index of its file, and how many bytes were taken.
    last: usize,
    number: usize,
    most: usize,
    open_files: u64,
    ghost some: { 0 < most },
    ghost within: { 0 < number → last < length files },
    ghost reads_have_room: { Covers files reads },
    ghost writes_have_room: { Covers files writes },
}

impl MemShelf {
    ghost use Rattle.std.specs.Option.{option_copied};
    ghost use Rattle.std.specs.Prelude.{◌≡◌, ◌≢◌, ◌++◌, [], ◌∷◌, ℕ, List, IfOk, IsSome, MatchOption, OnOk, OnErr};
    ghost use Rattle.scap_world.specs.Tables.{value_of};
    ghost use Rattle.scap_world.specs.Files.{put, file_of};
    ghost use Rattle.scap_world.specs.MemShelf.{files_of, read_count, write_count, taken_under, planned, piece_of, open_count, KeepsCounts, IsUnchanged, IsOpened};

    /// No files, and nothing is told to fail.
    pub fn new(alloc: Global) -> MemShelf
        ensures files { files_of result ≡ [] }
        ensures reads { (name : List ℕ) → read_count result name ≡ 0 }
        ensures writes { (name : List ℕ) → write_count result name ≡ 0 }
        ensures taken { (name : List ℕ) → taken_under result name ≡ 0 }
        ensures planned { planned result ≡ [] }
        ensures piece { piece_of result ≡ usize.MAX }
        ensures open_files { open_count result ≡ 0 }
    {
        MemShelf {
            alloc,
            files: Table::new(alloc),
            reads: Counts::new(alloc),
            writes: Counts::new(alloc),
            plans: Plans::new(alloc),
            last: 0,
            number: 0,
            most: usize::MAX,
            open_files: 0,
        }
    }

    /// Puts that file, in the place of one of that name.
    pub fn add(&mut self, name: &str, bytes: &[u8]) -> Result<(), Memory>
        ensures files { OnOk result (files_of self.new ≡ put name.now bytes.now (files_of self.old)) }
        ensures counts { KeepsCounts self.old self.new }
        ensures taken { (other : List ℕ) → taken_under self.new other ≡ taken_under self.old other }
        ensures planned { planned self.new ≡ planned self.old }
        ensures piece { piece_of self.new ≡ piece_of self.old }
        ensures open_files { open_count self.new ≡ open_count self.old }
        ensures err { OnErr result (IsUnchanged self.old self.new) }
    {
        let copy = Vec::from_slice(self.alloc, bytes)?;
        self.put_file(name, Bytes::of(copy))?;
        Ok(())
    }

    /// The bytes of a file.
    pub fn file(&self, name: &str) -> Option<&[u8]>
        ensures { option_copied result ≡ file_of (files_of self.now) name.now }
    {
        match self.files.get(name) {
            Some(bytes) => Some(bytes.as_slice()),
            None => None,
        }
    }

    /// From now on at most so many bytes go in one read or write of what is opened or created.
    pub fn set_piece(&mut self, most: usize)
        requires { 0 < most }
        ensures piece { piece_of self.new ≡ most }
        ensures files { files_of self.new ≡ files_of self.old }
        ensures counts { KeepsCounts self.old self.new }
        ensures taken { (name : List ℕ) → taken_under self.new name ≡ taken_under self.old name }
        ensures planned { planned self.new ≡ planned self.old }
        ensures open_files { open_count self.new ≡ open_count self.old }
    {
        self.most = most;
    }

    /// Makes the nth such call on that name from now on fail. Of reads and writes those count that are made on what is
    /// opened or created from now on; while two of one name are out, each counts its own alone.
    pub fn fail(&mut self, name: &str, call: FailCall, nth: u32) -> Result<(), Memory>
        ensures planned { OnOk result (planned self.new ≡ planned self.old ++ record { name = name.now; call = call; left = nth } ∷ []) }
        ensures files { files_of self.new ≡ files_of self.old }
        ensures counts { KeepsCounts self.old self.new }
        ensures taken { (other : List ℕ) → taken_under self.new other ≡ taken_under self.old other }
        ensures piece { piece_of self.new ≡ piece_of self.old }
        ensures open_files { open_count self.new ≡ open_count self.old }
        ensures err { OnErr result (IsUnchanged self.old self.new) }
    {
        self.plans.tell(name, call, nth)?;
        Ok(())
    }

    /// Makes room for the counts of a name.
    fn admit(&mut self, name: &str) -> Result<(), AllocError>
        ensures reads { OnOk result (IsSome (value_of self.new.reads name.now)) }
        ensures writes { OnOk result (IsSome (value_of self.new.writes name.now)) }
        ensures same { IsUnchanged self.old self.new }
    {
        self.reads.admit(name)?;
        self.writes.admit(name)?;
        Ok(())
    }

    /// Puts a file, with room for the counts of its name.
    fn put_file(&mut self, name: &str, bytes: Bytes) -> Result<(), AllocError>
        ensures files { OnOk result (files_of self.new ≡ put name.now bytes (files_of self.old)) }
        ensures there { OnOk result (IsSome (file_of (files_of self.new) name.now)) }
        ensures others { (other : List ℕ) → other ≢ name.now → file_of (files_of self.new) other ≡ file_of (files_of self.old) other }
        ensures counts { KeepsCounts self.old self.new }
        ensures taken { (other : List ℕ) → taken_under self.new other ≡ taken_under self.old other }
        ensures planned { planned self.new ≡ planned self.old }
        ensures piece { piece_of self.new ≡ piece_of self.old }
        ensures open_files { open_count self.new ≡ open_count self.old }
        ensures err { OnErr result (IsUnchanged self.old self.new) }
    {
        self.admit(name)?;
        self.files.put(name, bytes)?;
        Ok(())
    }

    /// A source of that file, where it is there.
    fn source(&self, name: &str) -> Result<Option<MemSource>, AllocError>
        ensures { IfOk result (λ found. MatchOption found (file_of (files_of self.now) name.now ≡ None) (IsOpened self.now name.now)) }
    {
        match self.files.get(name) {
            Some(bytes) => {
                let calls = self.plans.begin(name, FailCall::Read)?;
                let bytes = Vec::from_slice(self.alloc, bytes.as_slice())?;
                Ok(Some(MemSource {
                    bytes,
                    at: 0,
                    most: self.most,
                    calls,
                }))
            }
            None => Ok(None),
        }
    }
}

impl Shelf for MemShelf {
    ghost use Rattle.std.specs.Prelude.{◌≡◌, ◌≢◌, ◌+◌, ◌-◌, ◌/◌, ◌↔◌, ◌⊎◌, [], ℕ, List, Some, None, IfOk, IsErr, IsSome, IsTrue, OnOk, OnErr, take};
    ghost use Rattle.scap_world.specs.Causes.{counted, ended, raised, unless_memory};
    ghost use Rattle.scap_world.specs.Files.{put, file_of};
    ghost use Rattle.scap_world.specs.MemShelf.{files_of, read_count, write_count, taken_under, planned, piece_of, open_count, IsOpened, IsCreated};
    ghost use Rattle.scap_world.specs.MemSink.{held_of, writes_of};
    ghost use Rattle.scap_world.specs.MemSource.{taken_of, reads_of};
    ghost use Rattle.scap_world.specs.Plans.{is_named, called, settled};

    type Source = MemSource;

    type Sink = MemSink;

    ghost files = { λ m. Some (files_of m) };

    ghost read_faults = { read_count };

    ghost write_faults = { write_count };

    ghost taken = { taken_under };

    ghost open_files = { open_count };

    #[tactic(auto, using(crate::proofs::ShelfLemmas::number_at_none))]
    fn open_read(&mut self, name: &str) -> Result<MemSource, WorldFault>
        ensures opened { IfOk result (IsOpened self.old name.now) }
        ensures files { files_of self.new ≡ files_of self.old }
        ensures forgets { (other : List ℕ) → taken_under self.new other ≡ 0 }
        ensures open_files { OnOk result (open_count self.new ≡ open_count self.old + 1) }
        ensures open_files_err { OnErr result (open_count self.new ≡ open_count self.old) }
        ensures piece { piece_of self.new ≡ piece_of self.old }

        // It fails where `fail` named the call or the name isn't there, and nowhere else.
        ensures named { IsTrue (is_named name.now FailCall.Open (planned self.old)) → IsErr result }
        ensures cause { result ≡ Err WorldFault.Failed →
            IsTrue (is_named name.now FailCall.Open (planned self.old)) ⊎ (file_of (files_of self.old) name.now ≡ None) }
        ensures planned { planned self.new
            ≡ unless_memory result (called name.now FailCall.Open (planned self.old)) (planned self.old) }

        // A failure alone is counted, under this name.
        ensures reads { read_count self.new name.now ≡ counted result (read_count self.old name.now) }
        ensures other_reads { (other : List ℕ) → other ≢ name.now → read_count self.new other ≡ read_count self.old other }
        ensures writes { (other : List ℕ) → write_count self.new other ≡ write_count self.old other }
    {
        self.number = 0;
        if self.open_files == u64::MAX {
            return Err(WorldFault::Memory);
        }
        // What may want memory comes first, so that the call then counts for nothing.
        self.admit(name)?;
        let found = self.source(name)?;
        let named = self.plans.is_named(name, FailCall::Open);
        self.plans.call(name, FailCall::Open);
        match found {
            Some(source) if !named => {
                self.open_files += 1;
                Ok(source)
            }
            _ => {
                self.reads.raise(name);
                Err(WorldFault::Failed)
            }
        }
    }

    fn end_read(&mut self, name: &str, source: MemSource)
        requires { IsSome (file_of (files_of self.old) name.now) }
        ensures files { files_of self.new ≡ files_of self.old }
        ensures taken { taken_under self.new name.now ≡ taken_of source }
        ensures forgets { (other : List ℕ) → other ≢ name.now → taken_under self.new other ≡ 0 }
        ensures open_files { open_count self.new ≡ open_count self.old - 1 }
        ensures piece { piece_of self.new ≡ piece_of self.old }
        ensures planned { planned self.new ≡ settled FailCall.Read (reads_of source) (planned self.old) }

        // Only a read that `fail` named failed, and is counted now.
        ensures reads { read_count self.new name.now ≡ ended (reads_of source).faults (read_count self.old name.now) }
        ensures other_reads { (other : List ℕ) → other ≢ name.now → read_count self.new other ≡ read_count self.old other }
        ensures writes { (other : List ℕ) → write_count self.new other ≡ write_count self.old other }
    {
        self.last = self.files.place(name);
        self.number = source.at;
        self.plans.settle(FailCall::Read, &source.calls);
        self.reads.raise_if(name, source.calls.faults() > 0);
        self.open_files = self.open_files.saturating_sub(1);
    }

    fn create(&mut self, name: &str) -> Result<MemSink, WorldFault>
        ensures created { IfOk result (IsCreated self.old name.now) }
        ensures files { OnOk result (files_of self.new ≡ put name.now [] (files_of self.old)) }
        ensures there { OnOk result (IsSome (file_of (files_of self.new) name.now)) }
        ensures others { (other : List ℕ) → other ≢ name.now → file_of (files_of self.new) other ≡ file_of (files_of self.old) other }
        ensures err { OnErr result (files_of self.new ≡ files_of self.old) }
        ensures taken { (other : List ℕ) → taken_under self.new other ≡ taken_under self.old other }
        ensures open_files { OnOk result (open_count self.new ≡ open_count self.old + 1) }
        ensures open_files_err { OnErr result (open_count self.new ≡ open_count self.old) }
        ensures piece { piece_of self.new ≡ piece_of self.old }

        // It fails where `fail` named the call, and nowhere else.
        ensures named { IsTrue (is_named name.now FailCall.Create (planned self.old)) → IsErr result }
        ensures cause { result ≡ Err WorldFault.Failed → IsTrue (is_named name.now FailCall.Create (planned self.old)) }
        ensures planned { planned self.new
            ≡ unless_memory result (called name.now FailCall.Create (planned self.old)) (planned self.old) }

        // A failure alone is counted, under this name.
        ensures writes { write_count self.new name.now ≡ counted result (write_count self.old name.now) }
        ensures other_writes { (other : List ℕ) → other ≢ name.now → write_count self.new other ≡ write_count self.old other }
        ensures reads { (other : List ℕ) → read_count self.new other ≡ read_count self.old other }
    {
        if self.open_files == u64::MAX {
            return Err(WorldFault::Memory);
        }
        self.admit(name)?;
        if self.plans.is_named(name, FailCall::Create) {
            self.plans.call(name, FailCall::Create);
            self.writes.raise(name);
            return Err(WorldFault::Failed);
        }
        let calls = self.plans.begin(name, FailCall::Write)?;
        self.put_file(name, Bytes::of(Vec::new(self.alloc)))?;
        self.plans.call(name, FailCall::Create);
        self.open_files += 1;
        Ok(MemSink {
            bytes: Vec::new(self.alloc),
            most: self.most,
            calls,
        })
    }

    fn finish(&mut self, name: &str, sink: MemSink) -> Result<(), Failed>
        requires { IsSome (file_of (files_of self.old) name.now) }
        ensures ok { OnOk result (files_of self.new ≡ put name.now (held_of sink) (files_of self.old)) }
        ensures err { OnErr result (files_of self.new ≡ put name.now (take (length (held_of sink) / 2) (held_of sink)) (files_of self.old)) }
        ensures others { (other : List ℕ) → other ≢ name.now → file_of (files_of self.new) other ≡ file_of (files_of self.old) other }
        ensures taken { (other : List ℕ) → taken_under self.new other ≡ taken_under self.old other }
        ensures open_files { open_count self.new ≡ open_count self.old - 1 }
        ensures piece { piece_of self.new ≡ piece_of self.old }

        // It fails exactly where `fail` named the call.
        ensures named { IsErr result ↔ IsTrue (is_named name.now FailCall.Finish (planned self.old)) }
        ensures planned { planned self.new
            ≡ called name.now FailCall.Finish (settled FailCall.Write (writes_of sink) (planned self.old)) }

        // Such a failure is counted, and so are those of the writes.
        ensures writes_ok { OnOk result (write_count self.new name.now ≡ ended (writes_of sink).faults (write_count self.old name.now)) }
        ensures writes_err { OnErr result (write_count self.new name.now ≡ raised (write_count self.old name.now)) }
        ensures other_writes { (other : List ℕ) → other ≢ name.now → write_count self.new other ≡ write_count self.old other }
        ensures reads { (other : List ℕ) → read_count self.new other ≡ read_count self.old other }
    {
        let named = self.plans.is_named(name, FailCall::Finish);
        self.plans.settle(FailCall::Write, &sink.calls);
        self.plans.call(name, FailCall::Finish);
        self.writes.raise_if(name, named || sink.calls.faults() > 0);
        self.files.set(name, sink.into_bytes(named));
        self.open_files = self.open_files.saturating_sub(1);
        if named { Err(Failed) } else { Ok(()) }
    }
}
