ghost use Rattle.std.specs.Prelude.{◌≡◌, ◌≢◌, [], ◌+◌, ◌-◌, ◌<◌, ◌≤◌, ℕ, List, Option, IfOk, IfSome, OnOk, OnErr, IsErr};
ghost use Rattle.scap_world.specs.Causes.{HasCause, Rose};
ghost use Rattle.scap_world.specs.Files.{File, told_file, told_put, told_kept, emptied, KeepsFront, IsThere};

use crate::{Failed, Sink, Source, WorldFault};

/// Files by name.
pub trait Shelf: Drop {
    type Source: Source;

    type Sink: Sink + Send;

    /// The files, where the shelf tells them.
    ghost files: { Self → Option (List File) };

    /// How often opening or reading that name has failed.
    ghost read_faults: { Self → List ℕ → ℕ };

    /// How often creating, writing or finishing that name has failed.
    ghost write_faults: { Self → List ℕ → ℕ };

    /// How many bytes were taken from the source that the last `end_read` ended under that name, where nothing was
    /// opened since.
    ghost taken: { Self → List ℕ → ℕ };

    /// How many sources and sinks are out.
    ghost open_files: { Self → ℕ };

    /// Opens a file for reading. An unknown name is a fault.
    fn open_read(&mut self, name: &str) -> Result<Self::Source, WorldFault>
        ensures left { IfOk result (λ source. Self.Source.left source ≡ told_file (files self.old) name.now) }
        ensures none_taken { IfOk result (λ source. Self.Source.taken source ≡ 0) }
        ensures no_faults { IfOk result (λ source. Self.Source.faults source ≡ 0) }
        ensures there { OnOk result (IsThere (files self.new) name.now) }
        ensures files { files self.new ≡ files self.old }
        ensures forgets { (other : List ℕ) → taken self.new other ≡ 0 }
        ensures open_files { OnOk result (open_files self.new ≡ open_files self.old + 1) }
        ensures open_files_err { OnErr result (open_files self.new ≡ open_files self.old) }
        ensures cause { HasCause (read_faults self.old name.now) (read_faults self.new name.now) result }
        ensures read_later { (other : List ℕ) → read_faults self.old other ≤ read_faults self.new other }
        ensures write_later { (other : List ℕ) → write_faults self.old other ≤ write_faults self.new other };

    /// Takes a source back.
    fn end_read(&mut self, name: &str, source: Self::Source)
        requires { IsThere (files self.old) name.now }
        ensures files { files self.new ≡ files self.old }
        ensures taken { IfSome (files self.old) (λ _. taken self.new name.now ≡ Self.Source.taken source) }
        ensures forgets { (other : List ℕ) → other ≢ name.now → taken self.new other ≡ 0 }
        ensures open_files { open_files self.new ≡ open_files self.old - 1 }
        ensures cause { 0 < Self.Source.faults source → Rose (read_faults self.old name.now) (read_faults self.new name.now) }
        ensures read_later { (other : List ℕ) → read_faults self.old other ≤ read_faults self.new other }
        ensures write_later { (other : List ℕ) → write_faults self.old other ≤ write_faults self.new other };

    /// Makes that file, empty.
    fn create(&mut self, name: &str) -> Result<Self::Sink, WorldFault>
        ensures empty { IfOk result (λ sink. Self.Sink.held sink ≡ emptied (files self.old)) }
        ensures no_faults { IfOk result (λ sink. Self.Sink.faults sink ≡ 0) }
        ensures there { OnOk result (IsThere (files self.new) name.now) }
        ensures files { OnOk result (files self.new ≡ told_put name.now [] (files self.old)) }
        ensures err { OnErr result (files self.new ≡ files self.old) }
        ensures others { (other : List ℕ) → other ≢ name.now → told_file (files self.new) other ≡ told_file (files self.old) other }
        ensures taken { (other : List ℕ) → taken self.new other ≡ taken self.old other }
        ensures open_files { OnOk result (open_files self.new ≡ open_files self.old + 1) }
        ensures open_files_err { OnErr result (open_files self.new ≡ open_files self.old) }
        ensures cause { HasCause (write_faults self.old name.now) (write_faults self.new name.now) result }
        ensures read_later { (other : List ℕ) → read_faults self.old other ≤ read_faults self.new other }
        ensures write_later { (other : List ℕ) → write_faults self.old other ≤ write_faults self.new other };

    /// Takes a sink back. What it holds becomes the file; at `Failed` a front of it.
    fn finish(&mut self, name: &str, sink: Self::Sink) -> Result<(), Failed>
        requires { IsThere (files self.old) name.now }
        ensures ok { OnOk result (files self.new ≡ told_kept name.now (Self.Sink.held sink) (files self.old)) }
        ensures others { (other : List ℕ) → other ≢ name.now → told_file (files self.new) other ≡ told_file (files self.old) other }
        ensures err { OnErr result (KeepsFront name.now (Self.Sink.held sink) (files self.old) (files self.new)) }
        ensures taken { (other : List ℕ) → taken self.new other ≡ taken self.old other }
        ensures open_files { open_files self.new ≡ open_files self.old - 1 }
        ensures cause { IsErr result → Rose (write_faults self.old name.now) (write_faults self.new name.now) }
        ensures cause_sink { 0 < Self.Sink.faults sink → Rose (write_faults self.old name.now) (write_faults self.new name.now) }
        ensures read_later { (other : List ℕ) → read_faults self.old other ≤ read_faults self.new other }
        ensures write_later { (other : List ℕ) → write_faults self.old other ≤ write_faults self.new other };
}
