//! What the definition of a capture means, each law as the contract of a function with an empty body.
ghost use Rattle.std.specs.Prelude.{◌≡◌, ℕ, List, true};
ghost use Rattle.pcapfile.specs.declared.frame.Frame.{Frame};
ghost use Rattle.pcapfile.specs.declared.frame_fault.FrameFault.{FrameFault};
ghost use Rattle.pcapfile.specs.declared.head.FileHead.{FileHead};
ghost use Rattle.pcapfile.specs.Capture.{Limits};
ghost use Rattle.pcapfile.specs.State.{State};
ghost use Rattle.pcapfile.specs.Laws.{RecordsStand, CaptureAccounts, NoOthersDo, TurnsServe, FaultStays, RecordStays};
ghost use Rattle.pcapfile.specs.Fed.{CaptureHasRecords};
ghost use Rattle.pcapfile.specs.Written.{Item, IsReadBack};

use crate::{FileHead, FrameFault, HeadFault, Tail};

/// Each record of a capture stands at the offset 24 plus the sizes of all earlier ones, a size being 16 bytes and the
/// captured length, and its moment and its bytes are those that the file has there.
pub fn records_stand_in_a_row()
    ensures { (limits : Limits) (file : List ℕ) → RecordsStand limits file }
{}

/// The records of a capture take no more than the file has, and its end is that of what they leave: nothing; fewer bytes
/// than the next record takes; a header with too great a length; or a byte more where no record or no byte more is read.
pub fn each_byte_is_accounted_for()
    ensures { (limits : Limits) (file : List ℕ) → CaptureAccounts limits file }
{}

/// Records that stand in a row in this way, with an end that accounts for the rest in this way, are those of the
/// capture: there are no others.
pub fn no_other_records_do()
    ensures { (limits : Limits) (file : List ℕ) → NoOthersDo limits file }
{}

/// More turns than there are bytes change no record, so the definition doesn't depend on the number of turns.
pub fn any_turns_serve()
    ensures { (head : FileHead) (limits : Limits) (at count : ℕ) (rest : List ℕ) → TurnsServe head limits at count rest }
{}

/// A fault stays the answer for good, whatever is fed later.
pub fn a_fault_stays()
    ensures { (s : State) (fault : FrameFault) → FaultStays s fault }
{}

/// A whole record is the same whatever is fed later, and what is fed comes behind it.
pub fn a_record_stays()
    ensures { (s : State) (frame : Frame) → RecordStays s frame }
{}

/// The records of a capture, and its end, are those of the bytes behind its file header.
pub fn a_capture_has_the_records_of_its_bytes()
    ensures { (limits : Limits) (file : List ℕ) → CaptureHasRecords limits file }
{}

/// What is written by `put_head` and then any number of times by `put_frame` is read as a whole capture of just these
/// records, where they are within the limits.
pub fn what_is_written_is_read()
    ensures { (limits : Limits) (items : List Item) → IsReadBack limits items }
{}

/// Heads compare as equal where they are the same.
pub fn heads_compare(a: FileHead, b: FileHead)
    ensures { ⟦<FileHead as PartialEq>⟧.eq a b ≡ true → a ≡ b }
{}

/// Faults of a file header compare as equal where they are the same.
pub fn head_faults_compare(a: HeadFault, b: HeadFault)
    ensures { ⟦<HeadFault as PartialEq>⟧.eq a b ≡ true → a ≡ b }
{}

/// Faults of a record compare as equal where they are the same.
pub fn frame_faults_compare(a: FrameFault, b: FrameFault)
    ensures { ⟦<FrameFault as PartialEq>⟧.eq a b ≡ true → a ≡ b }
{}

/// Tails compare as equal where they are the same.
pub fn tails_compare(a: Tail, b: Tail)
    ensures { ⟦<Tail as PartialEq>⟧.eq a b ≡ true → a ≡ b }
{}
