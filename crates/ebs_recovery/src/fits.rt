// The laws of a store and its disk.
ghost use Rattle.ebs_recovery.specs.inner.FitLaws.{StagingKeepsHeld, JournalKeepsSlots, JournalIsTold, KeptBlocksStand, UnsureStays, ImagesStandForOne, FitStays, ImagesStay, MachineStays, RecordedRests, NewFits, StagedFits, ReleasedFits, FreedFits, FreedIsSame, WritingFits, ImagesWhileWritten, MachineWhileWritten, AbandonedFits, LaterFits, KeptFormFinds, ImagesWhileAppended, ImagesWhileMended, SameMachines, AcknowledgedFits, UnsureFits, ClosedFits};

use ebs_world::Disk;

/// Whatever a crash leaves of a disk that fits stands for the recorded machine, or for that after the pending change.
pub fn images_stand_for_one<D: Disk>()
    ensures { (disk : D) → ImagesStandForOne (D.view disk) }
{}

/// Where a store fits, its journal has the records of its history, and maybe one whose gate isn't known; and each block that
/// it keeps the digest of is read in its slot, so none is ever found damaged.
pub fn fit_tells<D: Disk>()
    ensures journal { (disk : D) → JournalIsTold (D.view disk) }
    ensures blocks { (disk : D) → KeptBlocksStand (D.view disk) }
{}

/// Calls that stage a block keep all that a store holds on the disk, and calls on the journal keep the slots.
pub fn held_is_kept<D: Disk>()
    ensures staging { (old new : D) → StagingKeepsHeld (D.view old) (D.view new) }
    ensures journal { (old new : D) → JournalKeepsSlots (D.view old) (D.view new) }
{}

/// A store and its disk still fit after any calls that keep the journal and the slots that were handed out, each image of
/// whose moments stands for one of the same two machines; and the recorded machine stays.
pub fn fit_stays<D: Disk>()
    ensures fit { (old new : D) → FitStays (D.view old) (D.view new) }
    ensures moments { (old new : D) → ImagesStay (D.view old) (D.view new) }
    ensures machine { (old new : D) → MachineStays (D.view old) (D.view new) }
{}

/// Time has passed for the recorded machine at its clock, so where the clock of what answers calls is no later both are one.
pub fn recorded_rests<D: Disk>()
    ensures { (disk : D) → RecordedRests (D.view disk) }
{}

/// Where nothing is pending, a write in a slot that no key and no lease has leaves what a store and its disk stand for, at each of
/// its moments too, whatever the slot had before.
pub fn writing_fits<D: Disk>()
    ensures fit { (old new : D) → WritingFits (D.view old) (D.view new) }
    ensures moments { (old new : D) → ImagesWhileWritten (D.view old) (D.view new) }
    ensures machine { (old new : D) → MachineWhileWritten (D.view old) (D.view new) }
{}

/// A new store fits, and so does one after a block was staged, keys or a lease were given up, or its clock has moved. The machine stays
/// where keys are given up that no block of it has.
pub fn slots_fit<D: Disk>()
    ensures made { (disk : D) → NewFits (D.view disk) }
    ensures staged { (old new : D) → StagedFits (D.view old) (D.view new) }
    ensures released { (disk : D) → ReleasedFits (D.view disk) }
    ensures freed { (disk : D) → FreedFits (D.view disk) }
    ensures same { (disk : D) → FreedIsSame (D.view disk) }
    ensures abandoned { (disk : D) → AbandonedFits (D.view disk) }
    ensures later { (disk : D) → LaterFits (D.view disk) }
{}

/// What the kept form accepts, the machine with its bytes accepts.
pub fn kept_form_finds<D: Disk>()
    ensures { (disk : D) → KeptFormFinds (D.view disk) }
{}

/// While the record of a change is appended, or an old one's gate is closed, each image stands for the machine before it,
/// for that with the old pending change, or for the machine after this one.
pub fn moments_stand<D: Disk>()
    ensures appended { (old new : D) → ImagesWhileAppended (D.view old) (D.view new) }
    ensures mended { (old new : D) → ImagesWhileMended (D.view old) (D.view new) }
    ensures same { (old new : D) → SameMachines (D.view old) (D.view new) }
{}

/// After an append the store fits that has taken the change, that keeps it as pending, or that is as before, by what the
/// journal says of its gate; and so it is as before once the gate of an old record was closed.
pub fn outcomes_fit<D: Disk>()
    ensures acknowledged { (old new : D) → AcknowledgedFits (D.view old) (D.view new) }
    ensures unsure { (old new : D) → UnsureFits (D.view old) (D.view new) }
    ensures still { (old new : D) → UnsureStays (D.view old) (D.view new) }
    ensures closed { (old new : D) → ClosedFits (D.view old) (D.view new) }
{}
