// A checkpoint that takes the place of the records.
ghost use Rattle.std.specs.Prelude.{◌≡◌, ◌≤◌, ◌<◌, ◌^◌, ◌⊎◌, length, true, false, None, IfOk, OnOk, OnErr, IsErr, IsErrOf};
ghost use Rattle.ebs_model.specs.Quotas.{Rose};
ghost use Rattle.ebs_model.specs.Machine.{advance};
ghost use Rattle.ebs_world.specs.View.{Leaves, Ran, IsCaused};
ghost use Rattle.ebs_journal.specs.Opening.{OffJournal};
ghost use Rattle.ebs_checkpoints.specs.Checkpoints.{spelled};
ghost use Rattle.ebs_checkpoint_rules.specs.Rules.{IsCheckpoint};
ghost use Rattle.ebs_point_rules.specs.Values.{HasShortLists};
ghost use Rattle.ebs_point.specs.Points.{IsPointAt};
ghost use Rattle.ebs_recovery.specs.Made.{advanced};
ghost use Rattle.ebs_recovery.specs.inner.Fits.{Fits, recorded, running};
ghost use Rattle.ebs_recovery.specs.inner.TurnLaws.{IsNextOf};
ghost use Rattle.ebs_disk_store.specs.inner.Pointed.{IsExhausted, IsLong, IsNext, IsPointed, IsUnpointed, Pointed};
ghost use Rattle.ebs_disk_store.specs.inner.Told.{IfSound, mended};
ghost use Rattle.ebs_disk_store.specs.inner.Turned.{MayLeave};

use crate::collecting::Unavailable;
use crate::recording::keep_unsure;
use crate::store::{Promise, Store};
use ebs_checkpoint_rules::write_checkpoint;
use ebs_checkpoints::Checkpoint;
use ebs_collect::blocks_stay;
use ebs_model::Bytes;
use ebs_point::{has_short_lists, point};
use ebs_records::Record;
use ebs_recovery::{fit_stays, held_is_kept, outcomes_fit, points_turn};
use ebs_world::Disk;
use std::alloc::{AllocError, Global};

/// A checkpoint has no more bytes than these.
const MOST_BYTES: usize = 1 << 40;

/// A journal of this epoch goes on in no other area.
const MOST_EPOCHS: u64 = 1 << 62;

/// Why a checkpoint wasn't written.
#[derive(Clone, Copy, Debug, PartialEq, Eq)]
pub enum StoreStop {
    /// E17: the disk failed, which its count of faults shows.
    Unavailable,
    /// It would have more than 2^40 bytes or a list of 2^32 members, or the epoch of the journal is 2^62.
    Exhausted,
    /// There wasn't memory enough.
    Memory,
}

// Why a checkpoint wasn't spelled.
#[derive(Clone, Copy, Debug, PartialEq, Eq)]
pub enum Unspelled {
    Long,
    Memory,
}

// The spelling of a checkpoint that has all rules, where an area can have it.
fn spell(alloc: Global, point: &Checkpoint) -> Result<Bytes, Unspelled>
    requires { HasShortLists point.now → IsCheckpoint point.now }
    ensures checkpoint { OnOk result (IsCheckpoint point.now) }
    ensures spelled { IfOk result (λ bytes. bytes ≡ spelled point.now) }
    ensures short { IfOk result (λ bytes. length bytes ≤ 2 ^ 40) }
    ensures long { IsErrOf result Unspelled.Long → HasShortLists point.now → 2 ^ 40 < length (spelled point.now) }
{
    if !has_short_lists(point) {
        return Err(Unspelled::Long);
    }
    let Ok(bytes) = write_checkpoint(alloc, point) else {
        return Err(Unspelled::Memory);
    };
    if bytes.as_slice().len() > MOST_BYTES {
        return Err(Unspelled::Long);
    }
    Ok(bytes)
}

impl<S: Promise> Store<S> {
    /// How many records stand behind the checkpoint.
    pub fn records(&self) -> u64
        ensures { result ≡ self.now.journal.since_checkpoint }
    {
        self.journal.since_checkpoint()
    }

    // The checkpoint of what answers calls.
    fn point(&mut self) -> Result<Checkpoint, AllocError>
        ensures same { self.new ≡ self.old }
        ensures point { IfOk result (λ point. IsPointAt self.old.recorded self.old.slots self.old.clock point) }
        ensures next { IfOk result (λ point. IsCheckpoint point → IsNextOf self.old point) }
    {
        blocks_stay();
        self.kept.ready_nodes(self.clock)?;
        let _top = self.slots.top();
        point(self.alloc(), &self.kept, &self.slots, self.clock)
    }

    // Its bytes.
    fn next_bytes(&mut self) -> Result<Bytes, Unspelled>
        ensures same { self.new ≡ self.old }
        ensures next { IfOk result (λ bytes. IsNext self.old bytes) }
        ensures long { IsErrOf result Unspelled.Long → IsLong self.old }
    {
        let Ok(point) = self.point() else {
            return Err(Unspelled::Memory);
        };
        spell(self.alloc(), &point)
    }

    // Goes on with these bytes in the journal's other area.
    fn turn_to<D: Disk>(&mut self, disk: &mut D, bytes: &[u8]) -> Result<(), Unavailable>
        requires clean { self.old.pending ≡ None }
        requires epoch { self.old.journal.epoch < 2 ^ 62 }
        requires next { IsNext self.old bytes.now }
        requires fits { Fits S.sound (D.view disk.old) self.old }
        ensures fits { Fits S.sound (D.view disk.new) self.new }
        ensures ok { OnOk result (IsPointed self.old self.new) }
        ensures err { OnErr result (IsUnpointed self.old self.new) }
        ensures aged { OnOk result (IfSound S.sound (D.view disk.old) (recorded (D.view disk.new) self.new ≡ advance (recorded (D.view disk.old) self.old) self.old.clock)) }
        ensures same { OnErr result (IfSound S.sound (D.view disk.old) (recorded (D.view disk.new) self.new ≡ recorded (D.view disk.old) self.old)) }
        ensures moments { IfSound S.sound (D.view disk.old) (Leaves (D.view disk.old) (D.view disk.new) (MayLeave (IsErr result) (D.view disk.old) (D.view disk.new) self.old self.new (advanced self.old.clock))) }
        ensures ran { Ran OffJournal (D.view disk.old) (D.view disk.new) }
        ensures cause { IsCaused (D.view disk.old) (D.view disk.new) result }
    {
        fit_stays::<D>();
        held_is_kept::<D>();
        points_turn::<D>();
        outcomes_fit::<D>();
        let Ok(()) = self.journal.rotate(disk, bytes) else {
            keep_unsure(
                self.journal.is_clean(),
                &mut self.pending,
                Record::Advance(self.clock),
            );
            return Err(Unavailable);
        };
        self.kept.tick(self.clock);
        Ok(())
    }

    /// Writes a checkpoint of what answers calls in the place of all records, after what isn't known was taken back. Then what answers
    /// calls is recorded, and a start reads the checkpoint and what comes behind it. Want of memory and a checkpoint that can't be written
    /// leave the machine with its clock, and E17 does too.
    pub fn checkpoint<D: Disk>(&mut self, disk: &mut D) -> Result<(), StoreStop>
        requires fits { Fits S.sound (D.view disk.old) self.old }
        ensures fits { Fits S.sound (D.view disk.new) self.new }
        ensures told { Pointed self.old self.new result }
        ensures aged { OnOk result (IfSound S.sound (D.view disk.old) (recorded (D.view disk.new) self.new ≡ running (D.view disk.old) self.old)) }
        ensures same { OnErr result (IfSound S.sound (D.view disk.old) (recorded (D.view disk.new) self.new ≡ recorded (D.view disk.old) self.old)) }
        ensures machine { IfSound S.sound (D.view disk.old) (running (D.view disk.new) self.new ≡ running (D.view disk.old) self.old) }
        ensures moments { IfSound S.sound (D.view disk.old) (Leaves (D.view disk.old) (D.view disk.new) (MayLeave (IsErrOf result StoreStop.Unavailable) (D.view disk.old) (D.view disk.new) self.old self.new (advanced self.old.clock))) }
        ensures ran { Ran OffJournal (D.view disk.old) (D.view disk.new) }
        ensures unavailable { IsErrOf result StoreStop.Unavailable → Rose (D.view disk.old).faults (D.view disk.new).faults }
    {
        let Ok(()) = self.mend(disk) else {
            return Err(StoreStop::Unavailable);
        };
        if self.journal.epoch() >= MOST_EPOCHS {
            return Err(StoreStop::Exhausted);
        }
        let bytes = match self.next_bytes() {
            Ok(bytes) => bytes,
            Err(Unspelled::Long) => return Err(StoreStop::Exhausted),
            Err(Unspelled::Memory) => return Err(StoreStop::Memory),
        };
        match self.turn_to(disk, bytes.as_slice()) {
            Ok(()) => Ok(()),
            Err(_) => Err(StoreStop::Unavailable),
        }
    }
}
