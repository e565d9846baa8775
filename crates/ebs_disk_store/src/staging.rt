// Blocks that are staged.
ghost use Rattle.std.specs.Prelude.{◌≡◌, None, Some, IfOk, OnErr, IsErrOf};
ghost use Rattle.std.specs.FinMap as fin;
ghost use Rattle.sha2.specs.Sha256.{sha256};
ghost use Rattle.ebs_world.specs.declared.area.Area.TheVariants.{Blocks};
ghost use Rattle.ebs_model.specs.Quotas.{Rose};
ghost use Rattle.ebs_world.specs.View.{Leaves};
ghost use Rattle.ebs_slots.specs.inner.Slots.{IsNext};
ghost use Rattle.ebs_slots.specs.inner.Standing.{Lies, RanOffOne};
ghost use Rattle.ebs_recovery.specs.inner.Fits.{Fits, StandsForOne, recorded};
ghost use Rattle.ebs_disk_store.specs.inner.Told.{IfSound, RanOffJournalAndOne, mended, with_lease, without_lease};
ghost use Rattle.ebs_disk_store.specs.inner.Turned.{IsSpared};

use crate::store::{Promise, Stop, Store};
use ebs_recovery::{moments_stand, slots_fit, writing_fits};
use ebs_slots::{Lease, Prepared, StageRefusal};
use ebs_world::Disk;

impl<S: Promise> Store<S> {
    // Writes a block durably to a slot that nothing else has. Nothing is pending, since the block of a record that isn't known to be there
    // may stand in that slot.
    fn stage<D: Disk>(&mut self, disk: &mut D, block: &Prepared) -> Result<Lease, Stop>
        requires settled { self.old.pending ≡ None }
        requires fits { Fits S.sound (D.view disk.old) self.old }
        ensures fits { Fits S.sound (D.view disk.new) self.new }
        ensures lease { IfOk result (λ lease. IsNext self.old.slots lease.slot × (lease.digest ≡ sha256 block.now)) }
        ensures ok { IfOk result (λ lease. self.new ≡ with_lease self.old lease.slot lease.digest) }
        ensures leased { IfOk result (λ lease. fin.get self.new.slots.leases lease.slot ≡ Some lease.digest) }
        ensures block { IfOk result (λ lease. Lies (D.view disk.new) Blocks lease.slot block.now) }
        ensures err { OnErr result (self.new ≡ self.old) }
        ensures same { IfSound S.sound (D.view disk.old) (recorded (D.view disk.new) self.new ≡ recorded (D.view disk.old) self.old) }
        ensures moments { IfSound S.sound (D.view disk.old) (Leaves (D.view disk.old) (D.view disk.new) (StandsForOne (D.view disk.old) self.old)) }
        ensures ran { RanOffOne self.old.slots (D.view disk.old) (D.view disk.new) }
        ensures unavailable { IsErrOf result Stop.Unavailable → Rose (D.view disk.old).faults (D.view disk.new).faults }
    {
        slots_fit::<D>();
        writing_fits::<D>();
        match self.slots.stage(disk, block) {
            Ok(lease) => Ok(lease),
            Err(StageRefusal::DiskFailed) => Err(Stop::Unavailable),
            Err(StageRefusal::Memory) => Err(Stop::Memory),
        }
    }

    /// Stages a block for a put or a write: it stands durably in a slot that nothing else has, and is under lease. The gate of a record that
    /// isn't known to be there is closed first, since that record may name the slot. What the store and each image stand for stays.
    pub fn stage_put<D: Disk>(&mut self, disk: &mut D, block: &Prepared) -> Result<Lease, Stop>
        requires fits { Fits S.sound (D.view disk.old) self.old }
        ensures fits { Fits S.sound (D.view disk.new) self.new }
        ensures lease { IfOk result (λ lease. IsNext self.old.slots lease.slot × (lease.digest ≡ sha256 block.now)) }
        ensures ok { IfOk result (λ lease. self.new ≡ with_lease (mended self.old) lease.slot lease.digest) }
        ensures leased { IfOk result (λ lease. fin.get self.new.slots.leases lease.slot ≡ Some lease.digest) }
        ensures block { IfOk result (λ lease. Lies (D.view disk.new) Blocks lease.slot block.now) }
        ensures err { OnErr result (IsSpared self.old self.new) }
        ensures same { IfSound S.sound (D.view disk.old) (recorded (D.view disk.new) self.new ≡ recorded (D.view disk.old) self.old) }
        ensures moments { IfSound S.sound (D.view disk.old) (Leaves (D.view disk.old) (D.view disk.new) (StandsForOne (D.view disk.old) self.old)) }
        ensures ran { RanOffJournalAndOne self.old.slots (D.view disk.old) (D.view disk.new) }
        ensures unavailable { IsErrOf result Stop.Unavailable → Rose (D.view disk.old).faults (D.view disk.new).faults }
    {
        moments_stand::<D>();
        let _top = self.slots.top();
        let Ok(()) = self.mend(disk) else {
            return Err(Stop::Unavailable);
        };
        self.stage(disk, block)
    }

    /// Gives up the lease of a block that was staged. What the store and each image stand for stays.
    pub fn abandon_put<D: Disk>(&mut self, disk: &D, lease: Lease)
        requires leased { fin.get self.old.slots.leases lease.slot ≡ Some lease.digest }
        requires fits { Fits S.sound (D.view disk.now) self.old }
        ensures fits { Fits S.sound (D.view disk.now) self.new }
        ensures spent { self.new ≡ without_lease self.old lease.slot }
    {
        let _ = disk;
        slots_fit::<D>();
        self.slots.abandon(lease);
    }
}
