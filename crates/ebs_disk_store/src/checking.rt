// A check of all blocks.
ghost use Rattle.std.specs.Prelude.{◌≡◌, ◌≤◌, ◌<◌, ◌+◌, ◌^◌, ℕ, true, Some, IsSome, IfOk, OnOk, IsErrOf, ◌==◌, ◌&&◌};
ghost use Rattle.std.specs.List.{count_by};
ghost use Rattle.std.specs.FinMap as fin;
ghost use Rattle.ebs_world.specs.declared.area.Area.TheVariants.{Blocks};
ghost use Rattle.ebs_model.specs.Quotas.{Rose};
ghost use Rattle.ebs_world.specs.Image.{Everywhere};
ghost use Rattle.ebs_world.specs.View.{Leaves, Ran};
ghost use Rattle.ebs_slots.specs.inner.Slots.{IsApart};
ghost use Rattle.ebs_recovery.specs.inner.Fits.{Fits, StandsForOne, kept_state};
ghost use Rattle.ebs_disk_store.specs.inner.Told.{IfSound};
ghost use Rattle.ebs_disk_store.specs.Checked.{IsChecked, is_damaged};
ghost use Rattle.ebs_disk_store.specs.inner.Checked.{judged};

use crate::store::{Promise, Stop, Store};
use ebs_model::Bytes;
use ebs_recovery::{fit_stays, fit_tells};
use ebs_slots::{ReadRefusal, Slots};
use ebs_tables::Stamped;
use ebs_world::Disk;

/// How many blocks were read, and how many of them have other bytes than were put.
#[derive(Clone, Copy, Debug, PartialEq, Eq)]
pub struct Checked {
    pub blocks: u64,
    pub damaged: u64,
}

// What a read by a digest tells, where that digest is the one that is kept. Where none is, no bytes are damaged.
fn judge(read: Result<Bytes, ReadRefusal>, is_kept: bool) -> Result<bool, Stop>
    ensures { result ≡ judged read is_kept }
{
    match read {
        Ok(_) => Ok(false),
        Err(ReadRefusal::Damaged { .. }) => Ok(is_kept),
        Err(ReadRefusal::DiskFailed) => Err(Stop::Unavailable),
        Err(ReadRefusal::Memory) => Err(Stop::Memory),
    }
}

// Reads the slot of a stamp, and says whether its bytes have another SHA-256 than the digest that is kept, where one is.
fn check_block<D: Disk>(
    slots: &Slots,
    digests: &Stamped<[u8; 32]>,
    disk: &mut D,
    stamp: u64,
) -> Result<bool, Stop>
    requires there { IsSome (fin.get slots.now.keys stamp) }
    requires area { slots.now.area ≡ Blocks }
    ensures damaged { IfOk result (λ damaged. (slot : ℕ) → fin.get slots.now.keys stamp ≡ Some slot → (D.view disk.old).tells ≡ true
        → damaged ≡ is_damaged (D.view disk.old).reads digests.now (stamp, slot)) }
    ensures ran { Ran Everywhere (D.view disk.old) (D.view disk.new) }
    ensures cause { IsErrOf result Stop.Unavailable → Rose (D.view disk.old).faults (D.view disk.new).faults }
{
    let kept = digests.get(stamp).copied();
    let read = slots.read(disk, stamp, kept.unwrap_or([0; 32]));
    judge(read, kept.is_some())
}

// Counts a slot, where a stamp has it.
fn check_slot<D: Disk>(
    slots: &Slots,
    digests: &Stamped<[u8; 32]>,
    disk: &mut D,
    slot: u64,
    checked: &mut Checked,
) -> Result<(), Stop>
    requires area { slots.now.area ≡ Blocks }
    requires apart { IsApart slots.now }
    requires below { slot < 2 ^ 43 }
    requires few { checked.old.blocks ≤ slot }
    requires fewer { checked.old.damaged ≤ checked.old.blocks }
    ensures few { OnOk result (checked.new.blocks ≤ slot + 1) }
    ensures fewer { OnOk result (checked.new.damaged ≤ checked.new.blocks) }
    ensures blocks { OnOk result (checked.new.blocks ≡ checked.old.blocks + count_by (λ e. e.1 == slot) (fin.entries slots.now.keys)) }
    ensures damaged { OnOk result ((D.view disk.old).tells ≡ true
        → checked.new.damaged ≡ checked.old.damaged + count_by (λ e. (e.1 == slot) && is_damaged (D.view disk.old).reads digests.now e) (fin.entries slots.now.keys)) }
    ensures ran { Ran Everywhere (D.view disk.old) (D.view disk.new) }
    ensures cause { IsErrOf result Stop.Unavailable → Rose (D.view disk.old).faults (D.view disk.new).faults }
{
    let Some(stamp) = slots.key_of(slot) else {
        return Ok(());
    };
    let is_damaged = check_block(slots, digests, disk, stamp)?;
    checked.blocks += 1;
    if is_damaged {
        checked.damaged += 1;
    }
    Ok(())
}

// Counts all slots that stamps have.
fn check_slots<D: Disk>(
    slots: &Slots,
    digests: &Stamped<[u8; 32]>,
    disk: &mut D,
) -> Result<Checked, Stop>
    requires { slots.now.area ≡ Blocks }
    ensures blocks { IfOk result (λ checked. checked.blocks ≡ fin.len slots.now.keys) }
    ensures few { IfOk result (λ checked. checked.damaged ≤ checked.blocks) }
    ensures damaged { IfOk result (λ checked. (D.view disk.old).tells ≡ true
        → checked.damaged ≡ count_by (is_damaged (D.view disk.old).reads digests.now) (fin.entries slots.now.keys)) }
    ensures ran { Ran Everywhere (D.view disk.old) (D.view disk.new) }
    ensures cause { IsErrOf result Stop.Unavailable → Rose (D.view disk.old).faults (D.view disk.new).faults }
{
    let mut checked = Checked {
        blocks: 0,
        damaged: 0,
    };
    for slot in 0..slots.top() {
        check_slot(slots, digests, disk, slot, &mut checked)?;
    }
    Ok(checked)
}

impl<S: Promise> Store<S> {
    /// Reads each slot that a block has, once and in ascending slot, and counts them and those that are damaged: whose bytes
    /// have another SHA-256 than the digest that is kept of the block. Slots under lease aren't read. Of a block that no
    /// snapshot and no volume has any more no digest is kept, so its slot, which stays used until it is collected, is read and counted and is never
    /// damaged.
    pub fn check<D: Disk>(&mut self, disk: &mut D) -> Result<Checked, Stop>
        requires fits { Fits S.sound (D.view disk.old) self.old }
        ensures fits { Fits S.sound (D.view disk.new) self.new }
        ensures checked { IfOk result (IsChecked (D.view disk.old) (kept_state self.old)) }
        ensures still { self.new ≡ self.old }

        // On an honest disk with a sound store nothing is damaged.
        ensures sound { IfSound S.sound (D.view disk.old) (IfOk result (λ checked. checked.damaged ≡ 0)) }

        ensures moments { IfSound S.sound (D.view disk.old) (Leaves (D.view disk.old) (D.view disk.new) (StandsForOne (D.view disk.old) self.old)) }
        ensures ran { Ran Everywhere (D.view disk.old) (D.view disk.new) }
        ensures unavailable { IsErrOf result Stop.Unavailable → Rose (D.view disk.old).faults (D.view disk.new).faults }
    {
        fit_stays::<D>();
        fit_tells::<D>();
        let Ok(digests) = self.kept.digests() else {
            return Err(Stop::Memory);
        };
        check_slots(&self.slots, &digests, disk)
    }
}
