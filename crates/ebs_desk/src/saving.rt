// A checkpoint in one turn, where enough records stand.
ghost use Rattle.std.specs.Prelude.{◌≡◌, Err, IsErrOf};
ghost use Rattle.ebs_world.specs.View.{Leaves, Ran};
ghost use Rattle.ebs_journal.specs.Opening.{OffJournal};
ghost use Rattle.ebs_model.specs.Quotas.{Rose};
ghost use Rattle.ebs_recovery.specs.Made.{advanced};
ghost use Rattle.ebs_recovery.specs.inner.Fits.{Fits, running};
ghost use Rattle.ebs_disk_store.specs.inner.Told.{IfSound};
ghost use Rattle.ebs_disk_store.specs.inner.Turned.{MayLeave};
ghost use Rattle.ebs_desk.specs.Saves.{IsSaved, SaveTold};

use crate::desk::TurnRefusal;
use crate::item::Item;
use ebs_disk_store::{Promise, Store, StoreStop};
use ebs_recovery::images_stand_for_one;
use ebs_world::Disk;
use std::snapshot::Snapshot;

// Writes a checkpoint where at least so many records stand behind the last one, and tells how many stand there then.
pub(crate) fn save_store<S: Promise, D: Disk>(
    store: &mut Store<S>,
    disk: &mut D,
    least: u64,
) -> Result<u64, StoreStop>
    requires fits { Fits S.sound (D.view disk.old) store.old }
    ensures fits { Fits S.sound (D.view disk.new) store.new }
    ensures told { SaveTold (disk.new ≡ disk.old) S.sound (D.view disk.old) (D.view disk.new) store.old store.new least result }
    ensures machine { IfSound S.sound (D.view disk.old) (running (D.view disk.new) store.new ≡ running (D.view disk.old) store.old) }
    ensures moments { IfSound S.sound (D.view disk.old) (Leaves (D.view disk.old) (D.view disk.new) (MayLeave (IsErrOf result StoreStop.Unavailable) (D.view disk.old) (D.view disk.new) store.old store.new (advanced store.old.clock))) }
    ensures ran { Ran OffJournal (D.view disk.old) (D.view disk.new) }
    ensures unavailable { IsErrOf result StoreStop.Unavailable → Rose (D.view disk.old).faults (D.view disk.new).faults }
{
    images_stand_for_one::<D>();
    let records = store.records();
    if records < least {
        return Ok(records);
    }
    match store.checkpoint(disk) {
        Ok(()) => Ok(0),
        Err(stop) => Err(stop),
    }
}

// What a saving leaves that stopped, and what is told of it.
fn leave_unsaved<D>(
    before: Snapshot<D>,
    disk: &D,
    stop: StoreStop,
) -> (Item<D>, Result<(), TurnRefusal>)
    ensures { IsSaved before disk.now (Err stop) result }
{
    match stop {
        StoreStop::Unavailable => {
            let item = Item::Fault(before, Snapshot::of(disk));
            (item, Err(TurnRefusal::Unavailable))
        }
        StoreStop::Exhausted => (Item::Full, Err(TurnRefusal::Exhausted)),
        StoreStop::Memory => (Item::Blank, Err(TurnRefusal::Memory)),
    }
}

// What the turn of a saving leaves, and what is told of it.
pub(crate) fn leave_saving<D>(
    before: Snapshot<D>,
    disk: &D,
    done: Result<u64, StoreStop>,
) -> (Item<D>, Result<(), TurnRefusal>)
    ensures { IsSaved before disk.now done result }
{
    match done {
        Ok(left) => (Item::Saving(left), Ok(())),
        Err(stop) => leave_unsaved(before, disk, stop),
    }
}
