// Taking a put whose record is durable.
ghost use Rattle.std.specs.Prelude.{◌≡◌, ◌≤◌, ◌<◌, ◌^◌, None, Some, IfSome, IsSome};
ghost use Rattle.std.specs.FinMap as fin;
ghost use Rattle.ebs_model.specs.Machine.{advance, rows_of};
ghost use Rattle.ebs_model.specs.Step.{changed};
ghost use Rattle.ebs_slots.specs.inner.Slots.{adopted};
ghost use Rattle.ebs_collect.specs.Slices.{IsCounted};
ghost use Rattle.ebs_holds.specs.Counted.{without_stamp};
ghost use Rattle.ebs_holds.specs.Holds.{nodes_in};
ghost use Rattle.ebs_catalog.specs.Held.{IsDecided};
ghost use Rattle.ebs_kept.specs.inner.Requests.{Brings};
ghost use Rattle.ebs_kept.specs.inner.Room.{IsReserved};
ghost use Rattle.ebs_disk_store.specs.inner.Applied.{IsPut};
ghost use Rattle.ebs_disk_store.specs.inner.Puts.{GivesUp};
ghost use Rattle.ebs_disk_store.specs.inner.Shown.{AreSlotted};

use ebs_kept::{Kept, Reserved};
use ebs_model::{Change, Moment};
use ebs_slots::{Lease, Slots};

/// Gives up an entry of the block that was replaced, where there was one.
pub(crate) fn release_old(slots: &mut Slots, replaced: Option<u64>)
    requires { IfSome replaced (λ stamp. IsSome (fin.get slots.old.keys stamp)) }
    ensures { slots.new ≡ without_stamp slots.old replaced }
{
    if let Some(stamp) = replaced {
        slots.release(stamp);
    }
}

/// Makes a put that was decided at the moment, whose record is durable. The next stamp has the slot of the lease, and the block that
/// it replaces in the same node is one entry less of its stamp.
pub(crate) fn take_put(
    kept: &mut Kept,
    slots: &mut Slots,
    now: Moment,
    change: Change,
    reserved: Reserved,
    lease: Lease,
)
    requires later { kept.old.machine.clock.second ≤ now.second }
    requires early { now.second ≤ 2 ^ 36 }
    requires few { kept.old.machine.changes < 2 ^ 40 }
    requires at { change.at ≡ now }
    requires decided { IsDecided (rows_of (advance kept.old.machine now)) change }
    requires reserved { IsReserved kept.old change reserved }
    requires put { IsPut change.request }
    requires brings { Brings change.request lease.digest lease.digest }
    requires leased { fin.get slots.old.leases lease.slot ≡ Some lease.digest }
    requires new { fin.get slots.old.keys kept.old.machine.stamps ≡ None }
    requires counted { IsCounted slots.old (nodes_in kept.old.holding) }
    ensures machine { kept.new.machine ≡ changed (advance kept.old.machine now) lease.digest change }
    ensures counted { IsCounted slots.new (nodes_in kept.new.holding) }
    ensures slotted { AreSlotted slots.new.keys kept.new.machine }
    ensures slots { GivesUp kept.new.machine (adopted slots.old lease.slot kept.old.machine.stamps) slots.new }
{
    let (stamp, digest) = (kept.stamps(), lease.digest());
    let replaced = kept.replaced(&change);
    kept.commit(now, change, digest, reserved);
    slots.adopt(lease, stamp);
    release_old(slots, replaced);
    kept.blocks_have_slots();
}
