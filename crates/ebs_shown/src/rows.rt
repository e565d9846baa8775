// The row of a snapshot.
ghost use Rattle.std.specs.Prelude.{◌≡◌, IfOk};
ghost use Rattle.ebs_shown.specs.inner.Members.{members_of};
ghost use Rattle.ebs_shown.specs.Values as spec;

use crate::names::{row_status_text, tier_text};
use crate::object::Object;
use crate::shown::Shown;
use crate::values::put_tags;
use ebs_model::{BLOCK_BYTES, SnapView};
use serde_json::Value;
use std::alloc::{AllocError, Global};

#[tactic(auto, unfolding(crate::specs::Values::row_members))]
pub fn row_object(alloc: Global, row: &SnapView) -> Result<Object, AllocError>
    ensures { IfOk result (λ object. members_of object ≡ spec.row_members row.now) }
{
    let mut object = from_owner(alloc, row)?;
    object.put_some("LockUntil", &row.lock_until)?;
    object.put_some("LockState", &row.lock)?;
    object.put_some("Description", &row.description)?;
    object.put_number("BlockSize", BLOCK_BYTES as u64)?;
    object.put_some("BinEnd", &row.bin_end)?;
    Ok(object)
}

/// The members from OwnerId on.
#[tactic(auto, unfolding(crate::specs::Values::owner_members))]
fn from_owner(alloc: Global, row: &SnapView) -> Result<Object, AllocError>
    ensures { IfOk result (λ object. members_of object ≡ spec.owner_members row.now) }
{
    let mut object = later(alloc, row)?;
    object.put_some("RestoreUntil", &row.restore_until)?;
    object.put_some("Permission", &row.permission)?;
    object.put_some("ParentSnapshotId", &row.parent)?;
    object.put_shown("OwnerId", &row.owner)?;
    Ok(object)
}

/// The members from SnapshotId on.
#[tactic(auto, unfolding(crate::specs::Values::later_members))]
fn later(alloc: Global, row: &SnapView) -> Result<Object, AllocError>
    ensures { IfOk result (λ object. members_of object ≡ spec.later_members row.now) }
{
    let mut object = Object::new(alloc);
    object.put_number("VolumeSize", row.size)?;
    object.put_some("VolumeId", &row.volume)?;
    put_tags(&mut object, row.tags.as_slice())?;
    object.put_text("StorageTier", tier_text(row.tier))?;
    object.put_text("Status", row_status_text(row.status))?;
    object.put_shown("StartTime", &row.start)?;
    object.put_shown("SnapshotId", &row.key)?;
    Ok(object)
}

impl Shown for SnapView {
    ghost shown = { spec.row_shown };

    fn to_value(&self, alloc: Global) -> Result<Value, AllocError> {
        Ok(row_object(alloc, self)?.into_value())
    }
}
