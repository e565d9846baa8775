// The objects that answers show, member by member from the last.
ghost use Rattle.std.specs.Prelude.{◌≡◌, map, IfOk};
ghost use Rattle.serde_json.specs.Data.{array};
ghost use Rattle.serde_json.specs.View.{items_of};
ghost use Rattle.ebs_shown.specs.inner.Members.{members_of};
ghost use Rattle.ebs_print.specs.Printed.{started_members, completed_members, page_members, list_members, lock_members, rule_list_members, tier_members, volume_members, policy_members, run_members};

use ebs_model::{
    Account, AnyKey, BLOCK_BYTES, LockName, Moment, PolicyKey, RuleView, SnapKey, SnapView, Tag,
    Tags, Text, TierName, VolKey,
};
use ebs_shown::{Object, Shown, put_tags, tier_text};
use std::alloc::{AllocError, Global};

#[tactic(auto, unfolding(crate::specs::Printed::started_members))]
pub fn started(
    alloc: Global,
    description: &Option<Text>,
    owner: &Account,
    parent: &Option<SnapKey>,
    key: &SnapKey,
    start: &Moment,
    tags: &Tags,
    size: u64,
) -> Result<Object, AllocError>
    ensures { IfOk result (λ object. members_of object
        ≡ started_members description.now owner.now parent.now key.now start.now tags.now size) }
{
    let mut object = Object::new(alloc);
    object.put_number("VolumeSize", size)?;
    put_tags(&mut object, tags.as_slice())?;
    object.put_text("Status", "pending")?;
    object.put_shown("StartTime", start)?;
    object.put_shown("SnapshotId", key)?;
    object.put_some("ParentSnapshotId", parent)?;
    object.put_shown("OwnerId", owner)?;
    object.put_some("Description", description)?;
    object.put_number("BlockSize", BLOCK_BYTES as u64)?;
    Ok(object)
}

#[tactic(auto, unfolding(crate::specs::Printed::completed_members))]
pub fn completed(alloc: Global) -> Result<Object, AllocError>
    ensures { IfOk result (λ object. members_of object ≡ completed_members) }
{
    let mut object = Object::new(alloc);
    object.put_text("Status", "completed")?;
    Ok(object)
}

/// A page of blocks, whose entries stand under a name of their own.
#[tactic(auto, unfolding(crate::specs::Printed::page_members))]
pub fn page<T: Shown>(
    alloc: Global,
    name: &str,
    entries: &[T],
    expiry: &Moment,
    next: &Option<Text>,
    size: u64,
) -> Result<Object, AllocError>
    ensures { IfOk result (λ object. members_of object
        ≡ page_members name.now (array (items_of (map T.shown entries.now))) expiry.now next.now size) }
{
    let mut object = Object::new(alloc);
    object.put_number("VolumeSize", size)?;
    object.put_some("NextToken", next)?;
    object.put_shown("ExpiryTime", expiry)?;
    object.put_all(name, entries)?;
    object.put_number("BlockSize", BLOCK_BYTES as u64)?;
    Ok(object)
}

/// A page of rows.
#[tactic(auto, unfolding(crate::specs::Printed::list_members))]
pub fn row_list(alloc: Global, next: &Option<u32>, rows: &[SnapView]) -> Result<Object, AllocError>
    ensures { IfOk result (λ object. members_of object ≡ list_members next.now rows.now) }
{
    let mut object = Object::new(alloc);
    object.put_all("Snapshots", rows)?;
    object.put_some("NextNumber", next)?;
    Ok(object)
}

#[tactic(auto, unfolding(crate::specs::Printed::lock_members))]
pub fn lock(alloc: Global, name: &LockName, until: &Option<Moment>) -> Result<Object, AllocError>
    ensures { IfOk result (λ object. members_of object ≡ lock_members name.now until.now) }
{
    let mut object = Object::new(alloc);
    object.put_some("LockUntil", until)?;
    object.put_shown("LockState", name)?;
    Ok(object)
}

#[tactic(auto, unfolding(crate::specs::Printed::tier_members))]
pub fn tier(alloc: Global, until: &Option<Moment>, name: TierName) -> Result<Object, AllocError>
    ensures { IfOk result (λ object. members_of object ≡ tier_members until.now name) }
{
    let mut object = Object::new(alloc);
    object.put_text("StorageTier", tier_text(name))?;
    object.put_some("RestoreUntil", until)?;
    Ok(object)
}

#[tactic(auto, unfolding(crate::specs::Printed::volume_members))]
pub fn volume(
    alloc: Global,
    size: u64,
    origin: &Option<SnapKey>,
    tags: &[Tag],
    key: &VolKey,
) -> Result<Object, AllocError>
    ensures { IfOk result (λ object. members_of object
        ≡ volume_members size origin.now tags.now key.now) }
{
    let mut object = Object::new(alloc);
    object.put_shown("VolumeId", key)?;
    put_tags(&mut object, tags)?;
    object.put_some("SnapshotId", origin)?;
    object.put_number("Size", size)?;
    Ok(object)
}

#[tactic(auto, unfolding(crate::specs::Printed::rule_list_members))]
pub fn rule_list(alloc: Global, rows: &[RuleView]) -> Result<Object, AllocError>
    ensures { IfOk result (λ object. members_of object ≡ rule_list_members rows.now) }
{
    let mut object = Object::new(alloc);
    object.put_all("Rules", rows)?;
    Ok(object)
}

#[tactic(auto, unfolding(crate::specs::Printed::policy_members))]
pub fn policy(alloc: Global, key: &PolicyKey, last: &Moment) -> Result<Object, AllocError>
    ensures { IfOk result (λ object. members_of object ≡ policy_members key.now last.now) }
{
    let mut object = Object::new(alloc);
    object.put_shown("PolicyId", key)?;
    object.put_shown("LastRun", last)?;
    Ok(object)
}

/// What a run did: the snapshots that it deleted, and those that it made.
#[tactic(auto, unfolding(crate::specs::Printed::run_members))]
pub fn run(alloc: Global, deleted: &[AnyKey], made: &[AnyKey]) -> Result<Object, AllocError>
    ensures { IfOk result (λ object. members_of object ≡ run_members deleted.now made.now) }
{
    let mut object = Object::new(alloc);
    object.put_all("Made", made)?;
    object.put_all("Deleted", deleted)?;
    Ok(object)
}
