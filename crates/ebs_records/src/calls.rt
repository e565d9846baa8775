// The changing calls, with the fields that their records have.
ghost use Rattle.ebs_records.specs.inner.Reading.{Reads};
ghost use Rattle.std.specs.Prelude.{◌≡◌, ◌++◌, ◌∷◌, OnOk};
ghost use Rattle.ebs_records.specs.inner.Calls.{IsAskedOf, fields_in};
ghost use Rattle.ebs_records.specs.Calls.{IsAsked, AreFields, called, called_in, number_of};
ghost use Rattle.ebs_records.specs.Fields.{IsKey, key as key_bytes};
ghost use Rattle.ebs_records.specs.declared.calls.ChangingCall.TheVariants as call;

use crate::codec::{Codec, Unread};
use crate::input::Input;
use crate::policy_calls::{
    read_create_policy, read_delete_policy, read_run_policy, write_create_policy, write_policy_key,
};
use crate::rule_calls::{
    read_create_rule, read_delete_rule, read_lock_rule, read_unlock_rule, read_update_rule,
    write_create_rule, write_lock_rule, write_rule_key, write_update_rule,
};
use ebs_model::{Accounts, Bytes, LockMode, Request, SnapKey, Tags, Term, Text, VolKey};
use std::alloc::{AllocError, Global};

/// A call that changes the machine where it is accepted.
#[derive(Clone, Copy, Debug, PartialEq, Eq)]
pub enum ChangingCall {
    StartSnapshot,
    PutSnapshotBlock,
    CompleteSnapshot,
    DeleteSnapshot,
    ModifyPermission,
    LockSnapshot,
    UnlockSnapshot,
    ArchiveSnapshot,
    RestoreTier,
    CreateVolume,
    CreateSnapshot,
    WriteVolumeBlock,
    DeleteVolume,
    CreateRule,
    UpdateRule,
    DeleteRule,
    LockRule,
    UnlockRule,
    RestoreFromBin,
    CreatePolicy,
    DeletePolicy,
    RunPolicy,
}

impl ChangingCall {
    ghost use Rattle.std.specs.Prelude.{◌≡◌};
    ghost use Rattle.ebs_records.specs.Calls.{number_of};

    /// The number that a record has of the call.
    fn number(&self) -> u8
        ensures { result ≡ number_of self.now }
    {
        match self {
            ChangingCall::StartSnapshot => 1,
            ChangingCall::PutSnapshotBlock => 2,
            ChangingCall::CompleteSnapshot => 3,
            ChangingCall::DeleteSnapshot => 9,
            ChangingCall::ModifyPermission => 10,
            ChangingCall::LockSnapshot => 11,
            ChangingCall::UnlockSnapshot => 12,
            ChangingCall::ArchiveSnapshot => 13,
            ChangingCall::RestoreTier => 14,
            ChangingCall::CreateVolume => 15,
            ChangingCall::CreateSnapshot => 16,
            ChangingCall::WriteVolumeBlock => 17,
            ChangingCall::DeleteVolume => 20,
            ChangingCall::CreateRule => 21,
            ChangingCall::UpdateRule => 23,
            ChangingCall::DeleteRule => 24,
            ChangingCall::LockRule => 26,
            ChangingCall::UnlockRule => 27,
            ChangingCall::RestoreFromBin => 29,
            ChangingCall::CreatePolicy => 30,
            ChangingCall::DeletePolicy => 32,
            ChangingCall::RunPolicy => 33,
        }
    }
}

impl Codec for ChangingCall {
    ghost use Rattle.ebs_records.specs.inner.Calls.{IsCall, call_byte, apart_call_byte};

    ghost fits = { IsCall };

    ghost spelled = { call_byte };

    ghost apart = { apart_call_byte };

    fn write(&self, out: &mut Vec<u8>) -> Result<(), AllocError> {
        Ok(out.push(self.number())?)
    }

    fn read(_alloc: Global, input: &mut Input) -> Result<ChangingCall, Unread> {
        match input.take(1) {
            Some([1]) => Ok(ChangingCall::StartSnapshot),
            Some([2]) => Ok(ChangingCall::PutSnapshotBlock),
            Some([3]) => Ok(ChangingCall::CompleteSnapshot),
            Some([9]) => Ok(ChangingCall::DeleteSnapshot),
            Some([10]) => Ok(ChangingCall::ModifyPermission),
            Some([11]) => Ok(ChangingCall::LockSnapshot),
            Some([12]) => Ok(ChangingCall::UnlockSnapshot),
            Some([13]) => Ok(ChangingCall::ArchiveSnapshot),
            Some([14]) => Ok(ChangingCall::RestoreTier),
            Some([15]) => Ok(ChangingCall::CreateVolume),
            Some([16]) => Ok(ChangingCall::CreateSnapshot),
            Some([17]) => Ok(ChangingCall::WriteVolumeBlock),
            Some([20]) => Ok(ChangingCall::DeleteVolume),
            Some([21]) => Ok(ChangingCall::CreateRule),
            Some([23]) => Ok(ChangingCall::UpdateRule),
            Some([24]) => Ok(ChangingCall::DeleteRule),
            Some([26]) => Ok(ChangingCall::LockRule),
            Some([27]) => Ok(ChangingCall::UnlockRule),
            Some([29]) => Ok(ChangingCall::RestoreFromBin),
            Some([30]) => Ok(ChangingCall::CreatePolicy),
            Some([32]) => Ok(ChangingCall::DeletePolicy),
            Some([33]) => Ok(ChangingCall::RunPolicy),
            _ => Err(Unread::Malformed),
        }
    }
}

/// A changing request, and of a block that is written the slot of its bytes.
pub(crate) fn read_asked(alloc: Global, input: &mut Input) -> Result<(Request, Option<u64>), Unread>
    ensures { Reads IsAsked called_in input.old input.new result }
{
    match ChangingCall::read(alloc, input)? {
        ChangingCall::StartSnapshot => read_start(alloc, input),
        ChangingCall::PutSnapshotBlock => read_put(alloc, input),
        ChangingCall::CompleteSnapshot => read_complete(alloc, input),
        ChangingCall::DeleteSnapshot => read_delete(alloc, input),
        ChangingCall::ModifyPermission => read_permission(alloc, input),
        ChangingCall::LockSnapshot => read_lock(alloc, input),
        ChangingCall::UnlockSnapshot => read_unlock(alloc, input),
        ChangingCall::ArchiveSnapshot => read_archive(alloc, input),
        ChangingCall::RestoreTier => read_restore(alloc, input),
        ChangingCall::CreateVolume => read_create(alloc, input),
        ChangingCall::CreateSnapshot => read_snapshot(alloc, input),
        ChangingCall::WriteVolumeBlock => read_write(alloc, input),
        ChangingCall::DeleteVolume => read_drop(alloc, input),
        ChangingCall::CreateRule => read_create_rule(alloc, input),
        ChangingCall::UpdateRule => read_update_rule(alloc, input),
        ChangingCall::DeleteRule => read_delete_rule(alloc, input),
        ChangingCall::LockRule => read_lock_rule(alloc, input),
        ChangingCall::UnlockRule => read_unlock_rule(alloc, input),
        ChangingCall::RestoreFromBin => read_recover(alloc, input),
        ChangingCall::CreatePolicy => read_create_policy(alloc, input),
        ChangingCall::DeletePolicy => read_delete_policy(alloc, input),
        ChangingCall::RunPolicy => read_run_policy(alloc, input),
    }
}

type StartFields = (
    u64,
    (Option<SnapKey>, (Option<Text>, (Tags, (Option<Text>, u32)))),
);

fn read_start(alloc: Global, input: &mut Input) -> Result<(Request, Option<u64>), Unread>
    ensures { Reads (IsAskedOf call.StartSnapshot) fields_in input.old input.new result }
{
    let (size, (parent, (description, (tags, (client_token, timeout))))) = StartFields::read(
        alloc, input,
    )?;
    let request = Request::StartSnapshot {
        size,
        parent,
        description,
        tags,
        client_token,
        timeout,
    };
    Ok((request, None))
}

fn read_put(alloc: Global, input: &mut Input) -> Result<(Request, Option<u64>), Unread>
    ensures { Reads (IsAskedOf call.PutSnapshotBlock) fields_in input.old input.new result }
{
    let (key, (index, (digest, slot))) = <(SnapKey, (u64, ([u8; 32], u64)))>::read(alloc, input)?;
    let request = Request::PutSnapshotBlock {
        key,
        index,
        digest,
        bytes: Bytes::new(alloc),
    };
    Ok((request, Some(slot)))
}

fn read_complete(alloc: Global, input: &mut Input) -> Result<(Request, Option<u64>), Unread>
    ensures { Reads (IsAskedOf call.CompleteSnapshot) fields_in input.old input.new result }
{
    let (key, (count, checksum)) = <(SnapKey, (u64, Option<[u8; 32]>))>::read(alloc, input)?;
    let request = Request::CompleteSnapshot {
        key,
        count,
        checksum,
    };
    Ok((request, None))
}

type PermissionFields = (SnapKey, (Accounts, (bool, (Accounts, bool))));

fn read_permission(alloc: Global, input: &mut Input) -> Result<(Request, Option<u64>), Unread>
    ensures { Reads (IsAskedOf call.ModifyPermission) fields_in input.old input.new result }
{
    let (key, (add, (add_all, (remove, remove_all)))) = PermissionFields::read(alloc, input)?;
    let request = Request::ModifyPermission {
        key,
        add,
        add_all,
        remove,
        remove_all,
    };
    Ok((request, None))
}

fn read_delete(alloc: Global, input: &mut Input) -> Result<(Request, Option<u64>), Unread>
    ensures { Reads (IsAskedOf call.DeleteSnapshot) fields_in input.old input.new result }
{
    let key = SnapKey::read(alloc, input)?;
    Ok((Request::DeleteSnapshot { key }, None))
}

fn read_lock(alloc: Global, input: &mut Input) -> Result<(Request, Option<u64>), Unread>
    ensures { Reads (IsAskedOf call.LockSnapshot) fields_in input.old input.new result }
{
    let (key, (mode, (term, cool_hours))) = <(SnapKey, (LockMode, (Term, Option<u32>)))>::read(
        alloc, input,
    )?;
    let request = Request::LockSnapshot {
        key,
        mode,
        term,
        cool_hours,
    };
    Ok((request, None))
}

fn read_unlock(alloc: Global, input: &mut Input) -> Result<(Request, Option<u64>), Unread>
    ensures { Reads (IsAskedOf call.UnlockSnapshot) fields_in input.old input.new result }
{
    let key = SnapKey::read(alloc, input)?;
    Ok((Request::UnlockSnapshot { key }, None))
}

fn read_archive(alloc: Global, input: &mut Input) -> Result<(Request, Option<u64>), Unread>
    ensures { Reads (IsAskedOf call.ArchiveSnapshot) fields_in input.old input.new result }
{
    let key = SnapKey::read(alloc, input)?;
    Ok((Request::ArchiveSnapshot { key }, None))
}

fn read_restore(alloc: Global, input: &mut Input) -> Result<(Request, Option<u64>), Unread>
    ensures { Reads (IsAskedOf call.RestoreTier) fields_in input.old input.new result }
{
    let (key, days) = <(SnapKey, Option<u32>)>::read(alloc, input)?;
    Ok((Request::RestoreTier { key, days }, None))
}

fn read_create(alloc: Global, input: &mut Input) -> Result<(Request, Option<u64>), Unread>
    ensures { Reads (IsAskedOf call.CreateVolume) fields_in input.old input.new result }
{
    let (origin, (size, (tags, client_token))) = <(
        Option<SnapKey>,
        (Option<u64>, (Tags, Option<Text>)),
    )>::read(alloc, input)?;
    let request = Request::CreateVolume {
        origin,
        size,
        tags,
        client_token,
    };
    Ok((request, None))
}

fn read_snapshot(alloc: Global, input: &mut Input) -> Result<(Request, Option<u64>), Unread>
    ensures { Reads (IsAskedOf call.CreateSnapshot) fields_in input.old input.new result }
{
    let (key, (description, tags)) = <(VolKey, (Option<Text>, Tags))>::read(alloc, input)?;
    let request = Request::CreateSnapshot {
        key,
        description,
        tags,
    };
    Ok((request, None))
}

fn read_write(alloc: Global, input: &mut Input) -> Result<(Request, Option<u64>), Unread>
    ensures { Reads (IsAskedOf call.WriteVolumeBlock) fields_in input.old input.new result }
{
    let (key, (index, (digest, slot))) = <(VolKey, (u64, ([u8; 32], u64)))>::read(alloc, input)?;
    let request = Request::WriteVolumeBlock {
        key,
        index,
        digest,
        bytes: Bytes::new(alloc),
    };
    Ok((request, Some(slot)))
}

fn read_drop(alloc: Global, input: &mut Input) -> Result<(Request, Option<u64>), Unread>
    ensures { Reads (IsAskedOf call.DeleteVolume) fields_in input.old input.new result }
{
    let key = VolKey::read(alloc, input)?;
    Ok((Request::DeleteVolume { key }, None))
}

fn read_recover(alloc: Global, input: &mut Input) -> Result<(Request, Option<u64>), Unread>
    ensures { Reads (IsAskedOf call.RestoreFromBin) fields_in input.old input.new result }
{
    let key = SnapKey::read(alloc, input)?;
    Ok((Request::RestoreFromBin { key }, None))
}

/// Writes a changing request, and of a block that is written the slot of its bytes.
pub(crate) fn write_asked(
    request: &Request,
    slot: &Option<u64>,
    out: &mut Vec<u8>,
) -> Result<(), AllocError>
    requires { IsAsked (request.now, slot.now) }
    ensures { OnOk result (out.new.items ≡ out.old.items ++ called_in (request.now, slot.now)) }
{
    match (request, slot) {
        (
            Request::StartSnapshot {
                size,
                parent,
                description,
                tags,
                client_token,
                timeout,
            },
            None,
        ) => write_start(
            *size,
            parent,
            description,
            tags,
            client_token,
            *timeout,
            out,
        ),
        (
            Request::PutSnapshotBlock {
                key,
                index,
                digest,
                bytes: _,
            },
            Some(slot),
        ) => write_put(key, *index, digest, *slot, out),
        (
            Request::CompleteSnapshot {
                key,
                count,
                checksum,
            },
            None,
        ) => write_complete(key, *count, checksum, out),
        (
            Request::ModifyPermission {
                key,
                add,
                add_all,
                remove,
                remove_all,
            },
            None,
        ) => write_permission(key, add, *add_all, remove, *remove_all, out),
        (
            Request::LockSnapshot {
                key,
                mode,
                term,
                cool_hours,
            },
            None,
        ) => write_lock(key, mode, term, cool_hours, out),
        (Request::RestoreTier { key, days }, None) => write_restore(key, days, out),
        (Request::DeleteSnapshot { key }, None) => {
            write_keyed(ChangingCall::DeleteSnapshot, key, out)
        }
        (Request::UnlockSnapshot { key }, None) => {
            write_keyed(ChangingCall::UnlockSnapshot, key, out)
        }
        (Request::ArchiveSnapshot { key }, None) => {
            write_keyed(ChangingCall::ArchiveSnapshot, key, out)
        }
        (
            Request::CreateVolume {
                origin,
                size,
                tags,
                client_token,
            },
            None,
        ) => write_create(origin, size, tags, client_token, out),
        (
            Request::CreateSnapshot {
                key,
                description,
                tags,
            },
            None,
        ) => write_snapshot(key, description, tags, out),
        (
            Request::WriteVolumeBlock {
                key,
                index,
                digest,
                bytes: _,
            },
            Some(slot),
        ) => write_block(key, *index, digest, *slot, out),
        (Request::DeleteVolume { key }, None) => write_drop(key, out),
        (
            Request::CreateRule {
                days,
                tags,
                description,
                delay,
            },
            None,
        ) => write_create_rule(*days, tags, description, delay, out),
        (
            Request::UpdateRule {
                key,
                days,
                tags,
                description,
            },
            None,
        ) => write_update_rule(key, days, tags, description, out),
        (Request::DeleteRule { key }, None) => write_rule_key(ChangingCall::DeleteRule, key, out),
        (Request::LockRule { key, delay }, None) => write_lock_rule(key, *delay, out),
        (Request::UnlockRule { key }, None) => write_rule_key(ChangingCall::UnlockRule, key, out),
        (Request::RestoreFromBin { key }, None) => {
            write_keyed(ChangingCall::RestoreFromBin, key, out)
        }
        (
            Request::CreatePolicy {
                targets,
                hours,
                at,
                retain,
                add,
            },
            None,
        ) => write_create_policy(targets, *hours, *at, *retain, add, out),
        (Request::DeletePolicy { key }, None) => {
            write_policy_key(ChangingCall::DeletePolicy, key, out)
        }
        (Request::RunPolicy { key }, None) => write_policy_key(ChangingCall::RunPolicy, key, out),
        _ => Ok(()),
    }
}

fn write_start(
    size: u64,
    parent: &Option<SnapKey>,
    description: &Option<Text>,
    tags: &Tags,
    client_token: &Option<Text>,
    timeout: u32,
    out: &mut Vec<u8>,
) -> Result<(), AllocError>
    requires { AreFields call.StartSnapshot (size, (parent.now, (description.now, (tags.now, (client_token.now, timeout))))) }
    ensures { OnOk result (out.new.items ≡ out.old.items ++ called (call.StartSnapshot, (size, (parent.now, (description.now, (tags.now, (client_token.now, timeout))))))) }
{
    ChangingCall::StartSnapshot.write(out)?;
    size.write(out)?;
    parent.write(out)?;
    description.write(out)?;
    tags.write(out)?;
    client_token.write(out)?;
    timeout.write(out)
}

fn write_put(
    key: &SnapKey,
    index: u64,
    digest: &[u8; 32],
    slot: u64,
    out: &mut Vec<u8>,
) -> Result<(), AllocError>
    requires { AreFields call.PutSnapshotBlock (key.now, (index, (digest.now, slot))) }
    ensures { OnOk result (out.new.items ≡ out.old.items ++ called (call.PutSnapshotBlock, (key.now, (index, (digest.now, slot))))) }
{
    ChangingCall::PutSnapshotBlock.write(out)?;
    key.write(out)?;
    index.write(out)?;
    digest.write(out)?;
    slot.write(out)
}

fn write_complete(
    key: &SnapKey,
    count: u64,
    checksum: &Option<[u8; 32]>,
    out: &mut Vec<u8>,
) -> Result<(), AllocError>
    requires { AreFields call.CompleteSnapshot (key.now, (count, checksum.now)) }
    ensures { OnOk result (out.new.items ≡ out.old.items ++ called (call.CompleteSnapshot, (key.now, (count, checksum.now)))) }
{
    ChangingCall::CompleteSnapshot.write(out)?;
    key.write(out)?;
    count.write(out)?;
    checksum.write(out)
}

fn write_permission(
    key: &SnapKey,
    add: &Accounts,
    add_all: bool,
    remove: &Accounts,
    remove_all: bool,
    out: &mut Vec<u8>,
) -> Result<(), AllocError>
    requires { AreFields call.ModifyPermission (key.now, (add.now, (add_all, (remove.now, remove_all)))) }
    ensures { OnOk result (out.new.items ≡ out.old.items ++ called (call.ModifyPermission, (key.now, (add.now, (add_all, (remove.now, remove_all)))))) }
{
    ChangingCall::ModifyPermission.write(out)?;
    key.write(out)?;
    add.write(out)?;
    add_all.write(out)?;
    remove.write(out)?;
    remove_all.write(out)
}

fn write_lock(
    key: &SnapKey,
    mode: &LockMode,
    term: &Term,
    cool_hours: &Option<u32>,
    out: &mut Vec<u8>,
) -> Result<(), AllocError>
    requires { AreFields call.LockSnapshot (key.now, (mode.now, (term.now, cool_hours.now))) }
    ensures { OnOk result (out.new.items ≡ out.old.items ++ called (call.LockSnapshot, (key.now, (mode.now, (term.now, cool_hours.now))))) }
{
    ChangingCall::LockSnapshot.write(out)?;
    key.write(out)?;
    mode.write(out)?;
    term.write(out)?;
    cool_hours.write(out)
}

fn write_restore(key: &SnapKey, days: &Option<u32>, out: &mut Vec<u8>) -> Result<(), AllocError>
    requires { AreFields call.RestoreTier (key.now, days.now) }
    ensures { OnOk result (out.new.items ≡ out.old.items ++ called (call.RestoreTier, (key.now, days.now))) }
{
    ChangingCall::RestoreTier.write(out)?;
    key.write(out)?;
    days.write(out)
}

/// A call whose one field is its key.
fn write_keyed(call: ChangingCall, key: &SnapKey, out: &mut Vec<u8>) -> Result<(), AllocError>
    requires { IsKey key.now }
    ensures { OnOk result (out.new.items ≡ out.old.items ++ (number_of call ∷ key_bytes key.now)) }
{
    call.write(out)?;
    key.write(out)
}

fn write_create(
    origin: &Option<SnapKey>,
    size: &Option<u64>,
    tags: &Tags,
    client_token: &Option<Text>,
    out: &mut Vec<u8>,
) -> Result<(), AllocError>
    requires { AreFields call.CreateVolume (origin.now, (size.now, (tags.now, client_token.now))) }
    ensures { OnOk result (out.new.items ≡ out.old.items ++ called (call.CreateVolume, (origin.now, (size.now, (tags.now, client_token.now))))) }
{
    ChangingCall::CreateVolume.write(out)?;
    origin.write(out)?;
    size.write(out)?;
    tags.write(out)?;
    client_token.write(out)
}

fn write_snapshot(
    key: &VolKey,
    description: &Option<Text>,
    tags: &Tags,
    out: &mut Vec<u8>,
) -> Result<(), AllocError>
    requires { AreFields call.CreateSnapshot (key.now, (description.now, tags.now)) }
    ensures { OnOk result (out.new.items ≡ out.old.items ++ called (call.CreateSnapshot, (key.now, (description.now, tags.now)))) }
{
    ChangingCall::CreateSnapshot.write(out)?;
    key.write(out)?;
    description.write(out)?;
    tags.write(out)
}

fn write_block(
    key: &VolKey,
    index: u64,
    digest: &[u8; 32],
    slot: u64,
    out: &mut Vec<u8>,
) -> Result<(), AllocError>
    requires { AreFields call.WriteVolumeBlock (key.now, (index, (digest.now, slot))) }
    ensures { OnOk result (out.new.items ≡ out.old.items ++ called (call.WriteVolumeBlock, (key.now, (index, (digest.now, slot))))) }
{
    ChangingCall::WriteVolumeBlock.write(out)?;
    key.write(out)?;
    index.write(out)?;
    digest.write(out)?;
    slot.write(out)
}

fn write_drop(key: &VolKey, out: &mut Vec<u8>) -> Result<(), AllocError>
    requires { AreFields call.DeleteVolume key.now }
    ensures { OnOk result (out.new.items ≡ out.old.items ++ called (call.DeleteVolume, key.now)) }
{
    ChangingCall::DeleteVolume.write(out)?;
    key.write(out)
}
