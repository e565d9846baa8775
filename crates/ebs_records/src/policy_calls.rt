// The changing calls on lifecycle policies, with the fields that their records have.
ghost use Rattle.ebs_records.specs.inner.Reading.{Reads};
ghost use Rattle.std.specs.Prelude.{◌≡◌, ◌++◌, ◌∷◌, OnOk};
ghost use Rattle.ebs_records.specs.inner.Calls.{IsAskedOf, fields_in};
ghost use Rattle.ebs_records.specs.Calls.{AreFields, called, number_of};
ghost use Rattle.ebs_records.specs.Fields.{IsPolicyKey, policy_key as policy_bytes};
ghost use Rattle.ebs_records.specs.declared.calls.ChangingCall.TheVariants as call;

use crate::calls::ChangingCall;
use crate::codec::{Codec, Unread};
use crate::input::Input;
use ebs_model::{PolicyKey, Request, Retain, Tags};
use std::alloc::{AllocError, Global};

pub(crate) fn read_create_policy(
    alloc: Global,
    input: &mut Input,
) -> Result<(Request, Option<u64>), Unread>
    ensures { Reads (IsAskedOf call.CreatePolicy) fields_in input.old input.new result }
{
    let (targets, (hours, (at, (retain, add)))) = <(Tags, (u32, (u32, (Retain, Tags))))>::read(
        alloc, input,
    )?;
    let request = Request::CreatePolicy {
        targets,
        hours,
        at,
        retain,
        add,
    };
    Ok((request, None))
}

pub(crate) fn read_delete_policy(
    alloc: Global,
    input: &mut Input,
) -> Result<(Request, Option<u64>), Unread>
    ensures { Reads (IsAskedOf call.DeletePolicy) fields_in input.old input.new result }
{
    let key = PolicyKey::read(alloc, input)?;
    Ok((Request::DeletePolicy { key }, None))
}

pub(crate) fn read_run_policy(
    alloc: Global,
    input: &mut Input,
) -> Result<(Request, Option<u64>), Unread>
    ensures { Reads (IsAskedOf call.RunPolicy) fields_in input.old input.new result }
{
    let key = PolicyKey::read(alloc, input)?;
    Ok((Request::RunPolicy { key }, None))
}

pub(crate) fn write_create_policy(
    targets: &Tags,
    hours: u32,
    at: u32,
    retain: Retain,
    add: &Tags,
    out: &mut Vec<u8>,
) -> Result<(), AllocError>
    requires { AreFields call.CreatePolicy (targets.now, (hours, (at, (retain, add.now)))) }
    ensures { OnOk result (out.new.items ≡ out.old.items ++ called (call.CreatePolicy, (targets.now, (hours, (at, (retain, add.now)))))) }
{
    ChangingCall::CreatePolicy.write(out)?;
    targets.write(out)?;
    hours.write(out)?;
    at.write(out)?;
    retain.write(out)?;
    add.write(out)
}

/// A call whose one field is the policy's key.
pub(crate) fn write_policy_key(
    call: ChangingCall,
    key: &PolicyKey,
    out: &mut Vec<u8>,
) -> Result<(), AllocError>
    requires { IsPolicyKey key.now }
    ensures { OnOk result (out.new.items ≡ out.old.items ++ (number_of call ∷ policy_bytes key.now)) }
{
    call.write(out)?;
    key.write(out)
}
