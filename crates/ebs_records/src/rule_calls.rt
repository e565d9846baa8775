// The changing calls on Recycle Bin rules, with the fields that their records have.
ghost use Rattle.ebs_records.specs.inner.Reading.{Reads};
ghost use Rattle.std.specs.Prelude.{◌≡◌, ◌++◌, ◌∷◌, OnOk};
ghost use Rattle.ebs_records.specs.inner.Calls.{IsAskedOf, fields_in};
ghost use Rattle.ebs_records.specs.Calls.{AreFields, called, number_of};
ghost use Rattle.ebs_records.specs.Fields.{IsRule, rule as rule_bytes};
ghost use Rattle.ebs_records.specs.declared.calls.ChangingCall.TheVariants as call;

use crate::calls::ChangingCall;
use crate::codec::{Codec, Unread};
use crate::input::Input;
use ebs_model::{Request, RuleKey, RuleTags, Text};
use std::alloc::{AllocError, Global};

pub(crate) fn read_create_rule(
    alloc: Global,
    input: &mut Input,
) -> Result<(Request, Option<u64>), Unread>
    ensures { Reads (IsAskedOf call.CreateRule) fields_in input.old input.new result }
{
    let (days, (tags, (description, delay))) = <(
        u32,
        (RuleTags, (Option<Text>, Option<u32>)),
    )>::read(alloc, input)?;
    let request = Request::CreateRule {
        days,
        tags,
        description,
        delay,
    };
    Ok((request, None))
}

pub(crate) fn read_update_rule(
    alloc: Global,
    input: &mut Input,
) -> Result<(Request, Option<u64>), Unread>
    ensures { Reads (IsAskedOf call.UpdateRule) fields_in input.old input.new result }
{
    let (key, (days, (tags, description))) = <(
        RuleKey,
        (Option<u32>, (Option<RuleTags>, Option<Text>)),
    )>::read(alloc, input)?;
    let request = Request::UpdateRule {
        key,
        days,
        tags,
        description,
    };
    Ok((request, None))
}

pub(crate) fn read_delete_rule(
    alloc: Global,
    input: &mut Input,
) -> Result<(Request, Option<u64>), Unread>
    ensures { Reads (IsAskedOf call.DeleteRule) fields_in input.old input.new result }
{
    let key = RuleKey::read(alloc, input)?;
    Ok((Request::DeleteRule { key }, None))
}

pub(crate) fn read_lock_rule(
    alloc: Global,
    input: &mut Input,
) -> Result<(Request, Option<u64>), Unread>
    ensures { Reads (IsAskedOf call.LockRule) fields_in input.old input.new result }
{
    let (key, delay) = <(RuleKey, u32)>::read(alloc, input)?;
    Ok((Request::LockRule { key, delay }, None))
}

pub(crate) fn read_unlock_rule(
    alloc: Global,
    input: &mut Input,
) -> Result<(Request, Option<u64>), Unread>
    ensures { Reads (IsAskedOf call.UnlockRule) fields_in input.old input.new result }
{
    let key = RuleKey::read(alloc, input)?;
    Ok((Request::UnlockRule { key }, None))
}

pub(crate) fn write_create_rule(
    days: u32,
    tags: &RuleTags,
    description: &Option<Text>,
    delay: &Option<u32>,
    out: &mut Vec<u8>,
) -> Result<(), AllocError>
    requires { AreFields call.CreateRule (days, (tags.now, (description.now, delay.now))) }
    ensures { OnOk result (out.new.items ≡ out.old.items ++ called (call.CreateRule, (days, (tags.now, (description.now, delay.now))))) }
{
    ChangingCall::CreateRule.write(out)?;
    days.write(out)?;
    tags.write(out)?;
    description.write(out)?;
    delay.write(out)
}

pub(crate) fn write_update_rule(
    key: &RuleKey,
    days: &Option<u32>,
    tags: &Option<RuleTags>,
    description: &Option<Text>,
    out: &mut Vec<u8>,
) -> Result<(), AllocError>
    requires { AreFields call.UpdateRule (key.now, (days.now, (tags.now, description.now))) }
    ensures { OnOk result (out.new.items ≡ out.old.items ++ called (call.UpdateRule, (key.now, (days.now, (tags.now, description.now))))) }
{
    ChangingCall::UpdateRule.write(out)?;
    key.write(out)?;
    days.write(out)?;
    tags.write(out)?;
    description.write(out)
}

pub(crate) fn write_lock_rule(
    key: &RuleKey,
    delay: u32,
    out: &mut Vec<u8>,
) -> Result<(), AllocError>
    requires { AreFields call.LockRule (key.now, delay) }
    ensures { OnOk result (out.new.items ≡ out.old.items ++ called (call.LockRule, (key.now, delay))) }
{
    ChangingCall::LockRule.write(out)?;
    key.write(out)?;
    delay.write(out)
}

/// A call whose one field is the rule's key.
pub(crate) fn write_rule_key(
    call: ChangingCall,
    key: &RuleKey,
    out: &mut Vec<u8>,
) -> Result<(), AllocError>
    requires { IsRule key.now }
    ensures { OnOk result (out.new.items ≡ out.old.items ++ (number_of call ∷ rule_bytes key.now)) }
{
    call.write(out)?;
    key.write(out)
}
