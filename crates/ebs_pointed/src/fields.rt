// What the types of its fields say of a row: keys and accounts have their widths, and texts are in UTF-8. Nothing is done here.
ghost use Rattle.std.specs.Prelude.{◌≡◌, []};
ghost use Rattle.std.specs.List.{AllByRecursion};
ghost use Rattle.std.specs.Str.{IsUtf8};
ghost use Rattle.ebs_records.specs.Fields.{IsAccount, IsKey, IsLong, IsOptional, IsPolicyKey, IsRule, IsVolume};
ghost use Rattle.ebs_records.specs.Names.{IsLine};
ghost use Rattle.ebs_point_rules.specs.Values.{HasPolicyValues, HasRuleTexts, HasRuleValues, HasSnapValues, HasTexts, HasVolValues};

use ebs_checkpoints::{SnapPoint, VolPoint};
use ebs_model::{
    Account, Line, Policy, PolicyKey, Rule, RuleKey, RuleTag, SnapKey, Tag, Text, VolKey,
};

pub(crate) fn check_snapshot_point(point: &SnapPoint)
    requires { point.now.copies ≡ [] }
    ensures { HasSnapValues point.now }
{
    check_key(&point.key);
    check_line(&point.line);
    check_key_given(&point.parent);
    check_volume_given(&point.volume);
    check_policy_given(&point.policy);
    check_text_given(&point.description);
    check_tags(point.tags.as_slice());
    check_accounts(point.shared.as_slice());
    check_number_given(&point.node);
}

pub(crate) fn check_volume_point(point: &VolPoint)
    ensures { HasVolValues point.now }
{
    check_volume(&point.row.key);
    check_line(&point.row.line);
    check_key_given(&point.row.origin);
    check_tags(point.row.tags.as_slice());
    let _node = point.node;
}

pub(crate) fn check_policy(policy: &Policy)
    ensures { HasPolicyValues policy.now }
{
    check_policy_key(&policy.key);
    check_tags(policy.targets.as_slice());
    check_tags(policy.add.as_slice());
}

pub(crate) fn check_rule(rule: &Rule)
    ensures { HasRuleValues rule.now }
{
    check_rule_key(&rule.key);
    check_rule_tags(rule.tags.as_slice());
    check_text_given(&rule.description);
}

fn check_key(key: &SnapKey)
    ensures { IsKey key.now }
{
    let _account = key.account.number();
    let _number = key.number.number();
}

fn check_volume(key: &VolKey)
    ensures { IsVolume key.now }
{
    let _account = key.account.number();
    let _number = key.number.number();
}

fn check_rule_key(key: &RuleKey)
    ensures { IsRule key.now }
{
    let _account = key.account.number();
    let _number = key.number.number();
}

fn check_policy_key(key: &PolicyKey)
    ensures { IsPolicyKey key.now }
{
    let _account = key.account.number();
    let _number = key.number.number();
}

fn check_line(line: &Line)
    ensures { IsLine line.now }
{
    let _account = line.account.number();
    let _number = line.number.number();
}

fn check_accounts(accounts: &[Account])
    ensures { AllByRecursion IsAccount accounts.now }
{
    match accounts {
        [] => {}
        [account, accounts @ ..] => {
            let _number = account.number();
            check_accounts(accounts);
        }
    }
}

pub(crate) fn check_key_given(given: &Option<SnapKey>)
    ensures { IsOptional IsKey given.now }
{
    match given {
        Some(key) => check_key(key),
        None => {}
    }
}

fn check_volume_given(given: &Option<VolKey>)
    ensures { IsOptional IsVolume given.now }
{
    match given {
        Some(key) => check_volume(key),
        None => {}
    }
}

fn check_policy_given(given: &Option<PolicyKey>)
    ensures { IsOptional IsPolicyKey given.now }
{
    match given {
        Some(key) => check_policy_key(key),
        None => {}
    }
}

fn check_number_given(given: &Option<u64>)
    ensures { IsOptional IsLong given.now }
{
    match given {
        Some(number) => {
            let _number = *number;
        }
        None => {}
    }
}

pub(crate) fn check_text_given(given: &Option<Text>)
    ensures { IsOptional IsUtf8 given.now }
{
    match given {
        Some(text) => check_text(text),
        None => {}
    }
}

pub(crate) fn check_tags(tags: &[Tag])
    ensures { AllByRecursion HasTexts tags.now }
{
    match tags {
        [] => {}
        [tag, tags @ ..] => {
            check_text(&tag.key);
            check_text(&tag.value);
            check_tags(tags);
        }
    }
}

fn check_rule_tags(tags: &[RuleTag])
    ensures { AllByRecursion HasRuleTexts tags.now }
{
    match tags {
        [] => {}
        [tag, tags @ ..] => {
            check_text(&tag.key);
            check_text_given(&tag.value);
            check_rule_tags(tags);
        }
    }
}

pub(crate) fn check_text(text: &Text)
    ensures { IsUtf8 text.now }
{
    let _bytes = text.as_str().as_bytes();
}
