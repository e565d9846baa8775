// The kinds of members of Recycle Bin rules.
ghost use Rattle.std.specs.Prelude.{◌≡◌, Some, IfOk, codes};
ghost use Rattle.std.specs.Option.{option_map, option_and_then, option_copied};
ghost use Rattle.serde_json.specs.View.{view, items_view};
ghost use Rattle.ebs_model.specs.Limits.{are_rule_tags};
ghost use Rattle.ebs_members.specs.Kinds as kind;

use crate::kinds::{Kind, OwnedKind, copy, text_at};
use crate::source::{Found, member};
use ebs_model::{
    RuleKey, RuleTag, RuleTags, Text, are_rule_tags, is_delay, is_retention, read_rule,
};
use serde_json::Value;
use std::alloc::{AllocError, Global};

/// The id of a rule.
#[derive(Drop)]
pub struct Rule;

impl Kind for Rule {
    type Value = RuleKey;

    ghost reads = { λ _. kind.rule };

    fn read(&self, found: &Found) -> Option<RuleKey> {
        found.text().and_then(|text| read_rule(text))
    }
}

/// A number of days within its limits: how long a snapshot stays in the bin, or how long the unlock of a rule waits.
#[derive(Drop)]
pub enum Period {
    Retention,
    UnlockDelay,
}

impl Kind for Period {
    type Value = u32;

    ghost reads = { kind.period };

    fn read(&self, found: &Found) -> Option<u32> {
        match found.json().and_then(|value| period_in(self, value)) {
            Some(n) if n <= u64::from(u32::MAX) && is_period(self, n as u32) => Some(n as u32),
            _ => None,
        }
    }
}

fn period_in(period: &Period, value: &Value) -> Option<u64>
    ensures { result ≡ kind.period_in period.now (view value.now) }
{
    match period {
        Period::Retention => days_in("RetentionPeriodValue", "RetentionPeriodUnit", value),
        Period::UnlockDelay => delay_in(member(value, "UnlockDelay")),
    }
}

fn delay_in(delay: Option<&Value>) -> Option<u64>
    ensures { result ≡ option_and_then (kind.days_in (codes "UnlockDelayValue") (codes "UnlockDelayUnit"))
        (option_map (λ value. view value.now) delay.entry) }
{
    delay.and_then(|delay| days_in("UnlockDelayValue", "UnlockDelayUnit", delay))
}

/// So many days, as an object of a number and its unit.
fn days_in(number: &str, unit: &str, period: &Value) -> Option<u64>
    ensures { result ≡ kind.days_in number.now unit.now (view period.now) }
{
    if member(period, unit).and_then(Value::as_str) == Some("DAYS") {
        return member(period, number).and_then(Value::as_u64);
    }
    None
}

fn is_period(period: &Period, days: u32) -> bool
    ensures { result ≡ kind.is_period period.now days }
{
    match period {
        Period::Retention => is_retention(days),
        Period::UnlockDelay => is_delay(days),
    }
}

/// An array of resource tags within their limits.
#[derive(Drop)]
pub struct RuleTagList;

impl OwnedKind for RuleTagList {
    type Value = RuleTags;

    ghost reads = { λ _. kind.rule_tags };

    fn read(&self, alloc: Global, found: &Found) -> Result<Option<RuleTags>, AllocError> {
        match found.json().and_then(Value::as_array) {
            Some(items) => rule_tags_from(alloc, items.as_slice()),
            None => Ok(None),
        }
    }
}

fn rule_tags_from(alloc: Global, items: &[Value]) -> Result<Option<RuleTags>, AllocError>
    ensures { IfOk result (λ found. found ≡ kind.keep_if are_rule_tags (kind.all_of kind.rule_tag_of (items_view items.now))) }
{
    match all_rule_tags(alloc, items)? {
        Some(tags) if are_rule_tags(tags.as_slice()) => Ok(Some(RuleTags::from_vec(tags))),
        _ => Ok(None),
    }
}

fn all_rule_tags(alloc: Global, items: &[Value]) -> Result<Option<Vec<RuleTag>>, AllocError>
    ensures { IfOk result (λ found. option_map (λ tags. tags.items) found ≡ kind.all_of kind.rule_tag_of (items_view items.now)) }
{
    let mut tags = Vec::new(alloc);
    for item in items {
        match rule_tag_of(alloc, item)? {
            Some(tag) => tags.push(tag)?,
            None => return Ok(None),
        }
    }
    Ok(Some(tags))
}

fn rule_tag_of(alloc: Global, item: &Value) -> Result<Option<RuleTag>, AllocError>
    ensures { IfOk result (λ tag. tag ≡ kind.rule_tag_of (view item.now)) }
{
    let key = text_at(alloc, "ResourceTagKey", item)?;
    let value = text_if_any(alloc, member(item, "ResourceTagValue"))?;
    match (key, value) {
        (Some(key), Some(value)) => Ok(Some(RuleTag { key, value })),
        _ => Ok(None),
    }
}

/// The text that a member is, or nothing where there is no member.
fn text_if_any(alloc: Global, found: Option<&Value>) -> Result<Option<Option<Text>>, AllocError>
    ensures { IfOk result (λ text. text ≡ kind.text_if_any (option_map (λ value. view value.now) found.entry)) }
{
    match found {
        Some(value) => some_text(alloc, value.as_str()),
        None => Ok(Some(None)),
    }
}

fn some_text(alloc: Global, text: Option<&str>) -> Result<Option<Option<Text>>, AllocError>
    ensures { IfOk result (λ copy. copy ≡ option_map Some (option_copied text.entry)) }
{
    match text {
        Some(text) => Ok(Some(Some(copy(alloc, text)?))),
        None => Ok(None),
    }
}
