// The kinds of members of lifecycle policies.
ghost use Rattle.std.specs.Prelude.{◌≡◌, ◌<◌, IfOk, IfSome};
ghost use Rattle.serde_json.specs.View.{view, items_view};
ghost use Rattle.ebs_model.specs.Limits.{are_targets, is_interval};
ghost use Rattle.ebs_members.specs.Kinds as kind;
ghost use Rattle.ebs_members.specs.Policies as spec;

use crate::kinds::{Kind, OwnedKind, all_tags};
use crate::source::{Found, member};
use ebs_model::{
    PolicyKey, Retain, Tags, are_targets, is_interval, is_retain, read_number, read_policy,
};
use serde_json::Value;
use std::alloc::{AllocError, Global};

/// The id of a policy.
#[derive(Drop)]
pub struct Policy;

impl Kind for Policy {
    type Value = PolicyKey;

    ghost reads = { λ _. spec.policy };

    fn read(&self, found: &Found) -> Option<PolicyKey> {
        found.text().and_then(|text| read_policy(text))
    }
}

/// An array of at least one tag within their limits.
#[derive(Drop)]
pub struct TargetList;

impl OwnedKind for TargetList {
    type Value = Tags;

    ghost reads = { λ _. spec.targets };

    fn read(&self, alloc: Global, found: &Found) -> Result<Option<Tags>, AllocError> {
        match found.json().and_then(Value::as_array) {
            Some(items) => targets_from(alloc, items.as_slice()),
            None => Ok(None),
        }
    }
}

fn targets_from(alloc: Global, items: &[Value]) -> Result<Option<Tags>, AllocError>
    ensures { IfOk result (λ found. found ≡ kind.keep_if are_targets (kind.all_of kind.tag_of (items_view items.now))) }
{
    match all_tags(alloc, items)? {
        Some(tags) if are_targets(tags.as_slice()) => Ok(Some(Tags::from_vec(tags))),
        _ => Ok(None),
    }
}

/// When a policy runs: every so many hours from a time of day, in seconds.
#[derive(Clone, Copy, Debug, PartialEq, Eq)]
pub struct Schedule {
    pub hours: u32,
    pub at: u32,
}

/// A schedule with one time of day.
#[derive(Drop)]
pub struct Scheduled;

impl Kind for Scheduled {
    type Value = Schedule;

    ghost reads = { λ _. spec.schedule };

    fn read(&self, found: &Found) -> Option<Schedule> {
        found.json().and_then(|value| schedule_in(value))
    }
}

fn schedule_in(value: &Value) -> Option<Schedule>
    ensures { result ≡ spec.schedule_in (view value.now) }
{
    let hours = hours_in(value)?;
    let at = time_in(value)?;
    Some(Schedule { hours, at })
}

fn hours_in(value: &Value) -> Option<u32>
    ensures { result ≡ spec.hours_in (view value.now) }
{
    if member(value, "IntervalUnit").and_then(Value::as_str) == Some("HOURS") {
        return interval(member(value, "Interval").and_then(Value::as_u64));
    }
    None
}

#[tactic(auto, using(crate::proofs::Schedules::long_interval))]
fn interval(hours: Option<u64>) -> Option<u32>
    ensures { result ≡ kind.keep_if is_interval hours }
{
    match hours {
        Some(n) if n <= u64::from(u32::MAX) && is_interval(n as u32) => Some(n as u32),
        _ => None,
    }
}

fn time_in(value: &Value) -> Option<u32>
    ensures { result ≡ spec.time_in (view value.now) }
{
    match member(value, "Times").and_then(Value::as_array) {
        Some(times) => one_time(times.as_slice()),
        None => None,
    }
}

#[tactic(auto, using(crate::proofs::Schedules::no_time, crate::proofs::Schedules::more_times))]
fn one_time(items: &[Value]) -> Option<u32>
    ensures { result ≡ spec.one_time (items_view items.now) }
{
    match items {
        [time] => time.as_str().and_then(|text| time_of(text.as_bytes())),
        _ => None,
    }
}

/// The second of the day at which a clock shows `HH:MM`.
fn time_of(text: &[u8]) -> Option<u32>
    ensures { result ≡ spec.time_of text.now }
{
    if text.len() != 5 || text[2] != b':' {
        return None;
    }
    let hour = part_below(24, &text[..2])?;
    let minute = part_below(60, &text[3..])?;
    Some(3600 * hour + 60 * minute)
}

fn part_below(bound: u32, text: &[u8]) -> Option<u32>
    ensures value { result ≡ spec.part_below bound text.now }
    ensures below { IfSome result (λ n. n < bound) }
{
    match read_number(text) {
        Some(n) if n < u64::from(bound) => Some(n as u32),
        _ => None,
    }
}

/// What a number in a rule of retention counts.
#[derive(Clone, Copy, Debug, PartialEq, Eq)]
pub enum Span {
    Snapshots,
    Days,
    Weeks,
    Months,
    Years,
}

/// A number of snapshots, or an age.
#[derive(Drop)]
pub struct Retention;

impl Kind for Retention {
    type Value = Retain;

    ghost reads = { λ _. spec.retention };

    fn read(&self, found: &Found) -> Option<Retain> {
        found.json().and_then(|value| retain_in(value))
    }
}

fn retain_in(value: &Value) -> Option<Retain>
    ensures { result ≡ spec.retain_in (view value.now) }
{
    let count = member(value, "Count");
    let number = member(value, "Interval");
    let unit = member(value, "IntervalUnit");
    match (count, number, unit) {
        (Some(count), None, None) => retained(Span::Snapshots, count.as_u64()),
        (None, Some(number), Some(unit)) => retained(span_of(unit.as_str()?)?, number.as_u64()),
        _ => None,
    }
}

fn retained(span: Span, number: Option<u64>) -> Option<Retain>
    ensures { result ≡ spec.retained span number }
{
    match number {
        Some(n) if n <= u64::from(u32::MAX) && is_retain(retain_of(span, n as u32)) => {
            Some(retain_of(span, n as u32))
        }
        _ => None,
    }
}

fn retain_of(span: Span, n: u32) -> Retain
    ensures { result ≡ spec.retain_of span n }
{
    match span {
        Span::Snapshots => Retain::Count(n),
        Span::Days => Retain::Days(n),
        Span::Weeks => Retain::Weeks(n),
        Span::Months => Retain::Months(n),
        Span::Years => Retain::Years(n),
    }
}

fn span_of(unit: &str) -> Option<Span>
    ensures { result ≡ spec.span_of unit.now }
{
    if unit == "DAYS" {
        return Some(Span::Days);
    }
    if unit == "WEEKS" {
        return Some(Span::Weeks);
    }
    if unit == "MONTHS" {
        return Some(Span::Months);
    }
    (unit == "YEARS").then_some(Span::Years)
}
