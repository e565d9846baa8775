// The limits of a request's fields.
ghost use Rattle.std.specs.Prelude.{◌≡◌, ◌≤◌, length};
ghost use Rattle.std.specs.Option.{option_map};
ghost use Rattle.std.specs.List.{list_all};
ghost use Rattle.ebs_model.specs.Quotas as geometry;
ghost use Rattle.ebs_model.specs.Limits as limits;

use crate::keys::{Account, SnapKey};
use crate::lock::{LockMode, Term};
use crate::policy::Retain;
use crate::request::Request;
use crate::rules::{RuleTag, RuleTags};
use crate::tags::Tag;
use crate::text::Text;

/// The bytes of a block.
pub const BLOCK_BYTES: usize = 524288;

/// The blocks of a GiB.
pub const GIB_BLOCKS: u64 = 2048;

/// The greatest size of an image, in GiB.
pub const MOST_GIB: u64 = 16384;

/// How many uploads of an account can be open.
pub const MOST_OPEN: u64 = 100;

/// How many snapshots of an account can be kept, failed uploads and those in the bin among them.
pub const MOST_KEPT: u64 = 10000;

/// How many volumes an account can have.
pub const MOST_VOLUMES: u64 = 1000;

/// How many Recycle Bin rules an account can have.
pub const MOST_RULES: usize = 50;

/// How many lifecycle policies an account can have.
pub const MOST_POLICIES: usize = 100;

/// How many accounts one snapshot can be shared with.
pub const MOST_SHARED: u64 = 1000;

/// How many client tokens an account can have used.
pub const MOST_TOKENS: u64 = 65536;

/// How many ids of one kind an account ever makes.
pub const MOST_IDS: u32 = 1 << 28;

/// How many changes a store accepts.
pub const MOST_CHANGES: u64 = 1 << 40;

/// The last moment, in seconds since 1970 in UTC.
pub const LAST_SECOND: u64 = 1 << 36;

const MOST_DIGITS: u64 = 10_000_000_000;

const MINUTE: u32 = 60;

const DAY: u32 = 86400;

/// How many blocks an image of so many GiB has.
pub fn blocks_of(size: u32) -> u64
    ensures { result ≡ geometry.blocks_of size }
{
    GIB_BLOCKS * u64::from(size)
}

/// Whether a size in GiB is one that an image can have.
pub fn is_size(size: u64) -> bool
    ensures { result ≡ limits.is_size size }
{
    size >= 1 && size <= MOST_GIB
}

/// The name of the first field that is outside its limits (EBS direct APIs reference).
pub fn bad_member(request: &Request) -> Option<&'static str>
    ensures { option_map (λ name. name.now) result ≡ limits.bad_member request.now }
{
    match request {
        Request::StartSnapshot {
            size: _,
            parent: _,
            description,
            tags,
            client_token,
            timeout,
        } => bad_start(description, tags.as_slice(), client_token, *timeout),
        Request::PutSnapshotBlock {
            key: _,
            index,
            digest: _,
            bytes,
        } => bad_put(*index, bytes.len()),
        Request::CompleteSnapshot {
            key: _,
            count,
            checksum: _,
        } => unless(has_ten_digits(*count), "x-amz-ChangedBlocksCount"),
        Request::ListSnapshotBlocks {
            key: _,
            page: _,
            max,
            start,
        } => bad_list(*max, *start),
        Request::ListChangedBlocks {
            first: _,
            second: _,
            page: _,
            max,
            start,
        } => bad_list(*max, *start),
        Request::GetSnapshotBlock {
            key: _,
            index,
            token: _,
        } => unless(has_ten_digits(*index), "blockIndex"),
        Request::DescribeSnapshot { key: _ } => None,
        Request::DescribeSnapshots { from, max } => bad_rows(*from, *max),
        Request::DeleteSnapshot { key: _ } => None,
        Request::ModifyPermission {
            key: _,
            add,
            add_all,
            remove,
            remove_all,
        } => bad_permission(add.as_slice(), *add_all, remove.as_slice(), *remove_all),
        Request::LockSnapshot {
            key: _,
            mode,
            term,
            cool_hours,
        } => bad_lock(*mode, *term, *cool_hours),
        Request::UnlockSnapshot { key: _ } => None,
        Request::ArchiveSnapshot { key: _ } => None,
        Request::RestoreTier { key: _, days } => {
            unless(is_restore(*days), "TemporaryRestoreDays")
        }
        Request::CreateVolume {
            origin,
            size,
            tags,
            client_token,
        } => bad_create(origin, size, tags.as_slice(), client_token),
        Request::CreateSnapshot {
            key: _,
            description,
            tags,
        } => bad_snapshot(description, tags.as_slice()),
        Request::WriteVolumeBlock {
            key: _,
            index,
            digest: _,
            bytes,
        } => bad_put(*index, bytes.len()),
        Request::ReadVolumeBlock { key: _, index } => {
            unless(has_ten_digits(*index), "blockIndex")
        }
        Request::DescribeVolume { key: _ } => None,
        Request::DeleteVolume { key: _ } => None,
        Request::CreateRule {
            days,
            tags,
            description,
            delay,
        } => bad_rule(*days, tags.as_slice(), description, *delay),
        Request::GetRule { key: _ } => None,
        Request::UpdateRule {
            key: _,
            days,
            tags,
            description,
        } => bad_update(*days, tags, description),
        Request::DeleteRule { key: _ } => None,
        Request::ListRules => None,
        Request::LockRule { key: _, delay } => unless(is_delay(*delay), "LockConfiguration"),
        Request::UnlockRule { key: _ } => None,
        Request::ListBin { from, max } => bad_rows(*from, *max),
        Request::RestoreFromBin { key: _ } => None,
        Request::CreatePolicy {
            targets,
            hours,
            at,
            retain,
            add,
        } => bad_policy(targets.as_slice(), *hours, *at, *retain, add.as_slice()),
        Request::GetPolicy { key: _ } => None,
        Request::DeletePolicy { key: _ } => None,
        Request::RunPolicy { key: _ } => None,
    }
}

fn bad_start(
    description: &Option<Text>,
    tags: &[Tag],
    client_token: &Option<Text>,
    timeout: u32,
) -> Option<&'static str>
    ensures { option_map (λ name. name.now) result ≡ limits.bad_start description.now tags.now client_token.now timeout }
{
    if !is_description(description) {
        return Some("Description");
    }
    if !are_tags(tags) {
        return Some("Tags");
    }
    if !is_token_given(client_token) {
        return Some("ClientToken");
    }
    unless((10..=4320).contains(&timeout), "Timeout")
}

fn bad_put(index: u64, length: usize) -> Option<&'static str>
    ensures { option_map (λ name. name.now) result ≡ limits.bad_put index length }
{
    if !has_ten_digits(index) {
        return Some("blockIndex");
    }
    unless(length == BLOCK_BYTES, "body")
}

fn bad_list(max: u32, start: u64) -> Option<&'static str>
    ensures { option_map (λ name. name.now) result ≡ limits.bad_list max start }
{
    if !(100..=10000).contains(&max) {
        return Some("maxResults");
    }
    unless(has_ten_digits(start), "startingBlockIndex")
}

fn bad_rows(from: u32, max: u32) -> Option<&'static str>
    ensures { option_map (λ name. name.now) result ≡ limits.bad_rows from max }
{
    if from >= MOST_IDS {
        return Some("from");
    }
    unless((1..=1000).contains(&max), "max")
}

fn bad_permission(
    add: &[Account],
    add_all: bool,
    remove: &[Account],
    remove_all: bool,
) -> Option<&'static str>
    ensures { option_map (λ name. name.now) result ≡ limits.bad_permission add.now add_all remove.now remove_all }
{
    if !are_accounts(add) {
        return Some("Add");
    }
    let apart = are_apart(add, remove) && !(add_all && remove_all);
    unless(are_accounts(remove) && apart, "Remove")
}

fn bad_lock(mode: LockMode, term: Term, cool_hours: Option<u32>) -> Option<&'static str>
    ensures { option_map (λ name. name.now) result ≡ limits.bad_lock mode term cool_hours }
{
    if !is_term(term) {
        return Some("LockDuration");
    }
    unless(is_cool_off(mode, cool_hours), "CoolOffPeriod")
}

fn bad_create(
    origin: &Option<SnapKey>,
    size: &Option<u64>,
    tags: &[Tag],
    client_token: &Option<Text>,
) -> Option<&'static str>
    ensures { option_map (λ name. name.now) result ≡ limits.bad_create origin.now size.now tags.now client_token.now }
{
    if !is_sized(origin, size) {
        return Some("Size");
    }
    if !are_tags(tags) {
        return Some("Tags");
    }
    unless(is_token_given(client_token), "ClientToken")
}

fn bad_snapshot(description: &Option<Text>, tags: &[Tag]) -> Option<&'static str>
    ensures { option_map (λ name. name.now) result ≡ limits.bad_snapshot description.now tags.now }
{
    if !is_description(description) {
        return Some("Description");
    }
    unless(are_tags(tags), "Tags")
}

fn bad_rule(
    days: u32,
    tags: &[RuleTag],
    description: &Option<Text>,
    delay: Option<u32>,
) -> Option<&'static str>
    ensures { option_map (λ name. name.now) result ≡ limits.bad_rule days tags.now description.now delay }
{
    if !is_retention(days) {
        return Some("RetentionPeriod");
    }
    if !are_rule_tags(tags) {
        return Some("ResourceTags");
    }
    if !is_description(description) {
        return Some("Description");
    }
    unless(is_first_delay(tags, delay), "LockConfiguration")
}

fn bad_update(
    days: Option<u32>,
    tags: &Option<RuleTags>,
    description: &Option<Text>,
) -> Option<&'static str>
    ensures { option_map (λ name. name.now) result ≡ limits.bad_update days tags.now description.now }
{
    if !is_retention_given(days) {
        return Some("RetentionPeriod");
    }
    if !are_rule_tags_given(tags) {
        return Some("ResourceTags");
    }
    unless(is_description(description), "Description")
}

fn bad_policy(
    targets: &[Tag],
    hours: u32,
    at: u32,
    retain: Retain,
    add: &[Tag],
) -> Option<&'static str>
    ensures { option_map (λ name. name.now) result ≡ limits.bad_policy targets.now hours at retain add.now }
{
    if !are_targets(targets) {
        return Some("TargetTags");
    }
    if !is_schedule(hours, at) {
        return Some("Schedule");
    }
    if !is_retain(retain) {
        return Some("RetainRule");
    }
    unless(are_tags(add), "TagsToAdd")
}

fn is_sized(origin: &Option<SnapKey>, size: &Option<u64>) -> bool
    ensures { result ≡ limits.is_sized origin.now size.now }
{
    match (origin, size) {
        (None, None) => false,
        (None, Some(_)) => true,
        (Some(_), _) => true,
    }
}

/// Whether a volume can have the size, in GiB, where one is given.
pub fn is_size_given(size: Option<u64>) -> bool
    ensures { result ≡ limits.is_size_given size }
{
    match size {
        None => true,
        Some(size) => is_size(size),
    }
}

/// Whether a lock can last so long, whatever the moment: 1 to 36500 days, or until a date.
pub fn is_term(term: Term) -> bool
    ensures { result ≡ limits.is_term term }
{
    match term {
        Term::Days(days) => (1..=36500).contains(&days),
        Term::Date(_) => true,
    }
}

/// Whether a lock of the mode can have the cool-off, in hours.
pub fn is_cool_off(mode: LockMode, cool_hours: Option<u32>) -> bool
    ensures { result ≡ limits.is_cool_off mode cool_hours }
{
    match (mode, cool_hours) {
        (_, None) => true,
        (LockMode::Governance, Some(_)) => false,
        (LockMode::Compliance, Some(hours)) => (1..=72).contains(&hours),
    }
}

/// Whether a restore can last so many days, or for good.
pub fn is_restore(days: Option<u32>) -> bool
    ensures { result ≡ limits.is_restore days }
{
    match days {
        None => true,
        Some(days) => (1..=180).contains(&days),
    }
}

/// Whether a snapshot can stay in the bin for so many days.
pub fn is_retention(days: u32) -> bool
    ensures { result ≡ limits.is_retention days }
{
    (1..=365).contains(&days)
}

fn is_retention_given(days: Option<u32>) -> bool
    ensures { result ≡ limits.is_retention_given days }
{
    match days {
        None => true,
        Some(days) => is_retention(days),
    }
}

/// Whether an unlock can wait for so many days.
pub fn is_delay(days: u32) -> bool
    ensures { result ≡ limits.is_delay days }
{
    (7..=30).contains(&days)
}

/// Whether a rule with these resource tags can begin with a lock of the delay, where one is given.
pub fn is_first_delay(tags: &[RuleTag], delay: Option<u32>) -> bool
    ensures { result ≡ limits.is_first_delay tags.now delay }
{
    match delay {
        None => true,
        Some(delay) => match tags {
            [] => is_delay(delay),
            _ => false,
        },
    }
}

/// Whether there are 1 to 50 target tags, each within its limits and no key twice.
pub fn are_targets(targets: &[Tag]) -> bool
    ensures { result ≡ limits.are_targets targets.now }
{
    !targets.is_empty() && are_tags(targets)
}

fn is_schedule(hours: u32, at: u32) -> bool
    ensures { result ≡ limits.is_schedule hours at }
{
    is_interval(hours) && is_time_of_day(at)
}

/// Whether a day has a whole number of intervals of so many hours.
pub fn is_interval(hours: u32) -> bool
    ensures { result ≡ limits.is_interval hours }
{
    matches!(hours, 1 | 2 | 3 | 4 | 6 | 8 | 12 | 24)
}

/// Whether a day has the second, and a minute begins with it.
pub fn is_time_of_day(at: u32) -> bool
    ensures { result ≡ limits.is_time_of_day at }
{
    at < DAY && at % MINUTE == 0
}

/// Whether a policy can keep snapshots so.
pub fn is_retain(retain: Retain) -> bool
    ensures { result ≡ limits.is_retain retain }
{
    match retain {
        Retain::Count(count) => (1..=1000).contains(&count),
        Retain::Days(days) => (1..=36500).contains(&days),
        Retain::Weeks(weeks) => (1..=5200).contains(&weeks),
        Retain::Months(months) => (1..=1200).contains(&months),
        Retain::Years(years) => (1..=100).contains(&years),
    }
}

/// Whether there are at most 50 resource tags, each within its limits and no key twice.
pub fn are_rule_tags(tags: &[RuleTag]) -> bool
    ensures { result ≡ limits.are_rule_tags tags.now }
{
    tags.len() <= 50 && all_rule_tags_within(tags) && has_distinct_rule_keys(tags)
}

fn are_rule_tags_given(tags: &Option<RuleTags>) -> bool
    ensures { result ≡ limits.are_rule_tags_given tags.now }
{
    match tags {
        None => true,
        Some(tags) => are_rule_tags(tags.as_slice()),
    }
}

fn all_rule_tags_within(tags: &[RuleTag]) -> bool
    ensures { result ≡ list_all limits.is_rule_tag tags.now }
{
    tags.iter().all(|tag| is_rule_tag(tag))
}

fn is_rule_tag(tag: &RuleTag) -> bool
    ensures { result ≡ limits.is_rule_tag tag.now }
{
    !tag.key.is_empty() && tag.key.len() <= 128 && is_rule_value(&tag.value)
}

fn is_rule_value(value: &Option<Text>) -> bool
    ensures { result ≡ limits.is_rule_value value.now }
{
    match value {
        None => true,
        Some(value) => value.len() <= 256,
    }
}

fn has_distinct_rule_keys(tags: &[RuleTag]) -> bool
    ensures { result ≡ limits.has_distinct_rule_keys tags.now }
{
    match tags {
        [] => true,
        [tag, tags @ ..] => !has_rule_key(&tag.key, tags) && has_distinct_rule_keys(tags),
    }
}

fn has_rule_key(key: &Text, tags: &[RuleTag]) -> bool
    ensures { result ≡ limits.has_rule_key key.now tags.now }
{
    tags.iter().any(|tag| tag.key == *key)
}

/// Whether there are at most 1000 accounts, ascending and each once.
pub fn are_accounts(accounts: &[Account]) -> bool
    ensures { result ≡ limits.are_accounts accounts.now }
{
    accounts.len() <= 1000 && rises(accounts)
}

fn rises(accounts: &[Account]) -> bool
    ensures { result ≡ limits.rises accounts.now }
{
    match accounts {
        [] => true,
        [account, rest @ ..] => is_below(*account, rest) && rises(rest),
    }
}

fn is_below(account: Account, rest: &[Account]) -> bool
    ensures { result ≡ limits.is_below account rest.now }
{
    match rest {
        [] => true,
        [next, ..] => account.number() < next.number(),
    }
}

fn are_apart(add: &[Account], remove: &[Account]) -> bool
    ensures { result ≡ limits.are_apart add.now remove.now }
{
    add.iter().all(|account| !remove.contains(account))
}

fn unless(holds: bool, name: &'static str) -> Option<&'static str>
    ensures { option_map (λ name. name.now) result ≡ limits.unless holds name.now None }
{
    if holds { None } else { Some(name) }
}

fn has_ten_digits(number: u64) -> bool
    ensures { result ≡ limits.has_ten_digits number }
{
    number < MOST_DIGITS
}

/// Whether a description has at most 255 bytes.
pub fn is_description(description: &Option<Text>) -> bool
    ensures { result ≡ limits.is_description description.now }
{
    match description {
        None => true,
        Some(text) => text.len() <= 255,
    }
}

fn is_token_given(client_token: &Option<Text>) -> bool
    ensures { result ≡ limits.is_token_given client_token.now }
{
    match client_token {
        None => true,
        Some(text) => is_client_token(text.as_bytes()),
    }
}

/// Whether a client token has 1 to 255 bytes from 0x21 to 0x7e.
pub fn is_client_token(text: &[u8]) -> bool
    ensures { result ≡ limits.is_client_token text.now }
{
    !text.is_empty() && text.len() <= 255 && are_visible(text)
}

fn are_visible(text: &[u8]) -> bool
    ensures { result ≡ list_all limits.is_visible text.now }
{
    text.iter().all(|byte| (0x21..=0x7e).contains(byte))
}

/// Whether there are at most 50 tags, each within its limits and no key twice.
pub fn are_tags(tags: &[Tag]) -> bool
    ensures { result ≡ limits.are_tags tags.now }
{
    tags.len() <= 50 && all_within(tags) && has_distinct_keys(tags)
}

fn all_within(tags: &[Tag]) -> bool
    ensures { result ≡ list_all limits.is_tag tags.now }
{
    tags.iter().all(|tag| is_tag(tag))
}

fn is_tag(tag: &Tag) -> bool
    ensures { result ≡ limits.is_tag tag.now }
{
    !tag.key.is_empty() && tag.key.len() <= 128 && tag.value.len() <= 256
}

fn has_distinct_keys(tags: &[Tag]) -> bool
    ensures { result ≡ limits.has_distinct_keys tags.now }
{
    match tags {
        [] => true,
        [tag, tags @ ..] => !has_key(&tag.key, tags) && has_distinct_keys(tags),
    }
}

fn has_key(key: &Text, tags: &[Tag]) -> bool
    ensures { result ≡ limits.has_key key.now tags.now }
{
    tags.iter().any(|tag| tag.key == *key)
}
