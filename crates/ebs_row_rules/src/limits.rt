// The limits of what a checkpoint says.
ghost use Rattle.std.specs.Prelude.{◌≡◌};
ghost use Rattle.std.specs.List.{list_all};
ghost use Rattle.ebs_records.specs.Records as records;
ghost use Rattle.ebs_row_rules.specs.Limits as limits;

use ebs_checkpoints::{
    AccountRow, Checkpoint, CopyRow, EntryRow, NodeRow, SnapPoint, TokenPoint, VolPoint,
};
use ebs_model::{
    GIB_BLOCKS, LAST_SECOND, LockState, MOST_CHANGES, MOST_GIB, MOST_IDS, MOST_SHARED, MOST_TOKENS,
    Moment, Policy, Request, Rule, RuleLock, Tier, VolKey, are_rule_tags, are_tags, are_targets,
    bad_member, is_client_token, is_delay, is_description, is_interval, is_retain, is_retention,
    is_size, is_size_given, is_time_of_day,
};
use ebs_records::Record;

/// The last moment at which a lock, a restore, a stay in the bin or a rule's lock can end.
const LAST_END: u64 = 1 << 37;

fn is_moment(at: Moment) -> bool
    ensures { result ≡ records.is_moment at }
{
    at.second <= LAST_SECOND
}

fn is_index(index: u32) -> bool
    ensures { result ≡ records.is_index index }
{
    u64::from(index) < GIB_BLOCKS * MOST_GIB
}

fn is_end(at: Moment) -> bool
    ensures { result ≡ limits.is_end at }
{
    at.second <= LAST_END
}

fn is_end_given(at: Option<Moment>) -> bool
    ensures { result ≡ limits.is_end_given at }
{
    match at {
        Some(at) => is_end(at),
        None => true,
    }
}

fn has_lock_end(lock: LockState) -> bool
    ensures { result ≡ limits.has_lock_end lock }
{
    match lock {
        LockState::None => true,
        LockState::Governance { until } => is_end(until),
        LockState::Compliance { until, cool_end } => is_end(until) && is_end(cool_end),
    }
}

fn has_restore_end(tier: Tier) -> bool
    ensures { result ≡ limits.has_restore_end tier }
{
    match tier {
        Tier::Standard => true,
        Tier::Archived => true,
        Tier::Temporary { until } => is_end(until),
    }
}

fn is_rule_lock(lock: RuleLock) -> bool
    ensures { result ≡ limits.is_rule_lock lock }
{
    match lock {
        RuleLock::Unlocked => true,
        RuleLock::Locked { delay } => is_delay(delay),
        RuleLock::Pending { end } => is_end(end),
    }
}

fn is_call_within(request: &Request) -> bool
    ensures { result ≡ limits.is_call_within request.now }
{
    match request {
        Request::StartSnapshot {
            size,
            parent: _,
            description: _,
            tags: _,
            client_token: _,
            timeout: _,
        } => is_size(*size) && bad_member(request).is_none(),
        Request::CreateVolume {
            origin: _,
            size,
            tags: _,
            client_token: _,
        } => is_size_given(*size) && bad_member(request).is_none(),
        _ => bad_member(request).is_none(),
    }
}

fn is_record_within(first: &Record) -> bool
    ensures { result ≡ limits.is_record_within first.now }
{
    match first {
        Record::Accepted(call) => is_moment(call.at) && is_call_within(&call.request),
        Record::Advance(_) => false,
        Record::Moved(_) => false,
    }
}

fn is_token_within(token: &TokenPoint) -> bool
    ensures { result ≡ limits.is_token_within token.now }
{
    is_client_token(token.text.as_bytes()) && is_moment(token.at) && is_record_within(&token.first)
}

fn are_tokens_within(tokens: &[TokenPoint]) -> bool
    ensures { result ≡ list_all limits.is_token_within tokens.now }
{
    tokens.iter().all(|token| is_token_within(token))
}

fn is_counter(next: u32) -> bool
    ensures { result ≡ limits.is_counter next }
{
    next <= MOST_IDS
}

fn is_account_within(account: &AccountRow) -> bool
    ensures { result ≡ limits.is_account_within account.now }
{
    is_counter(account.next_snap)
        && is_counter(account.next_vol)
        && is_counter(account.next_rule)
        && is_counter(account.next_policy)
        && account.tokens.len() as u64 <= MOST_TOKENS
        && are_tokens_within(account.tokens.as_slice())
}

/// Whether an upload can have the timeout, in minutes. A volume's snapshot has none.
fn is_timeout_of(volume: &Option<VolKey>, minutes: u32) -> bool
    ensures { result ≡ limits.is_timeout_of volume.now minutes }
{
    match volume {
        None => (10..=4320).contains(&minutes),
        Some(_) => minutes == 0,
    }
}

fn has_moments(row: &SnapPoint) -> bool
    ensures { result ≡ limits.has_moments row.now }
{
    is_moment(row.start) && is_moment(row.last) && is_timeout_of(&row.volume, row.timeout)
}

fn has_ends(row: &SnapPoint) -> bool
    ensures { result ≡ limits.has_ends row.now }
{
    has_lock_end(row.lock) && has_restore_end(row.tier) && is_end_given(row.bin_end)
}

fn is_told_within(row: &SnapPoint) -> bool
    ensures { result ≡ limits.is_told_within row.now }
{
    is_description(&row.description)
        && are_tags(row.tags.as_slice())
        && row.shared.len() as u64 <= MOST_SHARED
}

fn are_indexes(indexes: &[u32]) -> bool
    ensures { result ≡ list_all records.is_index indexes.now }
{
    indexes.iter().all(|index| is_index(*index))
}

fn are_copies_within(copies: &[CopyRow]) -> bool
    ensures { result ≡ list_all limits.has_copy_index copies.now }
{
    copies.iter().all(|copy| is_index(copy.index))
}

fn are_entries_within(entries: &[EntryRow]) -> bool
    ensures { result ≡ list_all limits.has_entry_index entries.now }
{
    entries.iter().all(|entry| is_index(entry.index))
}

fn is_snapshot_within(row: &SnapPoint) -> bool
    ensures { result ≡ limits.is_snapshot_within row.now }
{
    is_size(u64::from(row.size))
        && has_moments(row)
        && has_ends(row)
        && is_told_within(row)
        && are_indexes(row.put.as_slice())
        && are_copies_within(row.copies.as_slice())
}

fn is_volume_within(point: &VolPoint) -> bool
    ensures { result ≡ limits.is_volume_within point.now }
{
    is_size(u64::from(point.row.size)) && are_tags(point.row.tags.as_slice())
}

fn is_rule_within(rule: &Rule) -> bool
    ensures { result ≡ limits.is_rule_within rule.now }
{
    is_retention(rule.days)
        && are_rule_tags(rule.tags.as_slice())
        && is_description(&rule.description)
        && is_rule_lock(rule.lock)
}

fn is_policy_within(policy: &Policy) -> bool
    ensures { result ≡ limits.is_policy_within policy.now }
{
    are_targets(policy.targets.as_slice())
        && is_interval(policy.hours)
        && is_time_of_day(policy.at)
        && is_retain(policy.retain)
        && are_tags(policy.add.as_slice())
        && is_moment(policy.last)
}

fn is_node_within(node: &NodeRow) -> bool
    ensures { result ≡ limits.is_node_within node.now }
{
    are_entries_within(node.entries.as_slice())
}

fn are_accounts_within(accounts: &[AccountRow]) -> bool
    ensures { result ≡ list_all limits.is_account_within accounts.now }
{
    accounts.iter().all(|account| is_account_within(account))
}

fn are_snapshots_within(rows: &[SnapPoint]) -> bool
    ensures { result ≡ list_all limits.is_snapshot_within rows.now }
{
    rows.iter().all(|row| is_snapshot_within(row))
}

fn are_volumes_within(points: &[VolPoint]) -> bool
    ensures { result ≡ list_all limits.is_volume_within points.now }
{
    points.iter().all(|point| is_volume_within(point))
}

fn are_rules_within(rules: &[Rule]) -> bool
    ensures { result ≡ list_all limits.is_rule_within rules.now }
{
    rules.iter().all(|rule| is_rule_within(rule))
}

fn are_policies_within(policies: &[Policy]) -> bool
    ensures { result ≡ list_all limits.is_policy_within policies.now }
{
    policies.iter().all(|policy| is_policy_within(policy))
}

fn are_nodes_within(nodes: &[NodeRow]) -> bool
    ensures { result ≡ list_all limits.is_node_within nodes.now }
{
    nodes.iter().all(|node| is_node_within(node))
}

/// Whether every number of a checkpoint is within its limits, but for what an account can have of a kind.
pub fn is_within(point: &Checkpoint) -> bool
    ensures { result ≡ limits.is_within point.now }
{
    is_moment(point.clock)
        && point.accepted <= MOST_CHANGES
        && are_accounts_within(point.accounts.as_slice())
        && are_snapshots_within(point.snapshots.as_slice())
        && are_volumes_within(point.volumes.as_slice())
        && are_rules_within(point.rules.as_slice())
        && are_policies_within(point.policies.as_slice())
        && are_nodes_within(point.nodes.as_slice())
}
