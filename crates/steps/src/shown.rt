// An answer in a few words.
use crate::shown_lists::{
    shown_blocks, shown_changes, shown_row, shown_rows, shown_rules, shown_run,
};
use crate::shown_refusals::shown_refusal;
use ebs_model::{Answer, LockName, Moment, PolicyKey, RuleView, SnapKey, Tags, TierName, VolKey};
use sha2::{Digest, Sha256};
use std::alloc::{AllocError, Global};

/// The answer: of a refusal its number, and of a digest its first two bytes.
pub fn shown(alloc: Global, answer: &Answer) -> Result<String, AllocError> {
    match answer {
        Answer::Started {
            key,
            start,
            tags,
            ..
        } => shown_start(alloc, key, *start, tags),
        Answer::BlockWritten { digest } => shown_digest(alloc, "written", digest),
        Answer::Completed => String::from_str(alloc, "completed"),
        Answer::BlockList { entries, .. } => shown_blocks(alloc, entries.as_slice()),
        Answer::ChangedList { entries, .. } => shown_changes(alloc, entries.as_slice()),
        Answer::BlockRead { digest, bytes } => shown_block(alloc, digest, bytes.as_slice()),
        Answer::ZeroBlockRead => String::from_str(alloc, "zeros"),
        Answer::SnapshotShown { row, .. } => shown_row(alloc, row),
        Answer::SnapshotList { next, rows } => shown_rows(alloc, rows.as_slice(), *next),
        Answer::Done => String::from_str(alloc, "done"),
        Answer::LockShown { lock, until } => shown_lock(alloc, *lock, *until),
        Answer::TierShown {
            restore_until,
            tier,
        } => shown_tier(alloc, *tier, *restore_until),
        Answer::VolumeShown { size, key, .. } => shown_volume(alloc, key, *size),
        Answer::RuleShown { row, .. } => shown_rule(alloc, row),
        Answer::RuleList { rows } => shown_rules(alloc, rows.as_slice()),
        Answer::PolicyShown { key, last, .. } => shown_policy(alloc, key, *last),
        Answer::PolicyRan { deleted, made } => {
            shown_run(alloc, made.as_slice(), deleted.as_slice())
        }
        Answer::Refused(refusal) => shown_refusal(alloc, refusal),
        Answer::Memory => String::from_str(alloc, "memory"),
    }
}

fn shown_start(
    alloc: Global,
    key: &SnapKey,
    start: Moment,
    tags: &Tags,
) -> Result<String, AllocError> {
    let number = key.number.number();
    let second = start.second;
    let count = tags.as_slice().len();
    if count == 0 {
        format!(in alloc; "started {number} at {second}")
    } else {
        format!(in alloc; "started {number} at {second} with {count} tags")
    }
}

pub fn shown_digest(alloc: Global, what: &str, digest: &[u8; 32]) -> Result<String, AllocError> {
    let first = digest[0];
    let second = digest[1];
    format!(in alloc; "{what} {first:02x}{second:02x}")
}

fn shown_block(alloc: Global, digest: &[u8; 32], bytes: &[u8]) -> Result<String, AllocError> {
    if Sha256::digest(bytes) != *digest {
        return String::from_str(alloc, "damaged");
    }
    shown_digest(alloc, "read", digest)
}

fn until_text(alloc: Global, until: Option<Moment>) -> Result<String, AllocError> {
    match until {
        Some(until) => {
            let second = until.second;
            format!(in alloc; " {second}")
        }
        None => Ok(String::new(alloc)),
    }
}

fn shown_lock(alloc: Global, lock: LockName, until: Option<Moment>) -> Result<String, AllocError> {
    let until = until_text(alloc, until)?;
    format!(in alloc; "lock {lock:?}{until}")
}

fn shown_tier(alloc: Global, tier: TierName, until: Option<Moment>) -> Result<String, AllocError> {
    let until = until_text(alloc, until)?;
    format!(in alloc; "tier {tier:?}{until}")
}

fn shown_volume(alloc: Global, key: &VolKey, size: u64) -> Result<String, AllocError> {
    let number = key.number.number();
    format!(in alloc; "volume {number} of {size}")
}

fn shown_rule(alloc: Global, row: &RuleView) -> Result<String, AllocError> {
    let number = row.key.number.number();
    let days = row.days;
    let lock = row.lock;
    let until = until_text(alloc, row.lock_end)?;
    format!(in alloc; "rule {number} of {days} days {lock:?}{until}")
}

fn shown_policy(alloc: Global, key: &PolicyKey, last: Moment) -> Result<String, AllocError> {
    let number = key.number.number();
    let second = last.second;
    format!(in alloc; "policy {number} ran {second}")
}
