// Recycle Bin rules: what a rule is, what is asked of rules, and how one is shown.
ghost use Rattle.std.specs.Prelude.{◌≡◌, ◌≤◌, ◌^◌};
ghost use Rattle.ebs_model.specs.Rules as rules;

use crate::keys::{Moment, RuleKey};
use crate::text::Text;
use ebs_tables::Sequence;

const DAY: u64 = 86400;

/// A resource tag of a rule: a key of 1 to 128 bytes, and a value of at most 256 bytes where one is asked for.
#[derive(Debug, Drop, PartialEq, Eq)]
pub struct RuleTag {
    pub key: Text,
    pub value: Option<Text>,
}

/// Resource tags in the order in which they were given. A rule of the whole account has none.
pub type RuleTags = Sequence<RuleTag>;

/// The lock of a rule (Recycle Bin documentation, rule lock). A delay is in days.
#[derive(Clone, Copy, Debug, PartialEq, Eq)]
pub enum RuleLock {
    Unlocked,
    Locked { delay: u32 },
    /// It is unlocked from the end on.
    Pending { end: Moment },
}

/// A retention rule. A snapshot that it matches stays in the bin for so many days.
#[derive(Debug, Drop)]
pub struct Rule {
    pub key: RuleKey,
    pub days: u32,
    pub tags: RuleTags,
    pub description: Option<Text>,
    pub lock: RuleLock,
}

/// What an accepted command changes.
#[derive(Debug, Drop)]
pub enum RuleChange {
    Put(Rule),
    Remove(RuleKey),
}

/// A command on rules. What an update doesn't give stays.
#[derive(Debug, Drop)]
pub enum RuleCommand {
    Create {
        days: u32,
        tags: RuleTags,
        description: Option<Text>,
        delay: Option<u32>,
    },
    Update {
        key: RuleKey,
        days: Option<u32>,
        tags: Option<RuleTags>,
        description: Option<Text>,
    },
    Delete {
        key: RuleKey,
    },
    Lock {
        key: RuleKey,
        delay: u32,
    },
    Unlock {
        key: RuleKey,
    },
}

/// Why a command is refused.
#[derive(Clone, Copy, Debug, PartialEq, Eq)]
pub enum RuleRefusal {
    /// E9: the account has no such rule.
    NotFound,
    /// E6: a rule with tags can't be locked.
    TagLevel,
    /// E6: the rule isn't locked.
    Unlocked,
    /// E15: the rule is locked, or waits for its unlock.
    Locked,
    /// E13: the account has 50 rules.
    TooMany,
    /// E13: the account's numbers of rules are spent.
    NoNumber,
}

/// A rule's lock, as it is shown.
#[derive(Clone, Copy, Debug, PartialEq, Eq)]
pub enum RuleLockName {
    Unlocked,
    Locked,
    /// Its unlock waits for the delay.
    Pending,
}

/// A rule as it is shown. `lock_end` is there while an unlock waits, and `days` are those that a snapshot stays in the bin.
#[derive(Debug, Drop)]
pub struct RuleView {
    pub description: Option<Text>,
    pub key: RuleKey,
    pub lock_end: Option<Moment>,
    pub lock: RuleLockName,
    pub tags: RuleTags,
    pub days: u32,
}

/// Rules in ascending number.
pub type RuleViews = Sequence<RuleView>;

/// What the lock is at the moment. From its end on a pending one is unlocked.
pub fn rule_lock_at(lock: RuleLock, now: Moment) -> RuleLock
    ensures { result ≡ rules.lock_at lock now.second }
{
    match lock {
        RuleLock::Pending { end } if end.second <= now.second => RuleLock::Unlocked,
        other => other,
    }
}

/// The name of a lock.
pub fn rule_lock_name(lock: RuleLock) -> RuleLockName
    ensures { result ≡ rules.lock_name lock }
{
    match lock {
        RuleLock::Unlocked => RuleLockName::Unlocked,
        RuleLock::Locked { .. } => RuleLockName::Locked,
        RuleLock::Pending { .. } => RuleLockName::Pending,
    }
}

/// The end of an unlock that waits.
pub fn rule_lock_end(lock: RuleLock) -> Option<Moment>
    ensures { result ≡ rules.lock_end lock }
{
    match lock {
        RuleLock::Pending { end } => Some(end),
        _ => None,
    }
}

/// So many days from now, each of 86400 seconds.
pub fn bin_end(now: Moment, days: u32) -> Moment
    requires { now.second ≤ 2 ^ 36 }
    ensures { result ≡ rules.bin_end now.second days }
{
    Moment {
        second: now.second + DAY * u64::from(days),
    }
}
