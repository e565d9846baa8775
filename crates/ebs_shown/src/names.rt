// The words of what has a name.
ghost use Rattle.std.specs.Prelude.{◌≡◌};
ghost use Rattle.ebs_shown.specs.Values as spec;

use crate::shown::Shown;
use ebs_model::{LockName, QuotaName, RowStatus, RuleLockName, Spent, StateName, TierName};
use serde_json::Value;
use std::alloc::{AllocError, Global};

pub fn lock_text(name: LockName) -> &'static str
    ensures { result.now ≡ spec.lock_text name }
{
    match name {
        LockName::Governance => "governance",
        LockName::CoolOff => "compliance-cooloff",
        LockName::Compliance => "compliance",
        LockName::Expired => "expired",
    }
}

impl Shown for LockName {
    ghost use Rattle.serde_json.specs.Data.{string};

    ghost shown = { λ name. string (spec.lock_text name) };

    fn to_value(&self, alloc: Global) -> Result<Value, AllocError> {
        Value::try_from_str(alloc, lock_text(*self))
    }
}

pub fn tier_text(name: TierName) -> &'static str
    ensures { result.now ≡ spec.tier_text name }
{
    match name {
        TierName::Standard => "standard",
        TierName::Archive => "archive",
        TierName::Temporary => "temporary",
    }
}

/// The status of a row.
pub fn row_status_text(status: RowStatus) -> &'static str
    ensures { result.now ≡ spec.row_status_text status }
{
    match status {
        RowStatus::Pending => "pending",
        RowStatus::Completed => "completed",
        RowStatus::Failed => "error",
    }
}

/// The state that a refusal names.
pub fn state_text(name: StateName) -> &'static str
    ensures { result.now ≡ spec.state_text name }
{
    match name {
        StateName::Pending => "pending",
        StateName::Completed => "completed",
        StateName::Error => "error",
        StateName::Archived => "archived",
        StateName::Standard => "standard",
        StateName::Temporary => "temporary",
        StateName::Unlocked => "unlocked",
        StateName::TagLevel => "tag-level",
    }
}

pub fn quota_text(what: QuotaName) -> &'static str
    ensures { result.now ≡ spec.quota_text what }
{
    match what {
        QuotaName::Snapshots => "snapshots",
        QuotaName::Volumes => "volumes",
        QuotaName::Rules => "rules",
        QuotaName::Policies => "policies",
        QuotaName::ClientTokens => "client-tokens",
        QuotaName::SharedAccounts => "shared-accounts",
        QuotaName::Ids => "ids",
    }
}

pub fn spent_text(spent: Spent) -> &'static str
    ensures { result.now ≡ spec.spent_text spent }
{
    match spent {
        Spent::Changes => "changes",
        Spent::Turns => "turns",
    }
}

/// The lock of a Recycle Bin rule.
pub fn rule_lock_text(name: RuleLockName) -> &'static str
    ensures { result.now ≡ spec.rule_lock_text name }
{
    match name {
        RuleLockName::Unlocked => "unlocked",
        RuleLockName::Locked => "locked",
        RuleLockName::Pending => "pending_unlock",
    }
}
