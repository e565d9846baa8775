// What is shown of a snapshot's row.
ghost use Rattle.std.specs.Prelude.{◌≡◌};
ghost use Rattle.ebs_model.specs.Views as views;

use crate::keys::{Account, Moment, SnapKey, VolKey};
use crate::phases::{LockPhase, TierPhase, lock_state, tier_at};
use crate::rows::{LockState, RowStatus, Tier};
use crate::tags::{Accounts, Tags};
use crate::text::Text;
use ebs_tables::Sequence;

/// A lock, as it is shown.
#[derive(Clone, Copy, Debug, PartialEq, Eq)]
pub enum LockName {
    Governance,
    CoolOff,
    Compliance,
    Expired,
}

/// A tier, as it is shown.
#[derive(Clone, Copy, Debug, PartialEq, Eq)]
pub enum TierName {
    Standard,
    Archive,
    /// Restored for a time.
    Temporary,
}

/// Who beside the owner may read a snapshot: these accounts, or everybody where it is public.
#[derive(Debug, Drop)]
pub struct Permission {
    pub accounts: Accounts,
    pub public: bool,
}

/// A snapshot's row as it is shown to a caller. The size is in GiB. `lock`, `lock_until` and `permission` are there
/// for its owner alone, `bin_end` while it is in the bin, and `restore_until` while it is restored for a time.
#[derive(Debug, Drop)]
pub struct SnapView {
    pub bin_end: Option<Moment>,
    pub description: Option<Text>,
    pub lock: Option<LockName>,
    pub lock_until: Option<Moment>,
    pub owner: Account,
    pub parent: Option<SnapKey>,
    pub permission: Option<Permission>,
    pub restore_until: Option<Moment>,
    pub key: SnapKey,
    pub start: Moment,
    pub status: RowStatus,
    pub tier: TierName,
    pub tags: Tags,
    pub volume: Option<VolKey>,
    pub size: u64,
}

/// Rows in ascending number.
pub type SnapViews = Sequence<SnapView>;

/// The lock at the moment, as its owner sees it.
pub fn lock_shown(state: LockState, now: Moment) -> Option<LockName>
    ensures { result ≡ views.lock_shown state now.second }
{
    match lock_state(state, now) {
        LockPhase::Unlocked => None,
        LockPhase::Governance => Some(LockName::Governance),
        LockPhase::CoolOff => Some(LockName::CoolOff),
        LockPhase::Compliance => Some(LockName::Compliance),
        LockPhase::Expired => Some(LockName::Expired),
    }
}

/// The end of the lock, where there is one.
pub fn lock_until(state: LockState) -> Option<Moment>
    ensures { result ≡ views.lock_until state }
{
    match state {
        LockState::None => None,
        LockState::Governance { until } => Some(until),
        LockState::Compliance { until, .. } => Some(until),
    }
}

/// The tier at the moment.
pub fn tier_shown(tier: Tier, now: Moment) -> TierName
    ensures { result ≡ views.tier_shown tier now.second }
{
    match tier_at(tier, now) {
        TierPhase::Standard => TierName::Standard,
        TierPhase::Archived => TierName::Archive,
        TierPhase::Temporary => TierName::Temporary,
    }
}

/// The end of a temporary restore that lasts.
pub fn restore_until(tier: Tier, now: Moment) -> Option<Moment>
    ensures { result ≡ views.restore_until tier now.second }
{
    match tier {
        Tier::Temporary { until } if now.second < until.second => Some(until),
        _ => None,
    }
}
