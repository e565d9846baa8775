// What a lock and a tier are at a moment.
ghost use Rattle.std.specs.Prelude.{◌≡◌};
ghost use Rattle.ebs_model.specs.Tiers as phases;

use crate::keys::Moment;
use crate::rows::{LockState, Tier};

/// What a lock is at a moment (EBS User Guide, snapshot lock).
#[derive(Clone, Copy, Debug, PartialEq, Eq)]
pub enum LockPhase {
    Unlocked,
    Governance,
    CoolOff,
    Compliance,
    Expired,
}

/// What a tier is at a moment (EBS User Guide, archive tier).
#[derive(Clone, Copy, Debug, PartialEq, Eq)]
pub enum TierPhase {
    Standard,
    Archived,
    /// Restored for a time.
    Temporary,
}

/// What the lock is at the moment.
pub fn lock_state(state: LockState, now: Moment) -> LockPhase
    ensures { result ≡ phases.lock_state state now.second }
{
    match state {
        LockState::None => LockPhase::Unlocked,
        LockState::Governance { until } | LockState::Compliance { until, .. }
            if until.second <= now.second => { LockPhase::Expired }
        LockState::Governance { .. } => LockPhase::Governance,
        LockState::Compliance { cool_end, .. } if now.second < cool_end.second => {
            LockPhase::CoolOff
        }
        LockState::Compliance { .. } => LockPhase::Compliance,
    }
}

/// What the tier is at the moment. After its end a temporary restore is archived again.
pub fn tier_at(tier: Tier, now: Moment) -> TierPhase
    ensures { result ≡ phases.tier_at tier now.second }
{
    match tier {
        Tier::Standard => TierPhase::Standard,
        Tier::Temporary { until } if now.second < until.second => TierPhase::Temporary,
        Tier::Archived | Tier::Temporary { .. } => TierPhase::Archived,
    }
}
