// A tier by its owner's commands.
ghost use Rattle.std.specs.Prelude.{◌≡◌, ◌≤◌, ◌^◌};
ghost use Rattle.ebs_model.specs.Tiers as tiers;

use ebs_model::{Moment, Tier, TierPhase, tier_at};

const DAY: u64 = 86400;

/// A snapshot of the standard tier goes to the archive. The `Err` is the phase that forbids it.
pub fn archive(tier: Tier, now: Moment) -> Result<Tier, TierPhase>
    ensures { result ≡ tiers.archive tier now.second }
{
    match tier_at(tier, now) {
        TierPhase::Standard => Ok(Tier::Archived),
        phase => Err(phase),
    }
}

/// A snapshot comes back for 1 to 180 days, or for good. Given during a temporary restore it sets a new end. The `Err`
/// is the phase that forbids it.
pub fn restore(tier: Tier, days: Option<u32>, now: Moment) -> Result<Tier, TierPhase>
    requires now { now.second ≤ 2 ^ 36 }
    ensures { result ≡ tiers.restore tier days now.second }
{
    match (tier_at(tier, now), days) {
        (TierPhase::Standard, _) => Err(TierPhase::Standard),
        (_, None) => Ok(Tier::Standard),
        (_, Some(days)) => Ok(Tier::Temporary {
            until: Moment {
                second: now.second + DAY * u64::from(days),
            },
        }),
    }
}
