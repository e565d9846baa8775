// What an owner makes of one completed snapshot's lock or tier.
ghost use Rattle.std.specs.Prelude.{◌≡◌, ◌≤◌, ◌^◌};
ghost use Rattle.ebs_catalog.specs.Alters as alters;

use ebs_lock::lock_change;
use ebs_model::{LockCommand, LockState, Moment, Tier};
use ebs_tier::{archive, restore};

/// A command on the lock, or on the tier: a restore is for so many days, or for good.
#[derive(Clone, Copy, Debug)]
pub enum Alteration {
    Lock(LockCommand),
    Archive,
    Restore(Option<u32>),
}

/// The lock afterwards. A refusal leaves it.
pub(crate) fn lock_after(lock: LockState, alteration: Alteration, at: Moment) -> LockState
    requires moment { at.second ≤ 2 ^ 36 }
    ensures { result ≡ alters.lock_after at alteration lock }
{
    match alteration {
        Alteration::Lock(command) => lock_change(lock, command, at).unwrap_or(lock),
        _ => lock,
    }
}

/// The tier afterwards. A refusal leaves it.
pub(crate) fn tier_after(tier: Tier, alteration: Alteration, at: Moment) -> Tier
    requires moment { at.second ≤ 2 ^ 36 }
    ensures { result ≡ alters.tier_after at alteration tier }
{
    match alteration {
        Alteration::Lock(_) => tier,
        Alteration::Archive => archive(tier, at).unwrap_or(tier),
        Alteration::Restore(days) => restore(tier, days, at).unwrap_or(tier),
    }
}
