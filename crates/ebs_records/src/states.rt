// Locks, tiers and what policies keep.
ghost use Rattle.std.specs.Prelude.{◌≡◌, ◌∷◌, [], IfSome, IfNone};

use crate::codec::{Codec, Unread};
use crate::input::Input;
use ebs_model::{LockState, Moment, Retain, RuleLock, Tier};
use std::alloc::{AllocError, Global};

/// The place of an enum's case.
fn take_place(input: &mut Input) -> Option<u8>
    ensures some { IfSome result (λ place. input.old ≡ place ∷ input.new) }
    ensures none { IfNone result (input.old ≡ []) }
{
    match input.take(1) {
        Some([place]) => Some(*place),
        _ => None,
    }
}

impl Codec for LockState {
    ghost use Rattle.ebs_records.specs.inner.States.{apart_lock};
    ghost use Rattle.ebs_records.specs.States.{IsLock, lock};

    ghost fits = { IsLock };

    ghost spelled = { lock };

    ghost apart = { apart_lock };

    fn write(&self, out: &mut Vec<u8>) -> Result<(), AllocError> {
        match self {
            LockState::None => Ok(out.push(0)?),
            LockState::Governance { until } => {
                out.push(1)?;
                until.write(out)
            }
            LockState::Compliance { until, cool_end } => {
                out.push(2)?;
                until.write(out)?;
                cool_end.write(out)
            }
        }
    }

    fn read(alloc: Global, input: &mut Input) -> Result<LockState, Unread> {
        match take_place(input) {
            Some(0) => Ok(LockState::None),
            Some(1) => Ok(LockState::Governance {
                until: Moment::read(alloc, input)?,
            }),
            Some(2) => {
                let (until, cool_end) = <(Moment, Moment)>::read(alloc, input)?;
                Ok(LockState::Compliance { until, cool_end })
            }
            _ => Err(Unread::Malformed),
        }
    }
}

impl Codec for Tier {
    ghost use Rattle.ebs_records.specs.inner.States.{apart_tier};
    ghost use Rattle.ebs_records.specs.States.{IsTier, tier};

    ghost fits = { IsTier };

    ghost spelled = { tier };

    ghost apart = { apart_tier };

    fn write(&self, out: &mut Vec<u8>) -> Result<(), AllocError> {
        match self {
            Tier::Standard => Ok(out.push(0)?),
            Tier::Archived => Ok(out.push(1)?),
            Tier::Temporary { until } => {
                out.push(2)?;
                until.write(out)
            }
        }
    }

    fn read(alloc: Global, input: &mut Input) -> Result<Tier, Unread> {
        match input.take(1) {
            Some([0]) => Ok(Tier::Standard),
            Some([1]) => Ok(Tier::Archived),
            Some([2]) => Ok(Tier::Temporary {
                until: Moment::read(alloc, input)?,
            }),
            _ => Err(Unread::Malformed),
        }
    }
}

impl Codec for RuleLock {
    ghost use Rattle.ebs_records.specs.inner.States.{apart_rule_lock};
    ghost use Rattle.ebs_records.specs.States.{IsRuleLock, rule_lock};

    ghost fits = { IsRuleLock };

    ghost spelled = { rule_lock };

    ghost apart = { apart_rule_lock };

    fn write(&self, out: &mut Vec<u8>) -> Result<(), AllocError> {
        match self {
            RuleLock::Unlocked => Ok(out.push(0)?),
            RuleLock::Locked { delay } => {
                out.push(1)?;
                delay.write(out)
            }
            RuleLock::Pending { end } => {
                out.push(2)?;
                end.write(out)
            }
        }
    }

    fn read(alloc: Global, input: &mut Input) -> Result<RuleLock, Unread> {
        match input.take(1) {
            Some([0]) => Ok(RuleLock::Unlocked),
            Some([1]) => Ok(RuleLock::Locked {
                delay: u32::read(alloc, input)?,
            }),
            Some([2]) => Ok(RuleLock::Pending {
                end: Moment::read(alloc, input)?,
            }),
            _ => Err(Unread::Malformed),
        }
    }
}

impl Codec for Retain {
    ghost use Rattle.ebs_records.specs.States.{IsRetain, retain};
    ghost use Rattle.ebs_records.specs.inner.States.{apart_retain};

    ghost fits = { IsRetain };

    ghost spelled = { retain };

    ghost apart = { apart_retain };

    fn write(&self, out: &mut Vec<u8>) -> Result<(), AllocError> {
        match self {
            Retain::Count(number) => {
                out.push(0)?;
                number.write(out)
            }
            Retain::Days(number) => {
                out.push(1)?;
                number.write(out)
            }
            Retain::Weeks(number) => {
                out.push(2)?;
                number.write(out)
            }
            Retain::Months(number) => {
                out.push(3)?;
                number.write(out)
            }
            Retain::Years(number) => {
                out.push(4)?;
                number.write(out)
            }
        }
    }

    fn read(alloc: Global, input: &mut Input) -> Result<Retain, Unread> {
        match input.take(1) {
            Some([0]) => Ok(Retain::Count(u32::read(alloc, input)?)),
            Some([1]) => Ok(Retain::Days(u32::read(alloc, input)?)),
            Some([2]) => Ok(Retain::Weeks(u32::read(alloc, input)?)),
            Some([3]) => Ok(Retain::Months(u32::read(alloc, input)?)),
            Some([4]) => Ok(Retain::Years(u32::read(alloc, input)?)),
            _ => Err(Unread::Malformed),
        }
    }
}
