// What a policy gives up.
ghost use Rattle.std.specs.Prelude.{◌≡◌, ◌≤◌, ◌^◌, true, not, ◌&&◌, map, IfOk};
ghost use Rattle.std.specs.List.{filter};
ghost use Rattle.ebs_model.specs.declared.keys.AnyKey.TheVariants.{Snap};
ghost use Rattle.ebs_model.specs.Limits.{is_retain};
ghost use Rattle.ebs_model.specs.Retention as rule;
ghost use Rattle.ebs_lifecycle.specs.Retention as retention;

use crate::calendar::months_after;
use crate::ranks::{Rank, is_older, oldest_of};
use ebs_model::{AnyKey, Ids, Made, Moment, Policy, Retain, SnapKey};
use std::alloc::{AllocError, Global};

/// What a policy gives up: the snapshots that are deleted, and those that are released from it. Both ascend by key.
#[derive(Debug, Drop)]
pub struct Picked {
    pub ended: Ids,
    pub released: Ids,
}

const DAY: u64 = 86400;

const WEEK: u64 = 604800;

/// What a policy gives up of the snapshots that it made of one volume. The `Err` is want of memory alone.
pub fn to_delete(
    alloc: Global,
    policy: &Policy,
    made: &[Made],
    now: Moment,
) -> Result<Picked, AllocError>
    requires retain { is_retain policy.now.retain ≡ true }
    requires starts { retention.AreStarted made.now }
    ensures ended { IfOk result
        (λ p. retention.AreInOrder (retention.keys_of (rule.is_ended policy.now.retain made.now now.second) made.now) p.ended) }
    ensures released { IfOk result
        (λ p. retention.AreInOrder (retention.keys_of (rule.is_released policy.now.retain made.now now.second) made.now) p.released) }
    ensures ended_there { IfOk result
        (λ p. retention.Ascend made.now → p.ended ≡ map Snap (retention.keys_of (rule.is_ended policy.now.retain made.now now.second) made.now)) }
    ensures released_there { IfOk result
        (λ p. retention.Ascend made.now → p.released ≡ map Snap (retention.keys_of (rule.is_released policy.now.retain made.now now.second) made.now)) }
{
    let picked = pick(alloc, policy.retain, made, now)?;
    let ended = ended_keys(alloc, picked.as_slice())?;
    let released = released_keys(alloc, picked.as_slice())?;
    Ok(Picked {
        ended: in_order(alloc, ended)?,
        released: in_order(alloc, released)?,
    })
}

/// Those that have newer ones enough, or the age.
fn pick(alloc: Global, retain: Retain, made: &[Made], now: Moment) -> Result<Vec<Made>, AllocError>
    requires retain { is_retain retain ≡ true }
    requires starts { retention.AreStarted made.now }
    ensures { IfOk result
        (λ picked. picked.items ≡ filter (rule.is_picked retain made.now now.second) made.now) }
{
    match retain {
        Retain::Count(count) => {
            let oldest = oldest_of(alloc, count, made)?;
            older(alloc, &oldest, made)
        }
        age => aged(alloc, age, made, now),
    }
}

fn older(alloc: Global, oldest: &Option<Rank>, made: &[Made]) -> Result<Vec<Made>, AllocError>
    ensures { IfOk result
        (λ picked. picked.items ≡ filter (retention.is_older oldest.now) made.now) }
{
    let mut picked = Vec::new(alloc);
    for one in made {
        if is_older(oldest, one) {
            picked.push(*one)?;
        }
    }
    Ok(picked)
}

fn aged(alloc: Global, age: Retain, made: &[Made], now: Moment) -> Result<Vec<Made>, AllocError>
    requires age { is_retain age ≡ true }
    requires starts { retention.AreStarted made.now }
    ensures { IfOk result
        (λ picked. picked.items ≡ filter (rule.is_aged age now.second) made.now) }
{
    let mut picked = Vec::new(alloc);
    for one in made {
        if is_aged(age, *one, now) {
            picked.push(*one)?;
        }
    }
    Ok(picked)
}

/// Whether it has the age.
fn is_aged(age: Retain, made: Made, now: Moment) -> bool
    requires age { is_retain age ≡ true }
    requires start { made.start.second ≤ 2 ^ 36 }
    ensures { result ≡ rule.is_aged age now.second made }
{
    let start = made.start;
    match age {
        Retain::Count(_) => false,
        Retain::Days(days) => start.second + DAY * u64::from(days) <= now.second,
        Retain::Weeks(weeks) => start.second + WEEK * u64::from(weeks) <= now.second,
        Retain::Months(months) => months_after(start, months).second <= now.second,
        Retain::Years(years) => months_after(start, 12 * years).second <= now.second,
    }
}

/// Those that are deleted.
fn ended_keys(alloc: Global, picked: &[Made]) -> Result<Vec<SnapKey>, AllocError>
    ensures { IfOk result
        (λ keys. keys.items ≡ retention.keys_of (λ m. not m.locked && not m.archived) picked.now) }
{
    let mut keys = Vec::new(alloc);
    for one in picked {
        if !one.locked && !one.archived {
            keys.push(one.key)?;
        }
    }
    Ok(keys)
}

/// Those that are released.
fn released_keys(alloc: Global, picked: &[Made]) -> Result<Vec<SnapKey>, AllocError>
    ensures { IfOk result (λ keys. keys.items ≡ retention.keys_of (λ m. m.locked) picked.now) }
{
    let mut keys = Vec::new(alloc);
    for one in picked {
        if one.locked {
            keys.push(one.key)?;
        }
    }
    Ok(keys)
}

fn in_order(alloc: Global, keys: Vec<SnapKey>) -> Result<Ids, AllocError>
    ensures { IfOk result (retention.AreInOrder keys.items) }
{
    let mut keys = keys;
    keys.sort()?;
    let mut ids = Ids::new(alloc);
    for key in keys.as_slice() {
        ids.push(AnyKey::Snap(*key))?;
    }
    Ok(ids)
}
