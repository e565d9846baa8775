// Snapshots in the order of their starts.
ghost use Rattle.std.specs.Prelude.{◌≡◌, ◌≤◌, nat_le, map, IfOk};
ghost use Rattle.ebs_model.specs.declared.policy.Made.{Made};
ghost use Rattle.ebs_model.specs.Retention.{newer};
ghost use Rattle.ebs_lifecycle.specs.Retention.{rank_of, is_older};

use ebs_model::{Made, Moment, SnapKey};
use std::alloc::{AllocError, Global};

/// The place of a snapshot among those of its policy and volume: by start, then by key.
#[derive(Clone, Copy, Debug, PartialEq, Eq, PartialOrd, Ord)]
pub struct Rank {
    pub start: Moment,
    pub key: SnapKey,
}

pub fn rank_of(made: &Made) -> Rank
    ensures { result ≡ rank_of made.now }
{
    Rank {
        start: made.start,
        key: made.key,
    }
}

/// The oldest of so many newest ones. None where there are fewer.
pub fn oldest_of(alloc: Global, count: u32, made: &[Made]) -> Result<Option<Rank>, AllocError>
    requires count { 1 ≤ count }
    ensures { IfOk result
        (λ oldest. (m : Made) → is_older oldest m ≡ nat_le count (newer made.now m)) }
{
    let mut ranks = ranks_of(alloc, made)?;
    ranks.sort()?;
    let count = count as usize;
    if ranks.len() < count {
        return Ok(None);
    }
    Ok(Some(ranks[ranks.len() - count]))
}

fn ranks_of(alloc: Global, made: &[Made]) -> Result<Vec<Rank>, AllocError>
    ensures { IfOk result (λ ranks. ranks.items ≡ map rank_of made.now) }
{
    let mut ranks = Vec::new(alloc);
    for one in made {
        ranks.push(rank_of(one))?;
    }
    Ok(ranks)
}

/// Whether it is older than that rank.
pub fn is_older(oldest: &Option<Rank>, made: &Made) -> bool
    ensures { result ≡ is_older oldest.now made.now }
{
    match oldest {
        Some(oldest) => rank_of(made) < *oldest,
        None => false,
    }
}
