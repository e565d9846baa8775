// What owners make of their snapshots' tiers.
ghost use Rattle.std.specs.Prelude.{◌≡◌, ◌≤◌, ◌^◌};
ghost use Rattle.ebs_model.specs.Calls.Archive as calls;
ghost use Rattle.ebs_model.specs.declared.answer.Refusal.TheVariants.{WrongState};
ghost use Rattle.ebs_model.specs.inner.Follows.{Agrees};

use crate::catalog::Catalog;
use ebs_model::{
    Account, Answer, Decision, Failure, Ids, Kind, Moment, Refusal, Request, SnapKey, StateName,
    TierPhase, check_done, restore_until, tier_shown,
};
use ebs_tier::{archive, restore};

impl Catalog {
    ghost use Rattle.ebs_model.specs.inner.Rows.{aged};
    ghost use Rattle.ebs_model.specs.Calls.Archive.{decide_archive, decide_restore};
    ghost use Rattle.ebs_catalog.specs.Held.{rows_in};
    ghost use Rattle.ebs_catalog.specs.Wants.{OnMemory};

    /// Whether the snapshot goes to the archive.
    pub(crate) fn decide_archive(
        &self,
        account: Account,
        at: Moment,
        key: &SnapKey,
    ) -> Result<Decision, Failure>
        ensures decided { Agrees result (decide_archive (aged at.second (rows_in self.now)) at account key.now) }
        ensures memory { OnMemory result ⊥ }
    {
        let Some(kept) = self.row_at(key, at) else {
            return Err(Failure::Refused(Refusal::NotFound(Kind::Snapshot)));
        };
        if let Err(refusal) = check_done(&kept.row, account, key, at) {
            return Err(Failure::Refused(refusal));
        }
        if let Err(phase) = archive(kept.row.tier, at) {
            return Err(Failure::Refused(wrong_tier(phase)));
        }
        let request = Request::ArchiveSnapshot { key: *key };
        let change = self.change(account, at, request, Ids::new(self.alloc()));
        Ok(Decision::Change(change, Answer::Done))
    }

    /// Whether the snapshot comes back from the archive, for so many days or for good.
    pub(crate) fn decide_restore(
        &self,
        account: Account,
        at: Moment,
        key: &SnapKey,
        days: Option<u32>,
    ) -> Result<Decision, Failure>
        requires moment { at.second ≤ 2 ^ 36 }
        ensures decided { Agrees result (decide_restore (aged at.second (rows_in self.now)) at account key.now days) }
        ensures memory { OnMemory result ⊥ }
    {
        let Some(kept) = self.row_at(key, at) else {
            return Err(Failure::Refused(Refusal::NotFound(Kind::Snapshot)));
        };
        if let Err(refusal) = check_done(&kept.row, account, key, at) {
            return Err(Failure::Refused(refusal));
        }
        match restore(kept.row.tier, days, at) {
            Ok(tier) => {
                let request = Request::RestoreTier { key: *key, days };
                let change = self.change(account, at, request, Ids::new(self.alloc()));
                let answer = Answer::TierShown {
                    restore_until: restore_until(tier, at),
                    tier: tier_shown(tier, at),
                };
                Ok(Decision::Change(change, answer))
            }
            Err(phase) => Err(Failure::Refused(wrong_tier(phase))),
        }
    }
}

fn wrong_tier(phase: TierPhase) -> Refusal
    ensures { result ≡ WrongState (calls.tier_state phase) }
{
    Refusal::WrongState(match phase {
        TierPhase::Standard => StateName::Standard,
        TierPhase::Archived => StateName::Archived,
        TierPhase::Temporary => StateName::Temporary,
    })
}
