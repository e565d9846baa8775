// Snapshots that are deleted, or taken from the bin.
ghost use Rattle.std.specs.Prelude.{◌≡◌};
ghost use Rattle.ebs_model.specs.Calls.Delete.{refuse_locked};
ghost use Rattle.ebs_model.specs.Views.{lock_until};
ghost use Rattle.ebs_model.specs.inner.Follows.{Agrees};

use crate::catalog::Catalog;
use crate::decides::one_id;
use crate::shows::is_ahead;
use crate::views::view_of;
use ebs_model::{
    Account, Answer, AnyKey, Decision, Failure, Ids, Kind, LockState, Moment, Refusal, Request,
    RowStatus, SnapKey, StateName, check_own, lock_until, status_at,
};

impl Catalog {
    ghost use Rattle.std.specs.Prelude.{◌≤◌, ◌^◌, not, true, false};
    ghost use Rattle.ebs_model.specs.declared.keys.SnapKey.{SnapKey};
    ghost use Rattle.std.specs.List.{filter};
    ghost use Rattle.std.specs.FinMap as map;
    ghost use Rattle.ebs_model.specs.inner.Rows.{aged};
    ghost use Rattle.ebs_model.specs.Rows.{is_key};
    ghost use Rattle.ebs_model.specs.Calls.Delete.{decide_delete, commit_delete};
    ghost use Rattle.ebs_model.specs.Calls.Bin.{decide_recover, commit_recover};
    ghost use Rattle.ebs_catalog.specs.Held.{rows_in, stale};
    ghost use Rattle.ebs_catalog.specs.Decided.{IsThere, IsBinned};
    ghost use Rattle.ebs_catalog.specs.Wants.{OnMemory, IsSettled};

    /// Whether the snapshot is taken out.
    pub(crate) fn decide_delete(
        &self,
        account: Account,
        at: Moment,
        key: &SnapKey,
    ) -> Result<Decision, Failure>
        ensures decided { Agrees result (decide_delete (aged at.second (rows_in self.now)) at account key.now) }
        ensures memory { OnMemory result (IsSettled (decide_delete (aged at.second (rows_in self.now)) at account key.now)) }
    {
        let Some(kept) = self.row_at(key, at) else {
            return Err(Failure::Refused(Refusal::NotFound(Kind::Snapshot)));
        };
        if let Err(refusal) = check_own(&kept.row, account, key, at) {
            return Err(Failure::Refused(refusal));
        }
        if status_at(&kept.row, at) == RowStatus::Pending {
            return Err(Failure::Refused(Refusal::WrongState(StateName::Pending)));
        }
        if let Err(refusal) = check_lock(kept.row.lock, at) {
            return Err(Failure::Refused(refusal));
        }
        let alloc = self.alloc();
        let ended = one_id(alloc, AnyKey::Snap(*key))?;
        let request = Request::DeleteSnapshot { key: *key };
        let mut change = self.change(account, at, request, Ids::new(alloc));
        change.ended = ended;
        Ok(Decision::Change(change, Answer::Done))
    }

    /// Whether the snapshot is taken from the bin.
    pub(crate) fn decide_recover(
        &self,
        account: Account,
        at: Moment,
        key: &SnapKey,
    ) -> Result<Decision, Failure>
        ensures decided { Agrees result (decide_recover (aged at.second (rows_in self.now)) at account key.now) }
        ensures memory { OnMemory result (IsSettled (decide_recover (aged at.second (rows_in self.now)) at account key.now)) }
    {
        let Some(kept) = self.row_at(key, at) else {
            return Err(Failure::Refused(Refusal::NotFound(Kind::Snapshot)));
        };
        if account != key.account {
            return Err(Failure::Refused(Refusal::NotFound(Kind::Snapshot)));
        }
        if !is_ahead(kept.row.bin_end, at) {
            return Err(Failure::Refused(Refusal::NotFound(Kind::Snapshot)));
        }
        let mut row = view_of(self.alloc(), account, at, key, &kept.row)?;
        row.bin_end = None;
        let request = Request::RestoreFromBin { key: *key };
        let change = self.change(account, at, request, Ids::new(self.alloc()));
        let answer = Answer::SnapshotShown {
            created: false,
            row,
        };
        Ok(Decision::Change(change, answer))
    }

    /// Deletes the snapshot: it goes to the bin for as long as its account's rules say, or is taken out.
    pub(crate) fn delete(&mut self, at: Moment, key: &SnapKey)
        requires moment { at.second ≤ 2 ^ 36 }
        requires room { map.contains_key self.old.waits key.now ≡ true }
        requires there { IsThere (aged at.second (rows_in self.old)) key.now }
        ensures rows { aged at.second (rows_in self.new) ≡ commit_delete (aged at.second (rows_in self.old)) at key.now }
        ensures stale { stale self.new at.second ≡ filter (λ other. not (is_key other key.now)) (stale self.old at.second) }
        ensures latest { self.new.latest ≡ self.old.latest }
        ensures others { (other : SnapKey) → is_key other key.now ≡ false → map.contains_key self.old.waits other ≡ true → map.contains_key self.new.waits other ≡ true }
    {
        match self.days_in_bin(key) {
            Some(days) => self.put_in_bin(at, key, days),
            None => self.remove(key),
        }
    }

    /// Takes the snapshot from the bin, with all else as it was.
    pub(crate) fn recover(&mut self, at: Moment, key: &SnapKey)
        requires binned { IsBinned (aged at.second (rows_in self.old)) at key.now }
        ensures rows { aged at.second (rows_in self.new) ≡ commit_recover (aged at.second (rows_in self.old)) key.now }
        ensures stale { stale self.new at.second ≡ filter (λ other. not (is_key other key.now)) (stale self.old at.second) }
        ensures latest { self.new.latest ≡ self.old.latest }
    {
        let _ = at;
        self.limits(key);
        self.take_from_bin(key);
    }
}

/// Whether no lock lasts.
fn check_lock(lock: LockState, at: Moment) -> Result<(), Refusal>
    ensures { result ≡ refuse_locked (lock_until lock) at.second }
{
    match lock_until(lock) {
        Some(until) if at.second < until.second => Err(Refusal::Locked(until)),
        _ => Ok(()),
    }
}
