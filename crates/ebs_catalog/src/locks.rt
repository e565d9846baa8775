// What owners make of their locks.
ghost use Rattle.std.specs.Prelude.{◌≡◌, ◌≤◌, ◌^◌, ◌⊎◌};
ghost use Rattle.ebs_model.specs.Calls.Lock as calls;
ghost use Rattle.ebs_model.specs.Views.{lock_shown, lock_until};
ghost use Rattle.ebs_model.specs.declared.request.Request.TheVariants as ask;
ghost use Rattle.ebs_model.specs.declared.lock.LockCommand.TheVariants as command;
ghost use Rattle.ebs_model.specs.declared.answer.Failure.TheVariants as failure;
ghost use Rattle.ebs_model.specs.inner.Follows.{Agrees};
ghost use Rattle.ebs_catalog.specs.Wants.{HasName};

use crate::catalog::Catalog;
use crate::decides::bad_parameter;
use ebs_lock::lock_change;
use ebs_model::{
    Account, Answer, Decision, Failure, Ids, Kind, LockCommand, LockMode, LockRefusal, LockState,
    Moment, Refusal, Request, SnapKey, StateName, Term, check_done, lock_shown, lock_until,
};
use std::alloc::Global;

impl Catalog {
    ghost use Rattle.ebs_model.specs.inner.Rows.{aged};
    ghost use Rattle.ebs_model.specs.Calls.Lock.{decide_lock};
    ghost use Rattle.ebs_catalog.specs.Held.{rows_in};
    ghost use Rattle.ebs_catalog.specs.Wants.{OnMemory, NamesMember};

    pub(crate) fn lock(
        &self,
        account: Account,
        at: Moment,
        key: &SnapKey,
        mode: LockMode,
        term: Term,
        cool_hours: Option<u32>,
    ) -> Result<Decision, Failure>
        requires moment { at.second ≤ 2 ^ 36 }
        ensures decided { Agrees result (decide_lock (aged at.second (rows_in self.now)) at account (ask.LockSnapshot key.now mode term cool_hours) key.now (command.Lock mode term cool_hours)) }
        ensures memory { OnMemory result (NamesMember (decide_lock (aged at.second (rows_in self.now)) at account (ask.LockSnapshot key.now mode term cool_hours) key.now (command.Lock mode term cool_hours))) }
    {
        let command = LockCommand::Lock {
            mode,
            term,
            cool_hours,
        };
        let request = Request::LockSnapshot {
            key: *key,
            mode,
            term,
            cool_hours,
        };
        self.decide_lock(account, at, key, command, request)
    }

    pub(crate) fn unlock(
        &self,
        account: Account,
        at: Moment,
        key: &SnapKey,
    ) -> Result<Decision, Failure>
        requires moment { at.second ≤ 2 ^ 36 }
        ensures decided { Agrees result (decide_lock (aged at.second (rows_in self.now)) at account (ask.UnlockSnapshot key.now) key.now command.Unlock) }
        ensures memory { OnMemory result (NamesMember (decide_lock (aged at.second (rows_in self.now)) at account (ask.UnlockSnapshot key.now) key.now command.Unlock)) }
    {
        let request = Request::UnlockSnapshot { key: *key };
        self.decide_lock(account, at, key, LockCommand::Unlock, request)
    }

    /// What becomes of the snapshot's lock by the command that the request has.
    fn decide_lock(
        &self,
        account: Account,
        at: Moment,
        key: &SnapKey,
        command: LockCommand,
        request: Request,
    ) -> Result<Decision, Failure>
        requires moment { at.second ≤ 2 ^ 36 }
        ensures decided { Agrees result (decide_lock (aged at.second (rows_in self.now)) at account request key.now command) }
        ensures memory { OnMemory result (NamesMember (decide_lock (aged at.second (rows_in self.now)) at account request key.now command)) }
    {
        let Some(kept) = self.row_at(key, at) else {
            drop(request);
            return Err(Failure::Refused(Refusal::NotFound(Kind::Snapshot)));
        };
        if let Err(refusal) = check_done(&kept.row, account, key, at) {
            drop(request);
            return Err(Failure::Refused(refusal));
        }
        let alloc = self.alloc();
        match lock_change(kept.row.lock, command, at) {
            Ok(lock) => {
                let change = self.change(account, at, request, Ids::new(alloc));
                Ok(Decision::Change(change, lock_answer(lock, at)))
            }
            Err(refusal) => {
                drop(request);
                Err(lock_failure(alloc, refusal))
            }
        }
    }
}

fn lock_answer(lock: LockState, at: Moment) -> Answer
    ensures { result ≡ calls.lock_answer (lock_shown lock at.second) (lock_until lock) }
{
    match lock_shown(lock, at) {
        Some(name) => Answer::LockShown {
            lock: name,
            until: lock_until(lock),
        },
        None => Answer::Done,
    }
}

// The refusal, or want of memory for its text.
fn lock_failure(alloc: Global, refusal: LockRefusal) -> Failure
    ensures { (result ≡ failure.Refused (calls.lock_refusal refusal)) ⊎ ((result ≡ failure.Memory) × HasName (calls.lock_refusal refusal)) }
{
    match refusal {
        LockRefusal::Unlocked => Failure::Refused(Refusal::WrongState(StateName::Unlocked)),
        LockRefusal::Locked(until) => Failure::Refused(Refusal::Locked(until)),
        LockRefusal::BadDate => bad_parameter(alloc, "ExpirationDate"),
    }
}
