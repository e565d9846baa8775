// With whom snapshots are shared.
ghost use Rattle.std.specs.Prelude.{◌≡◌, ◌+◌, ◌≤◌, ◌||◌, [], length, nat_lt, IfOk, if◌then◌else◌};
ghost use Rattle.ebs_model.specs.declared.answer.Failure.TheVariants as failure;
ghost use Rattle.ebs_model.specs.declared.answer.Refusal.TheVariants as refusal;
ghost use Rattle.ebs_model.specs.declared.answer.QuotaName.TheVariants as quota_name;
ghost use Rattle.ebs_model.specs.Quotas.{most_shared};
ghost use Rattle.ebs_model.specs.declared.request.Request.TheVariants as ask;
ghost use Rattle.ebs_model.specs.inner.Follows.{Agrees};
ghost use Rattle.ebs_model.specs.Calls.Permission.{permitted};
ghost use Rattle.ebs_catalog.specs.Shared.{left_of, is_in};

use crate::catalog::Catalog;
use crate::copies::copy_accounts;
use crate::decides::quota;
use ebs_model::{
    Account, Accounts, Answer, Decision, Failure, Ids, Kind, MOST_SHARED, Moment, QuotaName,
    Refusal, Request, SnapKey, check_done, permitted,
};
use std::alloc::{AllocError, Global};

impl Catalog {
    ghost use Rattle.ebs_model.specs.inner.Rows.{aged};
    ghost use Rattle.ebs_model.specs.Calls.Permission.{decide_permission};
    ghost use Rattle.ebs_catalog.specs.Held.{rows_in};
    ghost use Rattle.ebs_catalog.specs.Wants.{OnMemory, IsSettled};

    /// Whether the snapshot is shared as is asked. The accounts that it is shared with afterwards stand in the change.
    pub(crate) fn decide_permission(
        &self,
        account: Account,
        at: Moment,
        key: &SnapKey,
        add: &Accounts,
        add_all: bool,
        remove: &Accounts,
        remove_all: bool,
    ) -> Result<Decision, Failure>
        ensures decided { Agrees result (decide_permission (aged at.second (rows_in self.now)) at account key.now add.now add_all remove.now remove_all) }
        ensures memory { OnMemory result (IsSettled (decide_permission (aged at.second (rows_in self.now)) at account key.now add.now add_all remove.now remove_all)) }
    {
        let Some(kept) = self.row_at(key, at) else {
            return Err(Failure::Refused(Refusal::NotFound(Kind::Snapshot)));
        };
        if let Err(refusal) = check_done(&kept.row, account, key, at) {
            return Err(Failure::Refused(refusal));
        }
        let alloc = self.alloc();
        let shared = match permitted(alloc, &kept.row.shared, add, remove) {
            Ok(shared) => shared,
            Err(_) => return Err(unshared(&kept.row.shared, add, remove)),
        };
        if shared.len() as u64 > MOST_SHARED {
            return Err(Failure::Refused(quota(QuotaName::SharedAccounts, MOST_SHARED)));
        }
        let request = permission_request(alloc, key, add, add_all, remove, remove_all)?;
        let mut change = self.change(account, at, request, Ids::new(alloc));
        change.shared = shared;
        Ok(Decision::Change(change, Answer::Done))
    }
}

// What comes of a change where there is no memory for the set of accounts: they are counted without one.
fn unshared(shared: &Accounts, add: &Accounts, remove: &Accounts) -> Failure
    ensures { result ≡ if nat_lt most_shared (length (permitted shared.now add.now remove.now)) then failure.Refused (refusal.Quota quota_name.SharedAccounts most_shared) else failure.Memory }
{
    if count_permitted(shared, add, remove) > MOST_SHARED {
        return Failure::Refused(quota(QuotaName::SharedAccounts, MOST_SHARED));
    }
    Failure::Memory
}

/// How many accounts a snapshot is shared with after a change, without memory for them.
fn count_permitted(shared: &Accounts, add: &Accounts, remove: &Accounts) -> u64
    ensures { result ≡ length (permitted shared.now add.now remove.now) }
{
    let (shared, add, remove) = (shared.as_slice(), add.as_slice(), remove.as_slice());
    let kept = count_new(shared, &[], remove);
    let added = count_new(add, shared, remove);
    (kept + added) as u64
}

/// How many of the accounts come to the others, where those that are removed don't count.
fn count_new(accounts: &[Account], others: &[Account], remove: &[Account]) -> usize
    ensures count { result + left_of others.now remove.now [] ≡ left_of others.now remove.now accounts.now }
    ensures small { result ≤ length accounts.now }
{
    let mut count = 0;
    let mut left = accounts;
    while let [account, rest @ ..] = left {
        if !is_in_any(account, rest, others, remove) {
            count += 1;
        }
        left = rest;
    }
    count
}

fn is_in_any(account: &Account, first: &[Account], second: &[Account], third: &[Account]) -> bool
    ensures { result ≡ (is_in account.now first.now || (is_in account.now second.now || is_in account.now third.now)) }
{
    first.contains(account) || second.contains(account) || third.contains(account)
}

fn permission_request(
    alloc: Global,
    key: &SnapKey,
    add: &Accounts,
    add_all: bool,
    remove: &Accounts,
    remove_all: bool,
) -> Result<Request, AllocError>
    ensures { IfOk result (λ request. request ≡ ask.ModifyPermission key.now add.now add_all remove.now remove_all) }
{
    let add = copy_accounts(alloc, add)?;
    let remove = copy_accounts(alloc, remove)?;
    Ok(Request::ModifyPermission {
        key: *key,
        add,
        add_all,
        remove,
        remove_all,
    })
}
