// Rows as they are shown: copies.
ghost use Rattle.std.specs.Prelude.{◌≡◌, IfOk};
ghost use Rattle.ebs_model.specs.Views as views;

use crate::copies::{copy_accounts, copy_text};
use ebs_model::{
    Account, Moment, Permission, SnapKey, SnapRow, SnapView, copy_tags, lock_shown, lock_until,
    restore_until, status_at, tier_shown,
};
use std::alloc::{AllocError, Global};

/// The row as it is shown to the account at the moment.
pub(crate) fn view_of(
    alloc: Global,
    account: Account,
    at: Moment,
    key: &SnapKey,
    row: &SnapRow,
) -> Result<SnapView, AllocError>
    ensures { IfOk result (λ view. view ≡ views.view_of account at.second key.now row.now) }
{
    let description = copy_text(&row.description)?;
    let permission = permission_of(alloc, account, key, row)?;
    let tags = copy_tags(alloc, &row.tags)?;
    let is_owner = account == key.account;
    Ok(SnapView {
        bin_end: row.bin_end,
        description,
        lock: if is_owner {
            lock_shown(row.lock, at)
        } else {
            None
        },
        lock_until: if is_owner { lock_until(row.lock) } else { None },
        owner: key.account,
        parent: row.parent,
        permission,
        restore_until: restore_until(row.tier, at),
        key: *key,
        start: row.start,
        status: status_at(row, at),
        tier: tier_shown(row.tier, at),
        tags,
        volume: row.volume,
        size: u64::from(row.size),
    })
}

/// With whom the snapshot is shared, for its owner.
fn permission_of(
    alloc: Global,
    account: Account,
    key: &SnapKey,
    row: &SnapRow,
) -> Result<Option<Permission>, AllocError>
    ensures { IfOk result (λ shown. shown ≡ views.for_owner account key.now (Some (views.permission row.now))) }
{
    if account != key.account {
        return Ok(None);
    }
    let accounts = copy_accounts(alloc, &row.shared)?;
    Ok(Some(Permission {
        accounts,
        public: row.public,
    }))
}
