// Counts of an account's rows.
ghost use Rattle.std.specs.Prelude.{◌≡◌, ◌<◌, ◌^◌, length};
ghost use Rattle.std.specs.List.{count_by};
ghost use Rattle.std.specs.Option.{option_copied};
ghost use Rattle.std.specs.FinMap as map;
ghost use Rattle.ebs_tables.specs.Full.{held};
ghost use Rattle.ebs_model.specs.Keys.{snap_cmp};
ghost use Rattle.ebs_catalog.specs.Counts as counts;

use crate::rows::KeptRow;
use ebs_model::{Account, Moment, RowStatus, SnapKey, status_at, stays};
use ebs_tables::{Filled, Slots};

/// How many of the rows are the account's and are left by time.
pub(crate) fn count_kept(rows: Filled<'_, SnapKey, KeptRow>, account: Account, at: Moment) -> u64
    requires { length rows < 2 ^ 63 }
    ensures { result ≡ count_by (counts.is_kept account at.second) rows.entry }
{
    let mut count = 0;
    for (key, kept) in rows {
        if is_kept(key, kept, account, at) {
            count += 1;
        }
    }
    count
}

/// How many of what waits for time are open uploads of the account.
pub(crate) fn count_open(
    waiting: Filled<'_, SnapKey, ()>,
    snaps: &Slots<SnapKey, KeptRow>,
    account: Account,
    at: Moment,
) -> u64
    requires { length waiting < 2 ^ 63 }
    ensures { result ≡ count_by (λ e. counts.is_open account at.second e.0 (map.get (held snap_cmp snaps.now) e.0)) waiting.entry }
{
    let mut count = 0;
    for (key, _) in waiting {
        if is_open(key, snaps.get(key), account, at) {
            count += 1;
        }
    }
    count
}

fn is_kept(key: &SnapKey, kept: &KeptRow, account: Account, at: Moment) -> bool
    ensures { result ≡ counts.is_kept account at.second (key.now, kept.now) }
{
    stays(&kept.row, at) && account == key.account
}

fn is_open(key: &SnapKey, found: Option<&KeptRow>, account: Account, at: Moment) -> bool
    ensures { result ≡ counts.is_open account at.second key.now (option_copied found.entry) }
{
    is_pending(found, at) && account == key.account
}

fn is_pending(found: Option<&KeptRow>, at: Moment) -> bool
    ensures { result ≡ counts.is_pending_row at.second (option_copied found.entry) }
{
    match found {
        Some(kept) => stays(&kept.row, at) && status_at(&kept.row, at) == RowStatus::Pending,
        None => false,
    }
}
