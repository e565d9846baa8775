// The tests on a snapshot's row.
ghost use Rattle.std.specs.Prelude.{◌≡◌};
ghost use Rattle.ebs_model.specs.Access.{may_read, seen, own, done, open_upload, ready, base};
ghost use Rattle.ebs_model.specs.Access as access;
ghost use Rattle.ebs_model.specs.Time.{is_ahead, is_readable};
ghost use Rattle.ebs_model.specs.Time as time;

use crate::answer::{Kind, Refusal, StateName};
use crate::keys::{Account, Moment, SnapKey};
use crate::rows::{RowStatus, SnapRow, Tier};

/// What the snapshot's upload has come to at the moment.
pub fn status_at(row: &SnapRow, now: Moment) -> RowStatus
    ensures { result ≡ time.status_at row.now now.second }
{
    if row.completed {
        return RowStatus::Completed;
    }
    let end = u128::from(row.last.second) + 60 * u128::from(row.timeout);
    if end <= u128::from(now.second) {
        RowStatus::Failed
    } else {
        RowStatus::Pending
    }
}

/// Whether time leaves the row.
pub fn stays(row: &SnapRow, now: Moment) -> bool
    ensures { result ≡ time.stays now.second row.now }
{
    match row.bin_end {
        None => true,
        Some(end) => now.second < end.second,
    }
}

pub fn state_of(status: RowStatus) -> StateName
    ensures { result ≡ access.state_of status }
{
    match status {
        RowStatus::Pending => StateName::Pending,
        RowStatus::Completed => StateName::Completed,
        RowStatus::Failed => StateName::Error,
    }
}

fn is_in_bin(row: &SnapRow, now: Moment) -> bool
    ensures { result ≡ is_ahead row.now.bin_end now.second }
{
    match row.bin_end {
        None => false,
        Some(end) => now.second < end.second,
    }
}

fn is_readable(tier: Tier, now: Moment) -> bool
    ensures { result ≡ is_readable tier now.second }
{
    match tier {
        Tier::Standard => true,
        Tier::Archived => false,
        Tier::Temporary { until } => now.second < until.second,
    }
}

fn may_read(row: &SnapRow, account: Account, key: &SnapKey, now: Moment) -> bool
    ensures { result ≡ may_read account key.now now.second row.now }
{
    let is_shown = account == key.account || row.public || row.shared.contains(&account);
    let is_completed = status_at(row, now) == RowStatus::Completed;
    is_shown && is_completed && !is_in_bin(row, now) && is_readable(row.tier, now)
}

/// Whether the snapshot is there for the caller.
pub fn check_seen(
    row: &SnapRow,
    account: Account,
    key: &SnapKey,
    now: Moment,
) -> Result<(), Refusal>
    ensures { result ≡ seen account key.now now.second row.now }
{
    if is_in_bin(row, now) {
        return Err(Refusal::NotFound(Kind::Snapshot));
    }
    if account != key.account && !may_read(row, account, key, now) {
        return Err(Refusal::NotFound(Kind::Snapshot));
    }
    Ok(())
}

/// Whether the snapshot is there for the caller and is the caller's.
pub fn check_own(row: &SnapRow, account: Account, key: &SnapKey, now: Moment) -> Result<(), Refusal>
    ensures { result ≡ own account key.now now.second row.now }
{
    check_seen(row, account, key, now)?;
    if account != key.account {
        return Err(Refusal::NotOwner);
    }
    Ok(())
}

/// Whether the snapshot is an open upload of the caller.
pub fn check_open(
    row: &SnapRow,
    account: Account,
    key: &SnapKey,
    now: Moment,
) -> Result<(), Refusal>
    ensures { result ≡ open_upload account key.now now.second row.now }
{
    check_own(row, account, key, now)?;
    match status_at(row, now) {
        RowStatus::Pending => Ok(()),
        status => Err(Refusal::WrongState(state_of(status))),
    }
}

/// Whether the snapshot is a completed one of the caller.
pub fn check_done(
    row: &SnapRow,
    account: Account,
    key: &SnapKey,
    now: Moment,
) -> Result<(), Refusal>
    ensures { result ≡ done account key.now now.second row.now }
{
    check_own(row, account, key, now)?;
    match status_at(row, now) {
        RowStatus::Completed => Ok(()),
        status => Err(Refusal::WrongState(state_of(status))),
    }
}

/// Whether the caller may read the snapshot's blocks now.
pub fn check_ready(
    row: &SnapRow,
    account: Account,
    key: &SnapKey,
    now: Moment,
) -> Result<(), Refusal>
    ensures { result ≡ ready account key.now now.second row.now }
{
    check_seen(row, account, key, now)?;
    let status = status_at(row, now);
    if status != RowStatus::Completed {
        return Err(Refusal::WrongState(state_of(status)));
    }
    if !is_readable(row.tier, now) {
        return Err(Refusal::WrongState(StateName::Archived));
    }
    Ok(())
}

/// Whether the caller may take the snapshot as the source of an upload now.
pub fn check_base(
    row: &SnapRow,
    account: Account,
    key: &SnapKey,
    now: Moment,
) -> Result<(), Refusal>
    ensures { result ≡ base account key.now now.second row.now }
{
    check_ready(row, account, key, now)?;
    match row.tier {
        Tier::Temporary { until: _ } => Err(Refusal::WrongState(StateName::Temporary)),
        _ => Ok(()),
    }
}
