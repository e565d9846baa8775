// Snapshots of volumes, as they are made.
ghost use Rattle.std.specs.Prelude.{◌≡◌, IfOk};
ghost use Rattle.ebs_model.specs.Calls.Disk as disk;
ghost use Rattle.ebs_model.specs.Views as views;

use crate::copies::copy_text;
use crate::views::view_of;
use ebs_model::{
    Account, Accounts, Indexes, LockState, Moment, SnapKey, SnapRow, SnapView, Tags, Text, Tier,
    VolKey, VolRow, copy_tags,
};
use std::alloc::{AllocError, Global};

/// A volume's new snapshot: it is completed, and has the volume's size and line.
pub(crate) fn snapped_row(
    alloc: Global,
    at: Moment,
    key: &SnapKey,
    volume: &VolKey,
    row: &VolRow,
    description: Option<Text>,
    tags: Tags,
) -> SnapRow
    ensures { result ≡ disk.snapped_row at key.now volume.now row.now description tags }
{
    SnapRow {
        key: *key,
        size: row.size,
        line: row.line,
        parent: None,
        volume: Some(*volume),
        policy: None,
        start: at,
        timeout: 0,
        last: at,
        completed: true,
        put: Indexes::new(alloc),
        description,
        tags,
        shared: Accounts::new(alloc),
        public: false,
        lock: LockState::None,
        tier: Tier::Standard,
        bin_end: None,
    }
}

/// It as it is shown to the account.
pub(crate) fn snapped_view(
    alloc: Global,
    account: Account,
    at: Moment,
    key: &SnapKey,
    volume: &VolKey,
    row: &VolRow,
    description: &Option<Text>,
    tags: &Tags,
) -> Result<SnapView, AllocError>
    ensures { IfOk result (λ view. view ≡ views.view_of account at.second key.now (disk.snapped_row at key.now volume.now row.now description.now tags.now)) }
{
    let description = copy_text(description)?;
    let tags = copy_tags(alloc, tags)?;
    let made = snapped_row(alloc, at, key, volume, row, description, tags);
    view_of(alloc, account, at, key, &made)
}
