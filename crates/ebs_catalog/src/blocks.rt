// Which snapshots have blocks.
ghost use Rattle.std.specs.Prelude.{◌≡◌};
ghost use Rattle.ebs_model.specs.Time.{status_at, is_failed};

use crate::catalog::Catalog;
use ebs_model::{Moment, RowStatus, SnapKey, SnapRow, status_at};

impl Catalog {
    ghost use Rattle.std.specs.Prelude.{◌≡◌};
    ghost use Rattle.std.specs.FinMap as map;
    ghost use Rattle.ebs_model.specs.inner.Time.{has_blocks};
    ghost use Rattle.ebs_catalog.specs.Held.{rows_in};

    /// Whether time leaves the snapshot and its upload hasn't failed.
    pub fn has_blocks(&self, key: &SnapKey, now: Moment) -> bool
        ensures { result ≡ has_blocks now.second (map.get (rows_in self.now).snaps key.now) }
    {
        match self.row_at(key, now) {
            Some(kept) => !has_failed(&kept.row, now),
            None => false,
        }
    }
}

fn has_failed(row: &SnapRow, now: Moment) -> bool
    ensures { result ≡ is_failed (status_at row.now now.second) }
{
    status_at(row, now) == RowStatus::Failed
}
