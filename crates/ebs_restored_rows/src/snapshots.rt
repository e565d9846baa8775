// Snapshots, with the indexes that were put in an upload.
ghost use Rattle.std.specs.Prelude.{◌≡◌, IfOk, OnOk, map};
ghost use Rattle.std.specs.List.{All};
ghost use Rattle.std.specs.FinMap as fin;
ghost use Rattle.ebs_tables.specs.Full.{full};
ghost use Rattle.ebs_recovery.specs.Bases.{row_of};
ghost use Rattle.ebs_catalog.specs.Held.{rows_in, whole};
ghost use Rattle.ebs_restored_rows.specs.Placed.{put_all, with_snapshot};
ghost use Rattle.ebs_restored_rows.specs.Restores.{MayRestoreSnapshot};

use ebs_catalog::{Catalog, KeptRow};
use ebs_checkpoints::{IndexList, SnapPoint, SnapPoints};
use ebs_model::{IndexSlots, Indexes, SnapRow};
use std::alloc::{AllocError, Global};

/// Puts all snapshots back.
pub(crate) fn restore_snapshots(
    alloc: Global,
    catalog: &mut Catalog,
    snapshots: SnapPoints,
) -> Result<(), AllocError>
    requires { All (MayRestoreSnapshot (rows_in catalog.old).own) snapshots }
    ensures rows { OnOk result (rows_in catalog.new ≡ put_all with_snapshot (rows_in catalog.old) snapshots) }
    ensures latest { catalog.new.latest ≡ catalog.old.latest }
{
    let mut rows = snapshots.into_vec();
    'snapshot: while let Some(point) = rows.pop() {
        restore_snapshot(alloc, catalog, point)?;
    }
    Ok(())
}

fn restore_snapshot(
    alloc: Global,
    catalog: &mut Catalog,
    point: SnapPoint,
) -> Result<(), AllocError>
    requires { MayRestoreSnapshot (rows_in catalog.old).own point }
    ensures rows { OnOk result (rows_in catalog.new ≡ with_snapshot (rows_in catalog.old) point) }
    ensures latest { catalog.new.latest ≡ catalog.old.latest }
{
    let KeptRow { row, put } = kept_row(alloc, point)?;
    catalog.restore_snapshot(row, put)?;
    Ok(())
}

// The row as it is kept, whose fields are the point's own.
fn kept_row(alloc: Global, point: SnapPoint) -> Result<KeptRow, AllocError>
    ensures { IfOk result (λ kept. whole kept ≡ row_of point) }
{
    let SnapPoint {
        key,
        size,
        line,
        parent,
        volume,
        policy,
        start,
        timeout,
        last,
        completed,
        put,
        description,
        tags,
        shared,
        public,
        lock,
        tier,
        bin_end,
        node: _,
        copies: _,
    } = point;
    let put = index_slots(alloc, put)?;
    let row = SnapRow {
        key,
        size,
        line,
        parent,
        volume,
        policy,
        start,
        timeout,
        last,
        completed,
        put: Indexes::new(alloc),
        description,
        tags,
        shared,
        public,
        lock,
        tier,
        bin_end,
    };
    Ok(KeptRow { row, put })
}

// The indexes of an upload.
fn index_slots(alloc: Global, indexes: IndexList) -> Result<IndexSlots, AllocError>
    ensures { IfOk result (λ put. full put ≡ fin.from_entries (map (λ i. (i, tt)) indexes)) }
{
    let mut put = IndexSlots::new(alloc);
    let mut rest = indexes.into_vec();
    'index: while let Some(index) = rest.pop() {
        put.prepare(index)?;
        put.fill(index, ());
    }
    Ok(put)
}
