// Snapshots with their nodes.
ghost use Rattle.std.specs.Prelude.{◌≡◌, [], map as list_map, IfOk};
ghost use Rattle.std.specs.List.{AllByRecursion};
ghost use Rattle.std.specs.FinMap as map;
ghost use Rattle.ebs_model.specs.declared.rows.SnapRow.{SnapRow};
ghost use Rattle.ebs_model.specs.inner.Rows.{aged};
ghost use Rattle.ebs_model.specs.Time as time;
ghost use Rattle.ebs_catalog.specs.Held.{rows_in, whole};
ghost use Rattle.ebs_catalog.specs.declared.rows.KeptRow.{KeptRow};
ghost use Rattle.ebs_recovery.specs.Bases.{row_of};
ghost use Rattle.ebs_pointed.specs.Placed.{ArePlaced, HaveKeys};
ghost use Rattle.ebs_point_rules.specs.Values.{HasSnapValues};
ghost use Rattle.ebs_pointed.specs.Snapshots.{IsPoint, left_at, listed_row, put_set};

use crate::copies::{copy_accounts, copy_text};
use crate::fields::check_snapshot_point;
use crate::nodes::number_in;
use crate::puts::indexes_of;
use ebs_catalog::{Catalog, KeptRow};
use ebs_checkpoints::{CopyRows, IndexList, SnapPoint, SnapPoints};
use ebs_holds::{Holder, Holdings};
use ebs_model::{Moment, RowStatus, SnapKey, SnapRow, copy_tags, status_at, stays};
use ebs_tables::Filled;
use std::alloc::{AllocError, Global};

/// What the moment leaves of all snapshots, in ascending key, each with the number of its node.
pub fn snapshots_of(
    alloc: Global,
    catalog: &Catalog,
    holdings: &Holdings,
    at: Moment,
) -> Result<SnapPoints, AllocError>
    requires { ArePlaced (λ (row : SnapRow). row.key) (rows_in catalog.now).snaps }
    ensures listed { IfOk result (λ points. map.entries (aged at.second (rows_in catalog.now)).snaps ≡ list_map listed_row points) }
    ensures each { IfOk result (λ points. AllByRecursion (IsPoint holdings.now at.second) points) }
{
    let points = rows_at(alloc, catalog.snapshots(), holdings, at)?;
    Ok(points)
}

fn rows_at(
    alloc: Global,
    rows: Filled<'_, SnapKey, KeptRow>,
    holdings: &Holdings,
    at: Moment,
) -> Result<SnapPoints, AllocError>
    requires { HaveKeys (λ (kept : KeptRow). kept.row.key) rows }
    ensures listed { IfOk result (λ points. left_at at.second rows.entry ≡ list_map listed_row points) }
    ensures each { IfOk result (λ points. AllByRecursion (IsPoint holdings.now at.second) points) }
{
    let mut points = SnapPoints::new(alloc);
    for (_, kept) in rows {
        if stays(&kept.row, at) {
            let point = point_at(alloc, kept, holdings, at)?;
            points.push(point)?;
        }
    }
    Ok(points)
}

// What the moment leaves of a row that stays.
fn point_at(
    alloc: Global,
    kept: &KeptRow,
    holdings: &Holdings,
    at: Moment,
) -> Result<SnapPoint, AllocError>
    ensures row { IfOk result (λ point. row_of point ≡ time.rested_row at.second (whole kept.now)) }
    ensures each { IfOk result (λ point. IsPoint holdings.now at.second point) }
{
    if status_at(&kept.row, at) == RowStatus::Failed {
        return snapshot_point(alloc, &kept.row, IndexList::new(alloc), None);
    }
    let put = indexes_of(alloc, &kept.put)?;
    let node = number_in(holdings, &Holder::snapshot(&kept.row.key));
    snapshot_point(alloc, &kept.row, put, node)
}

// The row once more with these puts and this node, without copies.
fn snapshot_point(
    alloc: Global,
    row: &SnapRow,
    put: IndexList,
    node: Option<u64>,
) -> Result<SnapPoint, AllocError>
    ensures row { IfOk result (λ point. row_of point ≡ record row.now { put = put_set put }) }
    ensures put { IfOk result (λ point. point.put ≡ put) }
    ensures node { IfOk result (λ point. point.node ≡ node) }
    ensures copies { IfOk result (λ point. point.copies ≡ []) }
    ensures values { IfOk result (λ point. HasSnapValues point) }
{
    let description = copy_text(&row.description)?;
    let tags = copy_tags(alloc, &row.tags)?;
    let shared = copy_accounts(alloc, &row.shared)?;
    let point = SnapPoint {
        key: row.key,
        size: row.size,
        line: row.line,
        parent: row.parent,
        volume: row.volume,
        policy: row.policy,
        start: row.start,
        timeout: row.timeout,
        last: row.last,
        completed: row.completed,
        put,
        description,
        tags,
        shared,
        public: row.public,
        lock: row.lock,
        tier: row.tier,
        bin_end: row.bin_end,
        node,
        copies: CopyRows::new(alloc),
    };
    check_snapshot_point(&point);
    Ok(point)
}
