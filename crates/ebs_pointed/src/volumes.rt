// Volumes with their nodes.
ghost use Rattle.std.specs.Prelude.{◌≡◌, IfOk, map as list_map};
ghost use Rattle.std.specs.List.{AllByRecursion};
ghost use Rattle.std.specs.FinMap as map;
ghost use Rattle.ebs_model.specs.declared.rows.VolRow.{VolRow};
ghost use Rattle.ebs_checkpoints.specs.declared.owned.VolPoint.{VolPoint};
ghost use Rattle.ebs_holds.specs.Holders.{of_vol};
ghost use Rattle.ebs_catalog.specs.Held.{rows_in};
ghost use Rattle.ebs_point_rules.specs.Values.{HasVolValues};
ghost use Rattle.ebs_pointed.specs.Nodes as nodes;
ghost use Rattle.ebs_pointed.specs.Placed.{ArePlaced, HaveKeys};

use crate::copies::copy_volume;
use crate::fields::check_volume_point;
use crate::nodes::number_or;
use ebs_catalog::Catalog;
use ebs_checkpoints::{VolPoint, VolPoints};
use ebs_holds::{Holder, Holdings};
use ebs_model::{VolKey, VolRow};
use ebs_tables::Filled;
use std::alloc::{AllocError, Global};

/// All volumes in ascending key, each with the number of its node.
pub fn volumes_of(
    alloc: Global,
    catalog: &Catalog,
    holdings: &Holdings,
) -> Result<VolPoints, AllocError>
    requires { ArePlaced (λ (row : VolRow). row.key) (rows_in catalog.now).vols }
    ensures listed { IfOk result (λ points. map.entries (rows_in catalog.now).vols ≡ list_map (λ (v : VolPoint). (v.row.key, v.row)) points) }
    ensures nodes { IfOk result (λ points. AllByRecursion (λ (v : VolPoint). v.node ≡ nodes.number_or holdings.now (of_vol v.row.key)) points) }
    ensures values { IfOk result (λ points. AllByRecursion HasVolValues points) }
{
    let points = points_of(alloc, catalog.volumes(), holdings)?;
    Ok(points)
}

fn points_of(
    alloc: Global,
    rows: Filled<'_, VolKey, VolRow>,
    holdings: &Holdings,
) -> Result<VolPoints, AllocError>
    requires { HaveKeys (λ (row : VolRow). row.key) rows }
    ensures listed { IfOk result (λ points. rows.entry ≡ list_map (λ (v : VolPoint). (v.row.key, v.row)) points) }
    ensures nodes { IfOk result (λ points. AllByRecursion (λ (v : VolPoint). v.node ≡ nodes.number_or holdings.now (of_vol v.row.key)) points) }
    ensures values { IfOk result (λ points. AllByRecursion HasVolValues points) }
{
    let mut points = VolPoints::new(alloc);
    for (_, row) in rows {
        let point = volume_point(alloc, holdings, row)?;
        points.push(point)?;
    }
    Ok(points)
}

fn volume_point(alloc: Global, holdings: &Holdings, row: &VolRow) -> Result<VolPoint, AllocError>
    ensures row { IfOk result (λ point. point.row ≡ row.now) }
    ensures node { IfOk result (λ point. point.node ≡ nodes.number_or holdings.now (of_vol point.row.key)) }
    ensures values { IfOk result (λ point. HasVolValues point) }
{
    let point = VolPoint {
        node: number_or(holdings, &Holder::volume(&row.key)),
        row: copy_volume(alloc, row)?,
    };
    check_volume_point(&point);
    Ok(point)
}
