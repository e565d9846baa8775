// The nodes that rows have in a checkpoint.
ghost use Rattle.std.specs.Prelude.{◌≡◌, false, OnOk};
ghost use Rattle.ebs_holds.specs.Holders.{is_holder, of_snap, of_vol};
ghost use Rattle.ebs_holds.specs.Holds.{HasOpen, KeepsNode};
ghost use Rattle.ebs_catalog.specs.Held.{rows_in};
ghost use Rattle.ebs_kept.specs.inner.Nodes.{HaveNodes};
ghost use Rattle.ebs_kept.specs.inner.Readied.{HasSnapNode, HaveSnapNodes, HaveVolNodes, KeepsArrays};

use crate::kept::Kept;
use ebs_catalog::Catalog;
use ebs_holds::{Holder, Holdings};
use ebs_model::{Moment, RowStatus, SnapKey, SnapRow, VolKey, status_at, stays};
use std::alloc::AllocError;

impl Kept {
    ghost use Rattle.std.specs.Prelude.{◌≡◌, OnOk};
    ghost use Rattle.ebs_holds.specs.Holds.{nodes_in};
    ghost use Rattle.ebs_holds.specs.Counted.{KeepsBlocks};
    ghost use Rattle.ebs_catalog.specs.Held.{rows_in};
    ghost use Rattle.ebs_kept.specs.inner.Nodes.{HaveNodes};

    /// Gives each row the node that it has in a checkpoint at the moment, where it lacks one. What is seen of the machine stays.
    /// It fails only for want of memory.
    pub fn ready_nodes(&mut self, at: Moment) -> Result<(), AllocError>
        ensures machine { self.new.machine ≡ self.old.machine }
        ensures catalog { self.new.catalog ≡ self.old.catalog }
        ensures nodes { OnOk result (HaveNodes at.second (rows_in self.new.catalog) self.new.holding) }
        ensures blocks { KeepsBlocks (nodes_in self.old.holding) (nodes_in self.new.holding) }
        ensures queue { self.new.holding.queue ≡ self.old.holding.queue }
    {
        ready_rows(&self.catalog, &mut self.holdings, at)
    }
}

fn ready_rows(catalog: &Catalog, holdings: &mut Holdings, at: Moment) -> Result<(), AllocError>
    ensures keeps { KeepsArrays holdings.old holdings.new }
    ensures nodes { OnOk result (HaveNodes at.second (rows_in catalog.now) holdings.new) }
{
    ready_snapshots(catalog, holdings, at)?;
    ready_volumes(catalog, holdings)
}

fn ready_snapshots(catalog: &Catalog, holdings: &mut Holdings, at: Moment) -> Result<(), AllocError>
    ensures keeps { KeepsArrays holdings.old holdings.new }
    ensures nodes { OnOk result (HaveSnapNodes at.second (rows_in catalog.now) holdings.new) }
{
    for (key, kept) in catalog.snapshots() {
        ready_snapshot(holdings, key, &kept.row, at)?;
    }
    Ok(())
}

// What a moment takes out, or whose upload it failed, has no node in a checkpoint.
fn ready_snapshot(
    holdings: &mut Holdings,
    key: &SnapKey,
    row: &SnapRow,
    at: Moment,
) -> Result<(), AllocError>
    ensures keeps { KeepsArrays holdings.old holdings.new }
    ensures node { OnOk result (HasSnapNode at.second holdings.new key.now row.now) }
    ensures others { (q : _) → is_holder q (of_snap key.now) ≡ false → KeepsNode holdings.old holdings.new q }
{
    if !stays(row, at) {
        return Ok(());
    }
    let holder = Holder::snapshot(key);
    match status_at(row, at) {
        RowStatus::Pending => holdings.make_open(&holder),
        RowStatus::Completed => holdings.make_closed(&holder),
        RowStatus::Failed => Ok(()),
    }
}

fn ready_volumes(catalog: &Catalog, holdings: &mut Holdings) -> Result<(), AllocError>
    ensures keeps { KeepsArrays holdings.old holdings.new }
    ensures nodes { OnOk result (HaveVolNodes (rows_in catalog.now) holdings.new) }
    ensures snapshots { (key : _) → KeepsNode holdings.old holdings.new (of_snap key) }
{
    for (key, _) in catalog.volumes() {
        ready_volume(holdings, key)?;
    }
    Ok(())
}

fn ready_volume(holdings: &mut Holdings, key: &VolKey) -> Result<(), AllocError>
    ensures keeps { KeepsArrays holdings.old holdings.new }
    ensures node { OnOk result (HasOpen holdings.new (of_vol key.now)) }
    ensures others { (q : _) → is_holder q (of_vol key.now) ≡ false → KeepsNode holdings.old holdings.new q }
{
    holdings.make_open(&Holder::volume(key))
}
