// Stamps that blocks have, and their digests.
ghost use Rattle.std.specs.Prelude.{◌≡◌, false, OnOk};
ghost use Rattle.ebs_lineage.specs.Lines.{array};
ghost use Rattle.ebs_catalog.specs.Held.{rows_in};
ghost use Rattle.ebs_kept.specs.inner.Shown.{kept_array};
ghost use Rattle.ebs_kept.specs.inner.Stamps as stamps;
ghost use Rattle.ebs_kept.specs.inner.Stamps.{AddsBlocks, HasStamps, IsDone};

use crate::kept::Kept;
use ebs_catalog::Catalog;
use ebs_holds::Holder;
use ebs_lineage::{Lineage, NodeId};
use ebs_model::{Account, KeyNumber, Moment, SnapKey, VolKey};
use ebs_tables::Stamped;
use std::alloc::AllocError;

impl Kept {
    ghost use Rattle.std.specs.Prelude.{◌≡◌, ◌≢◌, ℕ, false, Some, IfOk};
    ghost use Rattle.std.specs.FinMap as map;
    ghost use Rattle.ebs_model.specs.declared.keys.SnapKey.{SnapKey};
    ghost use Rattle.ebs_model.specs.declared.keys.VolKey.{VolKey};
    ghost use Rattle.ebs_model.specs.Arrays.{WholeBlock};
    ghost use Rattle.ebs_model.specs.Machine.{array_of, disk_of};
    ghost use Rattle.ebs_kept.specs.inner.Stamps.{is_live};
    ghost use Rattle.ebs_kept.specs.Stamps.{AreDigests};

    /// Whether a block of a snapshot or of a volume has the stamp. It looks at each block of each.
    pub fn is_live(&self, stamp: u64) -> bool
        ensures value { result ≡ is_live self.now.machine stamp }
        ensures snapshots { result ≡ false → (key : SnapKey) (index : ℕ) (block : WholeBlock) → map.get (array_of self.now.machine key) index ≡ Some block → block.stamp ≢ stamp }
        ensures volumes { result ≡ false → (key : VolKey) (index : ℕ) (block : WholeBlock) → map.get (disk_of self.now.machine key) index ≡ Some block → block.stamp ≢ stamp }
    {
        let lineage = self.holdings.lineage();
        for (holder, node) in self.holdings.nodes().from(&first_holder()) {
            if is_shown(&self.catalog, self.clock, holder) && has_stamp(lineage, *node, stamp) {
                return true;
            }
        }
        false
    }

    /// The digests of the blocks of snapshots and of volumes, by stamp. Of what began from another it looks only at the blocks
    /// that changed.
    pub fn digests(&self) -> Result<Stamped<[u8; 32]>, AllocError>
        ensures { IfOk result (λ digests. AreDigests self.now.machine digests) }
    {
        let mut digests = Stamped::new(self.alloc);
        let mut done = Stamped::new(self.alloc);
        let lineage = self.holdings.lineage();
        for (holder, node) in self.holdings.nodes().from(&first_holder()) {
            if is_shown(&self.catalog, self.clock, holder) {
                let base = nearest_done(lineage, &done, *node);
                add_changes(lineage, base, *node, &mut digests)?;
                done.insert(node.number, ())?;
            }
        }
        Ok(digests)
    }
}

pub(crate) fn first_holder() -> Holder
    ensures { result ≡ record { is_volume = false; account = 0; number = 0 } }
{
    Holder {
        is_volume: false,
        account: Account::new(0),
        number: KeyNumber::new(0),
    }
}

// An array whose snapshot has no blocks any more counts for nothing, nor does one whose volume is gone.
pub(crate) fn is_shown(catalog: &Catalog, clock: Moment, holder: &Holder) -> bool
    ensures { result ≡ stamps.is_shown clock.second (rows_in catalog.now) holder.now }
{
    if holder.is_volume {
        let key = VolKey {
            account: holder.account,
            number: holder.number,
        };
        return catalog.volume_at(&key).is_some();
    }
    let key = SnapKey {
        account: holder.account,
        number: holder.number,
    };
    catalog.has_blocks(&key, clock)
}

fn has_stamp(lineage: &Lineage, node: NodeId, stamp: u64) -> bool
    ensures { result ≡ stamps.has_stamp stamp (kept_array (array lineage.now.table.nodes node.number)) }
{
    lineage.keeps_small();
    let mut from = 0;
    while from < 1 << 32 {
        let Some((index, block)) = lineage.next_at(node, from as u32) else {
            return false;
        };
        if block.stamp == stamp {
            return true;
        }
        from = u64::from(index) + 1;
    }
    false
}

// The nearest node above whose blocks were looked at, or one without blocks.
fn nearest_done(lineage: &Lineage, done: &Stamped<()>, node: NodeId) -> NodeId
    ensures { IsDone done.now (array lineage.now.table.nodes result.number) result.number }
{
    lineage.keeps_lines();
    let mut at = lineage.parent(node);
    while let Some(above) = at {
        if done.contains(above.number) {
            return above;
        }
        at = lineage.parent(above);
    }
    lineage.without_blocks()
}

// Adds the digests of a node's blocks, where those of another node are there already.
fn add_changes(
    lineage: &Lineage,
    base: NodeId,
    node: NodeId,
    digests: &mut Stamped<[u8; 32]>,
) -> Result<(), AllocError>
    requires { HasStamps digests.old (array lineage.now.table.nodes base.number) }
    ensures { OnOk result (AddsBlocks (array lineage.now.table.nodes node.number) digests.old digests.new) }
{
    lineage.keeps_small();
    let mut from = 0;
    while from < 1 << 32 {
        let Some((index, _, block)) = lineage.changed_next(base, node, from as u32) else {
            return Ok(());
        };
        if let Some(block) = block {
            digests.insert(block.stamp, block.digest)?;
        }
        from = u64::from(index) + 1;
    }
    Ok(())
}
