// The arrays of snapshots and volumes.
ghost use Rattle.std.specs.Prelude.{◌≡◌, true, IfOk};
ghost use Rattle.ebs_row_rules.specs.Order.{is_ordered};
ghost use Rattle.ebs_node_rules.specs.Nodes.{is_forest};
ghost use Rattle.ebs_restored.specs.Restored.{AreRestored};

use crate::holders::holders_of;
use ebs_checkpoints::Checkpoint;
use ebs_holds::Holdings;
use ebs_node_rules::{names, set_of};
use ebs_regrown::regrow;
use std::alloc::{AllocError, Global};

/// The arrays that a checkpoint's rows have, and what nobody may find any more. It fails only for want of memory.
pub fn holdings_of(alloc: Global, point: &Checkpoint) -> Result<Holdings, AllocError>
    requires ordered { is_ordered point.now ≡ true }
    requires forest { is_forest point.now ≡ true }
    ensures { IfOk result (λ holdings. AreRestored point.now holdings) }
{
    let snapshots = point.snapshots.as_slice();
    let volumes = point.volumes.as_slice();
    let named = names(alloc, snapshots, volumes)?;
    let kept = set_of(alloc, named.as_slice())?;
    let grown = regrow(alloc, point.nodes.as_slice(), &kept)?;
    grown.lineage.keeps_lines();
    let nodes = holders_of(alloc, snapshots, volumes, &grown.numbers)?;
    Ok(Holdings::of(alloc, grown.lineage, nodes, grown.backlog))
}
