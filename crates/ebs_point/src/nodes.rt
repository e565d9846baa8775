// The nodes that rows name, with their ancestors.
ghost use Rattle.std.specs.Prelude.{IfOk};
ghost use Rattle.ebs_holds.specs.Holds.{nodes_in};
ghost use Rattle.ebs_node_rules.specs.Nodes.{names};
ghost use Rattle.ebs_point.specs.Nodes.{AreLive, AreNodesOf, AreThere};

use crate::fields::check_nodes;
use crate::live::live_rows;
use ebs_checkpoints::{NodeRows, SnapPoint, VolPoint};
use ebs_holds::Holdings;
use ebs_node_rows::rows_of;
use ebs_pointed::names_of;
use ebs_tables::Stamped;
use std::alloc::{AllocError, Global};

/// The nodes that the rows name and their ancestors, in ascending number, without the blocks that are nobody's any more.
pub(crate) fn nodes_of(
    alloc: Global,
    holdings: &Holdings,
    snapshots: &[SnapPoint],
    volumes: &[VolPoint],
    digests: &Stamped<[u8; 32]>,
) -> Result<NodeRows, AllocError>
    requires there { AreThere (nodes_in holdings.now) (names snapshots.now volumes.now) }
    requires live { AreLive (nodes_in holdings.now) (names snapshots.now volumes.now) digests.now }
    ensures { IfOk result (λ nodes. AreNodesOf (nodes_in holdings.now) (names snapshots.now volumes.now) digests.now nodes) }
{
    let named = names_of(alloc, snapshots, volumes)?;
    let rows = rows_of(alloc, holdings.lineage(), &named)?;
    let nodes = live_rows(alloc, rows.as_slice(), digests)?;
    check_nodes(nodes.as_slice());
    Ok(nodes)
}
