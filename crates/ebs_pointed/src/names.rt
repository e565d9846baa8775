// The nodes that rows name, as a set.
ghost use Rattle.std.specs.Prelude.{◌≡◌, ℕ, IfOk};
ghost use Rattle.std.specs.FinMap as map;
ghost use Rattle.ebs_node_rules.specs.Nodes as forest;

use ebs_checkpoints::{SnapPoint, VolPoint};
use ebs_node_rules::{names, set_of};
use ebs_tables::Stamped;
use std::alloc::{AllocError, Global};

/// The numbers of the nodes that the rows name.
pub fn names_of(
    alloc: Global,
    snapshots: &[SnapPoint],
    volumes: &[VolPoint],
) -> Result<Stamped<()>, AllocError>
    ensures { IfOk result (λ named. (number : ℕ) → map.contains_key named number ≡ forest.is_among (forest.names snapshots.now volumes.now) number) }
{
    let numbers = names(alloc, snapshots, volumes)?;
    let named = set_of(alloc, numbers.as_slice())?;
    Ok(named)
}
