// Which snapshots and volumes have which nodes.
ghost use Rattle.std.specs.Prelude.{◌≡◌, [], map, IfOk, OnOk, IsSome};
ghost use Rattle.std.specs.FinMap as fin;
ghost use Rattle.ebs_tables.specs.Full.{held};
ghost use Rattle.ebs_holds.specs.Holders.{holder_cmp};
ghost use Rattle.ebs_node_rules.specs.Nodes as forest;
ghost use Rattle.ebs_restored.specs.Holders.{AreNumbered, HaveNodes, Named, named};

use ebs_checkpoints::{SnapPoint, VolPoint};
use ebs_holds::Holder;
use ebs_lineage::NodeId;
use ebs_tables::{Slots, Stamped};
use std::alloc::{AllocError, Global};

/// The node of each snapshot and of each volume that names one. It fails only for want of memory.
pub fn holders_of(
    alloc: Global,
    snapshots: &[SnapPoint],
    volumes: &[VolPoint],
    numbers: &Stamped<u64>,
) -> Result<Slots<Holder, NodeId>, AllocError>
    requires { AreNumbered numbers.now (forest.names snapshots.now volumes.now) }
    ensures { IfOk result (λ nodes. HaveNodes numbers.now (named snapshots.now volumes.now) (held holder_cmp nodes)) }
{
    let mut nodes = Slots::new(alloc);
    hold_volumes(&mut nodes, volumes, numbers)?;
    hold_snapshots(&mut nodes, snapshots, volumes, numbers)?;
    Ok(nodes)
}

// From the last on, since of two with one key the first would count.
fn hold_volumes(
    nodes: &mut Slots<Holder, NodeId>,
    volumes: &[VolPoint],
    numbers: &Stamped<u64>,
) -> Result<(), AllocError>
    requires none { held holder_cmp nodes.old ≡ fin.empty }
    requires numbered { AreNumbered numbers.now (map (λ row. row.node) volumes.now) }
    ensures { OnOk result (HaveNodes numbers.now (named [] volumes.now) (held holder_cmp nodes.new)) }
{
    let mut at = volumes.len();
    while at > 0 {
        at -= 1;
        let row = &volumes[at];
        let holder = Holder::volume(&row.row.key);
        hold(nodes, &holder, row.node, numbers)?;
    }
    Ok(())
}

fn hold_snapshots(
    nodes: &mut Slots<Holder, NodeId>,
    snapshots: &[SnapPoint],
    volumes: &[VolPoint],
    numbers: &Stamped<u64>,
) -> Result<(), AllocError>
    requires volumes { HaveNodes numbers.now (named [] volumes.now) (held holder_cmp nodes.old) }
    requires numbered { AreNumbered numbers.now (forest.names snapshots.now volumes.now) }
    ensures { OnOk result (HaveNodes numbers.now (named snapshots.now volumes.now) (held holder_cmp nodes.new)) }
{
    let mut at = snapshots.len();
    while at > 0 {
        at -= 1;
        let row = &snapshots[at];
        if let Some(number) = row.node {
            let holder = Holder::snapshot(&row.key);
            hold(nodes, &holder, number, numbers)?;
        }
    }
    Ok(())
}

fn hold(
    nodes: &mut Slots<Holder, NodeId>,
    holder: &Holder,
    number: u64,
    numbers: &Stamped<u64>,
) -> Result<(), AllocError>
    requires { IsSome (fin.get numbers.now number) }
    ensures { OnOk result ((names : Named) → HaveNodes numbers.now names (held holder_cmp nodes.old) → HaveNodes numbers.now (fin.insert names holder.now number) (held holder_cmp nodes.new)) }
{
    let Some(number) = numbers.get(number).copied() else {
        unreachable!()
    };
    let node = NodeId { number };
    nodes.prepare(*holder)?;
    nodes.fill(*holder, node);
    Ok(())
}
