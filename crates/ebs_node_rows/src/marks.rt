// Which nodes are named, or are ancestors of named ones.
ghost use Rattle.std.specs.Prelude.{◌≡◌, ℕ, true, IfOk, OnOk};
ghost use Rattle.std.specs.FinMap as map;
ghost use Rattle.ebs_lineage.specs.Lines.{parent_of};
ghost use Rattle.ebs_node_rows.specs.Marks.{AreMarked, AreThere, IsIn, Marks};

use ebs_lineage::{Lineage, NodeId};
use ebs_tables::Stamped;
use std::alloc::{AllocError, Global};

/// The numbers of the named nodes and of their ancestors. A parent's number is below its children's, so that one walk down
/// marks them all.
pub fn wanted_nodes(
    alloc: Global,
    lineage: &Lineage,
    named: &Stamped<()>,
) -> Result<Stamped<()>, AllocError>
    requires { AreThere lineage.now.table.nodes named.now }
    ensures { IfOk result (λ wanted. AreMarked lineage.now.table.nodes named.now wanted) }
{
    lineage.keeps_lines();
    let mut wanted = Stamped::new(alloc);
    let mut number = lineage.made();
    while number > 0 {
        number -= 1;
        mark_named(named, number, &mut wanted)?;
        mark_parent(lineage, NodeId { number }, &mut wanted)?;
    }
    Ok(wanted)
}

fn mark_named(named: &Stamped<()>, number: u64, wanted: &mut Stamped<()>) -> Result<(), AllocError>
    ensures { OnOk result (Marks (λ q. (q ≡ number) × IsIn named.now q) wanted.old wanted.new) }
{
    if named.contains(number) {
        wanted.insert(number, ())?;
    }
    Ok(())
}

// The parent of a node that is marked.
fn mark_parent(lineage: &Lineage, node: NodeId, wanted: &mut Stamped<()>) -> Result<(), AllocError>
    ensures { OnOk result (Marks (λ q. (map.contains_key wanted.old node.number ≡ true) × (parent_of lineage.now.table.nodes node.number ≡ Some q)) wanted.old wanted.new) }
{
    if !wanted.contains(node.number) {
        return Ok(());
    }
    if let Some(parent) = lineage.parent(node) {
        wanted.insert(parent.number, ())?;
    }
    Ok(())
}
