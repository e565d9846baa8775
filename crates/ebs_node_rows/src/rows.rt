// A row for each node that is named, and for each of its ancestors.
ghost use Rattle.std.specs.Prelude.{◌≡◌, true, IfOk, IsSome};
ghost use Rattle.std.specs.FinMap as map;
ghost use Rattle.ebs_lineage.specs.Lines.{parent_of};
ghost use Rattle.ebs_node_rules.specs.inner.Lookups.{AreChained};
ghost use Rattle.ebs_node_rows.specs.Marks.{AreThere, HaveParents};
ghost use Rattle.ebs_node_rows.specs.Rows.{AreRowsOf, AreWritten, HaveArrays, IsRowOf, ListWanted, NeedEach, ReachEach, are_below};

use crate::entries::entries_of;
use crate::marks::wanted_nodes;
use ebs_checkpoints::{NodeRow, NodeRows};
use ebs_lineage::{Lineage, NodeId};
use ebs_tables::Stamped;
use std::alloc::{AllocError, Global};

/// The nodes whose numbers are named and their ancestors, in ascending number. It looks at each number that was given to a node,
/// and fails only for want of memory.
pub fn rows_of(
    alloc: Global,
    lineage: &Lineage,
    named: &Stamped<()>,
) -> Result<NodeRows, AllocError>
    requires { AreThere lineage.now.table.nodes named.now }
    ensures wanted { IfOk result (λ rows. ListWanted lineage.now.table.nodes named.now rows) }
    ensures each { IfOk result (λ rows. AreRowsOf lineage.now.table.nodes rows) }
    ensures chained { IfOk result (λ rows. AreChained rows) }
    ensures below { IfOk result (λ rows. are_below lineage.now.made rows ≡ true) }
    ensures arrays { IfOk result (λ rows. HaveArrays lineage.now.table.nodes rows) }
    ensures reach { IfOk result (λ rows. ReachEach named.now rows) }
    ensures needed { IfOk result (λ rows. NeedEach named.now rows) }
{
    lineage.keeps_lines();
    let wanted = wanted_nodes(alloc, lineage, named)?;
    let rows = rows_where(alloc, lineage, &wanted)?;
    Ok(rows)
}

fn rows_where(
    alloc: Global,
    lineage: &Lineage,
    wanted: &Stamped<()>,
) -> Result<NodeRows, AllocError>
    requires { HaveParents lineage.now.table.nodes wanted.now }
    ensures { IfOk result (λ rows. AreWritten lineage.now.table.nodes wanted.now lineage.now.made rows) }
{
    lineage.keeps_lines();
    let mut rows = NodeRows::new(alloc);
    for number in 0..lineage.made() {
        if wanted.contains(number) {
            let row = row_of(alloc, lineage, NodeId { number })?;
            rows.push(row)?;
        }
    }
    Ok(rows)
}

fn row_of(alloc: Global, lineage: &Lineage, node: NodeId) -> Result<NodeRow, AllocError>
    requires { IsSome (map.get lineage.now.table.nodes node.number) }
    ensures { IfOk result (λ row. IsRowOf lineage.now.table.nodes node.number row) }
{
    lineage.keeps_lines();
    let entries = entries_of(alloc, lineage, node)?;
    Ok(NodeRow {
        number: node.number,
        parent: parent_number(lineage, node),
        writable: lineage.is_open(node),
        entries,
    })
}

fn parent_number(lineage: &Lineage, node: NodeId) -> Option<u64>
    ensures { result ≡ parent_of lineage.now.table.nodes node.number }
{
    let parent = lineage.parent(node)?;
    Some(parent.number)
}
