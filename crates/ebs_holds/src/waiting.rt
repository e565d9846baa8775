// What comes to wait where a node is given up, and where a block is put.
ghost use Rattle.std.specs.Prelude.{◌≤◌, false};
ghost use Rattle.ebs_lineage.specs.Lines.{IsHeld, IsOpen, put_spare, with_nodes};
ghost use Rattle.ebs_lineage.specs.Table.{changed, closed_node, put_node};
ghost use Rattle.ebs_collect.specs.Backlogs.{Covers, IsLinked, IsPlacesAlone};

use ebs_collect::{Backlog, dropping_leaves_its_line, putting_leaves_what_it_hides};
use ebs_lineage::{Lineage, NodeId};
use ebs_model::Block;

/// Gives up the hold of the node. What only it found waits.
pub(crate) fn let_go(lineage: &mut Lineage, backlog: &mut Backlog, node: NodeId)
    requires held { IsHeld lineage.old.table.nodes node.number }
    requires linked { IsLinked backlog.old lineage.old }
    requires covers { Covers lineage.old }
    ensures linked { IsLinked backlog.new lineage.new }
    ensures covers { Covers lineage.new }
    ensures grows { backlog.old.waiting ≤ backlog.new.waiting }
    ensures nodes { IsPlacesAlone (with_nodes lineage.old (changed lineage.old.table.nodes node.number (closed_node false))) lineage.new }
{
    dropping_leaves_its_line();
    lineage.drop_node(node);
    backlog.enqueue(lineage, node);
}

/// Puts the block into the open node, for which there is room. What it hides waits, unless somebody else finds it.
pub(crate) fn put_block(
    lineage: &mut Lineage,
    backlog: &mut Backlog,
    node: NodeId,
    index: u32,
    block: Block,
)
    requires is_open { IsOpen lineage.old.table.nodes node.number }
    requires room { 1 ≤ put_spare lineage.old.table.nodes node.number }
    requires linked { IsLinked backlog.old lineage.old }
    requires covers { Covers lineage.old }
    ensures linked { IsLinked backlog.new lineage.new }
    ensures covers { Covers lineage.new }
    ensures nodes { IsPlacesAlone (with_nodes lineage.old (changed lineage.old.table.nodes node.number (put_node index block))) lineage.new }
{
    putting_leaves_what_it_hides();
    lineage.keeps_lines();
    match lineage.put(node, index, block) {
        Ok(()) => backlog.enqueue_hidden(lineage, node, index),
        Err(_) => unreachable!(),
    }
}
