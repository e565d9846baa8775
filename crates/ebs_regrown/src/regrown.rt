// Nodes made anew, one for each row.
ghost use Rattle.std.specs.Prelude.{◌≡◌, ℕ, ◌<◌, ◌^◌, None, IfOk, OnOk, true};
ghost use Rattle.std.specs.Option.{option_map};
ghost use Rattle.std.specs.FinMap as map;
ghost use Rattle.ebs_collect.specs.Backlogs.{Covers, IsLinked};
ghost use Rattle.ebs_lineage.specs.Lines.{IsOpen, KeepsOthers, array, of_parent, with_new};
ghost use Rattle.ebs_node_rules.specs.inner.Lookups.{AreChained};
ghost use Rattle.ebs_node_rules.specs.Nodes as forest;
ghost use Rattle.ebs_node_rules.specs.inner.Nodes as kin;
ghost use Rattle.ebs_regrown.specs.Regrown.{AreHeld, IsAdded, IsClosedBy, IsDropped, IsFilled, IsParent, IsRegrown, up};

use ebs_checkpoints::{EntryRow, NodeRow};
use ebs_collect::{Backlog, dropping_leaves_its_line, others_cover};
use ebs_lineage::{Lineage, NodeId};
use ebs_tables::Stamped;
use std::alloc::{AllocError, Global};

/// A lineage that was made of a checkpoint's nodes, the number that each of these has in it, and the blocks that nobody may
/// find.
#[derive(Debug, Drop)]
pub struct Regrown {
    pub lineage: Lineage,
    pub backlog: Backlog,
    pub numbers: Stamped<u64>,
}

/// Makes a node for each row, and gives up the hold of those that aren't named. It fails only for want of memory.
pub fn regrow(alloc: Global, rows: &[NodeRow], named: &Stamped<()>) -> Result<Regrown, AllocError>
    requires chained { AreChained rows.now }
    requires named { forest.open_are_named rows.now (map.contains_key named.now) ≡ true }
    ensures grown { IfOk result (λ grown. IsRegrown rows.now (map.contains_key named.now) grown.numbers grown.lineage) }
    ensures linked { IfOk result (λ grown. IsLinked grown.backlog grown.lineage) }
    ensures covers { IfOk result (λ grown. Covers grown.lineage) }
{
    others_cover();
    let mut grown = grow(alloc, rows)?;
    grown.lineage.keeps_lines();
    grown.let_go(rows, named);
    Ok(grown)
}

// All nodes are held to begin with, since children are made of them.
fn grow(alloc: Global, rows: &[NodeRow]) -> Result<Regrown, AllocError>
    requires { AreChained rows.now }
    ensures grown { IfOk result (λ grown. IsRegrown rows.now (λ number. true) grown.numbers grown.lineage) }
    ensures places { IfOk result (λ grown. grown.lineage.places ≡ map.empty) }
    ensures backlog { IfOk result (λ grown. grown.backlog ≡ record { first = None; waiting = 0 }) }
{
    let mut grown = Regrown {
        lineage: Lineage::new(alloc),
        backlog: Backlog::new(),
        numbers: Stamped::new(alloc),
    };
    for row in rows {
        grown.add(row)?;
    }
    Ok(grown)
}

impl Regrown {
    // The node of a row is open to begin with, since its blocks are put into it.
    fn add(&mut self, row: &NodeRow) -> Result<(), AllocError>
        requires few { self.old.lineage.made < 2 ^ 62 }
        requires parent { IsParent self.old.numbers self.old.lineage.table.nodes row.now.parent }
        ensures added { OnOk result (IsAdded self.old.numbers self.old.lineage row.now self.new.numbers self.new.lineage) }
        ensures backlog { self.new.backlog ≡ self.old.backlog }
    {
        let node = self.begin(row.parent)?;
        fill(&mut self.lineage, node, row.entries.as_slice())?;
        close(&mut self.lineage, node, row.writable);
        self.numbers.insert(row.number, node.number)?;
        Ok(())
    }

    fn begin(&mut self, parent: Option<u64>) -> Result<NodeId, AllocError>
        requires few { self.old.lineage.made < 2 ^ 62 }
        requires parent { IsParent self.old.numbers self.old.lineage.table.nodes parent }
        ensures numbers { self.new.numbers ≡ self.old.numbers }
        ensures backlog { self.new.backlog ≡ self.old.backlog }
        ensures ok { IfOk result (λ n. (n.number ≡ self.old.lineage.made) × (self.new.lineage ≡ with_new self.old.lineage (up self.old.numbers parent))) }
        ensures array { IfOk result (λ n. array self.new.lineage.table.nodes n.number ≡ of_parent (up self.old.numbers parent) (array self.old.lineage.table.nodes)) }
        ensures others { KeepsOthers self.old.lineage.table.nodes self.new.lineage.table.nodes self.old.lineage.made }
    {
        match self.node_of(parent) {
            Some(node) => self.lineage.child(node),
            None => self.lineage.root(),
        }
    }

    fn node_of(&self, number: Option<u64>) -> Option<NodeId>
        ensures { option_map (λ n. n.number) result ≡ up self.now.numbers number }
    {
        let number = *self.numbers.get(number?)?;
        Some(NodeId { number })
    }

    fn let_go(&mut self, rows: &[NodeRow], named: &Stamped<()>)
        requires ascend { kin.nodes_ascend rows.now ≡ true }
        requires grown { IsRegrown rows.now (λ number. true) self.old.numbers self.old.lineage }
        requires named { forest.open_are_named rows.now (map.contains_key named.now) ≡ true }
        requires linked { IsLinked self.old.backlog self.old.lineage }
        requires covers { Covers self.old.lineage }
        ensures grown { IsRegrown rows.now (map.contains_key named.now) self.new.numbers self.new.lineage }
        ensures linked { IsLinked self.new.backlog self.new.lineage }
        ensures covers { Covers self.new.lineage }
    {
        for row in rows {
            if !named.contains(row.number) {
                self.leave(row.number);
            }
        }
    }

    // What only the node of the number found waits.
    fn leave(&mut self, number: u64)
        requires held { AreHeld self.old.lineage.table.nodes (map.get self.old.numbers number) }
        requires linked { IsLinked self.old.backlog self.old.lineage }
        requires covers { Covers self.old.lineage }
        ensures numbers { self.new.numbers ≡ self.old.numbers }
        ensures lineage { IsDropped self.old.lineage (map.get self.old.numbers number) self.new.lineage }
        ensures arrays { (m : ℕ) → array self.new.lineage.table.nodes m ≡ array self.old.lineage.table.nodes m }
        ensures linked { IsLinked self.new.backlog self.new.lineage }
        ensures covers { Covers self.new.lineage }
    {
        if let Some(number) = self.numbers.get(number).copied() {
            let node = NodeId { number };
            dropping_leaves_its_line();
            self.lineage.drop_node(node);
            self.backlog.enqueue(&mut self.lineage, node);
        }
    }
}

// A node's own blocks, as its entries say.
fn fill(lineage: &mut Lineage, node: NodeId, entries: &[EntryRow]) -> Result<(), AllocError>
    requires { IsOpen lineage.old.table.nodes node.number }
    ensures { OnOk result (IsFilled lineage.old node.number entries.now lineage.new) }
{
    for entry in entries {
        lineage.put(node, entry.index, entry.block)?;
    }
    Ok(())
}

// A node that isn't written any more is frozen.
fn close(lineage: &mut Lineage, node: NodeId, writable: bool)
    requires { IsOpen lineage.old.table.nodes node.number }
    ensures { IsClosedBy lineage.old node.number writable lineage.new }
{
    lineage.keeps_lines();
    if !writable {
        lineage.seal(node);
    }
}
