// The nodes of all snapshots and volumes, and their arrays.
ghost use Rattle.std.specs.Prelude.{◌≡◌};
ghost use Rattle.ebs_holds.specs.Holders.{is_holder};

use crate::holder::Holder;
use crate::waiting::{let_go, put_block};
use ebs_collect::{Backlog, Progress, blocks_stay, others_cover, putting_counts};
use ebs_lineage::{Lineage, NodeId, finished_keeps_reached};
use ebs_model::Block;
use ebs_tables::Slots;
use std::alloc::{AllocError, Global};
use std::marker::Model;

/// More nodes than this are never made, so that their numbers never run over.
const MOST_NODES: u64 = 1 << 61;

/// The array of each snapshot and volume, which shares with others the blocks that it began with, and the blocks that none
/// may find any more.
#[derive(Debug, Drop)]
pub struct Holdings {
    alloc: Global,
    lineage: Lineage,
    nodes: Slots<Holder, NodeId>,
    backlog: Backlog,
}

impl Model for Holdings {
    ghost use Rattle.ebs_holds.specs.Holds.{Holding, holding_code};

    ghost Value = { Holding };

    ghost coded = { holding_code };

    ghost use Rattle.ebs_holds.specs.Shown.{holding_shown, IsSound};

    ghost view = { λ h. holding_shown h };

    ghost invariant = { λ h. IsSound h };
}

impl Holdings {
    ghost use Rattle.std.specs.Prelude.{◌≡◌, ◌≤◌, ℕ, ◌+◌, ◌-◌, ◌^◌, ◌==◌, true, false, None, Some, if◌then◌else◌, OnOk, IfOk, IfSome, IsSome, min};
    ghost use Rattle.std.specs.FinMap as map;
    ghost use Rattle.ebs_tables.specs.Full.{held};
    ghost use Rattle.ebs_model.specs.declared.array.Block.{Block};
    ghost use Rattle.ebs_world.specs.declared.area.Area.{Area};
    ghost use Rattle.ebs_slots.specs.inner.Slots.{SlotTable, no_slots};
    ghost use Rattle.ebs_lineage.specs.Lines.{IsOpen, IsFrozen, array};
    ghost use Rattle.ebs_lineage.specs.Reached.{HasStamp};
    ghost use Rattle.ebs_collect.specs.Backlogs.{IsLinked, Covers};
    ghost use Rattle.ebs_collect.specs.Slices.{IsCounted, Frees};
    ghost use Rattle.ebs_collect.specs.declared.backlog.Progress.TheVariants.{More, Finished};
    ghost use Rattle.ebs_holds.specs.Changes.{IsFree};
    ghost use Rattle.ebs_holds.specs.Counted.{KeepsBlocks, PutsCounted, replaced_by};
    ghost use Rattle.ebs_lineage.specs.declared.node_id.NodeId.{NodeId};
    ghost use Rattle.ebs_holds.specs.declared.holder.Holder.{Holder};
    ghost use Rattle.ebs_holds.specs.Holders.{is_holder, holder_cmp};
    ghost use Rattle.ebs_holds.specs.Holds.{AreHeld, nodes_in, held_in, blocks_at, begun, is_ready, HasNodes, CanPut, HasOpen, HasClosed, KeepsNode};

    /// Nothing has an array.
    pub fn new(alloc: Global) -> Self
        ensures arrays { (q : Holder) → blocks_at result q ≡ map.empty }
        ensures counted { (area : Area) → IsCounted (no_slots area) (nodes_in result) }
        ensures waiting { result.queue.waiting ≡ 0 }
    {
        others_cover();
        Holdings {
            alloc,
            lineage: Lineage::new(alloc),
            nodes: Slots::new(alloc),
            backlog: Backlog::new(),
        }
    }

    /// What holders have of a lineage that is there, with the blocks that wait in it: for a store that is opened from a
    /// checkpoint.
    pub fn of(
        alloc: Global,
        lineage: Lineage,
        nodes: Slots<Holder, NodeId>,
        backlog: Backlog,
    ) -> Self
        requires holders { AreHeld lineage.table.nodes lineage.made (held holder_cmp nodes) }
        requires linked { IsLinked backlog lineage }
        requires covers { Covers lineage }
        ensures lines { result.lines ≡ lineage }
        ensures held { held_in result ≡ held holder_cmp nodes }
        ensures queue { result.queue ≡ backlog }
    {
        Holdings {
            alloc,
            lineage,
            nodes,
            backlog,
        }
    }

    /// The lines of nodes, by which arrays are listed.
    pub fn lineage(&self) -> &Lineage
        ensures { result.now ≡ self.now.lines }
    {
        &self.lineage
    }

    /// The node whose array the holder has.
    pub fn node(&self, holder: &Holder) -> Option<NodeId>
        ensures { result ≡ map.get (held_in self.now) holder.now }
    {
        self.nodes.get(holder).copied()
    }

    /// All nodes that are had.
    pub fn nodes(&self) -> &Slots<Holder, NodeId>
        ensures { held holder_cmp result.now ≡ held_in self.now }
    {
        &self.nodes
    }

    /// The node whose array the holder has, or one without blocks.
    pub fn node_of(&self, holder: &Holder) -> NodeId
        ensures { array (nodes_in self.now) result.number ≡ blocks_at self.now holder.now }
    {
        match self.node(holder) {
            Some(node) => node,
            None => self.lineage.without_blocks(),
        }
    }

    /// The block at an index of the holder's array.
    pub fn find(&self, holder: &Holder, index: u32) -> Option<Block>
        ensures { result ≡ map.get (blocks_at self.now holder.now) index }
    {
        match self.node(holder) {
            Some(node) => self.lineage.find(node, index),
            None => None,
        }
    }

    /// The blocks that wait to be looked at.
    pub fn backlog(&self) -> &Backlog
        ensures { result.now ≡ self.now.queue }
    {
        &self.backlog
    }

    /// How many blocks wait to be looked at, or 2^64 - 1 where there are more.
    pub fn waiting(&self) -> u64
        ensures { result ≡ min self.now.queue.waiting (2 ^ 64 - 1) }
    {
        self.backlog.waiting()
    }

    /// The stamp of the block that a put at the index takes the place of. It has a slot.
    pub fn replaced(&self, holder: &Holder, index: u64) -> Option<u64>
        ensures value { result ≡ replaced_by self.now holder.now index }
        ensures there { IfSome result (λ stamp. (s : SlotTable) → IsCounted s (nodes_in self.now) → IsSome (map.get s.keys stamp)) }
    {
        let Some(node) = self.node(holder) else {
            return None;
        };
        if !self.lineage.is_open(node) {
            return None;
        }
        if index >= 1 << 32 {
            return None;
        }
        match self.lineage.own_at(node, index as u32) {
            Some(block) => Some(block.stamp),
            None => None,
        }
    }

    /// Each block of an array has a slot.
    pub fn blocks_have_slots(&self)
        ensures { (s : SlotTable) (q : Holder) (index : ℕ) (block : Block) → IsCounted s (nodes_in self.now) → map.get (blocks_at self.now q) index ≡ Some block → IsSome (map.get s.keys block.stamp) }
    {
        finished_keeps_reached();
        let _ = &self.alloc;
    }

    /// Each node that is held is one holder's, and a holder's node is held.
    pub fn keeps_holders(&self)
        ensures { AreHeld (nodes_in self.now) self.now.lines.made (held_in self.now) }
    {
        let _ = &self.nodes;
    }

    /// Makes the holder ready to begin. The arrays stay.
    pub fn prepare(&mut self, holder: &Holder) -> Result<(), AllocError>
        ensures lines { self.new.lines ≡ self.old.lines }
        ensures held { held_in self.new ≡ held_in self.old }
        ensures ready { OnOk result (is_ready self.new holder.now ≡ true) }
        ensures others { (q : Holder) → is_ready self.old q ≡ true → is_ready self.new q ≡ true }
        ensures blocks { KeepsBlocks (nodes_in self.old) (nodes_in self.new) }
        ensures queue { self.new.queue ≡ self.old.queue }
    {
        self.nodes.prepare(*holder)
    }

    /// Takes back what was made ready for nothing. The arrays stay.
    pub fn release(&mut self, holder: &Holder)
        ensures lines { self.new.lines ≡ self.old.lines }
        ensures held { held_in self.new ≡ held_in self.old }
        ensures free { IsFree self.new holder.now }
        ensures others { (q : Holder) → IsFree self.old q → IsFree self.new q }
        ensures blocks { KeepsBlocks (nodes_in self.old) (nodes_in self.new) }
        ensures queue { self.new.queue ≡ self.old.queue }
    {
        self.nodes.release(holder);
    }

    /// Keeps room for so many nodes, for each of which something can begin. The arrays stay.
    pub fn reserve_nodes(&mut self, count: u32) -> Result<(), AllocError>
        ensures slots { self.new.slots ≡ self.old.slots }
        ensures nodes { nodes_in self.new ≡ nodes_in self.old }
        ensures room { OnOk result (HasNodes self.new count) }
        ensures blocks { KeepsBlocks (nodes_in self.old) (nodes_in self.new) }
        ensures queue { self.new.queue ≡ self.old.queue }
    {
        if self.lineage.made() >= MOST_NODES {
            return Err(AllocError);
        }
        self.lineage.reserve_nodes(count)
    }

    /// The holder's array is now the source's, whole, or it has no blocks. It takes no memory.
    pub fn begin(&mut self, holder: &Holder, source: &Option<Holder>)
        requires ready { is_ready self.old holder.now ≡ true }
        requires room { HasNodes self.old 1 }
        ensures arrays { (q : Holder) → blocks_at self.new q ≡ (if is_holder q holder.now then begun self.old source.now else blocks_at self.old q) }
        ensures room { (count : ℕ) → HasNodes self.old (count + 1) → HasNodes self.new count }
        ensures ready { (q : Holder) → is_ready self.new q ≡ is_ready self.old q }
        ensures blocks { KeepsBlocks (nodes_in self.old) (nodes_in self.new) }
    {
        match source {
            None => {
                self.give_up(holder);
                self.begin_empty(holder);
            }
            Some(source) => {
                if !is_same(source, holder) {
                    self.give_up(holder);
                    self.begin_from(holder, source);
                }
            }
        }
    }

    // The holder gets an open node without blocks.
    fn begin_empty(&mut self, holder: &Holder) -> NodeId
        requires ready { is_ready self.old holder.now ≡ true }
        requires room { HasNodes self.old 1 }
        requires free { map.get (held_in self.old) holder.now ≡ None }
        ensures has { map.get (held_in self.new) holder.now ≡ Some result }
        ensures is_open { IsOpen (nodes_in self.new) result.number }
        ensures arrays { (q : Holder) → blocks_at self.new q ≡ (if is_holder q holder.now then map.empty else blocks_at self.old q) }
        ensures others { (q : Holder) → is_holder q holder.now ≡ false → KeepsNode self.old self.new q }
        ensures room { (count : ℕ) → HasNodes self.old (count + 1) → HasNodes self.new count }
        ensures ready { (q : Holder) → is_ready self.new q ≡ is_ready self.old q }
        ensures blocks { KeepsBlocks (nodes_in self.old) (nodes_in self.new) }
        ensures queue { self.new.queue ≡ self.old.queue }
        ensures replaced { (q : Holder) (index : ℕ) → replaced_by self.new q index ≡ replaced_by self.old q index }
    {
        others_cover();
        blocks_stay();
        match self.lineage.root() {
            Ok(node) => {
                self.nodes.fill(*holder, node);
                node
            }
            Err(_) => unreachable!(),
        }
    }

    fn begin_from(&mut self, holder: &Holder, source: &Holder)
        requires ready { is_ready self.old holder.now ≡ true }
        requires room { HasNodes self.old 1 }
        requires free { map.get (held_in self.old) holder.now ≡ None }
        ensures arrays { (q : Holder) → blocks_at self.new q ≡ (if is_holder q holder.now then blocks_at self.old source.now else blocks_at self.old q) }
        ensures room { (count : ℕ) → HasNodes self.old (count + 1) → HasNodes self.new count }
        ensures ready { (q : Holder) → is_ready self.new q ≡ is_ready self.old q }
        ensures blocks { KeepsBlocks (nodes_in self.old) (nodes_in self.new) }
    {
        match self.node(source) {
            None => {
                self.begin_empty(holder);
            }
            Some(node) => {
                if self.lineage.is_open(node) {
                    self.fork(holder, source, node);
                } else {
                    self.begin_child(holder, source, node);
                }
            }
        }
    }

    // The source's node is frozen and the holder's now; the source gets a child of it.
    fn fork(&mut self, holder: &Holder, source: &Holder, node: NodeId)
        requires ready { is_ready self.old holder.now ≡ true }
        requires room { HasNodes self.old 1 }
        requires free { map.get (held_in self.old) holder.now ≡ None }
        requires has { map.get (held_in self.old) source.now ≡ Some node }
        requires is_open { IsOpen (nodes_in self.old) node.number }
        ensures arrays { (q : Holder) → blocks_at self.new q ≡ (if is_holder q holder.now then blocks_at self.old source.now else blocks_at self.old q) }
        ensures room { (count : ℕ) → HasNodes self.old (count + 1) → HasNodes self.new count }
        ensures ready { (q : Holder) → is_ready self.new q ≡ is_ready self.old q }
        ensures blocks { KeepsBlocks (nodes_in self.old) (nodes_in self.new) }
    {
        others_cover();
        blocks_stay();
        match self.lineage.freeze(node) {
            Ok(child) => {
                self.nodes.take(*source);
                self.nodes.fill(*holder, node);
                self.nodes.fill(*source, child);
            }
            Err(_) => unreachable!(),
        }
    }

    // The holder gets a child of the source's frozen node.
    fn begin_child(&mut self, holder: &Holder, source: &Holder, node: NodeId)
        requires ready { is_ready self.old holder.now ≡ true }
        requires room { HasNodes self.old 1 }
        requires free { map.get (held_in self.old) holder.now ≡ None }
        requires has { map.get (held_in self.old) source.now ≡ Some node }
        requires frozen { IsFrozen (nodes_in self.old) node.number }
        ensures arrays { (q : Holder) → blocks_at self.new q ≡ (if is_holder q holder.now then blocks_at self.old source.now else blocks_at self.old q) }
        ensures room { (count : ℕ) → HasNodes self.old (count + 1) → HasNodes self.new count }
        ensures ready { (q : Holder) → is_ready self.new q ≡ is_ready self.old q }
        ensures blocks { KeepsBlocks (nodes_in self.old) (nodes_in self.new) }
    {
        others_cover();
        blocks_stay();
        let _ = source;
        match self.lineage.child(node) {
            Ok(child) => self.nodes.fill(*holder, child),
            Err(_) => unreachable!(),
        }
    }

    // The holder has no array any more, and is still ready for one.
    fn give_up(&mut self, holder: &Holder)
        ensures arrays { (q : Holder) → blocks_at self.new q ≡ (if is_holder q holder.now then map.empty else blocks_at self.old q) }
        ensures gone { map.get (held_in self.new) holder.now ≡ None }
        ensures room { (count : ℕ) → HasNodes self.old count → HasNodes self.new count }
        ensures ready { (q : Holder) → is_ready self.new q ≡ is_ready self.old q }
        ensures blocks { KeepsBlocks (nodes_in self.old) (nodes_in self.new) }
    {
        blocks_stay();
        match self.nodes.take(*holder) {
            Some(node) => let_go(&mut self.lineage, &mut self.backlog, node),
            None => {}
        }
    }

    /// The holder has no array any more.
    pub fn drop_array(&mut self, holder: &Holder)
        ensures arrays { (q : Holder) → blocks_at self.new q ≡ (if is_holder q holder.now then map.empty else blocks_at self.old q) }
        ensures held { held_in self.new ≡ map.remove (held_in self.old) holder.now }
        ensures grows { self.old.queue.waiting ≤ self.new.queue.waiting }
        ensures blocks { KeepsBlocks (nodes_in self.old) (nodes_in self.new) }
    {
        blocks_stay();
        match self.nodes.remove(holder) {
            Some(node) => let_go(&mut self.lineage, &mut self.backlog, node),
            None => {}
        }
    }

    /// Nothing more is put into the holder's array, so that what begins from it shares it.
    pub fn seal(&mut self, holder: &Holder)
        ensures frozen { (node : NodeId) → map.get (held_in self.new) holder.now ≡ Some node → IsFrozen (nodes_in self.new) node.number }
        ensures arrays { (q : Holder) → blocks_at self.new q ≡ blocks_at self.old q }
        ensures held { held_in self.new ≡ held_in self.old }
        ensures others { (q : Holder) → is_holder q holder.now ≡ false → KeepsNode self.old self.new q }
        ensures blocks { KeepsBlocks (nodes_in self.old) (nodes_in self.new) }
        ensures queue { self.new.queue ≡ self.old.queue }
    {
        others_cover();
        blocks_stay();
        if let Some(node) = self.node(holder) {
            if self.lineage.is_open(node) {
                self.lineage.seal(node);
            }
        }
    }

    /// The holder has an open node now. The arrays stay, and so do other holders' nodes. It fails only for want of memory.
    pub fn make_open(&mut self, holder: &Holder) -> Result<(), AllocError>
        ensures arrays { (q : Holder) → blocks_at self.new q ≡ blocks_at self.old q }
        ensures is_open { OnOk result (HasOpen self.new holder.now) }
        ensures others { (q : Holder) → is_holder q holder.now ≡ false → KeepsNode self.old self.new q }
        ensures blocks { KeepsBlocks (nodes_in self.old) (nodes_in self.new) }
        ensures queue { self.new.queue ≡ self.old.queue }
    {
        self.open_node(holder)?;
        Ok(())
    }

    /// The holder has a node now into which nothing more is put. The arrays stay, and so do other holders' nodes. It fails
    /// only for want of memory.
    pub fn make_closed(&mut self, holder: &Holder) -> Result<(), AllocError>
        ensures arrays { (q : Holder) → blocks_at self.new q ≡ blocks_at self.old q }
        ensures is_closed { OnOk result (HasClosed self.new holder.now) }
        ensures others { (q : Holder) → is_holder q holder.now ≡ false → KeepsNode self.old self.new q }
        ensures blocks { KeepsBlocks (nodes_in self.old) (nodes_in self.new) }
        ensures queue { self.new.queue ≡ self.old.queue }
    {
        if self.is_closed(holder) {
            return Ok(());
        }
        self.open_node(holder)?;
        self.seal(holder);
        Ok(())
    }

    // Whether nothing more is put into the holder's node, where it has one.
    fn is_closed(&self, holder: &Holder) -> bool
        ensures { result ≡ true → HasClosed self.now holder.now }
    {
        match self.node(holder) {
            Some(node) => !self.lineage.is_open(node),
            None => false,
        }
    }

    /// Keeps room for one block of the holder's array. The arrays stay.
    pub fn reserve_put(&mut self, holder: &Holder) -> Result<(), AllocError>
        ensures arrays { (q : Holder) → blocks_at self.new q ≡ blocks_at self.old q }
        ensures room { OnOk result (CanPut self.new holder.now) }
        ensures blocks { KeepsBlocks (nodes_in self.old) (nodes_in self.new) }
        ensures queue { self.new.queue ≡ self.old.queue }
        ensures replaced { (q : Holder) (index : ℕ) → replaced_by self.new q index ≡ replaced_by self.old q index }
    {
        others_cover();
        blocks_stay();
        let node = self.open_node(holder)?;
        self.lineage.reserve_put(node)
    }

    // The holder's node, which is open now.
    fn open_node(&mut self, holder: &Holder) -> Result<NodeId, AllocError>
        ensures arrays { (q : Holder) → blocks_at self.new q ≡ blocks_at self.old q }
        ensures has { IfOk result (λ node. map.get (held_in self.new) holder.now ≡ Some node) }
        ensures is_open { IfOk result (λ node. IsOpen (nodes_in self.new) node.number) }
        ensures others { (q : Holder) → is_holder q holder.now ≡ false → KeepsNode self.old self.new q }
        ensures blocks { KeepsBlocks (nodes_in self.old) (nodes_in self.new) }
        ensures queue { self.new.queue ≡ self.old.queue }
        ensures replaced { (q : Holder) (index : ℕ) → replaced_by self.new q index ≡ replaced_by self.old q index }
    {
        match self.node(holder) {
            None => {
                self.prepare(holder)?;
                self.reserve_nodes(1)?;
                Ok(self.begin_empty(holder))
            }
            Some(node) => {
                if self.lineage.is_open(node) {
                    return Ok(node);
                }
                self.reserve_nodes(1)?;
                Ok(self.reopen(holder, node))
            }
        }
    }

    // The holder gets an open child of its frozen node. The child finds what the node found, so nothing comes to wait.
    fn reopen(&mut self, holder: &Holder, node: NodeId) -> NodeId
        requires room { HasNodes self.old 1 }
        requires has { map.get (held_in self.old) holder.now ≡ Some node }
        requires frozen { IsFrozen (nodes_in self.old) node.number }
        ensures arrays { (q : Holder) → blocks_at self.new q ≡ blocks_at self.old q }
        ensures has { map.get (held_in self.new) holder.now ≡ Some result }
        ensures is_open { IsOpen (nodes_in self.new) result.number }
        ensures others { (q : Holder) → is_holder q holder.now ≡ false → KeepsNode self.old self.new q }
        ensures blocks { KeepsBlocks (nodes_in self.old) (nodes_in self.new) }
        ensures queue { self.new.queue ≡ self.old.queue }
        ensures replaced { (q : Holder) (index : ℕ) → replaced_by self.new q index ≡ replaced_by self.old q index }
    {
        others_cover();
        blocks_stay();
        match self.lineage.child(node) {
            Ok(child) => {
                self.lineage.drop_node(node);
                self.nodes.fill(*holder, child);
                child
            }
            Err(_) => unreachable!(),
        }
    }

    /// Puts a block into the holder's array, which takes no memory.
    pub fn put(&mut self, holder: &Holder, index: u32, block: Block)
        requires room { CanPut self.old holder.now }
        ensures arrays { (q : Holder) → blocks_at self.new q ≡ (if is_holder q holder.now then map.insert (blocks_at self.old q) index block else blocks_at self.old q) }
        ensures counted { PutsCounted (nodes_in self.old) (nodes_in self.new) block.stamp (replaced_by self.old holder.now index) }
    {
        putting_counts();
        let Some(node) = self.node(holder) else {
            return;
        };
        put_block(&mut self.lineage, &mut self.backlog, node, index, block);
    }

    /// Looks at so many of the blocks that wait, or at all of them, and gives up those that nobody finds. The arrays stay.
    pub fn collect(&mut self, slots: &mut ebs_slots::Slots, work: u32) -> Progress
        requires { IsCounted slots.old (nodes_in self.old) }
        ensures arrays { (q : Holder) → blocks_at self.new q ≡ blocks_at self.old q }
        ensures held { held_in self.new ≡ held_in self.old }
        ensures ready { (q : Holder) → is_ready self.new q ≡ is_ready self.old q }
        ensures room { (count : ℕ) → HasNodes self.old count → HasNodes self.new count }
        ensures counted { IsCounted slots.new (nodes_in self.new) }
        ensures slots { Frees slots.old slots.new }
        ensures waiting { self.new.queue.waiting ≡ self.old.queue.waiting - work }
        ensures progress { result ≡ (if self.new.queue.waiting == 0 then Finished else More) }
        ensures shared { self.new.queue.waiting ≡ 0 → (stamp : ℕ) → IsSome (map.get slots.new.keys stamp) → (q : Holder) × HasStamp (blocks_at self.new q) stamp }
    {
        finished_keeps_reached();
        let progress = self.backlog.slice(&mut self.lineage, slots, work);
        self.lineage.keeps_lines();
        progress
    }
}

// Whether the two are one to a table.
fn is_same(one: &Holder, other: &Holder) -> bool
    ensures { result ≡ is_holder one.now other.now }
{
    one.cmp(other).is_eq()
}
