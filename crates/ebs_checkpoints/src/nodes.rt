// Nodes with their entries, copies and slots.
use ebs_model::Block;
use ebs_records::{Codec, Input, Unread};
use ebs_tables::Sequence;
use std::alloc::{AllocError, Global};

/// The block that a node has at an index.
#[derive(Clone, Copy, Debug, PartialEq, Eq)]
pub struct EntryRow {
    pub index: u32,
    pub block: Block,
}

/// Entries in ascending index.
pub type EntryRows = Sequence<EntryRow>;

/// The copy of a snapshot's block in the archive, by the number that the copy has.
#[derive(Clone, Copy, Debug, PartialEq, Eq)]
pub struct CopyRow {
    pub index: u32,
    pub copy: u64,
    pub block: Block,
}

/// Copies in ascending index.
pub type CopyRows = Sequence<CopyRow>;

/// A node of a lineage. What it has no entry for is its parent's, and an open one is written.
#[derive(Debug, Drop)]
pub struct NodeRow {
    pub number: u64,
    pub parent: Option<u64>,
    pub writable: bool,
    pub entries: EntryRows,
}

/// Nodes in ascending number.
pub type NodeRows = Sequence<NodeRow>;

/// The slot of a block, whose key is its stamp, or of a copy, whose key is its number.
#[derive(Clone, Copy, Debug, PartialEq, Eq)]
pub struct SlotRow {
    pub key: u64,
    pub slot: u64,
}

/// Slots in ascending key.
pub type SlotRows = Sequence<SlotRow>;

impl Codec for EntryRow {
    ghost use Rattle.ebs_checkpoints.specs.Nodes.{IsEntry, entry};
    ghost use Rattle.ebs_checkpoints.specs.inner.Nodes.{apart_entry};

    ghost fits = { IsEntry };

    ghost spelled = { entry };

    ghost apart = { apart_entry };

    fn write(&self, out: &mut Vec<u8>) -> Result<(), AllocError> {
        self.index.write(out)?;
        self.block.write(out)
    }

    fn read(alloc: Global, input: &mut Input) -> Result<EntryRow, Unread> {
        let (index, block) = <(u32, Block)>::read(alloc, input)?;
        Ok(EntryRow { index, block })
    }
}

impl Codec for CopyRow {
    ghost use Rattle.ebs_checkpoints.specs.Nodes.{IsCopy, copy};
    ghost use Rattle.ebs_checkpoints.specs.inner.Nodes.{apart_copy};

    ghost fits = { IsCopy };

    ghost spelled = { copy };

    ghost apart = { apart_copy };

    fn write(&self, out: &mut Vec<u8>) -> Result<(), AllocError> {
        self.index.write(out)?;
        self.copy.write(out)?;
        self.block.write(out)
    }

    fn read(alloc: Global, input: &mut Input) -> Result<CopyRow, Unread> {
        let (index, (copy, block)) = <(u32, (u64, Block))>::read(alloc, input)?;
        Ok(CopyRow { index, copy, block })
    }
}

impl Codec for NodeRow {
    ghost use Rattle.ebs_checkpoints.specs.Nodes.{IsNode, node};
    ghost use Rattle.ebs_checkpoints.specs.inner.Nodes.{apart_node};

    ghost fits = { IsNode };

    ghost spelled = { node };

    ghost apart = { apart_node };

    fn write(&self, out: &mut Vec<u8>) -> Result<(), AllocError> {
        self.number.write(out)?;
        self.parent.write(out)?;
        self.writable.write(out)?;
        self.entries.write(out)
    }

    fn read(alloc: Global, input: &mut Input) -> Result<NodeRow, Unread> {
        let (number, (parent, (writable, entries))) = <(
            u64,
            (Option<u64>, (bool, EntryRows)),
        )>::read(alloc, input)?;
        Ok(NodeRow {
            number,
            parent,
            writable,
            entries,
        })
    }
}

impl Codec for SlotRow {
    ghost use Rattle.ebs_checkpoints.specs.Nodes.{IsSlot, slot};
    ghost use Rattle.ebs_checkpoints.specs.inner.Nodes.{apart_slot};

    ghost fits = { IsSlot };

    ghost spelled = { slot };

    ghost apart = { apart_slot };

    fn write(&self, out: &mut Vec<u8>) -> Result<(), AllocError> {
        self.key.write(out)?;
        self.slot.write(out)
    }

    fn read(alloc: Global, input: &mut Input) -> Result<SlotRow, Unread> {
        let (key, slot) = <(u64, u64)>::read(alloc, input)?;
        Ok(SlotRow { key, slot })
    }
}
