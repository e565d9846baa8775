// Stamps, copies, and the slots that they have on the disk.
ghost use Rattle.std.specs.Prelude.{◌≡◌, ◌++◌, map, IfOk, OnOk};
ghost use Rattle.std.specs.List.{list_all};
ghost use Rattle.ebs_row_rules.specs.Slots as slots;

use crate::number_lists::{are_below, are_distinct, are_same};
use crate::stamps::have_one_digest;
use ebs_checkpoints::{Checkpoint, CopyRow, EntryRow, NodeRow, SlotRow, SnapPoint};
use ebs_model::Block;
use std::alloc::{AllocError, Global};

/// Slots of the area of blocks end at or below byte 2^62, and those of the archive begin one block later.
const SLOTS: u64 = 1 << 43;

/// How many copies the archive ever has.
const COPIES: u64 = 1 << 42;

fn push_entries(blocks: &mut Vec<Block>, entries: &[EntryRow]) -> Result<(), AllocError>
    ensures { OnOk result (blocks.new.items ≡ blocks.old.items ++ map slots.entry_block entries.now) }
{
    for entry in entries {
        blocks.push(entry.block)?;
    }
    Ok(())
}

fn push_copies(copies: &mut Vec<CopyRow>, rows: &[CopyRow]) -> Result<(), AllocError>
    ensures { OnOk result (copies.new.items ≡ copies.old.items ++ rows.now) }
{
    for copy in rows {
        copies.push(*copy)?;
    }
    Ok(())
}

/// The blocks of the nodes' entries.
fn entry_blocks(alloc: Global, nodes: &[NodeRow]) -> Result<Vec<Block>, AllocError>
    ensures { IfOk result (λ blocks. blocks.items ≡ slots.entry_blocks nodes.now) }
{
    let mut blocks = Vec::new(alloc);
    for node in nodes {
        push_entries(&mut blocks, node.entries.as_slice())?;
    }
    Ok(blocks)
}

/// The copies of all snapshots.
fn copies_of(alloc: Global, snapshots: &[SnapPoint]) -> Result<Vec<CopyRow>, AllocError>
    ensures { IfOk result (λ copies. copies.items ≡ slots.copies_of snapshots.now) }
{
    let mut copies = Vec::new(alloc);
    for row in snapshots {
        push_copies(&mut copies, row.copies.as_slice())?;
    }
    Ok(copies)
}

fn push_copied(blocks: &mut Vec<Block>, copies: &[CopyRow]) -> Result<(), AllocError>
    ensures { OnOk result (blocks.new.items ≡ blocks.old.items ++ map slots.copy_block copies.now) }
{
    for copy in copies {
        blocks.push(copy.block)?;
    }
    Ok(())
}

/// The blocks of entries, and those of copies behind them.
fn blocks_of(alloc: Global, point: &Checkpoint) -> Result<Vec<Block>, AllocError>
    ensures { IfOk result (λ blocks. blocks.items ≡ slots.blocks_of point.now) }
{
    let mut blocks = entry_blocks(alloc, point.nodes.as_slice())?;
    let copies = copies_of(alloc, point.snapshots.as_slice())?;
    push_copied(&mut blocks, copies.as_slice())?;
    Ok(blocks)
}

fn stamps(alloc: Global, blocks: &[Block]) -> Result<Vec<u64>, AllocError>
    ensures { IfOk result (λ stamps. stamps.items ≡ slots.stamps blocks.now) }
{
    blocks.iter().map(|block| block.stamp).collect(alloc)
}

fn numbers(alloc: Global, copies: &[CopyRow]) -> Result<Vec<u64>, AllocError>
    ensures { IfOk result (λ numbers. numbers.items ≡ slots.numbers copies.now) }
{
    copies.iter().map(|copy| copy.copy).collect(alloc)
}

fn keys(alloc: Global, rows: &[SlotRow]) -> Result<Vec<u64>, AllocError>
    ensures { IfOk result (λ keys. keys.items ≡ slots.keys rows.now) }
{
    rows.iter().map(|row| row.key).collect(alloc)
}

fn slots(alloc: Global, rows: &[SlotRow]) -> Result<Vec<u64>, AllocError>
    ensures { IfOk result (λ places. places.items ≡ slots.slots rows.now) }
{
    rows.iter().map(|row| row.slot).collect(alloc)
}

fn has_stamps(alloc: Global, point: &Checkpoint) -> Result<bool, AllocError>
    ensures { IfOk result (λ has. has ≡ slots.has_stamps point.now) }
{
    let blocks = blocks_of(alloc, point)?;
    let found = stamps(alloc, blocks.as_slice())?;
    let alike = have_one_digest(alloc, blocks.as_slice())?;
    let below = are_below(found.as_slice(), point.next_stamp);
    Ok(point.next_stamp <= point.accepted && below && alike)
}

fn has_stored_entries(alloc: Global, point: &Checkpoint) -> Result<bool, AllocError>
    ensures { IfOk result (λ has. has ≡ slots.has_stored_entries point.now) }
{
    let blocks = entry_blocks(alloc, point.nodes.as_slice())?;
    let found = stamps(alloc, blocks.as_slice())?;
    let stored = keys(alloc, point.standard.as_slice())?;
    are_same(alloc, found.as_slice(), stored.as_slice())
}

fn has_numbers(alloc: Global, point: &Checkpoint) -> Result<bool, AllocError>
    ensures { IfOk result (λ has. has ≡ slots.has_numbers point.now) }
{
    let copies = copies_of(alloc, point.snapshots.as_slice())?;
    let found = numbers(alloc, copies.as_slice())?;
    let distinct = are_distinct(alloc, found.as_slice())?;
    let below = are_below(found.as_slice(), point.next_copy);
    Ok(point.next_copy <= COPIES && below && distinct)
}

fn has_stored_copies(alloc: Global, point: &Checkpoint) -> Result<bool, AllocError>
    ensures { IfOk result (λ has. has ≡ slots.has_stored_copies point.now) }
{
    let copies = copies_of(alloc, point.snapshots.as_slice())?;
    let found = numbers(alloc, copies.as_slice())?;
    let stored = keys(alloc, point.archive.as_slice())?;
    are_same(alloc, found.as_slice(), stored.as_slice())
}

fn are_block_slots(places: &[u64]) -> bool
    ensures { result ≡ list_all slots.is_block_slot places.now }
{
    places.iter().all(|slot| is_block_slot(*slot))
}

fn are_copy_slots(places: &[u64]) -> bool
    ensures { result ≡ list_all slots.is_copy_slot places.now }
{
    places.iter().all(|slot| is_copy_slot(*slot))
}

fn is_block_slot(slot: u64) -> bool
    ensures { result ≡ slots.is_block_slot slot }
{
    slot < SLOTS
}

fn is_copy_slot(slot: u64) -> bool
    ensures { result ≡ slots.is_copy_slot slot }
{
    slot < SLOTS - 1
}

fn has_slots(alloc: Global, point: &Checkpoint) -> Result<bool, AllocError>
    ensures { IfOk result (λ has. has ≡ slots.has_slots point.now) }
{
    let standard = slots(alloc, point.standard.as_slice())?;
    let archive = slots(alloc, point.archive.as_slice())?;
    let apart = are_distinct(alloc, standard.as_slice())?;
    let others_apart = are_distinct(alloc, archive.as_slice())?;
    let within = are_block_slots(standard.as_slice());
    Ok(within && apart && are_copy_slots(archive.as_slice()) && others_apart)
}

/// Whether the blocks and the copies are just those that have slots, each one of its own.
pub fn is_stored(alloc: Global, point: &Checkpoint) -> Result<bool, AllocError>
    ensures { IfOk result (λ is. is ≡ slots.is_stored point.now) }
{
    let stamps = has_stamps(alloc, point)?;
    let entries = has_stored_entries(alloc, point)?;
    let numbered = has_numbers(alloc, point)?;
    let copies = has_stored_copies(alloc, point)?;
    let places = has_slots(alloc, point)?;
    Ok(stamps && entries && numbered && copies && places)
}
