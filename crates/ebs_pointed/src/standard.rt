// The slots of the blocks that nodes keep.
ghost use Rattle.std.specs.Prelude.{◌≡◌, ℕ, true, ◌++◌, map as list_map, Some, IfOk, IsSome, OnOk};
ghost use Rattle.std.specs.List.{AllByRecursion, list_all};
ghost use Rattle.std.specs.Ordering.{nat_cmp};
ghost use Rattle.std.specs.FinMap as map;
ghost use Rattle.ebs_world.specs.declared.area.Area.TheVariants.{Blocks};
ghost use Rattle.ebs_checkpoints.specs.declared.nodes.SlotRow.{SlotRow};
ghost use Rattle.ebs_row_rules.specs.Numbers.{are_distinct, are_same, has};
ghost use Rattle.ebs_row_rules.specs.Order.{ascends};
ghost use Rattle.ebs_row_rules.specs.Slots.{entry_block, entry_blocks, is_block_slot, keys, slots, stamps};
ghost use Rattle.ebs_pointed.specs.Stored.{AreStored, IsSlotOf};

use ebs_checkpoints::{EntryRow, NodeRow, SlotRow, SlotRows};
use ebs_node_rules::set_of;
use ebs_slots::Slots;
use ebs_tables::Stamped;
use std::alloc::{AllocError, Global};

/// The slot of each stamp of the nodes' entries, in ascending stamp.
pub fn standard_of(alloc: Global, nodes: &[NodeRow], kept: &Slots) -> Result<SlotRows, AllocError>
    requires area { kept.now.area ≡ Blocks }
    requires stored { AreStored nodes.now kept.now.keys }
    ensures stored { IfOk result (λ rows. are_same (stamps (entry_blocks nodes.now)) (keys rows) ≡ true) }
    ensures slots { IfOk result (λ rows. AllByRecursion (IsSlotOf kept.now.keys) rows) }
    ensures ascend { IfOk result (λ rows. ascends nat_cmp (λ (row : SlotRow). row.key) rows ≡ true) }
    ensures places { IfOk result (λ rows. list_all is_block_slot (slots rows) ≡ true) }
    ensures apart { IfOk result (λ rows. are_distinct (slots rows) ≡ true) }
{
    let _top = kept.top();
    let numbers = stamps_of(alloc, nodes)?;
    let found = set_of(alloc, numbers.as_slice())?;
    let rows = slots_of(alloc, &found, kept)?;
    Ok(rows)
}

fn stamps_of(alloc: Global, nodes: &[NodeRow]) -> Result<Vec<u64>, AllocError>
    ensures { IfOk result (λ numbers. numbers.items ≡ stamps (entry_blocks nodes.now)) }
{
    let mut numbers = Vec::new(alloc);
    for node in nodes {
        push_stamps(&mut numbers, node.entries.as_slice())?;
    }
    Ok(numbers)
}

fn push_stamps(numbers: &mut Vec<u64>, entries: &[EntryRow]) -> Result<(), AllocError>
    ensures { OnOk result (numbers.new.items ≡ numbers.old.items ++ stamps (list_map entry_block entries.now)) }
{
    for entry in entries {
        numbers.push(entry.block.stamp)?;
    }
    Ok(())
}

fn slots_of(alloc: Global, found: &Stamped<()>, kept: &Slots) -> Result<SlotRows, AllocError>
    requires { (stamp : ℕ) → map.contains_key found.now stamp ≡ true → IsSome (map.get kept.now.keys stamp) }
    ensures keys { IfOk result (λ rows. keys rows ≡ map.keys found.now) }
    ensures slots { IfOk result (λ rows. AllByRecursion (IsSlotOf kept.now.keys) rows) }
{
    let mut rows = SlotRows::new(alloc);
    for (stamp, _) in found.from(0) {
        let row = SlotRow {
            key: *stamp,
            slot: slot_at(kept, *stamp),
        };
        rows.push(row)?;
    }
    Ok(rows)
}

fn slot_at(kept: &Slots, stamp: u64) -> u64
    requires { IsSome (map.get kept.now.keys stamp) }
    ensures { map.get kept.now.keys stamp ≡ Some result }
{
    match kept.slot_of(stamp) {
        Some(slot) => slot,
        None => unreachable!(),
    }
}
