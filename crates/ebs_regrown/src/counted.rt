// Slots made anew, by the entries that have their blocks.
ghost use Rattle.std.specs.Prelude.{◌≡◌, ℕ, ◌+◌, ◌==◌, true, if◌then◌else◌, IfOk, OnOk, IsSome};
ghost use Rattle.std.specs.List.{list_all};
ghost use Rattle.std.specs.FinMap as map;
ghost use Rattle.ebs_node_rules.specs.inner.Nodes.{ascends};
ghost use Rattle.ebs_row_rules.specs.Numbers.{are_same, has};
ghost use Rattle.ebs_row_rules.specs.Slots.{entry_blocks, keys, stamps};
ghost use Rattle.ebs_slots.specs.inner.Slots.{count_of, retained};
ghost use Rattle.ebs_regrown.specs.Counted.{IsCountedBy, IsSlotted, HaveSlots, entries_of, slot_in};

use ebs_checkpoints::{EntryRow, NodeRow, SlotRow};
use ebs_slots::Slots;
use ebs_world::Area;
use std::alloc::{AllocError, Global};

/// No memory has more entries than this, so that no count runs over.
const MOST_ENTRIES: u64 = 1 << 62;

/// Gives each stamp its slot, and counts the entries that have its block. It fails only for want of memory.
pub fn count_slots(
    alloc: Global,
    nodes: &[NodeRow],
    standard: &[SlotRow],
) -> Result<Slots, AllocError>
    requires slots { HaveSlots standard.now }
    requires stored { are_same (stamps (entry_blocks nodes.now)) (keys standard.now) ≡ true }
    ensures { IfOk result (λ counted. IsCountedBy nodes.now standard.now counted) }
{
    let mut counted = Slots::new(alloc, Area::Blocks);
    for node in nodes {
        count_all(&mut counted, standard, node.entries.as_slice())?;
    }
    Ok(counted)
}

fn count_all(
    counted: &mut Slots,
    standard: &[SlotRow],
    entries: &[EntryRow],
) -> Result<(), AllocError>
    requires slots { HaveSlots standard.now }
    requires listed { list_all (λ entry. has (keys standard.now) entry.block.stamp) entries.now ≡ true }
    requires slotted { IsSlotted standard.now counted.old }
    ensures slotted { OnOk result (IsSlotted standard.now counted.new) }
    ensures counts { OnOk result ((stamp : ℕ) → count_of counted.new stamp ≡ count_of counted.old stamp + entries_of entries.now stamp) }
{
    for entry in entries {
        count(counted, standard, entry.block.stamp)?;
    }
    Ok(())
}

// The first entry of a stamp gives it its slot.
fn count(counted: &mut Slots, standard: &[SlotRow], stamp: u64) -> Result<(), AllocError>
    requires slots { HaveSlots standard.now }
    requires listed { has (keys standard.now) stamp ≡ true }
    requires slotted { IsSlotted standard.now counted.old }
    ensures slotted { OnOk result (IsSlotted standard.now counted.new) }
    ensures counts { OnOk result ((key : ℕ) → count_of counted.new key ≡ (if key == stamp then count_of counted.old key + 1 else count_of counted.old key)) }
{
    if counted.slot_of(stamp).is_some() {
        count_once_more(counted, stamp)?;
        return Ok(());
    }
    let Some(slot) = slot_at(standard, stamp) else {
        return Ok(());
    };
    counted.place(stamp, slot)?;
    Ok(())
}

fn count_once_more(counted: &mut Slots, stamp: u64) -> Result<(), AllocError>
    requires { IsSome (map.get counted.old.keys stamp) }
    ensures { OnOk result (counted.new ≡ retained counted.old stamp) }
{
    if counted.count(stamp) >= MOST_ENTRIES {
        return Err(AllocError);
    }
    counted.retain(stamp);
    Ok(())
}

fn slot_at(standard: &[SlotRow], stamp: u64) -> Option<u64>
    requires { ascends (λ row. row.key) standard.now ≡ true }
    ensures { result ≡ slot_in standard.now stamp }
{
    match standard.binary_search_by_key(&stamp, |row| row.key) {
        Ok(at) => Some(standard[at].slot),
        Err(_) => None,
    }
}
