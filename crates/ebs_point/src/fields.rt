// What the types of its fields say of a node and of a slot: numbers and digests have their widths. Nothing is done here.
ghost use Rattle.std.specs.List.{AllByRecursion};
ghost use Rattle.ebs_records.specs.Fields.{IsDigest, IsLong, IsOptional};
ghost use Rattle.ebs_records.specs.Names.{IsBlock};
ghost use Rattle.ebs_checkpoints.specs.Nodes.{IsSlot};
ghost use Rattle.ebs_point_rules.specs.Values.{HasEntryValues, HasNodeValues};

use ebs_checkpoints::{EntryRow, NodeRow, SlotRow};
use ebs_model::Block;

pub(crate) fn check_nodes(nodes: &[NodeRow])
    ensures { AllByRecursion HasNodeValues nodes.now }
{
    match nodes {
        [] => {}
        [node, nodes @ ..] => {
            check_node(node);
            check_nodes(nodes);
        }
    }
}

fn check_node(node: &NodeRow)
    ensures { HasNodeValues node.now }
{
    let _number = node.number;
    check_number_given(&node.parent);
    check_entries(node.entries.as_slice());
}

fn check_number_given(given: &Option<u64>)
    ensures { IsOptional IsLong given.now }
{
    match given {
        Some(number) => {
            let _number = *number;
        }
        None => {}
    }
}

fn check_entries(entries: &[EntryRow])
    ensures { AllByRecursion HasEntryValues entries.now }
{
    match entries {
        [] => {}
        [entry, entries @ ..] => {
            check_block(&entry.block);
            check_entries(entries);
        }
    }
}

fn check_block(block: &Block)
    ensures { IsBlock block.now }
{
    let _stamp = block.stamp;
    let _digest = block.digest;
}

pub(crate) fn check_slots(rows: &[SlotRow])
    ensures { AllByRecursion IsSlot rows.now }
{
    match rows {
        [] => {}
        [row, rows @ ..] => {
            check_slot(row);
            check_slots(rows);
        }
    }
}

fn check_slot(row: &SlotRow)
    ensures { IsSlot row.now }
{
    let _key = row.key;
    let _slot = row.slot;
}

pub(crate) fn check_digest(digest: &[u8; 32])
    ensures { IsDigest digest.now }
{
    let _digest = *digest;
}
