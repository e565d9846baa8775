// What stands at the indexes of nodes and of rows.
ghost use Rattle.std.specs.Prelude.{◌≡◌, ℕ, true, ◌&&◌, nat_le, nat_lt, IfOk};
ghost use Rattle.std.specs.List.{list_all};
ghost use Rattle.std.specs.FinMap as map;
ghost use Rattle.ebs_node_rules.specs.Nodes.{is_forest};
ghost use Rattle.ebs_node_rules.specs.inner.Nodes.{ascends, nodes_ascend};
ghost use Rattle.ebs_node_rules.specs.Arrays as arrays;
ghost use Rattle.ebs_node_rules.specs.Arrays.{Arrays, all_keys, array_in, arrays_of, row_array};
ghost use Rattle.ebs_node_rules.specs.inner.Arrays.{entries_ascend, copies_ascend};
ghost use Rattle.ebs_node_rules.specs.inner.Lookups as lookups;
ghost use Rattle.ebs_node_rules.specs.inner.Lookups.{AreChained, AreTops};

use crate::nodes::{is_open, node_of};
use crate::states::is_standard;
use ebs_checkpoints::{Checkpoint, CopyRow, EntryRow, NodeRow, SnapPoint, VolPoint};
use ebs_model::{Block, blocks_of};
use ebs_tables::Stamped;
use std::alloc::{AllocError, Global};

/// Whether each row's array is as its size, its node, its tier and its puts want it.
pub fn arrays_fit(alloc: Global, point: &Checkpoint) -> Result<bool, AllocError>
    requires nodes { nodes_ascend point.now.nodes ≡ true }
    requires entries { entries_ascend point.now.nodes ≡ true }
    requires copies { copies_ascend point.now.snapshots ≡ true }
    requires forest { is_forest point.now ≡ true }
    ensures { IfOk result (λ fit. fit ≡ arrays.fit_arrays point.now) }
{
    let nodes = point.nodes.as_slice();
    let tops = tops(alloc, nodes)?;
    let snapshots = point.snapshots.as_slice();
    Ok(rows_fit(nodes, &tops, snapshots, point.volumes.as_slice()))
}

fn rows_fit(
    nodes: &[NodeRow],
    tops: &Stamped<u64>,
    snapshots: &[SnapPoint],
    volumes: &[VolPoint],
) -> bool
    requires nodes { AreChained nodes.now }
    requires copies { copies_ascend snapshots.now ≡ true }
    requires tops { AreTops tops.now (arrays_of nodes.now) }
    ensures { result ≡ (list_all (arrays.fits_array nodes.now (arrays_of nodes.now)) snapshots.now && lookups.are_reached tops.now volumes.now) }
{
    snapshots_fit(nodes, tops, snapshots) && volumes_fit(tops, volumes)
}

fn snapshots_fit(nodes: &[NodeRow], tops: &Stamped<u64>, snapshots: &[SnapPoint]) -> bool
    requires nodes { AreChained nodes.now }
    requires copies { copies_ascend snapshots.now ≡ true }
    requires tops { AreTops tops.now (arrays_of nodes.now) }
    ensures { result ≡ list_all (arrays.fits_array nodes.now (arrays_of nodes.now)) snapshots.now }
{
    for snapshot in snapshots {
        if !fits_array(nodes, tops, snapshot) {
            return false;
        }
    }
    true
}

fn volumes_fit(tops: &Stamped<u64>, volumes: &[VolPoint]) -> bool
    ensures { result ≡ lookups.are_reached tops.now volumes.now }
{
    volumes.iter().all(|volume| top_in(tops, Some(volume.node)) <= blocks_of(volume.row.size))
}

fn fits_array(nodes: &[NodeRow], tops: &Stamped<u64>, snapshot: &SnapPoint) -> bool
    requires nodes { AreChained nodes.now }
    requires copies { ascends (λ copy. copy.index) snapshot.now.copies ≡ true }
    requires tops { AreTops tops.now (arrays_of nodes.now) }
    ensures { result ≡ arrays.fits_array nodes.now (arrays_of nodes.now) snapshot.now }
{
    is_within(tops, snapshot)
        && copies_agree(nodes, snapshot)
        && gives_up(nodes, snapshot)
        && puts_are_in(nodes, snapshot)
}

fn is_within(tops: &Stamped<u64>, snapshot: &SnapPoint) -> bool
    ensures { (rows : Arrays) → AreTops tops.now rows → result ≡ arrays.is_within snapshot.now.size (row_array rows snapshot.now) }
{
    let blocks = blocks_of(snapshot.size);
    top_in(tops, snapshot.node) <= blocks && are_below(snapshot.copies.as_slice(), blocks)
}

fn are_below(copies: &[CopyRow], blocks: u64) -> bool
    ensures { result ≡ list_all (λ copy. nat_lt copy.index blocks) copies.now }
{
    copies.iter().all(|copy| u64::from(copy.index) < blocks)
}

fn copies_agree(nodes: &[NodeRow], snapshot: &SnapPoint) -> bool
    requires { AreChained nodes.now }
    ensures { result ≡ arrays.copies_agree nodes.now (arrays_of nodes.now) snapshot.now }
{
    let node = snapshot.node;
    let writable = is_open(node_of(nodes, node));
    node.is_none() || all_agree(nodes, node, writable, snapshot.copies.as_slice())
}

fn all_agree(nodes: &[NodeRow], node: Option<u64>, writable: bool, copies: &[CopyRow]) -> bool
    requires { AreChained nodes.now }
    ensures { result ≡ list_all (λ copy. arrays.agrees writable (map.get (array_in (arrays_of nodes.now) node) copy.index) copy.block) copies.now }
{
    copies.iter().all(|copy| agrees(writable, block_at(nodes, node, copy.index), copy.block))
}

fn agrees(writable: bool, own: Option<Block>, block: Block) -> bool
    ensures { result ≡ arrays.agrees writable own block }
{
    match own {
        Some(own) => own == block,
        None => writable,
    }
}

fn gives_up(nodes: &[NodeRow], snapshot: &SnapPoint) -> bool
    requires nodes { AreChained nodes.now }
    requires copies { ascends (λ copy. copy.index) snapshot.now.copies ≡ true }
    ensures { result ≡ arrays.gives_up (arrays_of nodes.now) snapshot.now }
{
    may_keep(snapshot) || !are_copied(nodes, snapshot.node, snapshot.copies.as_slice())
}

fn may_keep(snapshot: &SnapPoint) -> bool
    ensures { result ≡ lookups.may_keep snapshot.now }
{
    is_standard(snapshot.tier) || snapshot.node.is_none() || snapshot.copies.len() == 0
}

fn puts_are_in(nodes: &[NodeRow], snapshot: &SnapPoint) -> bool
    requires nodes { AreChained nodes.now }
    requires copies { ascends (λ copy. copy.index) snapshot.now.copies ≡ true }
    ensures { result ≡ arrays.puts_are_in (arrays_of nodes.now) snapshot.now }
{
    snapshot
        .put
        .as_slice()
        .iter()
        .all(|index| is_in(nodes, snapshot, *index))
}

fn is_in(nodes: &[NodeRow], snapshot: &SnapPoint, index: u32) -> bool
    requires nodes { AreChained nodes.now }
    requires copies { ascends (λ copy. copy.index) snapshot.now.copies ≡ true }
    ensures { result ≡ map.contains_key (row_array (arrays_of nodes.now) snapshot.now) index }
{
    is_copied(snapshot.copies.as_slice(), index) || block_at(nodes, snapshot.node, index).is_some()
}

fn is_copied(copies: &[CopyRow], index: u32) -> bool
    requires { ascends (λ copy. copy.index) copies.now ≡ true }
    ensures { result ≡ arrays.is_copied copies.now index }
{
    copies
        .binary_search_by_key(&index, |copy| copy.index)
        .is_ok()
}

/// The block of the node at the index: of the first of its ancestors, itself among them, that has an entry there.
fn block_at(nodes: &[NodeRow], node: Option<u64>, index: u32) -> Option<Block>
    requires { AreChained nodes.now }
    ensures { result ≡ map.get (array_in (arrays_of nodes.now) node) index }
{
    let mut at = node;
    while let Some(found) = node_of(nodes, at) {
        if let Some(block) = own_block(found.entries.as_slice(), index) {
            return Some(block);
        }
        at = found.parent;
    }
    None
}

fn own_block(entries: &[EntryRow], index: u32) -> Option<Block>
    requires { ascends (λ entry. entry.index) entries.now ≡ true }
    ensures { result ≡ lookups.own_block entries.now index }
{
    match entries.binary_search_by_key(&index, |entry| entry.index) {
        Ok(at) => Some(entries[at].block),
        Err(_) => None,
    }
}

/// Whether each index of the node's array is one of a copy.
fn are_copied(nodes: &[NodeRow], node: Option<u64>, copies: &[CopyRow]) -> bool
    requires nodes { AreChained nodes.now }
    requires copies { ascends (λ copy. copy.index) copies.now ≡ true }
    ensures { result ≡ all_keys (arrays.is_copied copies.now) (array_in (arrays_of nodes.now) node) }
{
    let mut at = node;
    while let Some(found) = node_of(nodes, at) {
        if !own_are_copied(found.entries.as_slice(), copies) {
            return false;
        }
        at = found.parent;
    }
    true
}

fn own_are_copied(entries: &[EntryRow], copies: &[CopyRow]) -> bool
    requires { ascends (λ copy. copy.index) copies.now ≡ true }
    ensures { result ≡ list_all (λ entry. arrays.is_copied copies.now entry.index) entries.now }
{
    entries.iter().all(|entry| is_copied(copies, entry.index))
}

/// Of each node one above the greatest index of its array.
fn tops(alloc: Global, nodes: &[NodeRow]) -> Result<Stamped<u64>, AllocError>
    ensures { IfOk result (λ tops. AreTops tops (arrays_of nodes.now)) }
{
    let mut tops = Stamped::new(alloc);
    for node in nodes {
        let top = top_over(top_in(&tops, node.parent), node.entries.as_slice());
        tops.insert(node.number, top)?;
    }
    Ok(tops)
}

fn top_in(tops: &Stamped<u64>, node: Option<u64>) -> u64
    ensures { result ≡ lookups.top_in tops.now node }
{
    match node {
        Some(number) => tops.get(number).copied().unwrap_or(0),
        None => 0,
    }
}

fn top_over(below: u64, entries: &[EntryRow]) -> u64
    ensures { (limit : ℕ) → nat_le result limit ≡ (nat_le below limit && list_all (λ entry. nat_lt entry.index limit) entries.now) }
{
    let mut top = below;
    for entry in entries {
        top = top.max(u64::from(entry.index) + 1);
    }
    top
}
