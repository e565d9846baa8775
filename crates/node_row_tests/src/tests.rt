ghost use Rattle.std.specs.Prelude.{◌≡◌, IfOk};
ghost use Rattle.std.specs.FinMap as map;
ghost use Rattle.ebs_node_rules.specs.inner.Lookups.{AreChained};
ghost use Rattle.ebs_node_rules.specs.Nodes.{open_are_named};
ghost use Rattle.ebs_node_rows.specs.Marks.{AreThere};

use ebs_checkpoints::{EntryRow, NodeRow};
use ebs_lineage::{Lineage, NodeId};
use ebs_model::Block;
use ebs_node_rows::rows_of;
use ebs_regrown::{Regrown, regrow};
use ebs_tables::Stamped;
use std::alloc::{AllocError, Global};
use std::process::Abort;
use std::test::Fail;

// The lineage's calls ask for what their callers know: here it is looked up.
fn begin(lineage: &mut Lineage) -> Result<NodeId, AllocError> {
    if lineage.made() >= 1 << 62 {
        return Err(AllocError);
    }
    lineage.root()
}

fn freeze(lineage: &mut Lineage, node: NodeId) -> Result<NodeId, AllocError> {
    if lineage.made() >= 1 << 62 {
        return Err(AllocError);
    }
    if !lineage.is_open(node) {
        return Err(AllocError);
    }
    lineage.freeze(node)
}

fn seal(lineage: &mut Lineage, node: NodeId) {
    if lineage.is_open(node) {
        lineage.seal(node);
    }
}

fn leave(lineage: &mut Lineage, node: NodeId) {
    if lineage.is_held(node) {
        lineage.drop_node(node);
    }
}

fn put(lineage: &mut Lineage, node: NodeId, index: u32, stamp: u64) -> Result<(), AllocError> {
    if lineage.is_open(node) {
        lineage.put(node, index, block(stamp))?;
    }
    Ok(())
}

fn block(stamp: u64) -> Block {
    Block {
        stamp,
        digest: [7; 32],
    }
}

/// Node 0 is an ancestor of node 1, which is open; node 2 is held and frozen; nobody holds node 3.
fn grown(alloc: Global) -> Result<Lineage, AllocError> {
    let mut lineage = Lineage::new(alloc);
    let first = begin(&mut lineage)?;
    put(&mut lineage, first, 5, 1)?;
    put(&mut lineage, first, 0, 2)?;
    let second = freeze(&mut lineage, first)?;
    put(&mut lineage, second, u32::MAX, 3)?;
    leave(&mut lineage, first);
    let third = begin(&mut lineage)?;
    seal(&mut lineage, third);
    let fourth = begin(&mut lineage)?;
    put(&mut lineage, fourth, 1, 4)?;
    leave(&mut lineage, fourth);
    Ok(lineage)
}

/// The numbers of the held nodes that are below a number.
fn held_below(alloc: Global, lineage: &Lineage, end: u64) -> Result<Stamped<()>, AllocError>
    ensures { IfOk result (λ held. AreThere lineage.now.table.nodes held) }
{
    let mut held = Stamped::new(alloc);
    for number in 0..end {
        if lineage.is_held(NodeId { number }) {
            held.insert(number, ())?;
        }
    }
    Ok(held)
}

fn is_row(
    row: &NodeRow,
    number: u64,
    parent: Option<u64>,
    writable: bool,
    entries: &[(u32, u64)],
) -> bool {
    row.number == number
        && row.parent == parent
        && row.writable == writable
        && are_entries(row.entries.as_slice(), entries)
}

fn are_entries(entries: &[EntryRow], wanted: &[(u32, u64)]) -> bool {
    if entries.len() != wanted.len() {
        return false;
    }
    for (entry, (index, stamp)) in entries.iter().zip(wanted) {
        if entry.index != *index || entry.block != block(*stamp) {
            return false;
        }
    }
    true
}

#[test]
fn held_nodes_and_their_ancestors_have_rows(rt: HostRuntime) -> Result<(), Fail> {
    let lineage = grown(rt.alloc())?;
    let held = held_below(rt.alloc(), &lineage, lineage.made())?;
    let rows = rows_of(rt.alloc(), &lineage, &held)?.into_vec();
    assert!(rt; rows.len() == 3);
    assert!(rt; is_row(&rows[0], 0, None, false, &[(0, 2), (5, 1)]));
    assert!(rt; is_row(&rows[1], 1, Some(0), true, &[(u32::MAX, 3)]));
    assert!(rt; is_row(&rows[2], 2, None, false, &[]));
    Ok(())
}

#[test]
fn a_held_node_that_isnt_named_has_no_row(rt: HostRuntime) -> Result<(), Fail> {
    let lineage = grown(rt.alloc())?;
    let named = held_below(rt.alloc(), &lineage, 2)?;
    let rows = rows_of(rt.alloc(), &lineage, &named)?.into_vec();
    assert!(rt; rows.len() == 2);
    assert!(rt; is_row(&rows[0], 0, None, false, &[(0, 2), (5, 1)]));
    assert!(rt; is_row(&rows[1], 1, Some(0), true, &[(u32::MAX, 3)]));
    Ok(())
}

fn are_named(rows: &[NodeRow], named: &Stamped<()>) -> bool
    ensures { result ≡ open_are_named rows.now (map.contains_key named.now) }
{
    rows.iter()
        .all(|row| !row.writable || named.contains(row.number))
}

// Nothing, where an open node isn't named.
fn grow_again(
    alloc: Global,
    rows: &[NodeRow],
    named: &Stamped<()>,
) -> Result<Option<Regrown>, AllocError>
    requires { AreChained rows.now }
{
    if !are_named(rows, named) {
        return Ok(None);
    }
    Ok(Some(regrow(alloc, rows, named)?))
}

fn finds_the_same(lineage: &Lineage, grown: &Regrown, number: u64, index: u32) -> bool {
    let Some(made) = grown.numbers.get(number).copied() else {
        return false;
    };
    let found = grown.lineage.find(NodeId { number: made }, index);
    found == lineage.find(NodeId { number }, index)
}

#[test]
fn rows_grow_into_nodes_again(rt: HostRuntime) -> Result<(), Fail> {
    let lineage = grown(rt.alloc())?;
    let named = held_below(rt.alloc(), &lineage, lineage.made())?;
    let rows = rows_of(rt.alloc(), &lineage, &named)?;
    let Some(again) = grow_again(rt.alloc(), rows.as_slice(), &named)? else {
        panic!(rt; "an open node isn't named")
    };
    for index in [0, 1, 5, u32::MAX] {
        assert!(rt; finds_the_same(&lineage, &again, 0, index));
        assert!(rt; finds_the_same(&lineage, &again, 1, index));
        assert!(rt; finds_the_same(&lineage, &again, 2, index));
    }
    assert!(rt; again.numbers.len() == 3 && again.lineage.made() == 3);
    assert!(rt; again.backlog.waiting() == 2);
    Ok(())
}

#[test]
fn a_lineage_without_nodes_has_no_rows(rt: HostRuntime) -> Result<(), Fail> {
    let lineage = Lineage::new(rt.alloc());
    let named = held_below(rt.alloc(), &lineage, lineage.made())?;
    assert!(rt; rows_of(rt.alloc(), &lineage, &named)?.len() == 0);
    Ok(())
}
