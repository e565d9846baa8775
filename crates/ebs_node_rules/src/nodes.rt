// The nodes of a checkpoint: what each stands on, and which rows name them.
ghost use Rattle.std.specs.Prelude.{◌≡◌, true, [], ◌++◌, IfOk, OnOk};
ghost use Rattle.std.specs.List.{cons_option};
ghost use Rattle.std.specs.Option.{option_copied};
ghost use Rattle.std.specs.FinMap as map;
ghost use Rattle.ebs_node_rules.specs.Nodes as forest;
ghost use Rattle.ebs_node_rules.specs.inner.Nodes as kin;
ghost use Rattle.ebs_node_rules.specs.inner.Lookups as lookups;
ghost use Rattle.ebs_node_rules.specs.Nodes.{node_of};
ghost use Rattle.ebs_node_rules.specs.inner.Nodes.{nodes_ascend};

use ebs_checkpoints::{Checkpoint, NodeRow, SnapPoint, VolPoint};
use ebs_tables::Stamped;
use std::alloc::{AllocError, Global};

/// Whether the nodes are a forest that leads to rows.
pub fn are_forest(alloc: Global, point: &Checkpoint) -> Result<bool, AllocError>
    requires { nodes_ascend point.now.nodes ≡ true }
    ensures forest { IfOk result (λ is. is ≡ forest.is_forest point.now) }
    ensures named { IfOk result (λ is. is ≡ true → kin.EachBearsName point.now) }
    ensures needed { OnOk result (kin.EachBearsName point.now → kin.needs_each point.now ≡ true) }
{
    let nodes = point.nodes.as_slice();
    let snapshots = point.snapshots.as_slice();
    let volumes = point.volumes.as_slice();
    let names = names(alloc, snapshots, volumes)?;
    let numbers = names.as_slice();
    let named = set_of(alloc, numbers)?;
    let parents = parents(alloc, nodes)?;
    let bears = set_of(alloc, parents.as_slice())?;
    Ok(leads(nodes, volumes, numbers, &named, &bears))
}

fn leads(
    nodes: &[NodeRow],
    volumes: &[VolPoint],
    numbers: &[u64],
    named: &Stamped<()>,
    bears: &Stamped<()>,
) -> bool
    requires order { nodes_ascend nodes.now ≡ true }
    requires named { named.now ≡ lookups.set_of numbers.now }
    ensures { result ≡ forest.leads nodes.now volumes.now numbers.now (map.contains_key named.now) (map.contains_key bears.now) }
{
    have_parents(nodes)
        && are_distinct(numbers, named)
        && are_listed(nodes, numbers)
        && are_writable(nodes, volumes)
        && open_are_named(nodes, named)
        && are_needed(nodes, named, bears)
}

/// The node of the number.
pub fn node_of(nodes: &[NodeRow], number: Option<u64>) -> Option<&NodeRow>
    requires { nodes_ascend nodes.now ≡ true }
    ensures { option_copied result ≡ node_of nodes.now number }
{
    match nodes.binary_search_by_key(&number?, |node| node.number) {
        Ok(at) => Some(&nodes[at]),
        Err(_) => None,
    }
}

pub fn is_open(node: Option<&NodeRow>) -> bool
    ensures { result ≡ forest.is_open (option_copied node.entry) }
{
    match node {
        Some(node) => node.writable,
        None => false,
    }
}

pub fn is_closed(node: Option<&NodeRow>) -> bool
    ensures { result ≡ forest.is_closed (option_copied node.entry) }
{
    match node {
        Some(node) => !node.writable,
        None => false,
    }
}

fn has_parent(nodes: &[NodeRow], node: &NodeRow) -> bool
    requires { nodes_ascend nodes.now ≡ true }
    ensures { result ≡ forest.has_parent nodes.now node.now }
{
    match node.parent {
        Some(parent) => parent < node.number && is_closed(node_of(nodes, node.parent)),
        None => true,
    }
}

fn have_parents(nodes: &[NodeRow]) -> bool
    requires { nodes_ascend nodes.now ≡ true }
    ensures { result ≡ forest.have_parents nodes.now }
{
    nodes.iter().all(|node| has_parent(nodes, node))
}

/// The numbers of the nodes that rows name: of snapshots, then of volumes.
pub fn names(
    alloc: Global,
    snapshots: &[SnapPoint],
    volumes: &[VolPoint],
) -> Result<Vec<u64>, AllocError>
    ensures { IfOk result (λ names. names.items ≡ forest.names snapshots.now volumes.now) }
{
    let mut names = Vec::new(alloc);
    for snapshot in snapshots {
        push_some(&mut names, snapshot.node)?;
    }
    for volume in volumes {
        names.push(volume.node)?;
    }
    Ok(names)
}

fn parents(alloc: Global, nodes: &[NodeRow]) -> Result<Vec<u64>, AllocError>
    ensures { IfOk result (λ parents. parents.items ≡ forest.parents nodes.now) }
{
    let mut parents = Vec::new(alloc);
    for node in nodes {
        push_some(&mut parents, node.parent)?;
    }
    Ok(parents)
}

fn push_some(numbers: &mut Vec<u64>, number: Option<u64>) -> Result<(), AllocError>
    ensures { OnOk result (numbers.new.items ≡ numbers.old.items ++ cons_option number []) }
{
    if let Some(number) = number {
        numbers.push(number)?;
    }
    Ok(())
}

/// Numbers as a set.
pub fn set_of(alloc: Global, numbers: &[u64]) -> Result<Stamped<()>, AllocError>
    ensures { IfOk result (λ set. set ≡ lookups.set_of numbers.now) }
{
    let mut set = Stamped::new(alloc);
    for number in numbers {
        set.insert(*number, ())?;
    }
    Ok(set)
}

fn are_distinct(numbers: &[u64], set: &Stamped<()>) -> bool
    requires { set.now ≡ lookups.set_of numbers.now }
    ensures { result ≡ forest.are_distinct numbers.now }
{
    set.len() == numbers.len()
}

fn are_listed(nodes: &[NodeRow], numbers: &[u64]) -> bool
    requires { nodes_ascend nodes.now ≡ true }
    ensures { result ≡ forest.are_listed nodes.now numbers.now }
{
    numbers
        .iter()
        .all(|number| node_of(nodes, Some(*number)).is_some())
}

fn are_writable(nodes: &[NodeRow], volumes: &[VolPoint]) -> bool
    requires { nodes_ascend nodes.now ≡ true }
    ensures { result ≡ forest.are_writable nodes.now volumes.now }
{
    volumes
        .iter()
        .all(|volume| is_open(node_of(nodes, Some(volume.node))))
}

fn open_are_named(nodes: &[NodeRow], named: &Stamped<()>) -> bool
    ensures { result ≡ forest.open_are_named nodes.now (map.contains_key named.now) }
{
    nodes
        .iter()
        .all(|node| !node.writable || named.contains(node.number))
}

fn are_needed(nodes: &[NodeRow], named: &Stamped<()>, bears: &Stamped<()>) -> bool
    ensures { result ≡ forest.are_needed nodes.now (map.contains_key named.now) (map.contains_key bears.now) }
{
    nodes.iter().all(|node| named.contains(node.number) || bears.contains(node.number))
}
