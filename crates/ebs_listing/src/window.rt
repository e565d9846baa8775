// The first blocks of a node's array, which one walk along its line lays ready.
ghost use Rattle.std.specs.Prelude.{◌≡◌, ◌≤◌, ◌^◌, IfOk, OnOk};
ghost use Rattle.std.specs.FinMap as map;
ghost use Rattle.ebs_lineage.specs.Lines.{array};
ghost use Rattle.ebs_lineage.specs.Owned.{IsLeastFrom};
ghost use Rattle.ebs_listing.specs.Windows.{IsBounded, IsWindow, IsPart, LaysUnder, AddsOne};

use ebs_lineage::{Lineage, NodeId};
use ebs_model::Block;
use ebs_tables::Numbered;
use std::alloc::{AllocError, Global};

/// Blocks of an array, all that it has from a start to the end.
#[derive(Debug, Drop)]
pub struct Window {
    pub blocks: Numbered<Block>,
    pub end: u64,
}

/// The blocks of a node from `start` on, as many as are asked for or more, where it has so many. Of a node without a parent
/// it has none: there `next_at` is one look.
pub fn window_of(
    alloc: Global,
    lineage: &Lineage,
    node: NodeId,
    start: u32,
    most: u64,
) -> Result<Window, AllocError>
    ensures { IfOk result (λ window. IsWindow (array lineage.now.table.nodes node.number) start window) }
{
    match lineage.parent(node) {
        Some(_) => lay(alloc, lineage, node, start, most),
        None => Ok(Window {
            blocks: Numbered::new(alloc),
            end: 0,
        }),
    }
}

/// The least index at or above the given one that the node's array has, with its block. Behind the window it is looked for.
pub fn next_in(window: &Window, lineage: &Lineage, node: NodeId, index: u32) -> Option<(u32, Block)>
    requires { IsWindow (array lineage.now.table.nodes node.number) index window.now }
    ensures { IsLeastFrom (map.get (array lineage.now.table.nodes node.number)) index result }
{
    lineage.keeps_small();
    match first_from(&window.blocks, index) {
        Some(found) => Some(found),
        None => {
            if window.end >= 1 << 32 {
                None
            } else {
                lineage.next_at(node, index)
            }
        }
    }
}

fn lay(
    alloc: Global,
    lineage: &Lineage,
    node: NodeId,
    start: u32,
    most: u64,
) -> Result<Window, AllocError>
    ensures { IfOk result (λ window. IsWindow (array lineage.now.table.nodes node.number) start window) }
{
    lineage.keeps_lines();
    let mut window = Window {
        blocks: Numbered::new(alloc),
        end: 1 << 32,
    };
    let mut at = Some(node);
    while let Some(here) = at {
        lay_under(alloc, lineage, here, start, most, &mut window)?;
        at = lineage.parent(here);
    }
    Ok(window)
}

// Lays the node's own blocks where the window has none yet.
fn lay_under(
    alloc: Global,
    lineage: &Lineage,
    node: NodeId,
    start: u32,
    most: u64,
    window: &mut Window,
) -> Result<(), AllocError>
    requires { IsBounded window.old }
    ensures { OnOk result (LaysUnder lineage.now.table.nodes node.number start window.old window.new) }
{
    lineage.keeps_lines();
    let mut from = u64::from(start);
    while from < window.end {
        let Some((index, block)) = lineage.own_next(node, from as u32) else {
            return Ok(());
        };
        if u64::from(index) >= window.end {
            return Ok(());
        }
        add(&mut window.blocks, index, block)?;
        shorten(alloc, window, most)?;
        from = u64::from(index) + 1;
    }
    Ok(())
}

// A block where there is none yet.
fn add(blocks: &mut Numbered<Block>, index: u32, block: Block) -> Result<(), AllocError>
    ensures { OnOk result (AddsOne index block blocks.old blocks.new) }
{
    if !blocks.contains(index) {
        blocks.insert(index, block)?;
    }
    Ok(())
}

// Keeps the first blocks alone, where there are twice as many as are asked for.
fn shorten(alloc: Global, window: &mut Window, most: u64) -> Result<(), AllocError>
    requires { IsBounded window.old }
    ensures { OnOk result (IsPart window.old window.new) }
{
    if window.blocks.len() as u64 / 2 >= most {
        *window = first_part(alloc, &window.blocks, window.end, most)?;
    }
    Ok(())
}

fn first_part(
    alloc: Global,
    blocks: &Numbered<Block>,
    end: u64,
    most: u64,
) -> Result<Window, AllocError>
    requires { IsBounded (record { blocks = blocks.now; end = end }) }
    ensures { IfOk result (λ part. IsPart (record { blocks = blocks.now; end = end }) part) }
{
    let mut kept = Numbered::new(alloc);
    let mut from = 0;
    while from < end {
        let Some((index, block)) = first_from(blocks, from as u32) else {
            return Ok(Window { blocks: kept, end });
        };
        if kept.len() as u64 >= most {
            return Ok(Window {
                blocks: kept,
                end: u64::from(index),
            });
        }
        kept.insert(index, block)?;
        from = u64::from(index) + 1;
    }
    Ok(Window { blocks: kept, end })
}

fn first_from(blocks: &Numbered<Block>, index: u32) -> Option<(u32, Block)>
    ensures { IsLeastFrom (map.get blocks.now) index result }
{
    match blocks.from(index).next() {
        Some((at, block)) => Some((*at, *block)),
        None => None,
    }
}
