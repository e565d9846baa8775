// Rows of nodes without the blocks that are nobody's any more.
ghost use Rattle.std.specs.Prelude.{◌≡◌, IfOk};
ghost use Rattle.std.specs.List.{filter};
ghost use Rattle.ebs_records.specs.Records as records;
ghost use Rattle.ebs_row_rules.specs.inner.Stamps as stamps;
ghost use Rattle.ebs_point.specs.Live as live;

use ebs_checkpoints::{EntryRow, EntryRows, NodeRow, NodeRows};
use ebs_model::{Block, GIB_BLOCKS, MOST_GIB};
use ebs_tables::Stamped;
use std::alloc::{AllocError, Global};

/// The rows with those entries alone whose blocks have the digests of their stamps.
pub(crate) fn live_rows(
    alloc: Global,
    nodes: &[NodeRow],
    digests: &Stamped<[u8; 32]>,
) -> Result<NodeRows, AllocError>
    ensures { IfOk result (λ rows. rows ≡ live.live_rows digests.now nodes.now) }
{
    let mut rows = NodeRows::new(alloc);
    for node in nodes {
        let row = live_row(alloc, node, digests)?;
        rows.push(row)?;
    }
    Ok(rows)
}

fn live_row(
    alloc: Global,
    node: &NodeRow,
    digests: &Stamped<[u8; 32]>,
) -> Result<NodeRow, AllocError>
    ensures { IfOk result (λ row. row ≡ live.with_live digests.now node.now) }
{
    let entries = live_entries(alloc, node.entries.as_slice(), digests)?;
    Ok(NodeRow {
        number: node.number,
        parent: node.parent,
        writable: node.writable,
        entries,
    })
}

fn live_entries(
    alloc: Global,
    entries: &[EntryRow],
    digests: &Stamped<[u8; 32]>,
) -> Result<EntryRows, AllocError>
    ensures { IfOk result (λ rows. rows ≡ filter (live.is_live digests.now) entries.now) }
{
    let mut rows = EntryRows::new(alloc);
    for entry in entries {
        if is_live(digests, entry) {
            rows.push(*entry)?;
        }
    }
    Ok(rows)
}

fn is_live(digests: &Stamped<[u8; 32]>, entry: &EntryRow) -> bool
    ensures { result ≡ live.is_live digests.now entry.now }
{
    is_index(entry.index) && has_digest(digests, &entry.block)
}

fn is_index(index: u32) -> bool
    ensures { result ≡ records.is_index index }
{
    u64::from(index) < GIB_BLOCKS * MOST_GIB
}

fn has_digest(digests: &Stamped<[u8; 32]>, block: &Block) -> bool
    ensures { result ≡ stamps.has_digest digests.now block.now }
{
    match digests.get(block.stamp) {
        Some(digest) => *digest == block.digest,
        None => false,
    }
}
