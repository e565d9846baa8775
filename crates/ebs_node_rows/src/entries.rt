// A node's own blocks as entries.
ghost use Rattle.std.specs.Prelude.{IfOk};
ghost use Rattle.ebs_lineage.specs.Lines.{own};
ghost use Rattle.ebs_node_rows.specs.Rows.{AreEntriesOf};

use ebs_checkpoints::{EntryRow, EntryRows};
use ebs_lineage::{Lineage, NodeId};
use std::alloc::{AllocError, Global};

pub fn entries_of(alloc: Global, lineage: &Lineage, node: NodeId) -> Result<EntryRows, AllocError>
    ensures { IfOk result (λ entries. AreEntriesOf (own lineage.now.table.nodes node.number) entries) }
{
    lineage.keeps_lines();
    let mut entries = EntryRows::new(alloc);
    let mut from = 0;
    while from < 1 << 32 {
        let Some((index, block)) = lineage.own_next(node, from as u32) else {
            return Ok(entries);
        };
        entries.push(EntryRow { index, block })?;
        from = u64::from(index) + 1;
    }
    Ok(entries)
}
