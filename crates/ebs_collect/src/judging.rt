// What becomes of a block that was looked at.
ghost use Rattle.ebs_lineage.specs.Lines.{IsFree};
ghost use Rattle.ebs_collect.specs.Steps.{IsJudged};
ghost use Rattle.ebs_collect.specs.Slices.{IsCounted, Frees};

use ebs_lineage::{Lineage, NodeId, entries_count};
use ebs_slots::Slots;

/// Takes the block that the node keeps at the index, which is one entry less with its stamp, if no held node finds it.
pub(crate) fn judge(lineage: &mut Lineage, slots: &mut Slots, number: u64, index: u32)
    requires free { IsFree lineage.old.table.nodes number }
    requires counted { IsCounted slots.old lineage.old.table.nodes }
    ensures judged { IsJudged lineage.old lineage.new number index }
    ensures counted { IsCounted slots.new lineage.new.table.nodes }
    ensures slots { Frees slots.old slots.new }
{
    entries_count();
    let Some(block) = lineage.take_dead(NodeId { number }, index) else {
        return;
    };
    slots.release(block.stamp);
}
