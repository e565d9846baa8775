// The slots of what nodes keep.
ghost use Rattle.std.specs.Prelude.{◌≡◌, IfOk};
ghost use Rattle.ebs_world.specs.declared.area.Area.TheVariants.{Blocks};
ghost use Rattle.ebs_pointed.specs.Stored.{AreStored};
ghost use Rattle.ebs_point.specs.Slots.{AreSlotsOf};

use crate::fields::check_slots;
use ebs_checkpoints::{NodeRow, SlotRows};
use ebs_pointed::standard_of;
use ebs_slots::Slots;
use std::alloc::{AllocError, Global};

/// The slot of each stamp of the nodes' entries, in ascending stamp.
pub(crate) fn slots_of(
    alloc: Global,
    nodes: &[NodeRow],
    kept: &Slots,
) -> Result<SlotRows, AllocError>
    requires area { kept.now.area ≡ Blocks }
    requires stored { AreStored nodes.now kept.now.keys }
    ensures { IfOk result (λ rows. AreSlotsOf kept.now.keys nodes.now rows) }
{
    let rows = standard_of(alloc, nodes, kept)?;
    check_slots(rows.as_slice());
    Ok(rows)
}
