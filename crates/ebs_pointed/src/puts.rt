// The indexes that were put in an upload.
ghost use Rattle.std.specs.Prelude.{◌≡◌, true, IfOk};
ghost use Rattle.std.specs.Ordering.{nat_cmp};
ghost use Rattle.std.specs.FinMap as map;
ghost use Rattle.ebs_tables.specs.Full.{full};
ghost use Rattle.ebs_row_rules.specs.Order.{ascends};
ghost use Rattle.ebs_pointed.specs.Snapshots.{put_set};

use ebs_checkpoints::IndexList;
use ebs_model::IndexSlots;
use std::alloc::{AllocError, Global};

/// The indexes of the set, in ascending order.
pub(crate) fn indexes_of(alloc: Global, put: &IndexSlots) -> Result<IndexList, AllocError>
    ensures set { IfOk result (λ indexes. put_set indexes ≡ full put.now) }
    ensures ascend { IfOk result (λ indexes. ascends nat_cmp (λ n. n) indexes ≡ true) }
{
    let indexes = keys_of(alloc, put)?;
    Ok(indexes)
}

fn keys_of(alloc: Global, put: &IndexSlots) -> Result<IndexList, AllocError>
    ensures { IfOk result (λ indexes. indexes ≡ map.keys (full put.now)) }
{
    let mut indexes = IndexList::new(alloc);
    for (index, _) in put.from(0) {
        indexes.push(*index)?;
    }
    Ok(indexes)
}
