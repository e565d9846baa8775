// A slice over a disk in memory.
ghost use Rattle.std.specs.Prelude.{◌≡◌};

use ebs_disk_store::{Progress, Store, Unavailable};
use ebs_model::Moment;
use ebs_world::MemoryDisk;
use std::marker::Brand;

/// Collects so much at a second. What is under lease stays, whatever comes of it.
pub fn slice(
    store: &mut Store<Brand>,
    disk: &mut MemoryDisk,
    second: u64,
    work: u32,
) -> Result<Progress, Unavailable>
    ensures { store.new.slots.leases ≡ store.old.slots.leases }
{
    store.collect_slice(disk, Moment { second }, work)
}
