mod collecting;
mod listed;
mod loading;
mod making;
mod opening;
mod repeats;

use ebs_disk_store::{OpenRefusal, Store};
use ebs_world::{CrashPick, MemoryDisk};
use std::alloc::Global;
use std::marker::Brand;

const SECRET: [u8; 32] = [7; 32];

/// What may be left of what wasn't synced.
const PICKS: [CrashPick; 4] = [
    CrashPick::Old,
    CrashPick::New,
    CrashPick::Fill(0),
    CrashPick::Fill(255),
];

/// A store that is made on a disk.
fn new_store(alloc: Global, disk: &mut MemoryDisk) -> Result<Store<Brand>, OpenRefusal> {
    Store::<Brand>::make(alloc, disk, SECRET)
}
