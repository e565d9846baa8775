// What is there before the writes, and the writes.
use crate::calls::{Call, ask, slice, write};
use ebs_disk_store::{Progress, Store};
use ebs_world::Disk;
use std::alloc::Global;
use std::marker::Brand;

/// So many writes, and a slice of so much work behind each, where there is one.
#[derive(Clone, Copy)]
pub struct Plan {
    pub count: u32,
    pub work: Option<u32>,
}

/// How many writes were accepted, how many slices were made, and at how many blocks they looked: one behind which blocks still wait
/// looked at as many as its work, and one behind which none does is left out.
#[derive(Clone, Copy)]
pub struct Tally {
    pub puts: u64,
    pub slices: u64,
    pub looked: u64,
}

// Whether so many blocks are written to the volume, from index 0 on.
fn fill<D: Disk>(store: &mut Store<Brand>, alloc: Global, disk: &mut D, count: u32) -> bool {
    for index in 0..count {
        if !write(store, alloc, disk, index) {
            return false;
        }
    }
    true
}

// Whether the volume's blocks go into a snapshot.
fn fill_snapshot<D: Disk>(
    store: &mut Store<Brand>,
    alloc: Global,
    disk: &mut D,
    count: u32,
) -> bool {
    fill(store, alloc, disk, count) && ask(store, alloc, disk, Call::CreateSnapshot)
}

/// Whether the volume has so many blocks, all of a snapshot that was deleted, so that they wait, and as many slots are free. These are
/// of another snapshot before it, whose blocks were all hidden.
pub fn prepare<D: Disk>(store: &mut Store<Brand>, alloc: Global, disk: &mut D, count: u32) -> bool {
    ask(store, alloc, disk, Call::CreateVolume)
        && fill_snapshot(store, alloc, disk, count)
        && fill_snapshot(store, alloc, disk, count)
        && ask(store, alloc, disk, Call::DeleteSnapshot(0))
        && slice(store, disk, u32::MAX).is_some()
        && ask(store, alloc, disk, Call::DeleteSnapshot(1))
}

fn count_slice(tally: &mut Tally, work: u32, progress: Option<Progress>) {
    match progress {
        Some(Progress::More) => {
            tally.slices = tally.slices.saturating_add(1);
            tally.looked = tally.looked.saturating_add(u64::from(work));
        }
        Some(Progress::Finished) => tally.slices = tally.slices.saturating_add(1),
        None => {}
    }
}

/// What comes of the writes.
pub fn play<D: Disk>(store: &mut Store<Brand>, alloc: Global, disk: &mut D, plan: Plan) -> Tally {
    let mut tally = Tally {
        puts: 0,
        slices: 0,
        looked: 0,
    };
    for index in 0..plan.count {
        if write(store, alloc, disk, index) {
            tally.puts = tally.puts.saturating_add(1);
        }
        if let Some(work) = plan.work {
            count_slice(&mut tally, work, slice(store, disk, work));
        }
    }
    tally
}
