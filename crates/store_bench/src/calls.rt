// The calls of one account at one moment, over the store of a disk.
use ebs_disk_store::{OpenRefusal, Progress, PutHead, Store};
use ebs_model::{Account, Answer, BLOCK_BYTES, KeyNumber, Moment, Request, SnapKey, Tags, VolKey};
use ebs_slots::Prepared;
use ebs_world::Disk;
use std::alloc::Global;
use std::marker::Brand;

const SECRET: [u8; 32] = [7; 32];

const READING: Moment = Moment { second: 1000 };

/// A call without a block. There is one volume, and snapshots have numbers in the order of their making.
#[derive(Clone, Copy)]
pub enum Call {
    CreateVolume,
    CreateSnapshot,
    DeleteSnapshot(u32),
}

/// A new store. What `make` ensures isn't handed on, so that no caller proves anything of it.
pub fn new_store<D: Disk>(alloc: Global, disk: &mut D) -> Result<Store<Brand>, OpenRefusal> {
    Store::<Brand>::make(alloc, disk, SECRET)
}

fn owner() -> Account {
    Account::new(1)
}

fn volume() -> VolKey {
    VolKey {
        account: owner(),
        number: KeyNumber::new(0),
    }
}

// One of the first 16.
fn snapshot(number: u32) -> SnapKey {
    SnapKey {
        account: owner(),
        number: KeyNumber::new(number % 16),
    }
}

fn request_of(alloc: Global, call: Call) -> Request {
    match call {
        Call::CreateVolume => Request::CreateVolume {
            origin: None,
            size: Some(16),
            tags: Tags::new(alloc),
            client_token: None,
        },
        Call::CreateSnapshot => Request::CreateSnapshot {
            key: volume(),
            description: None,
            tags: Tags::new(alloc),
        },
        Call::DeleteSnapshot(number) => Request::DeleteSnapshot {
            key: snapshot(number),
        },
    }
}

fn is_accepted(answer: &Answer) -> bool {
    !matches!(answer, Answer::Refused(_) | Answer::Memory)
}

/// Whether the call is accepted.
pub fn ask<D: Disk>(store: &mut Store<Brand>, alloc: Global, disk: &mut D, call: Call) -> bool {
    let request = request_of(alloc, call);
    let answer = store.apply(disk, owner(), READING, request);
    let is_done = is_accepted(&answer);
    drop(answer);
    is_done
}

// A block that is full of the byte.
fn filled(alloc: Global, byte: u8, size: usize) -> Option<Prepared> {
    let bytes = vec![in alloc; byte; size].ok()?;
    Prepared::new(bytes).ok()
}

fn head_of(index: u32, block: &Prepared) -> PutHead {
    PutHead::Volume {
        key: volume(),
        index: u64::from(index),
        digest: block.digest(),
    }
}

fn put<D: Disk>(store: &mut Store<Brand>, disk: &mut D, index: u32, block: &Prepared) -> bool {
    let head = head_of(index, block);
    let answer = store.put(disk, owner(), READING, head, block);
    let is_done = is_accepted(&answer);
    drop(answer);
    is_done
}

/// Whether a block is written to the volume.
pub fn write<D: Disk>(store: &mut Store<Brand>, alloc: Global, disk: &mut D, index: u32) -> bool {
    match filled(alloc, (index % 256) as u8, BLOCK_BYTES) {
        Some(block) => put(store, disk, index, &block),
        None => false,
    }
}

/// A slice of a collection.
pub fn slice<D: Disk>(store: &mut Store<Brand>, disk: &mut D, work: u32) -> Option<Progress> {
    store.collect_slice(disk, READING, work).ok()
}

/// How many slots have a block.
pub fn used(store: &Store<Brand>) -> u64 {
    store.usage().standard
}
