// What no clause says of a block that is loaded: that it comes on the happy path, and what is judged of one whose slot has other bytes.

use super::new_store;
use ebs_disk_store::{Loaded, PutHead, Store, judge};
use ebs_model::{Account, Answer, KeyNumber, Moment, Refusal, Request, Tags, VolKey};
use ebs_slots::Prepared;
use ebs_world::{Area, Disk, MemoryDisk};
use std::alloc::{AllocError, Global};
use std::marker::Brand;
use std::test::Fail;

const NOW: Moment = Moment { second: 1000 };

fn volume() -> VolKey {
    VolKey {
        account: Account::new(1),
        number: KeyNumber::new(0),
    }
}

/// A store with one volume, whose block 0 is full of a byte.
fn with_block(
    alloc: Global,
    disk: &mut MemoryDisk,
    block: &Prepared,
) -> Result<Option<Store<Brand>>, AllocError> {
    let Ok(mut store) = new_store(alloc, disk) else {
        return Ok(None);
    };
    let create = Request::CreateVolume {
        origin: None,
        size: Some(1),
        tags: Tags::new(alloc),
        client_token: None,
    };
    drop(store.apply(disk, Account::new(1), NOW, create));
    let head = PutHead::Volume {
        key: volume(),
        index: 0,
        digest: block.digest(),
    };
    drop(store.put(disk, Account::new(1), NOW, head, block));
    Ok(Some(store))
}

/// Reads block 0 in two parts.
fn load(store: &mut Store<Brand>, disk: &mut MemoryDisk) -> Loaded {
    let read = Request::ReadVolumeBlock {
        key: volume(),
        index: 0,
    };
    let loaded = store.load(disk, Account::new(1), NOW, &read);
    drop(read);
    loaded
}

/// Whether what is judged is this block.
fn is_block(loaded: Loaded, block: &Prepared) -> bool {
    let answer = judge(loaded);
    let same = match &answer {
        Answer::BlockRead { digest, bytes } => {
            *digest == block.digest() && bytes.as_slice() == block.bytes()
        }
        _ => false,
    };
    drop(answer);
    same
}

/// Whether the block is damaged.
fn is_damaged(loaded: Loaded, block: &Prepared) -> bool {
    let answer = judge(loaded);
    let damaged = match &answer {
        Answer::Refused(Refusal::Damaged { stored, found }) => {
            *stored == block.digest() && *found != *stored
        }
        _ => false,
    };
    drop(answer);
    damaged
}

/// Whether the block is judged good, and damaged once its slot has another first byte.
fn judges(alloc: Global, disk: &mut MemoryDisk, block: &Prepared) -> Result<bool, AllocError> {
    let Some(mut store) = with_block(alloc, disk, block)? else {
        return Ok(false);
    };
    let good = is_block(load(&mut store, disk), block);
    let spoiled = disk.write(Area::Blocks, 0, &[9]).is_ok();
    let damaged = is_damaged(load(&mut store, disk), block);
    drop(store);
    Ok(good && spoiled && damaged)
}

#[test]
fn a_loaded_block_is_judged_by_its_bytes(rt: HostRuntime) -> Result<(), Fail> {
    let alloc = rt.alloc();
    let mut disk = MemoryDisk::new(alloc, Vec::new(alloc));
    let block = Prepared::new(vec![in alloc; 1; 524288]?).ok();
    let judged = match &block {
        Some(block) => judges(alloc, &mut disk, block)?,
        None => false,
    };
    drop(block);
    drop(disk);
    assert!(rt; judged);
    Ok(())
}
