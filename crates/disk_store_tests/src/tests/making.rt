// What no clause says of a store: that it is made where nothing fails, and made once.
use super::{PICKS, SECRET, new_store};
use ebs_disk_store::OpenRefusal;
use ebs_journal::{Journal, JournalRefusal};
use ebs_world::{Disk, MemoryDisk};
use std::alloc::{AllocError, Global};
use std::test::Fail;

/// The outcome of a making.
fn make_on(alloc: Global, disk: &mut MemoryDisk) -> Result<(), OpenRefusal> {
    match new_store(alloc, disk) {
        Ok(store) => {
            drop(store);
            Ok(())
        }
        Err(refusal) => Err(refusal),
    }
}

/// Whether a disk has no store, or a whole new one.
fn is_none_or_new(alloc: Global, disk: &mut MemoryDisk) -> bool {
    match Journal::open(alloc, disk) {
        Ok((_, replay)) => {
            replay.records.as_slice().is_empty()
                && replay.checkpoint.as_slice() == ebs_recovery::write_first(SECRET).as_slice()
        }
        Err(refusal) => refusal == JournalRefusal::NotMade,
    }
}

/// Whether it is so after a crash of this moment.
fn moment_so(alloc: Global, disk: &MemoryDisk, moment: u64) -> Result<bool, AllocError> {
    for pick in PICKS {
        if moment > disk.moment() {
            return Ok(false);
        }
        let mut left = disk.crash(moment, pick)?;
        if !is_none_or_new(alloc, &mut left) {
            return Ok(false);
        }
    }
    Ok(true)
}

fn moments_so(alloc: Global, disk: &MemoryDisk) -> Result<bool, AllocError> {
    for moment in 0..=disk.moment() {
        if !moment_so(alloc, disk, moment)? {
            return Ok(false);
        }
    }
    Ok(true)
}

/// Whether a disk whose call of this number fails is told as failed, at no moment has half a store, and has one after a second making.
fn fails_so(alloc: Global, number: u64) -> Result<bool, AllocError> {
    let mut disk = MemoryDisk::new(alloc, Vec::from_slice(alloc, &[number])?);
    let first = make_on(alloc, &mut disk);
    let is_so = moments_so(alloc, &disk)?;
    let second = make_on(alloc, &mut disk);
    let is_there = second == Ok(()) || second == Err(OpenRefusal::AlreadyMade);
    Ok(is_so && first == Err(OpenRefusal::DiskFailed) && is_there)
}

#[test]
fn a_store_is_made_once(rt: HostRuntime) -> Result<(), Fail> {
    let alloc = rt.alloc();
    let mut disk = MemoryDisk::new(alloc, Vec::new(alloc));
    assert!(rt; make_on(alloc, &mut disk) == Ok(()));
    assert!(rt; make_on(alloc, &mut disk) == Err(OpenRefusal::AlreadyMade));
    assert!(rt; moments_so(alloc, &disk)?);
    Ok(())
}

#[test]
fn each_call_of_the_disk_that_fails_is_told(rt: HostRuntime) -> Result<(), Fail> {
    let alloc = rt.alloc();
    for number in 0..13u64 {
        assert!(rt; fails_so(alloc, number)?);
    }
    assert!(rt; !fails_so(alloc, 13)?);
    Ok(())
}
