// What no clause says of a collection: in how many slices it ends, which records it writes, and which slots are taken again.
ghost use Rattle.std.specs.Prelude.{◌≡◌, Some};
ghost use Rattle.std.specs.FinMap as map;

use super::{PICKS, new_store};
use crate::slice;
use ebs_disk_store::{OpenRefusal, Progress, PutHead, Store};
use ebs_journal::{Journal, Payloads};
use ebs_model::{Account, Answer, KeyNumber, Moment, Request, RuleTags, SnapKey, Tags, VolKey};
use ebs_records::{Read, Record, read_record, write_advance};
use ebs_slots::{Lease, Prepared};
use ebs_world::{Area, Disk, MemoryDisk};
use std::alloc::{AllocError, Global};
use std::marker::Brand;
use std::test::Fail;

const BLOCK: usize = 524288;

/// What is done to a store. Snapshots have numbers in the order of their starts.
#[derive(Clone, Copy)]
enum Step {
    /// A rule that keeps deleted snapshots for seven days.
    Rule,
    Start,
    /// An upload with a parent.
    Child(u32),
    /// A block that is full of a byte, at an index.
    Put(u32, u64, u8),
    Complete(u32, u64),
    Delete(u32),
    Describe(u32),
    /// The one volume, of a snapshot.
    Copy(u32),
    /// A block of the volume.
    Read(u64),
    Slice(u32),
    Usage,
    Checkpoint,
}

/// What comes of it.
#[derive(Clone, Copy, PartialEq, Eq)]
enum Outcome {
    Done,
    Refused,
    More,
    Finished,
    /// So many slots are held, and so many are under lease.
    Used(u64, u64),
    /// A block that begins with the byte.
    Block(u8),
    /// So many records stand behind the checkpoint.
    Records(u64),
}

fn snapshot(number: u32) -> SnapKey {
    SnapKey {
        account: Account::new(1),
        number: KeyNumber::new(if number < 16 { number } else { 0 }),
    }
}

fn volume() -> VolKey {
    VolKey {
        account: Account::new(1),
        number: KeyNumber::new(0),
    }
}

fn start(alloc: Global, parent: Option<SnapKey>) -> Request {
    Request::StartSnapshot {
        size: 1,
        parent,
        description: None,
        tags: Tags::new(alloc),
        client_token: None,
        timeout: 60,
    }
}

/// The request of a step that is one without a block.
fn request_of(alloc: Global, step: Step) -> Request {
    match step {
        Step::Rule => Request::CreateRule {
            days: 7,
            tags: RuleTags::new(alloc),
            description: None,
            delay: None,
        },
        Step::Child(parent) => start(alloc, Some(snapshot(parent))),
        Step::Complete(number, count) => Request::CompleteSnapshot {
            key: snapshot(number),
            count,
            checksum: None,
        },
        Step::Delete(number) => Request::DeleteSnapshot {
            key: snapshot(number),
        },
        Step::Describe(number) => Request::DescribeSnapshot {
            key: snapshot(number),
        },
        Step::Copy(number) => Request::CreateVolume {
            origin: Some(snapshot(number)),
            size: None,
            tags: Tags::new(alloc),
            client_token: None,
        },
        Step::Read(index) => Request::ReadVolumeBlock {
            key: volume(),
            index,
        },
        _ => start(alloc, None),
    }
}

fn outcome_of(answer: &Answer) -> Outcome {
    match answer {
        Answer::BlockRead { bytes, .. } => match bytes.as_slice().first() {
            Some(byte) => Outcome::Block(*byte),
            None => Outcome::Refused,
        },
        Answer::Refused(_) | Answer::Memory => Outcome::Refused,
        _ => Outcome::Done,
    }
}

fn ask(
    store: &mut Store<Brand>,
    alloc: Global,
    disk: &mut MemoryDisk,
    second: u64,
    step: Step,
) -> Outcome {
    let request = request_of(alloc, step);
    let answer = store.apply(disk, Account::new(1), Moment { second }, request);
    let outcome = outcome_of(&answer);
    drop(answer);
    outcome
}

/// A block that is full of a byte.
fn filled(alloc: Global, byte: u8, size: usize) -> Result<Option<Prepared>, AllocError> {
    Ok(Prepared::new(vec![in alloc; byte; size]?).ok())
}

fn head_of(number: u32, index: u64, block: &Prepared) -> PutHead {
    PutHead::Snapshot {
        key: snapshot(number),
        index,
        digest: block.digest(),
    }
}

fn put(
    store: &mut Store<Brand>,
    disk: &mut MemoryDisk,
    second: u64,
    head: PutHead,
    block: &Prepared,
) -> Outcome {
    let answer = store.put(disk, Account::new(1), Moment { second }, head, block);
    let outcome = outcome_of(&answer);
    drop(answer);
    outcome
}

fn slice_told(store: &mut Store<Brand>, disk: &mut MemoryDisk, second: u64, work: u32) -> Outcome
    ensures { store.new.slots.leases ≡ store.old.slots.leases }
{
    match slice(store, disk, second, work) {
        Ok(Progress::More) => Outcome::More,
        Ok(Progress::Finished) => Outcome::Finished,
        Err(_) => Outcome::Refused,
    }
}

fn used(store: &Store<Brand>) -> Outcome {
    let usage = store.usage();
    if usage.archived == 0 && usage.waiting == 0 {
        Outcome::Used(usage.standard, usage.leased)
    } else {
        Outcome::Refused
    }
}

fn checkpoint_told(store: &mut Store<Brand>, disk: &mut MemoryDisk) -> Outcome {
    match store.checkpoint(disk) {
        Ok(()) => Outcome::Records(store.records()),
        Err(_) => Outcome::Refused,
    }
}

fn play(
    store: &mut Store<Brand>,
    alloc: Global,
    disk: &mut MemoryDisk,
    second: u64,
    step: Step,
) -> Result<Outcome, AllocError> {
    match step {
        Step::Put(number, index, byte) => match filled(alloc, byte, BLOCK)? {
            Some(block) => {
                let head = head_of(number, index, &block);
                Ok(put(store, disk, second, head, &block))
            }
            None => Ok(Outcome::Refused),
        },
        Step::Slice(work) => Ok(slice_told(store, disk, second, work)),
        Step::Usage => Ok(used(store)),
        Step::Checkpoint => Ok(checkpoint_told(store, disk)),
        other => Ok(ask(store, alloc, disk, second, other)),
    }
}

/// A step at its second, with what comes of it.
type Row = (u64, Step, Outcome);

/// Whether each step comes to what is written beside it.
fn is_played(
    store: &mut Store<Brand>,
    alloc: Global,
    disk: &mut MemoryDisk,
    rows: &[Row],
) -> Result<bool, AllocError> {
    for (second, step, outcome) in rows {
        if play(store, alloc, disk, *second, *step)? != *outcome {
            return Ok(false);
        }
    }
    Ok(true)
}

/// Whether a new store plays these rows.
fn begins(alloc: Global, disk: &mut MemoryDisk, rows: &[Row]) -> Result<bool, AllocError> {
    match new_store(alloc, disk) {
        Ok(mut store) => {
            let is_so = is_played(&mut store, alloc, disk, rows);
            drop(store);
            is_so
        }
        Err(_) => Ok(false),
    }
}

fn open_store(alloc: Global, disk: &mut MemoryDisk) -> Result<Store<Brand>, OpenRefusal> {
    Store::<Brand>::open(alloc, disk)
}

/// Whether the store of a disk does.
fn goes_on(alloc: Global, disk: &mut MemoryDisk, rows: &[Row]) -> Result<bool, AllocError> {
    match open_store(alloc, disk) {
        Ok(mut store) => {
            let is_so = is_played(&mut store, alloc, disk, rows);
            drop(store);
            is_so
        }
        Err(_) => Ok(false),
    }
}

/// Whether it does behind each crash.
fn survives(alloc: Global, disk: &MemoryDisk, rows: &[Row]) -> Result<bool, AllocError> {
    for pick in PICKS {
        let mut left = disk.crash(disk.moment(), pick)?;
        if !goes_on(alloc, &mut left, rows)? {
            return Ok(false);
        }
    }
    Ok(true)
}

/// The records of the journal on a disk.
fn records_of(alloc: Global, disk: &mut MemoryDisk) -> Option<Payloads> {
    match Journal::open(alloc, disk) {
        Ok((_, replay)) => Some(replay.records),
        Err(_) => None,
    }
}

/// How many records there are, and how many of them say that time has passed until a second.
fn advances(alloc: Global, disk: &mut MemoryDisk, second: u64) -> Option<(usize, usize)> {
    let records = records_of(alloc, disk)?;
    let advance = write_advance(Moment { second });
    let records = records.as_slice();
    let found = records
        .iter()
        .filter(|bytes| bytes.as_slice() == advance.as_slice())
        .count();
    Some((records.len(), found))
}

/// The slot that a record names.
fn slot_in(alloc: Global, bytes: &[u8]) -> Option<u64> {
    match read_record(alloc, bytes) {
        Read::Value(Record::Accepted(call)) => call.slot,
        _ => None,
    }
}

/// The slots that the records name, in their order.
fn slots_named(alloc: Global, disk: &mut MemoryDisk) -> Result<Vec<u64>, AllocError> {
    let mut slots = Vec::new(alloc);
    let Some(records) = records_of(alloc, disk) else {
        return Ok(slots);
    };
    for bytes in records.as_slice() {
        if let Some(slot) = slot_in(alloc, bytes.as_slice()) {
            slots.push(slot)?;
        }
    }
    Ok(slots)
}

/// What time has ended: in how many slices it is given up, and what is there before.
const ENDED: [Row; 12] = [
    (1000, Step::Rule, Outcome::Done),
    (1000, Step::Start, Outcome::Done),
    (1000, Step::Put(0, 0, 1), Outcome::Done),
    (1000, Step::Put(0, 1, 2), Outcome::Done),
    (1000, Step::Put(0, 2, 3), Outcome::Done),
    (1000, Step::Complete(0, 3), Outcome::Done),
    (1000, Step::Delete(0), Outcome::Done),
    (605799, Step::Slice(2), Outcome::Finished),
    (605799, Step::Usage, Outcome::Used(3, 0)),
    (605800, Step::Slice(2), Outcome::More),
    (605800, Step::Slice(2), Outcome::Finished),
    (605800, Step::Usage, Outcome::Used(0, 0)),
];

/// And behind it, whatever the clock reads.
const GONE: [Row; 3] = [
    (1000, Step::Usage, Outcome::Used(0, 0)),
    (1000, Step::Describe(0), Outcome::Refused),
    (1000, Step::Slice(1), Outcome::Finished),
];

#[test]
fn that_time_ended_a_snapshot_is_recorded_once(rt: HostRuntime) -> Result<(), Fail> {
    let alloc = rt.alloc();
    let mut disk = MemoryDisk::new(alloc, Vec::new(alloc));
    assert!(rt; begins(alloc, &mut disk, &ENDED)?);
    assert!(rt; survives(alloc, &disk, &GONE)?);
    assert!(rt; advances(alloc, &mut disk, 605800) == Some((8, 1)));
    Ok(())
}

/// A child has its parent's block and one of its own, and the parent is deleted.
const PARENT_DELETED: [Row; 12] = [
    (1000, Step::Start, Outcome::Done),
    (1000, Step::Put(0, 0, 1), Outcome::Done),
    (1000, Step::Complete(0, 1), Outcome::Done),
    (1000, Step::Child(0), Outcome::Done),
    (1000, Step::Put(1, 1, 2), Outcome::Done),
    (1000, Step::Complete(1, 1), Outcome::Done),
    (1000, Step::Delete(0), Outcome::Done),
    (1000, Step::Slice(1), Outcome::Finished),
    (1000, Step::Usage, Outcome::Used(2, 0)),
    (1000, Step::Copy(1), Outcome::Done),
    (1000, Step::Read(0), Outcome::Block(1)),
    (1000, Step::Read(1), Outcome::Block(2)),
];

/// It has them at the next start too.
const CHILD_LEFT: [Row; 3] = [
    (1000, Step::Usage, Outcome::Used(2, 0)),
    (1000, Step::Read(0), Outcome::Block(1)),
    (1000, Step::Read(1), Outcome::Block(2)),
];

/// An open child puts over the block of its parent, which is deleted.
const PARENT_HIDDEN: [Row; 11] = [
    (1000, Step::Start, Outcome::Done),
    (1000, Step::Put(0, 0, 1), Outcome::Done),
    (1000, Step::Complete(0, 1), Outcome::Done),
    (1000, Step::Child(0), Outcome::Done),
    (1000, Step::Delete(0), Outcome::Done),
    (1000, Step::Slice(64), Outcome::Finished),
    (1000, Step::Usage, Outcome::Used(1, 0)),
    (1000, Step::Put(1, 0, 2), Outcome::Done),
    (1000, Step::Usage, Outcome::Used(2, 0)),
    (1000, Step::Slice(64), Outcome::Finished),
    (1000, Step::Usage, Outcome::Used(1, 0)),
];

/// A block that is put over another one of the same upload takes its place at once.
const PUT_TWICE: [Row; 4] = [
    (1000, Step::Start, Outcome::Done),
    (1000, Step::Put(0, 0, 1), Outcome::Done),
    (1000, Step::Put(0, 0, 2), Outcome::Done),
    (1000, Step::Usage, Outcome::Used(1, 0)),
];

/// One slot is held at the next start.
const ONE_HELD: [Row; 2] = [
    (1000, Step::Usage, Outcome::Used(1, 0)),
    (1000, Step::Slice(1), Outcome::Finished),
];

/// Whether a new store plays the first rows, and one that is opened behind a crash the others.
fn stands(alloc: Global, rows: &[Row], behind: &[Row]) -> Result<bool, AllocError> {
    let mut disk = MemoryDisk::new(alloc, Vec::new(alloc));
    Ok(begins(alloc, &mut disk, rows)? && survives(alloc, &disk, behind)?)
}

#[test]
fn what_a_child_finds_is_held(rt: HostRuntime) -> Result<(), Fail> {
    let alloc = rt.alloc();
    assert!(rt; stands(alloc, &PARENT_DELETED, &CHILD_LEFT)?);
    Ok(())
}

#[test]
fn what_a_child_hides_is_given_up(rt: HostRuntime) -> Result<(), Fail> {
    let alloc = rt.alloc();
    assert!(rt; stands(alloc, &PARENT_HIDDEN, &ONE_HELD)?);
    Ok(())
}

#[test]
fn a_block_that_is_put_again_has_one_slot(rt: HostRuntime) -> Result<(), Fail> {
    let alloc = rt.alloc();
    assert!(rt; stands(alloc, &PUT_TWICE, &ONE_HELD)?);
    Ok(())
}

/// Two blocks are given up, and two more are put.
const PUT_AGAIN: [Row; 12] = [
    (1000, Step::Start, Outcome::Done),
    (1000, Step::Put(0, 0, 1), Outcome::Done),
    (1000, Step::Put(0, 1, 2), Outcome::Done),
    (1000, Step::Complete(0, 2), Outcome::Done),
    (1000, Step::Delete(0), Outcome::Done),
    (1000, Step::Usage, Outcome::Used(2, 0)),
    (1000, Step::Slice(64), Outcome::Finished),
    (1000, Step::Usage, Outcome::Used(0, 0)),
    (1000, Step::Start, Outcome::Done),
    (1000, Step::Put(1, 0, 3), Outcome::Done),
    (1000, Step::Put(1, 1, 4), Outcome::Done),
    (1000, Step::Usage, Outcome::Used(2, 0)),
];

#[test]
fn slots_are_named_again(rt: HostRuntime) -> Result<(), Fail> {
    let alloc = rt.alloc();
    let mut disk = MemoryDisk::new(alloc, Vec::new(alloc));
    assert!(rt; begins(alloc, &mut disk, &PUT_AGAIN)?);
    let slots = slots_named(alloc, &mut disk)?;
    assert!(rt; slots.as_slice() == [0, 1, 1, 0].as_slice());
    assert!(rt; disk.end(Area::Blocks) == 1048576);
    Ok(())
}

/// The epoch of the journal on a disk, and how many records stand behind its checkpoint.
fn epoch_of(alloc: Global, disk: &mut MemoryDisk) -> Option<(u64, u64)> {
    match Journal::open(alloc, disk) {
        Ok((journal, _)) => Some((journal.epoch(), journal.since_checkpoint())),
        Err(_) => None,
    }
}

/// Checkpoints between uploads, a volume, a deletion and what still waits.
const POINTED: [Row; 17] = [
    (1000, Step::Checkpoint, Outcome::Records(0)),
    (1000, Step::Start, Outcome::Done),
    (1000, Step::Put(0, 0, 1), Outcome::Done),
    (1000, Step::Put(0, 3, 9), Outcome::Done),
    (1000, Step::Checkpoint, Outcome::Records(0)),
    (1000, Step::Put(0, 3, 4), Outcome::Done),
    (1000, Step::Complete(0, 2), Outcome::Done),
    (1000, Step::Child(0), Outcome::Done),
    (1000, Step::Put(1, 1, 2), Outcome::Done),
    (1000, Step::Put(1, 3, 5), Outcome::Done),
    (1000, Step::Complete(1, 2), Outcome::Done),
    (1000, Step::Delete(0), Outcome::Done),
    (1000, Step::Checkpoint, Outcome::Records(0)),
    (1000, Step::Usage, Outcome::Used(4, 0)),
    (1000, Step::Start, Outcome::Done),
    (1000, Step::Put(2, 7, 8), Outcome::Done),
    (1000, Step::Usage, Outcome::Used(5, 0)),
];

/// What nobody finds any more isn't in the checkpoint, and what is there can be used and put to.
const POINTED_LEFT: [Row; 10] = [
    (1000, Step::Usage, Outcome::Used(4, 0)),
    (1000, Step::Copy(1), Outcome::Done),
    (1000, Step::Read(0), Outcome::Block(1)),
    (1000, Step::Read(1), Outcome::Block(2)),
    (1000, Step::Read(3), Outcome::Block(5)),
    (1000, Step::Put(2, 8, 6), Outcome::Done),
    (1000, Step::Complete(2, 2), Outcome::Done),
    (1000, Step::Checkpoint, Outcome::Records(0)),
    (1000, Step::Delete(1), Outcome::Done),
    (1000, Step::Read(3), Outcome::Block(5)),
];

#[test]
fn a_checkpoint_takes_the_place_of_records(rt: HostRuntime) -> Result<(), Fail> {
    let alloc = rt.alloc();
    let mut disk = MemoryDisk::new(alloc, Vec::new(alloc));
    assert!(rt; begins(alloc, &mut disk, &POINTED)?);
    assert!(rt; epoch_of(alloc, &mut disk) == Some((4, 2)));
    assert!(rt; survives(alloc, &disk, &POINTED_LEFT)?);
    Ok(())
}

/// Time ends an upload and a deleted snapshot before the second checkpoint.
const POINTED_LATE: [Row; 11] = [
    (1000, Step::Rule, Outcome::Done),
    (1000, Step::Start, Outcome::Done),
    (1000, Step::Put(0, 0, 1), Outcome::Done),
    (1000, Step::Complete(0, 1), Outcome::Done),
    (1000, Step::Delete(0), Outcome::Done),
    (1000, Step::Start, Outcome::Done),
    (1000, Step::Put(1, 0, 2), Outcome::Done),
    (1000, Step::Checkpoint, Outcome::Records(0)),
    (605800, Step::Describe(1), Outcome::Done),
    (605800, Step::Checkpoint, Outcome::Records(0)),
    (605800, Step::Describe(0), Outcome::Refused),
];

/// At the next start their blocks are gone.
const NONE_LEFT: [Row; 3] = [
    (1000, Step::Usage, Outcome::Used(0, 0)),
    (1000, Step::Describe(0), Outcome::Refused),
    (1000, Step::Describe(1), Outcome::Done),
];

#[test]
fn what_time_has_ended_is_in_no_checkpoint(rt: HostRuntime) -> Result<(), Fail> {
    let alloc = rt.alloc();
    assert!(rt; stands(alloc, &POINTED_LATE, &NONE_LEFT)?);
    Ok(())
}

/// What a slice tells while the put is staged, which slots are used then, and what becomes of the put.
fn commit_behind_slice(
    store: &mut Store<Brand>,
    disk: &mut MemoryDisk,
    head: PutHead,
    lease: Lease,
) -> [Outcome; 3]
    requires { map.get store.old.slots.leases lease.slot ≡ Some lease.digest }
{
    let sliced = slice_told(store, disk, 1000, 64);
    let between = used(store);
    let answer = store.commit_put(disk, Account::new(1), Moment { second: 1000 }, head, lease);
    let committed = outcome_of(&answer);
    drop(answer);
    [sliced, between, committed]
}

fn put_around_slice(
    store: &mut Store<Brand>,
    disk: &mut MemoryDisk,
    head: PutHead,
    block: &Prepared,
) -> [Outcome; 3] {
    match store.stage_put(disk, block) {
        Ok(lease) => commit_behind_slice(store, disk, head, lease),
        Err(_) => [Outcome::Refused; 3],
    }
}

fn put_late(
    store: &mut Store<Brand>,
    alloc: Global,
    disk: &mut MemoryDisk,
) -> Result<[Outcome; 3], AllocError> {
    match filled(alloc, 7, BLOCK)? {
        Some(block) => {
            let head = head_of(0, 5, &block);
            Ok(put_around_slice(store, disk, head, &block))
        }
        None => Ok([Outcome::Refused; 3]),
    }
}

/// What is there of the block that was put.
const READ_BACK: [Row; 4] = [
    (1000, Step::Usage, Outcome::Used(1, 0)),
    (1000, Step::Complete(0, 1), Outcome::Done),
    (1000, Step::Copy(0), Outcome::Done),
    (1000, Step::Read(5), Outcome::Block(7)),
];

fn is_put_late(
    store: &mut Store<Brand>,
    alloc: Global,
    disk: &mut MemoryDisk,
) -> Result<bool, AllocError> {
    let is_begun = is_played(store, alloc, disk, &[(1000, Step::Start, Outcome::Done)])?;
    let told = put_late(store, alloc, disk)?;
    let is_told = told == [Outcome::Finished, Outcome::Used(0, 1), Outcome::Done];
    Ok(is_begun && is_told && is_played(store, alloc, disk, &READ_BACK)?)
}

#[test]
fn a_slot_under_lease_stays(rt: HostRuntime) -> Result<(), Fail> {
    let alloc = rt.alloc();
    let mut disk = MemoryDisk::new(alloc, Vec::new(alloc));
    let mut store = new_store(alloc, &mut disk).expect(&rt, "a store");
    let is_so = is_put_late(&mut store, alloc, &mut disk);
    drop(store);
    assert!(rt; is_so?);
    Ok(())
}
