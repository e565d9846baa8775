// What no clause says of slots: that calls succeed, and what is read after a crash or a fault.
use super::helpers::{PICKS, failing};
use ebs_model::Bytes;
use ebs_slots::*;
use ebs_world::{Area, CrashPick, Disk, MemoryDisk};
use std::alloc::{AllocError, Global};
use std::process::Abort;
use std::test::Fail;

/// Slots without a block on a disk, and two blocks.
#[derive(Drop)]
struct Given {
    slots: Slots,
    disk: MemoryDisk,
    first: Prepared,
    second: Prepared,
}

/// Each of the blocks is full of a byte, and of the disk's calls these fail.
fn set_up(alloc: Global, area: Area, bytes: [u8; 2], fail: &[u64]) -> Option<Given> {
    let first = filled(alloc, bytes[0])?;
    let second = filled(alloc, bytes[1])?;
    let disk = failing(alloc, fail).ok()?;
    Some(Given {
        slots: Slots::new(alloc, area),
        disk,
        first,
        second,
    })
}

fn prepared(bytes: Vec<u8>) -> Option<Prepared> {
    Prepared::new(bytes).ok()
}

fn filled(alloc: Global, byte: u8) -> Option<Prepared> {
    prepared(vec![in alloc; byte; 524288].ok()?)
}

/// Stages a block and gives it to a key that is new.
fn put<D: Disk>(slots: &mut Slots, disk: &mut D, key: u64, block: &Prepared) -> bool {
    if slots.slot_of(key).is_some() {
        return false;
    }
    match slots.stage(disk, block) {
        Ok(lease) => {
            slots.adopt(lease, key);
            true
        }
        Err(_) => false,
    }
}

/// Stages a block to this slot and gives it up.
fn stage_in_vain<D: Disk>(slots: &mut Slots, disk: &mut D, block: &Prepared, want: u64) -> bool {
    match slots.stage(disk, block) {
        Ok(lease) => {
            let (leased, slot, digest) = (slots.leased(), lease.slot(), lease.digest());
            slots.abandon(lease);
            leased == 1 && slot == want && digest == block.digest()
        }
        Err(_) => false,
    }
}

/// What a read of a key answers: the bytes of the block, other ones, or none.
#[derive(Clone, Copy)]
enum Told {
    Same,
    Other,
    Refused(ReadRefusal),
}

fn told_of(bytes: Bytes, block: &Prepared) -> Told {
    let same = bytes.as_slice() == block.bytes();
    drop(bytes);
    if same { Told::Same } else { Told::Other }
}

/// What a read of the key answers, where it has a slot.
fn read<D: Disk>(slots: &Slots, disk: &mut D, key: u64, block: &Prepared) -> Option<Told> {
    if slots.slot_of(key).is_none() {
        return None;
    }
    match slots.read(disk, key, block.digest()) {
        Ok(bytes) => Some(told_of(bytes, block)),
        Err(refusal) => Some(Told::Refused(refusal)),
    }
}

fn reads<D: Disk>(slots: &Slots, disk: &mut D, key: u64, block: &Prepared) -> bool {
    matches!(read(slots, disk, key, block), Some(Told::Same))
}

/// Whether the read of a key is refused for this.
fn is_refused<D: Disk>(
    slots: &Slots,
    disk: &mut D,
    key: u64,
    block: &Prepared,
    want: ReadRefusal,
) -> bool {
    match read(slots, disk, key, block) {
        Some(Told::Refused(refusal)) => refusal == want,
        Some(Told::Same | Told::Other) | None => false,
    }
}

/// The digest of what is fetched for the key, where it has a slot.
fn fetched<D: Disk>(slots: &Slots, disk: &mut D, key: u64) -> Option<[u8; 32]> {
    if slots.slot_of(key).is_none() {
        return None;
    }
    match slots.fetch(disk, key) {
        Ok(block) => {
            let digest = block.digest();
            drop(block);
            Some(digest)
        }
        Err(_) => None,
    }
}

/// Whether the two blocks have the first two slots, and nothing else is kept.
fn are_counted(slots: &Slots) -> bool {
    let slots_so = slots.slot_of(7) == Some(0) && slots.slot_of(5) == Some(1);
    let counts_so = slots.used() == 2 && slots.leased() == 0 && slots.top() == 2;
    let free = !slots.is_free(0) && !slots.is_free(1) && slots.is_free(2);
    slots_so && counts_so && free
}

fn round_trip(given: &mut Given) -> bool {
    let put = put(&mut given.slots, &mut given.disk, 7, &given.first)
        && stage_in_vain(&mut given.slots, &mut given.disk, &given.first, 1)
        && put(&mut given.slots, &mut given.disk, 5, &given.second);
    let found = reads(&given.slots, &mut given.disk, 7, &given.first)
        && reads(&given.slots, &mut given.disk, 5, &given.second)
        && fetched(&given.slots, &mut given.disk, 5) == Some(given.second.digest());
    let end = given.disk.end(Area::Blocks) == 1048576;
    put && found && are_counted(&given.slots) && end
}

#[test]
fn blocks_are_read_as_they_were_put(rt: HostRuntime) -> Result<(), Fail> {
    let mut given = set_up(rt.alloc(), Area::Blocks, [1, 2], &[]).ok_or(AllocError)?;
    let found = round_trip(&mut given);
    drop(given);
    assert!(rt; found);
    Ok(())
}

/// The byte at a place of the archive.
fn byte_at(disk: &mut MemoryDisk, place: u32) -> Option<u8> {
    let mut room = [0u8; 1];
    match disk.read(Area::Archive, place as u64, &mut room) {
        Ok(()) => Some(room[0]),
        Err(_) => None,
    }
}

fn has_bytes(disk: &mut MemoryDisk, bytes: &[(u32, u8)]) -> bool {
    for (place, byte) in bytes {
        if byte_at(disk, *place) != Some(*byte) {
            return false;
        }
    }
    true
}

/// The mark, and the ends of the block behind it.
const BESIDE: [(u32, u8); 3] = [(0, 7), (1, 0), (524287, 0)];

/// The ends of both blocks.
const PLACED: [(u32, u8); 4] = [(524288, 1), (1048575, 1), (1048576, 2), (1572863, 2)];

fn are_placed(slots: &Slots) -> bool {
    slots.slot_of(7) == Some(0) && slots.slot_of(5) == Some(1)
}

fn write_mark(disk: &mut MemoryDisk) -> bool {
    disk.write(Area::Archive, 0, &[7]).is_ok()
}

/// Whether the mark is left where it was, with the first slot one block behind it.
fn stand_behind_the_mark(given: &mut Given) -> bool {
    let put = write_mark(&mut given.disk)
        && put(&mut given.slots, &mut given.disk, 7, &given.first)
        && put(&mut given.slots, &mut given.disk, 5, &given.second);
    let found = are_placed(&given.slots)
        && reads(&given.slots, &mut given.disk, 7, &given.first)
        && reads(&given.slots, &mut given.disk, 5, &given.second);
    let bytes = has_bytes(&mut given.disk, &BESIDE) && has_bytes(&mut given.disk, &PLACED);
    put && found && bytes && given.disk.end(Area::Archive) == 1572864
}

#[test]
fn slots_of_the_archive_begin_behind_the_mark(rt: HostRuntime) -> Result<(), Fail> {
    let mut given = set_up(rt.alloc(), Area::Archive, [1, 2], &[]).ok_or(AllocError)?;
    let stand = stand_behind_the_mark(&mut given);
    drop(given);
    assert!(rt; stand);
    Ok(())
}

/// What is done to slots.
#[derive(Clone, Copy)]
enum Step {
    /// A block is put for a new key, into this slot.
    Put(u64, u64),
    /// A block is staged to this slot and given up.
    InVain(u64),
    /// A block isn't staged, since the disk fails.
    Fail,
    Retain(u64),
    Release(u64),
    Forget(u64),
}

fn fails_to_stage<D: Disk>(slots: &mut Slots, disk: &mut D, block: &Prepared) -> bool {
    match slots.stage(disk, block) {
        Ok(lease) => {
            slots.abandon(lease);
            false
        }
        Err(refusal) => refusal == StageRefusal::DiskFailed,
    }
}

fn put_into(given: &mut Given, key: u64, slot: u64) -> bool {
    put(&mut given.slots, &mut given.disk, key, &given.first)
        && given.slots.slot_of(key) == Some(slot)
        && given.slots.count(key) == 1
}

fn retain(slots: &mut Slots, key: u64) -> bool {
    if slots.slot_of(key).is_none() || slots.count(key) > 1000 {
        return false;
    }
    slots.retain(key);
    true
}

fn release(slots: &mut Slots, key: u64) -> bool {
    if slots.slot_of(key).is_none() {
        return false;
    }
    slots.release(key);
    true
}

fn forget(slots: &mut Slots, key: u64) -> bool {
    match slots.slot_of(key) {
        Some(slot) => {
            slots.forget(key, slot);
            true
        }
        None => false,
    }
}

fn take_step(given: &mut Given, step: Step) -> bool {
    match step {
        Step::Put(key, slot) => put_into(given, key, slot),
        Step::InVain(slot) => {
            stage_in_vain(&mut given.slots, &mut given.disk, &given.first, slot)
        }
        Step::Fail => fails_to_stage(&mut given.slots, &mut given.disk, &given.first),
        Step::Retain(key) => retain(&mut given.slots, key),
        Step::Release(key) => release(&mut given.slots, key),
        Step::Forget(key) => forget(&mut given.slots, key),
    }
}

fn take_steps(given: &mut Given, steps: &[Step]) -> bool {
    for step in steps {
        if !take_step(given, *step) {
            return false;
        }
    }
    true
}

/// Whether the steps can be taken where this call of the disk fails.
fn plays(alloc: Global, fail: u64, steps: &[Step]) -> Option<bool> {
    let mut given = set_up(alloc, Area::Blocks, [1, 2], &[fail])?;
    let taken = take_steps(&mut given, steps);
    drop(given);
    Some(taken)
}

fn assert_played(rt: &impl Abort, alloc: Global, cases: &[(u64, &[Step])]) {
    for (fail, steps) in cases {
        assert!(rt; plays(alloc, *fail, steps) == Some(true));
    }
}

/// No case makes so many calls of a disk.
const NEVER: u64 = 99;

/// A block isn't staged to a slot below the top, and then one is.
const FAILED: &[Step] = &[
    Step::Put(0, 0),
    Step::Put(1, 1),
    Step::Forget(0),
    Step::Fail,
    Step::Put(2, 0),
    Step::Put(3, 2),
];

/// A lease is given up, a key is, its last entry is, or a write or a sync failed.
const GIVEN_UP: [(u64, &[Step]); 5] = [
    (
        NEVER,
        &[
            Step::Put(0, 0),
            Step::InVain(1),
            Step::Put(1, 1),
            Step::Put(2, 2),
        ],
    ),
    (
        NEVER,
        &[
            Step::Put(0, 0),
            Step::Put(1, 1),
            Step::Forget(0),
            Step::Put(2, 0),
            Step::Put(3, 2),
        ],
    ),
    (
        NEVER,
        &[
            Step::Put(0, 0),
            Step::Retain(0),
            Step::Release(0),
            Step::Put(1, 1),
            Step::Release(0),
            Step::Put(2, 0),
            Step::Put(3, 2),
        ],
    ),
    (4, FAILED),
    (5, FAILED),
];

#[test]
fn a_slot_that_was_given_up_is_taken_again(rt: HostRuntime) {
    assert_played(&rt, rt.alloc(), &GIVEN_UP);
}

/// Of two slots the one that was given up later is taken first.
const IN_TURN: [(u64, &[Step]); 2] = [
    (
        NEVER,
        &[
            Step::Put(0, 0),
            Step::Put(1, 1),
            Step::Put(2, 2),
            Step::Forget(0),
            Step::Release(2),
            Step::Put(3, 2),
            Step::Put(4, 0),
            Step::Put(5, 3),
        ],
    ),
    (
        NEVER,
        &[
            Step::Put(0, 0),
            Step::Put(1, 1),
            Step::Put(2, 2),
            Step::Forget(2),
            Step::Release(0),
            Step::Put(3, 0),
            Step::Put(4, 2),
            Step::Put(5, 3),
        ],
    ),
];

#[test]
fn slots_are_taken_in_turn(rt: HostRuntime) {
    assert_played(&rt, rt.alloc(), &IN_TURN);
}

/// Whether a crash at a moment, which mustn't be to come, leaves the block.
fn crash_leaves(slots: &Slots, disk: &MemoryDisk, moment: u64, key: u64, block: &Prepared) -> bool {
    for pick in PICKS {
        if !pick_leaves(slots, disk, moment, pick, key, block) {
            return false;
        }
    }
    true
}

fn pick_leaves(
    slots: &Slots,
    disk: &MemoryDisk,
    moment: u64,
    pick: CrashPick,
    key: u64,
    block: &Prepared,
) -> bool {
    if moment > disk.moment() {
        return false;
    }
    match disk.crash(moment, pick) {
        Ok(mut left) => {
            let found = reads(slots, &mut left, key, block);
            drop(left);
            found
        }
        Err(_) => false,
    }
}

/// Whether the first block stands at each of the moments.
fn stands_from(given: &Given, first: u64, last: u64) -> bool {
    for moment in first..=last {
        if !crash_leaves(&given.slots, &given.disk, moment, 7, &given.first) {
            return false;
        }
    }
    true
}

/// Whether the second block stands after a crash at the moment.
fn second_stands(given: &Given, moment: u64) -> bool {
    crash_leaves(&given.slots, &given.disk, moment, 8, &given.second)
}

fn stands_at_each_moment(given: &mut Given) -> bool {
    let put_first = put(&mut given.slots, &mut given.disk, 7, &given.first);
    let acknowledged = given.disk.moment();
    let put_second = put(&mut given.slots, &mut given.disk, 8, &given.second);
    let last = given.disk.moment();
    put_first
        && put_second
        && acknowledged < last
        && stands_from(given, acknowledged, last)
        && second_stands(given, last)
        && !second_stands(given, acknowledged)
}

#[test]
fn a_block_stands_at_each_moment_of_a_later_staging(rt: HostRuntime) -> Result<(), Fail> {
    let mut given = set_up(rt.alloc(), Area::Blocks, [1, 2], &[]).ok_or(AllocError)?;
    let stands = stands_at_each_moment(&mut given);
    drop(given);
    assert!(rt; stands);
    Ok(())
}

/// Sets a byte of a block.
fn set_byte(bytes: &mut Vec<u8>, at: usize, byte: u8) -> Option<()> {
    *bytes.get_mut(at)? = byte;
    Some(())
}

/// The digest of a block of zeros, but for one byte.
fn digest_with(alloc: Global, at: usize, byte: u8) -> Option<[u8; 32]> {
    let mut bytes = vec![in alloc; 0u8; 524288].ok()?;
    set_byte(&mut bytes, at, byte)?;
    let block = prepared(bytes)?;
    let digest = block.digest();
    drop(block);
    Some(digest)
}

fn spoil(disk: &mut MemoryDisk, at: u64) -> bool {
    let within = at < disk.end(Area::Blocks);
    if within {
        disk.spoil(Area::Blocks, at);
    }
    within
}

fn spoiled(given: &mut Given, found: [u8; 32]) -> bool {
    let both = put(&mut given.slots, &mut given.disk, 1, &given.first)
        && put(&mut given.slots, &mut given.disk, 2, &given.second);
    let spoiled = both && spoil(&mut given.disk, 524365);
    let stored = given.second.digest();
    let want = ReadRefusal::Damaged { stored, found };
    spoiled
        && is_refused(&given.slots, &mut given.disk, 2, &given.second, want)
        && fetched(&given.slots, &mut given.disk, 2) == Some(found)
        && reads(&given.slots, &mut given.disk, 1, &given.first)
}

#[test]
fn a_spoiled_block_is_told_with_both_digests(rt: HostRuntime) -> Result<(), Fail> {
    let found = digest_with(rt.alloc(), 77, 255).ok_or(AllocError)?;
    let mut given = set_up(rt.alloc(), Area::Blocks, [0, 0], &[]).ok_or(AllocError)?;
    let told = spoiled(&mut given, found);
    drop(given);
    assert!(rt; told);
    Ok(())
}

/// How many of the puts and reads of two blocks fail the first time. None where one fails twice, or leaves something.
fn failures(given: &mut Given) -> Option<u8> {
    let mut failed = 0u8;
    for key in 0..2u64 {
        failed = failed.saturating_add(put_failures(given, key)?);
    }
    for key in 0..2u64 {
        failed = failed.saturating_add(read_failures(given, key)?);
    }
    Some(failed)
}

/// Whether the keys below this one alone have slots.
fn stands_at(slots: &Slots, key: u64) -> bool {
    slots.used() == key && slots.top() == key && slots.leased() == 0
}

fn put_failures(given: &mut Given, key: u64) -> Option<u8> {
    if put(&mut given.slots, &mut given.disk, key, &given.first) {
        return Some(0);
    }
    if !stands_at(&given.slots, key) {
        return None;
    }
    if put(&mut given.slots, &mut given.disk, key, &given.first) {
        return Some(1);
    }
    None
}

fn read_failures(given: &mut Given, key: u64) -> Option<u8> {
    if reads(&given.slots, &mut given.disk, key, &given.first) {
        return Some(0);
    }
    if reads(&given.slots, &mut given.disk, key, &given.first) {
        return Some(1);
    }
    None
}

/// The failures where this call of the disk fails.
fn failures_at(alloc: Global, call: u64) -> Option<u8> {
    let mut given = set_up(alloc, Area::Archive, [3, 3], &[call])?;
    let failed = failures(&mut given);
    drop(given);
    failed
}

fn assert_told_once(rt: &impl Abort, alloc: Global) {
    for call in 0..6u64 {
        assert!(rt; failures_at(alloc, call) == Some(1));
    }
}

#[test]
fn each_call_that_fails_is_told_once(rt: HostRuntime) {
    assert_told_once(&rt, rt.alloc());
    assert!(rt; failures_at(rt.alloc(), 6) == Some(0));
}

fn found_length(alloc: Global, length: usize) -> Option<u64> {
    let bytes = vec![in alloc; 0u8; length].ok()?;
    match Prepared::new(bytes) {
        Ok(block) => {
            drop(block);
            None
        }
        Err(wrong) => Some(wrong.found),
    }
}

fn assert_lengths(rt: &impl Abort, alloc: Global, lengths: &[u64]) {
    for length in lengths {
        assert!(rt; found_length(alloc, *length as usize) == Some(*length));
    }
}

#[test]
fn a_block_of_another_length_is_refused(rt: HostRuntime) {
    assert_lengths(&rt, rt.alloc(), &[0, 1, 524287, 524289]);
    assert!(rt; found_length(rt.alloc(), 524288) == None);
}
