//! Records as bytes, which were made outside the program from the table of fields.
use ebs_model::{Bytes, Moment};
use ebs_records::{Read, read_record, write_advance, write_record};
use std::alloc::Global;
use std::test::Fail;

/// A start of 1 GiB by account 1 at 1000, with a timeout of 60 minutes and nothing else.
const START: [u8; 37] = [
    1, 0, 0, 0, 0, 0, 0, 3, 232, 0, 0, 0, 0, 0, 0, 0, 1, 1, 0, 0, 0, 0, 0, 0, 0, 1, 0, 0, 0, 0, 0,
    0, 0, 0, 0, 0, 60,
];

/// A start of 16384 GiB by account 2, with a parent, a description, a tag, a client token and 4320 minutes.
const WHOLE_START: [u8; 72] = [
    1, 0, 0, 0, 0, 0, 0, 3, 232, 0, 0, 0, 0, 0, 0, 0, 2, 1, 0, 0, 0, 0, 0, 0, 64, 0, 1, 0, 0, 0, 0,
    0, 0, 0, 1, 0, 0, 0, 3, 1, 0, 0, 0, 2, 104, 105, 0, 0, 0, 1, 0, 0, 0, 3, 101, 110, 118, 0, 0,
    0, 0, 1, 0, 0, 0, 2, 116, 49, 0, 0, 16, 224,
];

/// A put at index 7, whose bytes stand in slot 9.
const PUT: [u8; 78] = [
    1, 0, 0, 0, 0, 0, 0, 5, 220, 0, 0, 0, 0, 0, 0, 0, 1, 2, 0, 0, 0, 0, 0, 0, 0, 1, 0, 0, 0, 0, 0,
    0, 0, 0, 0, 0, 0, 7, 0, 1, 2, 3, 4, 5, 6, 7, 8, 9, 10, 11, 12, 13, 14, 15, 16, 17, 18, 19, 20,
    21, 22, 23, 24, 25, 26, 27, 28, 29, 30, 31, 0, 0, 0, 0, 0, 0, 0, 9,
];

/// The end of an upload of one block, with a checksum.
const COMPLETE: [u8; 71] = [
    1, 0, 0, 0, 0, 0, 0, 6, 64, 0, 0, 0, 0, 0, 0, 0, 1, 3, 0, 0, 0, 0, 0, 0, 0, 1, 0, 0, 0, 0, 0,
    0, 0, 0, 0, 0, 0, 1, 1, 0, 1, 2, 3, 4, 5, 6, 7, 8, 9, 10, 11, 12, 13, 14, 15, 16, 17, 18, 19,
    20, 21, 22, 23, 24, 25, 26, 27, 28, 29, 30, 31,
];

/// Account 1 shares a snapshot with the accounts 2 and 999999999999, and takes back from 3, 4 and from everybody.
const PERMISSION: [u8; 72] = [
    1, 0, 0, 0, 0, 0, 0, 7, 208, 0, 0, 0, 0, 0, 0, 0, 1, 10, 0, 0, 0, 0, 0, 0, 0, 1, 0, 0, 0, 0, 0,
    0, 0, 2, 0, 0, 0, 0, 0, 0, 0, 2, 0, 0, 0, 232, 212, 165, 15, 255, 0, 0, 0, 0, 2, 0, 0, 0, 0, 0,
    0, 0, 3, 0, 0, 0, 0, 0, 0, 0, 4, 1,
];

/// Account 1 deletes its snapshot 0.
const DELETE: [u8; 30] = [
    1, 0, 0, 0, 0, 0, 0, 7, 208, 0, 0, 0, 0, 0, 0, 0, 1, 9, 0, 0, 0, 0, 0, 0, 0, 1, 0, 0, 0, 0,
];

/// Account 1 locks its snapshot 0 in compliance for 36500 days, with 72 hours to cool off.
const LOCK: [u8; 41] = [
    1, 0, 0, 0, 0, 0, 0, 7, 208, 0, 0, 0, 0, 0, 0, 0, 1, 11, 0, 0, 0, 0, 0, 0, 0, 1, 0, 0, 0, 0, 1,
    0, 0, 0, 142, 148, 1, 0, 0, 0, 72,
];

/// Account 1 locks its snapshot 0 in governance until 90000.
const LOCK_TO_A_DATE: [u8; 41] = [
    1, 0, 0, 0, 0, 0, 0, 7, 208, 0, 0, 0, 0, 0, 0, 0, 1, 11, 0, 0, 0, 0, 0, 0, 0, 1, 0, 0, 0, 0, 0,
    1, 0, 0, 0, 0, 0, 1, 95, 144, 0,
];

/// Account 1 takes the lock of its snapshot 0 off.
const UNLOCK: [u8; 30] = [
    1, 0, 0, 0, 0, 0, 0, 7, 208, 0, 0, 0, 0, 0, 0, 0, 1, 12, 0, 0, 0, 0, 0, 0, 0, 1, 0, 0, 0, 0,
];

/// Account 1 archives its snapshot 0.
const ARCHIVE: [u8; 30] = [
    1, 0, 0, 0, 0, 0, 0, 7, 208, 0, 0, 0, 0, 0, 0, 0, 1, 13, 0, 0, 0, 0, 0, 0, 0, 1, 0, 0, 0, 0,
];

/// Account 1 restores its snapshot 0 for 180 days.
const RESTORE: [u8; 35] = [
    1, 0, 0, 0, 0, 0, 0, 7, 208, 0, 0, 0, 0, 0, 0, 0, 1, 14, 0, 0, 0, 0, 0, 0, 0, 1, 0, 0, 0, 0, 1,
    0, 0, 0, 180,
];

/// Account 1 restores its snapshot 0 for good.
const RESTORE_FOR_GOOD: [u8; 31] = [
    1, 0, 0, 0, 0, 0, 0, 7, 208, 0, 0, 0, 0, 0, 0, 0, 1, 14, 0, 0, 0, 0, 0, 0, 0, 1, 0, 0, 0, 0, 0,
];

/// Account 1 creates a volume of 5 GiB from its snapshot 0, with a tag and a client token.
const CREATE_VOLUME: [u8; 63] = [
    1, 0, 0, 0, 0, 0, 0, 7, 208, 0, 0, 0, 0, 0, 0, 0, 1, 15, 1, 0, 0, 0, 0, 0, 0, 0, 1, 0, 0, 0, 0,
    1, 0, 0, 0, 0, 0, 0, 0, 5, 0, 0, 0, 1, 0, 0, 0, 3, 101, 110, 118, 0, 0, 0, 1, 120, 1, 0, 0, 0,
    2, 116, 49,
];

/// Account 1 creates an empty volume of 16384 GiB.
const EMPTY_VOLUME: [u8; 33] = [
    1, 0, 0, 0, 0, 0, 0, 7, 208, 0, 0, 0, 0, 0, 0, 0, 1, 15, 0, 1, 0, 0, 0, 0, 0, 0, 64, 0, 0, 0,
    0, 0, 0,
];

/// Account 1 makes a snapshot of its volume 0, with a description and a tag.
const CREATE_SNAPSHOT: [u8; 53] = [
    1, 0, 0, 0, 0, 0, 0, 7, 208, 0, 0, 0, 0, 0, 0, 0, 1, 16, 0, 0, 0, 0, 0, 0, 0, 1, 0, 0, 0, 0, 1,
    0, 0, 0, 2, 104, 105, 0, 0, 0, 1, 0, 0, 0, 3, 101, 110, 118, 0, 0, 0, 1, 120,
];

/// Account 1 makes a snapshot of its volume 0, with nothing else.
const BARE_SNAPSHOT: [u8; 35] = [
    1, 0, 0, 0, 0, 0, 0, 7, 208, 0, 0, 0, 0, 0, 0, 0, 1, 16, 0, 0, 0, 0, 0, 0, 0, 1, 0, 0, 0, 0, 0,
    0, 0, 0, 0,
];

/// Account 1 writes the last block of its volume 0 of 16384 GiB, whose bytes stand in slot 9.
const WRITE: [u8; 78] = [
    1, 0, 0, 0, 0, 0, 0, 7, 208, 0, 0, 0, 0, 0, 0, 0, 1, 17, 0, 0, 0, 0, 0, 0, 0, 1, 0, 0, 0, 0, 0,
    0, 0, 0, 1, 255, 255, 255, 0, 1, 2, 3, 4, 5, 6, 7, 8, 9, 10, 11, 12, 13, 14, 15, 16, 17, 18,
    19, 20, 21, 22, 23, 24, 25, 26, 27, 28, 29, 30, 31, 0, 0, 0, 0, 0, 0, 0, 9,
];

/// Account 1 deletes its volume 0.
const DELETE_VOLUME: [u8; 30] = [
    1, 0, 0, 0, 0, 0, 0, 7, 208, 0, 0, 0, 0, 0, 0, 0, 1, 20, 0, 0, 0, 0, 0, 0, 0, 1, 0, 0, 0, 0,
];

/// Account 1 creates a rule of 7 days for all of its snapshots.
const CREATE_RULE: [u8; 28] = [
    1, 0, 0, 0, 0, 0, 0, 3, 232, 0, 0, 0, 0, 0, 0, 0, 1, 21, 0, 0, 0, 7, 0, 0, 0, 0, 0, 0,
];

/// Account 1 creates a rule of 365 days for all of its snapshots, with a description, and locked with a delay of 30 days.
const LOCKED_RULE: [u8; 38] = [
    1, 0, 0, 0, 0, 0, 0, 7, 208, 0, 0, 0, 0, 0, 0, 0, 1, 21, 0, 0, 1, 109, 0, 0, 0, 0, 1, 0, 0, 0,
    2, 104, 105, 1, 0, 0, 0, 30,
];

/// Account 1 creates a rule of 1 day for two tags, the first with any value.
const TAGGED_RULE: [u8; 49] = [
    1, 0, 0, 0, 0, 0, 0, 7, 208, 0, 0, 0, 0, 0, 0, 0, 1, 21, 0, 0, 0, 1, 0, 0, 0, 2, 0, 0, 0, 3,
    101, 110, 118, 0, 0, 0, 0, 3, 101, 110, 120, 1, 0, 0, 0, 1, 120, 0, 0,
];

/// Account 1 gives its rule 0 other days, 30 of them, a tag and a description.
const UPDATE_RULE: [u8; 60] = [
    1, 0, 0, 0, 0, 0, 0, 7, 208, 0, 0, 0, 0, 0, 0, 0, 1, 23, 0, 0, 0, 0, 0, 0, 0, 1, 0, 0, 0, 0, 1,
    0, 0, 0, 30, 1, 0, 0, 0, 1, 0, 0, 0, 3, 101, 110, 118, 1, 0, 0, 0, 1, 120, 1, 0, 0, 0, 2, 104,
    105,
];

/// Account 1 gives its rule 0 nothing.
const BARE_UPDATE: [u8; 33] = [
    1, 0, 0, 0, 0, 0, 0, 7, 208, 0, 0, 0, 0, 0, 0, 0, 1, 23, 0, 0, 0, 0, 0, 0, 0, 1, 0, 0, 0, 0, 0,
    0, 0,
];

/// Account 1 takes the tags of its rule 0 away.
const UNTAGGED_RULE: [u8; 37] = [
    1, 0, 0, 0, 0, 0, 0, 7, 208, 0, 0, 0, 0, 0, 0, 0, 1, 23, 0, 0, 0, 0, 0, 0, 0, 1, 0, 0, 0, 0, 0,
    1, 0, 0, 0, 0, 0,
];

/// Account 1 deletes its rule 0.
const DELETE_RULE: [u8; 30] = [
    1, 0, 0, 0, 0, 0, 0, 7, 208, 0, 0, 0, 0, 0, 0, 0, 1, 24, 0, 0, 0, 0, 0, 0, 0, 1, 0, 0, 0, 0,
];

/// Account 1 locks its rule 0 with a delay of 7 days.
const LOCK_RULE: [u8; 34] = [
    1, 0, 0, 0, 0, 0, 0, 7, 208, 0, 0, 0, 0, 0, 0, 0, 1, 26, 0, 0, 0, 0, 0, 0, 0, 1, 0, 0, 0, 0, 0,
    0, 0, 7,
];

/// Account 1 unlocks its rule 0.
const UNLOCK_RULE: [u8; 30] = [
    1, 0, 0, 0, 0, 0, 0, 7, 208, 0, 0, 0, 0, 0, 0, 0, 1, 27, 0, 0, 0, 0, 0, 0, 0, 1, 0, 0, 0, 0,
];

/// Account 1 restores its snapshot 0 from the bin.
const RECOVER: [u8; 30] = [
    1, 0, 0, 0, 0, 0, 0, 7, 208, 0, 0, 0, 0, 0, 0, 0, 1, 29, 0, 0, 0, 0, 0, 0, 0, 1, 0, 0, 0, 0,
];

/// Account 1 creates a policy that runs daily at 03:00 for volumes with one tag, and keeps 3 snapshots of each.
const CREATE_POLICY: [u8; 51] = [
    1, 0, 0, 0, 0, 0, 0, 7, 208, 0, 0, 0, 0, 0, 0, 0, 1, 30, 0, 0, 0, 1, 0, 0, 0, 3, 101, 110, 118,
    0, 0, 0, 1, 120, 0, 0, 0, 24, 0, 0, 42, 48, 0, 0, 0, 0, 3, 0, 0, 0, 0,
];

/// Account 1 creates a policy that runs twice a day from midnight, keeps snapshots for a month and tags them.
const TAGGING_POLICY: [u8; 62] = [
    1, 0, 0, 0, 0, 0, 0, 7, 208, 0, 0, 0, 0, 0, 0, 0, 1, 30, 0, 0, 0, 1, 0, 0, 0, 3, 101, 110, 118,
    0, 0, 0, 1, 120, 0, 0, 0, 12, 0, 0, 0, 0, 3, 0, 0, 0, 1, 0, 0, 0, 1, 0, 0, 0, 2, 98, 121, 0, 0,
    0, 1, 112,
];

/// Account 1 deletes its policy 0.
const DELETE_POLICY: [u8; 30] = [
    1, 0, 0, 0, 0, 0, 0, 7, 208, 0, 0, 0, 0, 0, 0, 0, 1, 32, 0, 0, 0, 0, 0, 0, 0, 1, 0, 0, 0, 0,
];

/// Account 1 runs its policy 0.
const RUN_POLICY: [u8; 30] = [
    1, 0, 0, 0, 0, 0, 0, 7, 208, 0, 0, 0, 0, 0, 0, 0, 1, 33, 0, 0, 0, 0, 0, 0, 0, 1, 0, 0, 0, 0,
];

/// The advance to 1000.
const ADVANCE: [u8; 9] = [2, 0, 0, 0, 0, 0, 0, 3, 232];

/// The move of block 7 to the archive, as copy 5 in slot 9.
const MOVED: [u8; 34] = [
    3, 0, 0, 0, 0, 0, 0, 0, 1, 0, 0, 0, 0, 0, 0, 0, 7, 1, 0, 0, 0, 0, 0, 0, 0, 5, 0, 0, 0, 0, 0, 0,
    0, 9,
];

/// The same in the last slot of the archive, 2^43 - 2, which ends at byte 2^62.
const MOVED_TO_THE_END: [u8; 34] = [
    3, 0, 0, 0, 0, 0, 0, 0, 1, 0, 0, 0, 0, 0, 0, 0, 7, 1, 0, 0, 0, 0, 0, 0, 0, 5, 0, 0, 7, 255,
    255, 255, 255, 254,
];

/// The move of copy 5 back to block 7, in the last slot of the area of blocks, 2^43 - 1, which ends there too.
const MOVED_BACK: [u8; 34] = [
    3, 0, 0, 0, 0, 0, 0, 0, 1, 0, 0, 0, 0, 0, 0, 0, 7, 0, 0, 0, 0, 0, 0, 0, 0, 5, 0, 0, 7, 255,
    255, 255, 255, 255,
];

/// Whether the bytes are a record that is written so again.
fn comes_back(alloc: Global, bytes: &[u8]) -> Result<bool, Fail> {
    match read_record(alloc, bytes) {
        Read::Value(found) => {
            let written = write_record(alloc, &found);
            drop(found);
            Ok(written?.as_slice() == bytes)
        }
        Read::NoValue | Read::Memory => Ok(false),
    }
}

/// Whether each of them is a record that is written so again.
fn come_back(alloc: Global, records: &[&[u8]]) -> Result<bool, Fail> {
    for record in records {
        if !comes_back(alloc, record)? {
            return Ok(false);
        }
    }
    Ok(true)
}

/// Whether no record is spelled so, where the byte at the place is another.
fn is_none(alloc: Global, bytes: &[u8], place: usize, byte: u8) -> Result<bool, Fail> {
    let mut other = Vec::from_slice(alloc, bytes)?;
    if place < other.len() {
        other[place] = byte;
    } else {
        other.push(byte)?;
    }
    match read_record(alloc, other.as_slice()) {
        Read::NoValue => Ok(true),
        Read::Value(found) => {
            drop(found);
            Ok(false)
        }
        Read::Memory => Ok(false),
    }
}

/// Whether none of them is a record.
fn are_none(alloc: Global, cases: &[(&[u8], usize, u8)]) -> Result<bool, Fail> {
    for (bytes, place, byte) in cases {
        if !is_none(alloc, bytes, *place, *byte)? {
            return Ok(false);
        }
    }
    Ok(true)
}

#[test]
fn records_come_back(rt: HostRuntime) -> Result<(), Fail> {
    let records: [&[u8]; 36] = [
        &START,
        &WHOLE_START,
        &PUT,
        &COMPLETE,
        &PERMISSION,
        &DELETE,
        &LOCK,
        &LOCK_TO_A_DATE,
        &UNLOCK,
        &ARCHIVE,
        &RESTORE,
        &RESTORE_FOR_GOOD,
        &CREATE_VOLUME,
        &EMPTY_VOLUME,
        &CREATE_SNAPSHOT,
        &BARE_SNAPSHOT,
        &WRITE,
        &DELETE_VOLUME,
        &CREATE_RULE,
        &LOCKED_RULE,
        &TAGGED_RULE,
        &UPDATE_RULE,
        &BARE_UPDATE,
        &UNTAGGED_RULE,
        &DELETE_RULE,
        &LOCK_RULE,
        &UNLOCK_RULE,
        &RECOVER,
        &CREATE_POLICY,
        &TAGGING_POLICY,
        &DELETE_POLICY,
        &RUN_POLICY,
        &ADVANCE,
        &MOVED,
        &MOVED_TO_THE_END,
        &MOVED_BACK,
    ];
    assert!(rt; come_back(rt.alloc(), &records)?);
    Ok(())
}

#[test]
fn one_byte_makes_no_record(rt: HostRuntime) -> Result<(), Fail> {
    let cases: [(&[u8], usize, u8); 19] = [
        // a byte behind the last field, and another kind of record
        (&START, 37, 0),
        (&START, 0, 4),
        // a list's call, a size of 0, a parent that is neither there nor absent, and a timeout of 0
        (&START, 17, 4),
        (&START, 25, 0),
        (&START, 26, 2),
        (&START, 36, 0),
        // a size of 16385 and a timeout of 4321
        (&WHOLE_START, 25, 1),
        (&WHOLE_START, 71, 225),
        // a description that passes the end, and a client token with a blank
        (&WHOLE_START, 43, 200),
        (&WHOLE_START, 67, 32),
        // an index of 2^25 and more, and a slot that ends above byte 2^62
        (&PUT, 34, 2),
        (&PUT, 72, 8),
        // account 10^12 and more, one account twice, one that is added and removed, and all of them
        (&PERMISSION, 36, 1),
        (&PERMISSION, 70, 3),
        (&PERMISSION, 62, 2),
        (&PERMISSION, 50, 1),
        (&PERMISSION, 71, 2),
        // a moment after 2^36, and a move of another way
        (&ADVANCE, 4, 16),
        (&MOVED, 17, 2),
    ];
    assert!(rt; are_none(rt.alloc(), &cases)?);
    Ok(())
}

#[test]
fn one_byte_makes_no_move(rt: HostRuntime) -> Result<(), Fail> {
    let cases: [(&[u8], usize, u8); 6] = [
        // a byte behind the last field, an index of 2^25, and copy 2^42
        (&MOVED, 34, 0),
        (&MOVED, 13, 2),
        (&MOVED, 20, 4),
        // slots that end above byte 2^62: 2^43 - 1 of the archive, twice, and 2^44 - 1 of the area of blocks
        (&MOVED_TO_THE_END, 33, 255),
        (&MOVED_BACK, 17, 1),
        (&MOVED_BACK, 28, 15),
    ];
    assert!(rt; are_none(rt.alloc(), &cases)?);
    Ok(())
}

#[test]
fn one_byte_makes_no_lock_and_no_tier(rt: HostRuntime) -> Result<(), Fail> {
    let cases: [(&[u8], usize, u8); 18] = [
        // a byte behind the last field, and a key's number of 2^28
        (&DELETE, 30, 0),
        (&DELETE, 26, 16),
        (&LOCK, 41, 0),
        (&LOCK_TO_A_DATE, 41, 0),
        (&UNLOCK, 30, 0),
        (&ARCHIVE, 30, 0),
        (&RESTORE, 35, 0),
        (&RESTORE_FOR_GOOD, 31, 0),
        // a third mode, a third kind of term, 36501 days, and a cool-off that is neither there nor absent
        (&LOCK, 30, 2),
        (&LOCK, 31, 2),
        (&LOCK, 35, 149),
        (&LOCK, 36, 2),
        // a cool-off of 73 hours and of none, and one in governance
        (&LOCK, 40, 73),
        (&LOCK, 40, 0),
        (&LOCK, 30, 0),
        // 181 days and none, and days that aren't there
        (&RESTORE, 34, 181),
        (&RESTORE, 34, 0),
        (&RESTORE_FOR_GOOD, 30, 1),
    ];
    assert!(rt; are_none(rt.alloc(), &cases)?);
    Ok(())
}

#[test]
fn one_byte_makes_no_volume(rt: HostRuntime) -> Result<(), Fail> {
    let cases: [(&[u8], usize, u8); 11] = [
        // a byte behind the last field, and a key's number of 2^28
        (&CREATE_VOLUME, 63, 0),
        (&EMPTY_VOLUME, 33, 0),
        (&DELETE_VOLUME, 30, 0),
        (&DELETE_VOLUME, 26, 16),
        // an origin and a size that are neither there nor absent, a size of 0, of 16385 and none without an origin
        (&CREATE_VOLUME, 18, 2),
        (&CREATE_VOLUME, 31, 2),
        (&CREATE_VOLUME, 39, 0),
        (&EMPTY_VOLUME, 27, 1),
        (&EMPTY_VOLUME, 19, 0),
        // a client token with a blank, and a view
        (&CREATE_VOLUME, 61, 32),
        (&DELETE_VOLUME, 17, 19),
    ];
    assert!(rt; are_none(rt.alloc(), &cases)?);
    Ok(())
}

#[test]
fn one_byte_makes_no_snapshot_of_a_volume_and_no_write(rt: HostRuntime) -> Result<(), Fail> {
    let cases: [(&[u8], usize, u8); 13] = [
        // a byte behind the last field, and a key's number of 2^28
        (&CREATE_SNAPSHOT, 53, 0),
        (&BARE_SNAPSHOT, 35, 0),
        (&WRITE, 78, 0),
        (&BARE_SNAPSHOT, 26, 16),
        (&WRITE, 26, 16),
        // an account of 10^12 and more
        (&BARE_SNAPSHOT, 20, 1),
        (&WRITE, 20, 1),
        // a description that is neither there nor absent, one that passes the end, and a tag that isn't there
        (&CREATE_SNAPSHOT, 30, 2),
        (&CREATE_SNAPSHOT, 34, 200),
        (&BARE_SNAPSHOT, 34, 1),
        // an index of 2^25 and more, a slot that ends above byte 2^62, and a read
        (&WRITE, 34, 2),
        (&WRITE, 72, 8),
        (&WRITE, 17, 18),
    ];
    assert!(rt; are_none(rt.alloc(), &cases)?);
    Ok(())
}

#[test]
fn one_byte_makes_no_rule(rt: HostRuntime) -> Result<(), Fail> {
    let cases: [(&[u8], usize, u8); 20] = [
        // a byte behind the last field
        (&CREATE_RULE, 28, 0),
        (&UPDATE_RULE, 60, 0),
        (&DELETE_RULE, 30, 0),
        (&LOCK_RULE, 34, 0),
        (&UNLOCK_RULE, 30, 0),
        // retentions of no days and of 366
        (&CREATE_RULE, 21, 0),
        (&LOCKED_RULE, 21, 110),
        (&UPDATE_RULE, 34, 0),
        // counts of tags that pass the end, and one key twice
        (&CREATE_RULE, 25, 1),
        (&UPDATE_RULE, 39, 2),
        (&UNTAGGED_RULE, 35, 1),
        (&TAGGED_RULE, 40, 118),
        // a value, a description and a delay that are neither there nor absent
        (&TAGGED_RULE, 33, 2),
        (&CREATE_RULE, 26, 2),
        (&CREATE_RULE, 27, 2),
        // new tags that are neither there nor absent, and days that aren't there
        (&UNTAGGED_RULE, 31, 2),
        (&BARE_UPDATE, 30, 1),
        // delays of 31 days and of 6, and a number of a rule of 2^28
        (&LOCKED_RULE, 37, 31),
        (&LOCK_RULE, 33, 6),
        (&DELETE_RULE, 26, 16),
    ];
    assert!(rt; are_none(rt.alloc(), &cases)?);
    Ok(())
}

#[test]
fn one_byte_makes_no_way_out_of_the_bin(rt: HostRuntime) -> Result<(), Fail> {
    let cases: [(&[u8], usize, u8); 6] = [
        // a byte behind the last field, a number of 2^28, and an account of 10^12 and more
        (&RECOVER, 30, 0),
        (&RECOVER, 26, 16),
        (&RECOVER, 20, 1),
        // calls that read alone: a rule, the rules and the bin
        (&DELETE_RULE, 17, 22),
        (&DELETE_RULE, 17, 25),
        (&RECOVER, 17, 28),
    ];
    assert!(rt; are_none(rt.alloc(), &cases)?);
    Ok(())
}

#[test]
fn one_byte_makes_no_policy(rt: HostRuntime) -> Result<(), Fail> {
    let cases: [(&[u8], usize, u8); 17] = [
        // a byte behind the last field
        (&CREATE_POLICY, 51, 0),
        (&TAGGING_POLICY, 62, 0),
        (&DELETE_POLICY, 30, 0),
        (&RUN_POLICY, 30, 0),
        // no target, an interval of 5 hours, a second past a minute and one past the day
        (&CREATE_POLICY, 21, 0),
        (&CREATE_POLICY, 37, 5),
        (&CREATE_POLICY, 41, 49),
        (&CREATE_POLICY, 38, 1),
        // a sixth kind of retention, none kept, 1027 kept, and 1281 months
        (&CREATE_POLICY, 42, 5),
        (&CREATE_POLICY, 46, 0),
        (&CREATE_POLICY, 45, 4),
        (&TAGGING_POLICY, 45, 5),
        // a tag that isn't there, a number of 2^28, an account of 10^12 and more, and a view
        (&CREATE_POLICY, 50, 1),
        (&DELETE_POLICY, 26, 16),
        (&RUN_POLICY, 26, 16),
        (&RUN_POLICY, 20, 1),
        (&DELETE_POLICY, 17, 31),
    ];
    assert!(rt; are_none(rt.alloc(), &cases)?);
    Ok(())
}

#[test]
fn an_advance_is_written_without_memory(rt: HostRuntime) -> Result<(), Fail> {
    assert_eq!(rt; write_advance(Moment { second: 1000 }), ADVANCE);
    Ok(())
}
