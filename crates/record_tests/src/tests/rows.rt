//! A checkpoint at the limits of the rules, and what they say of it with one byte turned.
use ebs_checkpoints::{Checkpoint, read_checkpoint};
use ebs_records::Read;
use ebs_row_rules::{is_ordered, is_owned, is_stored, is_within};
use std::alloc::Global;
use std::test::Fail;

/// Account 1 has two tokens, an open upload, a volume's snapshot in the archive, a volume, two rules and a policy; account 2
/// has nothing. The bytes were made outside the program from the table of fields.
const POINT: [u8; 952] = [
    0, 0, 0, 16, 0, 0, 0, 0, 0, 0, 1, 0, 0, 0, 0, 0, 0, 0, 1, 0, 0, 0, 0, 0, 0, 0, 4, 0, 0, 0, 0,
    0, 0, 0, 0, 0, 0, 0, 0, 0, 0, 0, 0, 0, 0, 0, 0, 0, 0, 0, 0, 0, 0, 0, 0, 0, 0, 0, 0, 0, 0, 0, 0,
    0, 0, 0, 0, 2, 0, 0, 0, 0, 0, 0, 0, 1, 16, 0, 0, 0, 16, 0, 0, 0, 0, 0, 0, 2, 0, 0, 0, 1, 0, 0,
    0, 2, 0, 0, 0, 1, 33, 0, 0, 0, 16, 0, 0, 0, 0, 1, 0, 0, 0, 16, 0, 0, 0, 0, 0, 0, 0, 0, 0, 0, 0,
    1, 1, 0, 0, 0, 0, 0, 0, 64, 0, 0, 0, 0, 0, 0, 0, 1, 0, 0, 0, 1, 33, 0, 0, 0, 10, 15, 255, 255,
    255, 0, 0, 0, 1, 126, 0, 0, 0, 16, 0, 0, 0, 0, 1, 0, 0, 0, 16, 0, 0, 0, 0, 0, 0, 0, 0, 0, 0, 0,
    1, 15, 0, 1, 0, 0, 0, 0, 0, 0, 64, 0, 0, 0, 0, 0, 1, 0, 0, 0, 1, 126, 15, 255, 255, 255, 0, 0,
    0, 0, 0, 0, 0, 2, 0, 0, 0, 0, 0, 0, 0, 0, 0, 0, 0, 0, 0, 0, 0, 0, 0, 0, 0, 0, 0, 0, 0, 2, 0, 0,
    0, 0, 0, 0, 0, 1, 0, 0, 0, 0, 0, 0, 64, 0, 0, 0, 0, 0, 0, 0, 0, 0, 1, 0, 0, 0, 0, 0, 0, 0, 0,
    0, 0, 16, 0, 0, 0, 0, 0, 0, 16, 224, 0, 0, 0, 16, 0, 0, 0, 0, 0, 0, 0, 0, 2, 0, 0, 0, 0, 1,
    255, 255, 255, 0, 0, 0, 0, 0, 0, 0, 0, 0, 0, 0, 0, 0, 1, 0, 0, 0, 0, 0, 0, 0, 0, 0, 0, 0, 0, 0,
    0, 0, 0, 0, 0, 0, 1, 15, 255, 255, 255, 0, 0, 0, 1, 1, 0, 0, 0, 0, 0, 0, 0, 1, 0, 0, 0, 0, 0,
    1, 0, 0, 0, 0, 0, 0, 0, 1, 0, 0, 0, 0, 1, 0, 0, 0, 0, 0, 0, 0, 1, 0, 0, 0, 0, 0, 0, 0, 16, 0,
    0, 0, 0, 0, 0, 0, 0, 0, 0, 0, 16, 0, 0, 0, 0, 1, 0, 0, 0, 0, 1, 0, 0, 0, 1, 100, 0, 0, 0, 1, 0,
    0, 0, 1, 107, 0, 0, 0, 1, 118, 0, 0, 0, 2, 0, 0, 0, 0, 0, 0, 0, 2, 0, 0, 0, 0, 0, 0, 0, 3, 1,
    2, 0, 0, 0, 32, 0, 0, 0, 0, 0, 0, 0, 32, 0, 0, 0, 0, 2, 0, 0, 0, 32, 0, 0, 0, 0, 1, 0, 0, 0,
    32, 0, 0, 0, 0, 0, 0, 0, 0, 2, 0, 0, 0, 0, 0, 0, 3, 255, 255, 255, 255, 254, 0, 0, 0, 0, 0, 0,
    0, 5, 1, 1, 1, 1, 1, 1, 1, 1, 1, 1, 1, 1, 1, 1, 1, 1, 1, 1, 1, 1, 1, 1, 1, 1, 1, 1, 1, 1, 1, 1,
    1, 1, 1, 255, 255, 255, 0, 0, 3, 255, 255, 255, 255, 255, 0, 0, 0, 255, 255, 255, 255, 255, 2,
    2, 2, 2, 2, 2, 2, 2, 2, 2, 2, 2, 2, 2, 2, 2, 2, 2, 2, 2, 2, 2, 2, 2, 2, 2, 2, 2, 2, 2, 2, 2, 0,
    0, 0, 1, 0, 0, 0, 0, 0, 0, 0, 1, 15, 255, 255, 255, 0, 0, 64, 0, 1, 0, 0, 0, 0, 0, 0, 0, 1, 0,
    0, 0, 0, 0, 0, 0, 0, 0, 0, 0, 0, 0, 0, 0, 0, 1, 0, 0, 0, 2, 0, 0, 0, 0, 0, 0, 0, 1, 0, 0, 0, 0,
    0, 0, 1, 109, 0, 0, 0, 0, 0, 1, 0, 0, 0, 30, 0, 0, 0, 0, 0, 0, 0, 1, 0, 0, 0, 1, 0, 0, 0, 1, 0,
    0, 0, 0, 0, 2, 0, 0, 0, 32, 0, 0, 0, 0, 0, 0, 0, 1, 0, 0, 0, 0, 0, 0, 0, 1, 0, 0, 0, 0, 0, 0,
    0, 1, 0, 0, 0, 1, 107, 0, 0, 0, 1, 118, 0, 0, 0, 24, 0, 1, 81, 68, 0, 0, 0, 3, 232, 0, 0, 0, 0,
    0, 0, 0, 16, 0, 0, 0, 0, 0, 0, 0, 2, 0, 0, 0, 0, 0, 0, 0, 0, 0, 1, 0, 0, 0, 2, 0, 0, 0, 0, 0,
    0, 0, 0, 0, 0, 0, 5, 1, 1, 1, 1, 1, 1, 1, 1, 1, 1, 1, 1, 1, 1, 1, 1, 1, 1, 1, 1, 1, 1, 1, 1, 1,
    1, 1, 1, 1, 1, 1, 1, 1, 255, 255, 255, 0, 0, 0, 255, 255, 255, 255, 255, 2, 2, 2, 2, 2, 2, 2,
    2, 2, 2, 2, 2, 2, 2, 2, 2, 2, 2, 2, 2, 2, 2, 2, 2, 2, 2, 2, 2, 2, 2, 2, 2, 0, 0, 0, 0, 0, 0, 0,
    1, 0, 1, 0, 0, 0, 0, 0, 0, 0, 2, 0, 0, 0, 0, 0, 0, 0, 5, 0, 0, 7, 255, 255, 255, 255, 254, 0,
    0, 0, 255, 255, 255, 255, 255, 0, 0, 7, 255, 255, 255, 255, 255, 0, 0, 0, 2, 0, 0, 3, 255, 255,
    255, 255, 254, 0, 0, 7, 255, 255, 255, 255, 253, 0, 0, 3, 255, 255, 255, 255, 255, 0, 0, 7,
    255, 255, 255, 255, 254,
];

/// What each group of rules says.
#[derive(Clone, Copy)]
struct Judged {
    ordered: bool,
    owned: bool,
    within: bool,
    stored: bool,
}

/// What is said of the bytes, with another one at the place.
fn with_byte(alloc: Global, place: usize, byte: u8) -> Result<Option<Judged>, Fail> {
    let mut bytes = Vec::from_slice(alloc, &POINT)?;
    if place < bytes.len() {
        bytes[place] = byte;
    }
    match read_checkpoint(alloc, bytes.as_slice()) {
        Read::Value(point) => {
            let said = said_of(alloc, &point);
            drop(point);
            Ok(Some(said?))
        }
        Read::NoValue | Read::Memory => Ok(None),
    }
}

/// What is said of the checkpoint.
fn said_of(alloc: Global, point: &Checkpoint) -> Result<Judged, Fail> {
    let ordered = is_ordered(point);
    Ok(Judged {
        ordered,
        owned: ordered && is_owned(point),
        within: is_within(point),
        stored: is_stored(alloc, point)?,
    })
}

/// What is wrong with a checkpoint.
#[derive(Clone, Copy)]
enum Fault {
    Order,
    Owner,
    Limit,
    Slot,
}

fn has_fault(found: Judged, fault: Fault) -> bool {
    match fault {
        Fault::Order => !found.ordered,
        Fault::Owner => found.ordered && !found.owned,
        Fault::Limit => found.ordered && !found.within,
        Fault::Slot => found.ordered && !found.stored,
    }
}

/// Whether each is a checkpoint with that fault.
fn have_fault(alloc: Global, fault: Fault, cases: &[(usize, u8)]) -> Result<bool, Fail> {
    for (place, byte) in cases {
        match with_byte(alloc, *place, *byte)? {
            Some(found) => {
                if !has_fault(found, fault) {
                    return Ok(false);
                }
            }
            None => return Err(Fail::new("no checkpoint")),
        }
    }
    Ok(true)
}

#[test]
fn a_checkpoint_at_the_limits(rt: HostRuntime) -> Result<(), Fail> {
    let Some(found) = with_byte(rt.alloc(), POINT.len(), 0)? else {
        return Err(Fail::new("no checkpoint"));
    };
    assert!(rt; found.ordered && found.owned && found.within && found.stored);
    Ok(())
}

#[test]
fn lists_that_do_not_ascend(rt: HostRuntime) -> Result<(), Fail> {
    let cases: [(usize, u8); 11] = [
        // two accounts, and two tokens of one
        (75, 2),
        (100, 126),
        // snapshots, rules and nodes that fall, or of one key
        (249, 2),
        (660, 1),
        (771, 1),
        // indexes that were put, accounts that it is shared with, copies and entries
        (299, 2),
        (445, 3),
        (495, 2),
        (778, 2),
        // slots of blocks and of copies
        (884, 1),
        (920, 1),
    ];
    assert!(rt; have_fault(rt.alloc(), Fault::Order, &cases)?);
    Ok(())
}

#[test]
fn rows_that_nobody_made(rt: HostRuntime) -> Result<(), Fail> {
    let cases: [(usize, u8); 11] = [
        // a snapshot, a volume, a rule and a policy at the next number
        (76, 0),
        (80, 0),
        (87, 1),
        (91, 0),
        // an account that is not listed, and one that made none
        (716, 3),
        (716, 2),
        // a volume and a policy of another account
        (371, 2),
        (384, 2),
        // a token of another moment, of another account, and of another text
        (117, 1),
        (125, 2),
        (146, 34),
    ];
    assert!(rt; have_fault(rt.alloc(), Fault::Owner, &cases)?);
    Ok(())
}

#[test]
fn numbers_out_of_their_limits(rt: HostRuntime) -> Result<(), Fail> {
    let cases: [(usize, u8); 29] = [
        // the clock, the accepted changes and a counter
        (7, 1),
        (15, 1),
        (79, 1),
        // the bytes of tokens, a moment of one, and the size and the timeout of its call
        (100, 32),
        (159, 127),
        (108, 1),
        (134, 1),
        (150, 9),
        // sizes, timeouts, moments and an index of snapshots
        (257, 1),
        (348, 0),
        (285, 225),
        (400, 10),
        (281, 1),
        (293, 1),
        (303, 2),
        // the ends of a lock, of its cool-off, of a restore and of a stay in the bin
        (463, 1),
        (471, 1),
        (480, 1),
        (489, 1),
        // the index of a copy and the size of a volume
        (547, 2),
        (618, 1),
        // the days, the delay and the end of rules
        (664, 110),
        (674, 31),
        (704, 1),
        // the hours, the time of day, the retention and the last run of a policy
        (738, 5),
        (742, 69),
        (747, 233),
        (759, 1),
        // the index of an entry
        (822, 2),
    ];
    assert!(rt; have_fault(rt.alloc(), Fault::Limit, &cases)?);
    Ok(())
}

#[test]
fn blocks_without_slots(rt: HostRuntime) -> Result<(), Fail> {
    let cases: [(usize, u8); 13] = [
        // a next stamp above the accepted changes, one that is no more than a stamp, and the same of copies
        (23, 1),
        (18, 0),
        (31, 1),
        (26, 3),
        // two digests of one stamp, a stamp without a slot, and a slot without a stamp
        (515, 9),
        (789, 6),
        (891, 4),
        // a number that two copies have, and a copy without a slot
        (506, 255),
        (927, 253),
        // two blocks and two copies in one slot, and slots that end above byte 2^62
        (899, 255),
        (935, 254),
        (910, 8),
        (951, 255),
    ];
    assert!(rt; have_fault(rt.alloc(), Fault::Slot, &cases)?);
    Ok(())
}
