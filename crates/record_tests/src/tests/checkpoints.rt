//! Checkpoints as bytes, which were made outside the program from the table of fields.
use ebs_checkpoints::{read_checkpoint, write_checkpoint};
use ebs_records::Read;
use std::alloc::Global;
use std::test::Fail;

/// Account 1 has two tokens, an open upload, a snapshot of a volume in the archive and in the bin, the volume, a rule and a policy;
/// account 2 has nothing.
const WHOLE: [u8; 989] = [
    0, 0, 0, 0, 0, 0, 7, 208, 0, 0, 0, 0, 0, 0, 0, 9, 0, 0, 0, 0, 0, 0, 0, 3, 0, 0, 0, 0, 0, 0, 0,
    1, 0, 1, 2, 3, 4, 5, 6, 7, 8, 9, 10, 11, 12, 13, 14, 15, 16, 17, 18, 19, 20, 21, 22, 23, 24,
    25, 26, 27, 28, 29, 30, 31, 0, 0, 0, 2, 0, 0, 0, 0, 0, 0, 0, 1, 0, 0, 0, 2, 0, 0, 0, 1, 0, 0,
    0, 1, 0, 0, 0, 1, 0, 0, 0, 2, 0, 0, 0, 2, 116, 49, 0, 0, 0, 0, 0, 0, 3, 232, 1, 0, 0, 0, 0, 0,
    0, 3, 232, 0, 0, 0, 0, 0, 0, 0, 1, 1, 0, 0, 0, 0, 0, 0, 0, 1, 0, 0, 0, 0, 0, 0, 1, 0, 0, 0, 2,
    116, 49, 0, 0, 0, 60, 0, 0, 0, 0, 0, 0, 0, 2, 116, 50, 0, 0, 0, 0, 0, 0, 3, 232, 1, 0, 0, 0, 0,
    0, 0, 3, 232, 0, 0, 0, 0, 0, 0, 0, 1, 1, 0, 0, 0, 0, 0, 0, 0, 1, 0, 0, 0, 0, 0, 0, 1, 0, 0, 0,
    2, 116, 50, 0, 0, 0, 60, 0, 0, 0, 1, 0, 0, 0, 0, 0, 0, 0, 2, 0, 0, 0, 0, 0, 0, 0, 0, 0, 0, 0,
    0, 0, 0, 0, 0, 0, 0, 0, 0, 0, 0, 0, 2, 0, 0, 0, 0, 0, 0, 0, 1, 0, 0, 0, 0, 0, 0, 0, 1, 0, 0, 0,
    0, 0, 0, 0, 0, 1, 0, 0, 0, 0, 0, 0, 0, 0, 0, 0, 0, 0, 0, 3, 232, 0, 0, 0, 60, 0, 0, 0, 0, 0, 0,
    5, 220, 0, 0, 0, 0, 2, 0, 0, 0, 7, 0, 0, 0, 9, 0, 0, 0, 0, 0, 0, 0, 0, 0, 0, 0, 0, 0, 1, 0, 0,
    0, 0, 0, 0, 0, 0, 0, 0, 0, 0, 0, 0, 0, 0, 0, 0, 0, 1, 0, 0, 0, 1, 0, 0, 0, 1, 1, 0, 0, 0, 0, 0,
    0, 0, 1, 0, 0, 0, 0, 0, 1, 0, 0, 0, 0, 0, 0, 0, 1, 0, 0, 0, 0, 1, 0, 0, 0, 0, 0, 0, 0, 1, 0, 0,
    0, 0, 0, 0, 0, 0, 0, 0, 6, 64, 0, 0, 0, 0, 0, 0, 0, 0, 0, 0, 6, 64, 1, 0, 0, 0, 0, 1, 0, 0, 0,
    2, 104, 105, 0, 0, 0, 1, 0, 0, 0, 3, 101, 110, 118, 0, 0, 0, 1, 120, 0, 0, 0, 2, 0, 0, 0, 0, 0,
    0, 0, 2, 0, 0, 0, 0, 0, 0, 0, 3, 1, 2, 0, 0, 0, 0, 0, 1, 95, 144, 0, 0, 0, 0, 0, 0, 19, 136, 1,
    1, 0, 0, 0, 0, 0, 9, 62, 104, 0, 0, 0, 0, 1, 0, 0, 0, 3, 0, 0, 0, 0, 0, 0, 0, 0, 0, 0, 0, 0, 0,
    0, 0, 1, 1, 1, 1, 1, 1, 1, 1, 1, 1, 1, 1, 1, 1, 1, 1, 1, 1, 1, 1, 1, 1, 1, 1, 1, 1, 1, 1, 1, 1,
    1, 1, 1, 0, 0, 0, 1, 0, 0, 0, 0, 0, 0, 0, 1, 0, 0, 0, 0, 0, 0, 0, 1, 1, 0, 0, 0, 0, 0, 0, 0, 1,
    0, 0, 0, 0, 0, 0, 0, 0, 0, 0, 0, 0, 0, 0, 0, 0, 2, 0, 0, 0, 1, 0, 0, 0, 0, 0, 0, 0, 1, 0, 0, 0,
    0, 0, 0, 0, 7, 0, 0, 0, 0, 0, 2, 0, 0, 0, 0, 0, 1, 95, 144, 0, 0, 0, 1, 0, 0, 0, 0, 0, 0, 0, 1,
    0, 0, 0, 0, 0, 0, 0, 1, 0, 0, 0, 3, 101, 110, 118, 0, 0, 0, 1, 120, 0, 0, 0, 24, 0, 0, 42, 48,
    0, 0, 0, 0, 3, 0, 0, 0, 0, 0, 0, 0, 0, 0, 0, 6, 64, 0, 0, 0, 3, 0, 0, 0, 0, 0, 0, 0, 0, 0, 1,
    0, 0, 0, 2, 0, 0, 0, 7, 0, 0, 0, 0, 0, 0, 0, 0, 0, 0, 0, 0, 0, 0, 0, 0, 0, 0, 0, 0, 0, 0, 0, 0,
    0, 0, 0, 0, 0, 0, 0, 0, 0, 0, 0, 0, 0, 0, 0, 0, 0, 0, 0, 9, 0, 0, 0, 0, 0, 0, 0, 0, 0, 0, 0, 0,
    0, 0, 0, 0, 0, 0, 0, 0, 0, 0, 0, 0, 0, 0, 0, 0, 0, 0, 0, 0, 0, 0, 0, 0, 0, 0, 0, 0, 0, 0, 0, 0,
    0, 0, 0, 1, 0, 0, 0, 0, 0, 1, 0, 0, 0, 3, 0, 0, 0, 0, 0, 0, 0, 1, 1, 1, 1, 1, 1, 1, 1, 1, 1, 1,
    1, 1, 1, 1, 1, 1, 1, 1, 1, 1, 1, 1, 1, 1, 1, 1, 1, 1, 1, 1, 1, 1, 0, 0, 0, 0, 0, 0, 0, 2, 1, 0,
    0, 0, 0, 0, 0, 0, 1, 1, 0, 0, 0, 1, 0, 0, 0, 4, 0, 0, 0, 0, 0, 0, 0, 2, 2, 2, 2, 2, 2, 2, 2, 2,
    2, 2, 2, 2, 2, 2, 2, 2, 2, 2, 2, 2, 2, 2, 2, 2, 2, 2, 2, 2, 2, 2, 2, 2, 0, 0, 0, 3, 0, 0, 0, 0,
    0, 0, 0, 0, 0, 0, 0, 0, 0, 0, 0, 0, 0, 0, 0, 0, 0, 0, 0, 1, 0, 0, 0, 0, 0, 0, 0, 1, 0, 0, 0, 0,
    0, 0, 0, 2, 0, 0, 0, 0, 0, 0, 0, 2, 0, 0, 0, 1, 0, 0, 0, 0, 0, 0, 0, 0, 0, 0, 0, 0, 0, 0, 0, 0,
];

/// The bytes with another one at the place, or behind the last.
fn with(alloc: Global, place: usize, byte: u8) -> Result<Vec<u8>, Fail> {
    let mut other = Vec::from_slice(alloc, &WHOLE)?;
    if place < other.len() {
        other[place] = byte;
    } else {
        other.push(byte)?;
    }
    Ok(other)
}

/// Whether the bytes are a checkpoint that is written so again.
fn comes_back(alloc: Global, bytes: &[u8]) -> Result<bool, Fail> {
    match read_checkpoint(alloc, bytes) {
        Read::Value(found) => {
            let written = write_checkpoint(alloc, &found);
            drop(found);
            Ok(written?.as_slice() == bytes)
        }
        Read::NoValue | Read::Memory => Ok(false),
    }
}

/// Whether no checkpoint is spelled so.
fn is_none(alloc: Global, bytes: &[u8]) -> Result<bool, Fail> {
    match read_checkpoint(alloc, bytes) {
        Read::NoValue => Ok(true),
        Read::Value(found) => {
            drop(found);
            Ok(false)
        }
        Read::Memory => Ok(false),
    }
}

/// Whether none of them is a checkpoint.
fn are_none(alloc: Global, cases: &[(usize, u8)]) -> Result<bool, Fail> {
    for (place, byte) in cases {
        if !is_none(alloc, with(alloc, *place, *byte)?.as_slice())? {
            return Ok(false);
        }
    }
    Ok(true)
}

#[test]
fn checkpoints_come_back(rt: HostRuntime) -> Result<(), Fail> {
    assert!(rt; comes_back(rt.alloc(), &[0; 96])?);
    assert!(rt; comes_back(rt.alloc(), &WHOLE)?);
    Ok(())
}

#[test]
fn a_part_and_a_byte_more_are_none(rt: HostRuntime) -> Result<(), Fail> {
    assert!(rt; is_none(rt.alloc(), &[])?);
    assert!(rt; is_none(rt.alloc(), &[0; 95])?);
    assert!(rt; is_none(rt.alloc(), &[0; 97])?);
    assert!(rt; is_none(rt.alloc(), &WHOLE[..988])?);
    Ok(())
}

#[test]
fn one_byte_makes_no_checkpoint(rt: HostRuntime) -> Result<(), Fail> {
    let cases: [(usize, u8); 16] = [
        // a byte behind the last, a list of accounts that passes the end, and an account of 10^12 and more
        (989, 0),
        (64, 255),
        (68, 1),
        // a token that passes the end and one that isn't text, a move in the place of a call, and a number of 2^28
        (96, 1),
        (100, 255),
        (110, 3),
        (214, 16),
        // a line and a parent that are neither, a third state, a fourth lock, a fourth tier, and a bin that is neither
        (266, 2),
        (279, 2),
        (302, 2),
        (325, 3),
        (326, 3),
        (327, 2),
        // a fourth lock of a rule, a sixth way to keep, and a node that is neither open nor not
        (621, 3),
        (670, 5),
        (802, 2),
    ];
    assert!(rt; are_none(rt.alloc(), &cases)?);
    Ok(())
}
