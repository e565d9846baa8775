//! A machine with every kind of row, and with bytes turned at the bounds of the rules.
use ebs_checkpoint_rules::{read_checkpoint, write_checkpoint};
use ebs_records::Read;
use std::alloc::Global;
use std::test::Fail;

/// Account 1 has a client token, three uploads of which one has failed, eight snapshots, a volume, a rule and a policy; account 2
/// has nothing. Node 1 has no name, and each of the nine others has one. The bytes were made outside the program from the table of
/// fields.
const MACHINE: [u8; 2166] = [
    0, 0, 0, 0, 0, 0, 7, 208, 0, 0, 0, 0, 0, 0, 0, 9, 0, 0, 0, 0, 0, 0, 0, 7, 0, 0, 0, 0, 0, 0, 0,
    4, 0, 1, 2, 3, 4, 5, 6, 7, 8, 9, 10, 11, 12, 13, 14, 15, 16, 17, 18, 19, 20, 21, 22, 23, 24,
    25, 26, 27, 28, 29, 30, 31, 0, 0, 0, 2, 0, 0, 0, 0, 0, 0, 0, 1, 0, 0, 0, 11, 0, 0, 0, 1, 0, 0,
    0, 1, 0, 0, 0, 1, 0, 0, 0, 1, 0, 0, 0, 2, 116, 49, 0, 0, 0, 0, 0, 0, 3, 232, 1, 0, 0, 0, 0, 0,
    0, 3, 232, 0, 0, 0, 0, 0, 0, 0, 1, 1, 0, 0, 0, 0, 0, 0, 0, 1, 0, 0, 0, 0, 0, 0, 1, 0, 0, 0, 2,
    116, 49, 0, 0, 0, 60, 0, 0, 0, 0, 0, 0, 0, 0, 0, 0, 0, 2, 0, 0, 0, 0, 0, 0, 0, 0, 0, 0, 0, 0,
    0, 0, 0, 0, 0, 0, 0, 0, 0, 0, 0, 11, 0, 0, 0, 0, 0, 0, 0, 1, 0, 0, 0, 0, 0, 0, 0, 1, 0, 0, 0,
    0, 0, 0, 0, 0, 1, 0, 0, 0, 0, 0, 0, 0, 0, 0, 0, 0, 0, 0, 3, 232, 0, 0, 0, 60, 0, 0, 0, 0, 0, 0,
    3, 232, 1, 0, 0, 0, 0, 1, 0, 0, 0, 1, 100, 0, 0, 0, 1, 0, 0, 0, 1, 107, 0, 0, 0, 1, 118, 0, 0,
    0, 0, 0, 0, 0, 0, 1, 0, 0, 0, 0, 0, 0, 0, 3, 0, 0, 0, 0, 0, 0, 0, 0, 0, 0, 0, 1, 0, 0, 0, 1, 0,
    0, 0, 1, 0, 0, 0, 0, 0, 0, 0, 0, 1, 0, 0, 0, 0, 1, 0, 0, 0, 0, 0, 0, 0, 1, 0, 0, 0, 0, 0, 0, 0,
    0, 0, 0, 0, 0, 3, 232, 0, 0, 0, 10, 0, 0, 0, 0, 0, 0, 5, 220, 0, 0, 0, 0, 1, 0, 0, 0, 0, 0, 0,
    0, 0, 0, 0, 0, 0, 0, 0, 0, 0, 0, 1, 0, 0, 0, 0, 0, 0, 0, 4, 0, 0, 0, 0, 0, 0, 0, 0, 0, 0, 0, 1,
    0, 0, 0, 2, 0, 0, 0, 1, 0, 0, 0, 0, 0, 0, 0, 0, 1, 0, 0, 0, 2, 0, 0, 0, 0, 0, 0, 0, 0, 0, 3,
    232, 0, 0, 0, 10, 0, 0, 0, 0, 0, 0, 5, 120, 0, 0, 0, 0, 0, 0, 0, 0, 0, 0, 0, 0, 0, 0, 0, 0, 0,
    0, 0, 0, 0, 0, 0, 0, 0, 0, 0, 0, 0, 0, 1, 0, 0, 0, 3, 0, 0, 0, 1, 0, 0, 0, 0, 0, 0, 0, 0, 1, 0,
    0, 0, 3, 0, 0, 0, 0, 0, 0, 0, 0, 0, 3, 232, 0, 0, 0, 10, 0, 0, 0, 0, 0, 0, 3, 232, 1, 0, 0, 0,
    0, 0, 0, 0, 0, 0, 0, 0, 0, 0, 0, 0, 1, 0, 1, 0, 0, 0, 0, 0, 0, 0, 6, 0, 0, 0, 1, 0, 0, 0, 0, 0,
    0, 0, 0, 0, 0, 0, 0, 0, 0, 0, 0, 0, 0, 0, 3, 3, 3, 3, 3, 3, 3, 3, 3, 3, 3, 3, 3, 3, 3, 3, 3, 3,
    3, 3, 3, 3, 3, 3, 3, 3, 3, 3, 3, 3, 3, 3, 3, 0, 0, 0, 0, 0, 0, 0, 1, 0, 0, 0, 4, 0, 0, 0, 1, 0,
    0, 0, 0, 0, 0, 0, 0, 1, 0, 0, 0, 4, 0, 0, 0, 0, 0, 0, 0, 0, 0, 3, 232, 0, 0, 0, 10, 0, 0, 0, 0,
    0, 0, 3, 232, 1, 0, 0, 0, 0, 0, 0, 0, 0, 0, 0, 0, 0, 0, 0, 0, 1, 1, 0, 0, 0, 0, 0, 0, 7, 209,
    0, 0, 0, 0, 1, 0, 0, 7, 255, 0, 0, 0, 0, 0, 0, 0, 1, 0, 0, 0, 0, 0, 0, 0, 5, 5, 5, 5, 5, 5, 5,
    5, 5, 5, 5, 5, 5, 5, 5, 5, 5, 5, 5, 5, 5, 5, 5, 5, 5, 5, 5, 5, 5, 5, 5, 5, 5, 0, 0, 0, 0, 0, 0,
    0, 1, 0, 0, 0, 5, 0, 0, 0, 1, 0, 0, 0, 0, 0, 0, 0, 0, 1, 0, 0, 0, 5, 0, 0, 0, 0, 0, 0, 0, 0, 0,
    3, 232, 0, 0, 0, 10, 0, 0, 0, 0, 0, 0, 3, 232, 1, 0, 0, 0, 0, 0, 0, 0, 0, 0, 0, 0, 0, 2, 0, 0,
    0, 0, 0, 0, 0, 2, 0, 0, 0, 0, 0, 0, 0, 3, 0, 2, 0, 0, 0, 0, 0, 1, 95, 144, 0, 0, 0, 0, 0, 0,
    11, 184, 2, 0, 0, 0, 0, 0, 1, 95, 144, 0, 0, 0, 0, 0, 1, 0, 0, 0, 0, 0, 0, 0, 0, 0, 0, 0, 2, 0,
    0, 0, 0, 0, 0, 0, 5, 5, 5, 5, 5, 5, 5, 5, 5, 5, 5, 5, 5, 5, 5, 5, 5, 5, 5, 5, 5, 5, 5, 5, 5, 5,
    5, 5, 5, 5, 5, 5, 5, 0, 0, 0, 0, 0, 0, 0, 1, 0, 0, 0, 6, 0, 0, 0, 1, 0, 0, 0, 0, 0, 0, 0, 0, 1,
    0, 0, 0, 6, 0, 0, 0, 0, 0, 0, 0, 0, 0, 3, 232, 0, 0, 0, 10, 0, 0, 0, 0, 0, 0, 5, 220, 1, 0, 0,
    0, 0, 0, 0, 0, 0, 0, 0, 0, 0, 0, 0, 0, 0, 0, 1, 0, 0, 0, 0, 0, 0, 0, 7, 0, 0, 0, 1, 0, 0, 0, 0,
    0, 0, 0, 0, 0, 0, 0, 3, 0, 0, 0, 0, 0, 0, 0, 4, 4, 4, 4, 4, 4, 4, 4, 4, 4, 4, 4, 4, 4, 4, 4, 4,
    4, 4, 4, 4, 4, 4, 4, 4, 4, 4, 4, 4, 4, 4, 4, 4, 0, 0, 0, 0, 0, 0, 0, 1, 0, 0, 0, 7, 0, 0, 0, 1,
    0, 0, 0, 0, 0, 0, 0, 0, 1, 0, 0, 0, 7, 0, 0, 0, 0, 0, 0, 0, 0, 0, 3, 232, 0, 0, 0, 10, 0, 0, 0,
    0, 0, 0, 5, 220, 1, 0, 0, 0, 0, 0, 0, 0, 0, 0, 0, 0, 0, 0, 0, 0, 0, 0, 1, 0, 0, 0, 0, 0, 0, 0,
    8, 0, 0, 0, 0, 0, 0, 0, 0, 0, 0, 0, 1, 0, 0, 0, 8, 0, 0, 0, 1, 0, 0, 0, 0, 0, 0, 0, 0, 1, 0, 0,
    0, 8, 0, 0, 0, 0, 0, 0, 0, 0, 0, 3, 232, 0, 0, 0, 10, 0, 0, 0, 0, 0, 0, 5, 220, 1, 0, 0, 0, 0,
    0, 0, 0, 0, 0, 0, 0, 0, 0, 0, 0, 0, 1, 0, 0, 0, 0, 0, 0, 11, 184, 1, 0, 0, 0, 0, 0, 0, 0, 9, 0,
    0, 0, 0, 0, 0, 0, 0, 0, 0, 0, 1, 0, 0, 0, 9, 0, 0, 0, 1, 0, 0, 0, 0, 0, 0, 0, 0, 1, 0, 0, 0, 9,
    0, 0, 0, 0, 0, 0, 0, 0, 0, 3, 232, 0, 0, 0, 10, 0, 0, 0, 0, 0, 0, 5, 121, 0, 0, 0, 0, 0, 0, 0,
    0, 0, 0, 0, 0, 0, 0, 0, 0, 0, 0, 1, 0, 0, 0, 0, 0, 0, 0, 10, 0, 0, 0, 0, 0, 0, 0, 0, 0, 0, 0,
    1, 0, 0, 0, 10, 0, 0, 0, 1, 1, 0, 0, 0, 0, 0, 0, 0, 1, 0, 0, 0, 0, 0, 1, 0, 0, 0, 0, 0, 0, 0,
    1, 0, 0, 0, 0, 1, 0, 0, 0, 0, 0, 0, 0, 1, 0, 0, 0, 0, 0, 0, 0, 0, 0, 0, 3, 232, 0, 0, 0, 0, 0,
    0, 0, 0, 0, 0, 3, 232, 1, 0, 0, 0, 0, 0, 0, 0, 0, 0, 0, 0, 0, 0, 0, 0, 0, 0, 1, 0, 0, 0, 0, 0,
    0, 0, 11, 0, 0, 0, 0, 0, 0, 0, 1, 0, 0, 0, 0, 0, 0, 0, 1, 0, 0, 0, 0, 0, 0, 0, 1, 1, 0, 0, 0,
    0, 0, 0, 0, 1, 0, 0, 0, 0, 1, 0, 0, 0, 0, 0, 0, 0, 1, 0, 0, 0, 0, 0, 0, 0, 1, 0, 0, 0, 1, 107,
    0, 0, 0, 1, 118, 0, 0, 0, 0, 0, 0, 0, 5, 0, 0, 0, 1, 0, 0, 0, 0, 0, 0, 0, 1, 0, 0, 0, 0, 0, 0,
    0, 7, 0, 0, 0, 0, 0, 1, 0, 0, 0, 7, 0, 0, 0, 1, 0, 0, 0, 0, 0, 0, 0, 1, 0, 0, 0, 0, 0, 0, 0, 1,
    0, 0, 0, 1, 107, 0, 0, 0, 1, 118, 0, 0, 0, 24, 0, 0, 42, 48, 0, 0, 0, 0, 3, 0, 0, 0, 0, 0, 0,
    0, 0, 0, 0, 6, 64, 0, 0, 0, 10, 0, 0, 0, 0, 0, 0, 0, 1, 0, 0, 0, 0, 0, 1, 0, 0, 0, 1, 0, 0, 0,
    0, 0, 0, 0, 0, 1, 1, 1, 1, 1, 1, 1, 1, 1, 1, 1, 1, 1, 1, 1, 1, 1, 1, 1, 1, 1, 1, 1, 1, 1, 1, 1,
    1, 1, 1, 1, 1, 0, 0, 0, 0, 0, 0, 0, 3, 1, 0, 0, 0, 0, 0, 0, 0, 1, 0, 0, 0, 0, 0, 0, 0, 0, 0, 0,
    0, 0, 4, 1, 0, 0, 0, 0, 0, 0, 0, 3, 1, 0, 0, 0, 1, 0, 0, 0, 0, 0, 0, 0, 0, 0, 0, 0, 1, 1, 1, 1,
    1, 1, 1, 1, 1, 1, 1, 1, 1, 1, 1, 1, 1, 1, 1, 1, 1, 1, 1, 1, 1, 1, 1, 1, 1, 1, 1, 1, 1, 0, 0, 0,
    0, 0, 0, 0, 5, 1, 0, 0, 0, 0, 0, 0, 0, 3, 1, 0, 0, 0, 1, 0, 0, 7, 255, 0, 0, 0, 0, 0, 0, 0, 2,
    4, 4, 4, 4, 4, 4, 4, 4, 4, 4, 4, 4, 4, 4, 4, 4, 4, 4, 4, 4, 4, 4, 4, 4, 4, 4, 4, 4, 4, 4, 4, 4,
    0, 0, 0, 0, 0, 0, 0, 6, 0, 1, 0, 0, 0, 1, 0, 0, 0, 1, 0, 0, 0, 0, 0, 0, 0, 3, 3, 3, 3, 3, 3, 3,
    3, 3, 3, 3, 3, 3, 3, 3, 3, 3, 3, 3, 3, 3, 3, 3, 3, 3, 3, 3, 3, 3, 3, 3, 3, 3, 0, 0, 0, 0, 0, 0,
    0, 7, 1, 0, 0, 0, 0, 0, 0, 0, 3, 0, 0, 0, 0, 1, 0, 0, 0, 0, 0, 0, 0, 0, 0, 0, 0, 4, 4, 4, 4, 4,
    4, 4, 4, 4, 4, 4, 4, 4, 4, 4, 4, 4, 4, 4, 4, 4, 4, 4, 4, 4, 4, 4, 4, 4, 4, 4, 4, 4, 0, 0, 0, 0,
    0, 0, 0, 8, 0, 0, 0, 0, 0, 0, 0, 0, 0, 0, 0, 0, 0, 9, 0, 0, 0, 0, 0, 0, 0, 0, 0, 0, 0, 0, 0,
    10, 0, 1, 0, 0, 0, 1, 0, 0, 7, 255, 0, 0, 0, 0, 0, 0, 0, 6, 6, 6, 6, 6, 6, 6, 6, 6, 6, 6, 6, 6,
    6, 6, 6, 6, 6, 6, 6, 6, 6, 6, 6, 6, 6, 6, 6, 6, 6, 6, 6, 6, 0, 0, 0, 0, 0, 0, 0, 11, 1, 0, 0,
    0, 0, 0, 0, 0, 3, 0, 0, 0, 0, 0, 0, 0, 0, 6, 0, 0, 0, 0, 0, 0, 0, 0, 0, 0, 0, 0, 0, 0, 0, 0, 0,
    0, 0, 0, 0, 0, 0, 1, 0, 0, 0, 0, 0, 0, 0, 1, 0, 0, 0, 0, 0, 0, 0, 2, 0, 0, 0, 0, 0, 0, 0, 2, 0,
    0, 0, 0, 0, 0, 0, 3, 0, 0, 0, 0, 0, 0, 0, 3, 0, 0, 0, 0, 0, 0, 0, 4, 0, 0, 0, 0, 0, 0, 0, 4, 0,
    0, 0, 0, 0, 0, 0, 6, 0, 0, 0, 0, 0, 0, 0, 5, 0, 0, 0, 4, 0, 0, 0, 0, 0, 0, 0, 0, 0, 0, 0, 0, 0,
    0, 0, 0, 0, 0, 0, 0, 0, 0, 0, 1, 0, 0, 0, 0, 0, 0, 0, 1, 0, 0, 0, 0, 0, 0, 0, 2, 0, 0, 0, 0, 0,
    0, 0, 2, 0, 0, 0, 0, 0, 0, 0, 3, 0, 0, 0, 0, 0, 0, 0, 3,
];

/// The bytes with another one at the place.
fn with(alloc: Global, place: usize, byte: u8) -> Result<Vec<u8>, Fail> {
    let mut bytes = Vec::from_slice(alloc, &MACHINE)?;
    if place < bytes.len() {
        bytes[place] = byte;
    }
    Ok(bytes)
}

/// Whether the bytes are a checkpoint that is written so again, or none is spelled so, as is expected.
fn is_so(alloc: Global, bytes: &[u8], expected: bool) -> Result<bool, Fail> {
    match read_checkpoint(alloc, bytes) {
        Read::Value(point) => {
            let written = write_checkpoint(alloc, &point);
            drop(point);
            let same = written?.as_slice() == bytes;
            Ok(expected && same)
        }
        Read::NoValue => Ok(!expected),
        Read::Memory => Ok(false),
    }
}

/// Whether each is as is expected.
fn are_so(alloc: Global, cases: &[(usize, u8, bool)]) -> Result<bool, Fail> {
    for (place, byte, expected) in cases {
        let bytes = with(alloc, *place, *byte)?;
        if !is_so(alloc, bytes.as_slice(), *expected)? {
            return Ok(false);
        }
    }
    Ok(true)
}

/// Whether each, with two bytes turned, is as is expected.
fn pairs_are_so(alloc: Global, cases: &[((usize, u8), (usize, u8), bool)]) -> Result<bool, Fail> {
    for ((place, byte), (other, second), expected) in cases {
        let mut bytes = with(alloc, *place, *byte)?;
        if *other < bytes.len() {
            bytes[*other] = *second;
        }
        if !is_so(alloc, bytes.as_slice(), *expected)? {
            return Ok(false);
        }
    }
    Ok(true)
}

#[test]
fn machines_come_back(rt: HostRuntime) -> Result<(), Fail> {
    assert!(rt; is_so(rt.alloc(), &[0; 96], true)?);
    assert!(rt; is_so(rt.alloc(), &MACHINE, true)?);
    assert!(rt; is_so(rt.alloc(), &MACHINE[1..], false)?);
    Ok(())
}

#[test]
fn rows_whose_rules_fail(rt: HostRuntime) -> Result<(), Fail> {
    let cases: [(usize, u8, bool); 7] = [
        // two accounts of one number; a number that is the next one
        (164, 1, false),
        (79, 10, false),
        // a rule of no day, and one of one
        (1484, 0, false),
        (1484, 1, true),
        // a stamp that is the next one, and more stamps than changes
        (23, 6, false),
        (23, 8, true),
        (23, 10, false),
    ];
    assert!(rt; are_so(rt.alloc(), &cases)?);
    Ok(())
}

/// The bytes with so many rules of account 1 in the place of its one.
fn with_rules(alloc: Global, count: u8) -> Result<Vec<u8>, Fail> {
    let mut bytes = with(alloc, 87, count)?;
    bytes.truncate(1465);
    bytes.extend_from_slice(&[0, 0, 0, count])?;
    for number in 0..count {
        bytes.extend_from_slice(&[0, 0, 0, 0, 0, 0, 0, 1, 0, 0, 0, number])?;
        bytes.extend_from_slice(&MACHINE[1481..1495])?;
    }
    bytes.extend_from_slice(&MACHINE[1495..])?;
    Ok(bytes)
}

#[test]
fn an_account_has_fifty_rules(rt: HostRuntime) -> Result<(), Fail> {
    let cases: [(u8, bool); 3] = [(1, true), (50, true), (51, false)];
    for (count, expected) in cases {
        let bytes = with_rules(rt.alloc(), count)?;
        assert!(rt; is_so(rt.alloc(), bytes.as_slice(), expected)?);
    }
    Ok(())
}

#[test]
fn nodes_are_trees(rt: HostRuntime) -> Result<(), Fail> {
    let cases: [(usize, u8, bool); 12] = [
        // a parent that is not listed, and one that is
        (1650, 2, false),
        (1650, 1, true),
        // a parent that is the node, a greater one, an open one, and one of a smaller number
        (1840, 7, false),
        (1840, 8, false),
        (1840, 6, false),
        (1840, 1, true),
        // a node that two rows name, one that is not listed, and one that others stand on
        (282, 8, false),
        (282, 2, false),
        (282, 1, true),
        // a volume's node that is closed
        (1717, 0, false),
        // a node that nothing leads to, and one that stands open below others
        (1111, 1, false),
        (1563, 1, false),
    ];
    assert!(rt; are_so(rt.alloc(), &cases)?);
    Ok(())
}

#[test]
fn states_have_their_nodes(rt: HostRuntime) -> Result<(), Fail> {
    let cases: [(usize, u8, bool); 11] = [
        // an upload's node that is closed
        (1651, 0, false),
        // a completed snapshot whose node is open, without a copy and with one
        (1899, 1, false),
        (1841, 1, true),
        // a completed snapshot without a node and without a copy
        (438, 1, false),
        // an end in the bin at the clock, and one a second later than before
        (673, 208, false),
        (673, 210, true),
        // an upload in the archive, and a completed snapshot that is empty
        (371, 1, false),
        (1101, 1, true),
        // an upload that fails at the clock and has a node, and one that fails later
        (1258, 120, false),
        (1258, 122, true),
        // an upload that fails later and has no node
        (437, 121, false),
    ];
    assert!(rt; are_so(rt.alloc(), &cases)?);
    Ok(())
}

#[test]
fn what_names_a_volume_is_completed(rt: HostRuntime) -> Result<(), Fail> {
    // its last put may lie ahead of the clock
    let mut bytes = with(rt.alloc(), 1364, 8)?;
    assert!(rt; is_so(rt.alloc(), bytes.as_slice(), true)?);
    // an upload with an open node, whose time isn't over
    if bytes.len() == 2166 {
        bytes[1366] = 0;
        bytes[1993] = 1;
    }
    assert!(rt; is_so(rt.alloc(), bytes.as_slice(), false)?);
    Ok(())
}

#[test]
fn arrays_fit_their_rows(rt: HostRuntime) -> Result<(), Fail> {
    let cases: [(usize, u8, bool); 10] = [
        // a copy of another stamp with the same digest
        (1000, 2, false),
        // a copy at an index that the closed node lacks
        (984, 9, false),
        // the last index is copied of a snapshot that has a node, and one is left
        (547, 1, false),
        (547, 2, true),
        (966, 1, true),
        // an index that was put and is in no array, and one of an ancestor
        (359, 5, false),
        (359, 1, true),
        // the last index but one of an image
        (1725, 254, true),
        (1935, 254, true),
        (682, 254, true),
    ];
    assert!(rt; are_so(rt.alloc(), &cases)?);
    Ok(())
}

#[test]
fn rows_with_their_nodes(rt: HostRuntime) -> Result<(), Fail> {
    let cases: [((usize, u8), (usize, u8), bool); 10] = [
        // a node that nothing names and another stands on
        ((1111, 1), (1992, 8), true),
        // an upload, one in the bin, and one with a copy
        ((1085, 0), (1899, 1), true),
        ((1168, 0), (1913, 1), false),
        ((950, 0), (1841, 1), false),
        // a completed snapshot, and one with an index that was put
        ((1259, 1), (1927, 0), true),
        ((351, 1), (1651, 0), false),
        // a copy at an index that the open node lacks
        ((984, 9), (1841, 1), true),
        // an index past the image: of a volume, of an upload and of copies
        ((1724, 8), (1725, 0), false),
        ((1934, 8), (1935, 0), false),
        ((681, 8), (682, 0), false),
    ];
    assert!(rt; pairs_are_so(rt.alloc(), &cases)?);
    Ok(())
}
