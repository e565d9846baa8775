// What an opening tells of a journal with one record, of which one byte is another.
use super::new_store;
use ebs_disk_store::{OpenRefusal, Store};
use ebs_world::{Area, Disk, MemoryDisk};
use std::alloc::Global;
use std::marker::Brand;

/// The place of the gate of the first record.
const GATE: u64 = 125;

/// An open gate, the length, a start of 1 GiB by account 1 at second 1000, and a closed gate.
const RECORD: [u8; 43] = [
    1, 0, 0, 0, 37, 1, 0, 0, 0, 0, 0, 0, 3, 232, 0, 0, 0, 0, 0, 0, 0, 1, 1, 0, 0, 0, 0, 0, 0, 0, 1,
    0, 0, 0, 0, 0, 0, 0, 0, 0, 0, 60, 0,
];

/// A place of the journal, the byte there, and how many records an opening finds, or why it refuses.
type Row = (u64, u8, Result<u64, OpenRefusal>);

const ROWS: [Row; 14] = [
    (GATE, 1, Ok(1)),
    (GATE, 0, Ok(0)),
    (GATE, 2, Ok(0)),
    (GATE + 1, 1, Err(OpenRefusal::BadRecord(GATE))),
    (GATE + 4, 0, Err(OpenRefusal::BadRecord(GATE))),
    (GATE + 4, 36, Err(OpenRefusal::BadRecord(GATE))),
    (GATE + 4, 38, Err(OpenRefusal::BadRecord(GATE))),
    (GATE + 5, 9, Err(OpenRefusal::BadRecord(GATE))),
    (
        8,
        0,
        Err(OpenRefusal::NotAJournal([1, 0x45, 0x42, 0x53, 0x4a, 0x52, 0x4e, 0x41, 0])),
    ),
    (12, 9, Err(OpenRefusal::BadVersion(9))),
    (
        0,
        0,
        Err(OpenRefusal::NotAJournal([0, 0x45, 0x42, 0x53, 0x4a, 0x52, 0x4e, 0x41, 0x4c])),
    ),
    (20, 2, Ok(1)),
    (28, 95, Err(OpenRefusal::BadCheckpoint)),
    (28, 97, Err(OpenRefusal::BadCheckpoint)),
];

/// Makes a store with one record.
fn is_made(alloc: Global, disk: &mut MemoryDisk) -> bool {
    match new_store(alloc, disk) {
        Ok(store) => {
            drop(store);
            disk.write(Area::Journal0, GATE, &RECORD).is_ok()
        }
        Err(_) => false,
    }
}

fn found_on(alloc: Global, disk: &mut MemoryDisk) -> Result<u64, OpenRefusal> {
    match Store::<Brand>::open(alloc, disk) {
        Ok(store) => {
            let records = store.records();
            drop(store);
            Ok(records)
        }
        Err(refusal) => Err(refusal),
    }
}

fn is_told(alloc: Global, row: &Row) -> bool {
    let mut disk = MemoryDisk::new(alloc, Vec::new(alloc));
    let (place, byte, wanted) = row;
    is_made(alloc, &mut disk)
        && disk
            .write(Area::Journal0, (*place).min(GATE + 5), &[*byte])
            .is_ok()
        && found_on(alloc, &mut disk) == *wanted
}

#[test]
fn a_byte_of_a_journal_is_told(rt: HostRuntime) {
    for row in &ROWS {
        assert!(rt; is_told(rt.alloc(), row));
    }
}
