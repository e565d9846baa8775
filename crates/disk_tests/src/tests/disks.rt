// What no clause says of disks: that calls succeed, and what the files of a folder do.
use super::helpers::failing;
use ebs_world::*;
use std::fs;
use std::test::Fail;

type Front = [u8; 8];

#[derive(Clone, Copy)]
enum Call {
    Write(Area, u16, &'static str),
    WriteDurably(Area, u16, &'static str),
    Sync(Area),
    Read(Area),
}

/// Reads the first eight bytes of an area.
fn read_front<D: Disk>(disk: &mut D, area: Area, room: &mut Front) -> Result<(), Failed> {
    disk.read(area, 0, room)
}

/// Whether an area begins with these bytes.
fn begins_with<D: Disk>(disk: &mut D, area: Area, want: &Front) -> bool {
    let mut room = [7u8; 8];
    read_front(disk, area, &mut room).is_ok() && room.as_slice() == want.as_slice()
}

fn make<D: Disk>(disk: &mut D, call: Call) -> Result<(), Failed> {
    match call {
        Call::Write(area, at, text) if text.len() < 100 => disk.write(
            area,
            u64::from(at),
            text.as_bytes(),
        ),
        Call::WriteDurably(area, at, text) if text.len() < 100 => write_durably(
            disk,
            area,
            u64::from(at),
            text.as_bytes(),
        ),
        Call::Write(..) | Call::WriteDurably(..) => Err(Failed),
        Call::Sync(area) => disk.sync(area),
        Call::Read(area) => read_front(disk, area, &mut [7; 8]),
    }
}

/// Whether each call succeeds or fails as it should.
fn answers_so<D: Disk>(disk: &mut D, calls: &[(Call, bool)]) -> bool {
    for (one, succeeds) in calls {
        if make(disk, *one).is_ok() != *succeeds {
            return false;
        }
    }
    true
}

fn reads_so<D: Disk>(disk: &mut D, want: &[(Area, Front)]) -> bool {
    for (area, bytes) in want {
        if !begins_with(disk, *area, bytes) {
            return false;
        }
    }
    true
}

/// Whether Blocks begins so after a crash at a moment, which mustn't be to come.
fn crash_leaves(disk: &MemoryDisk, moment: u64, pick: CrashPick, want: &Front) -> bool {
    if moment > disk.moment() {
        return false;
    }
    match disk.crash(moment, pick) {
        Ok(mut left) => {
            let found = begins_with(&mut left, Area::Blocks, want);
            drop(left);
            found
        }
        Err(_) => false,
    }
}

/// What a crash at each moment leaves by this pick.
fn crashes_so(disk: &MemoryDisk, pick: CrashPick, want: &[Front]) -> bool {
    let mut moment = 0u64;
    for bytes in want {
        if !crash_leaves(disk, moment, pick, bytes) {
            return false;
        }
        moment = moment.saturating_add(1);
    }
    true
}

fn each_crash_so(disk: &MemoryDisk, picks: &[(CrashPick, [Front; 7])]) -> bool {
    for (pick, want) in picks {
        if !crashes_so(disk, *pick, want) {
            return false;
        }
    }
    true
}

/// Two bytes behind a gap, a sync, two over the second, one by a write that fails, a sync of another area, one of
/// this.
const TORN: [(Call, bool); 6] = [
    (Call::Write(Area::Blocks, 2, "ab"), true),
    (Call::Sync(Area::Blocks), true),
    (Call::Write(Area::Blocks, 3, "xy"), true),
    (Call::Write(Area::Blocks, 6, "z"), false),
    (Call::Sync(Area::Archive), true),
    (Call::Sync(Area::Blocks), true),
];

const ZEROS: Front = [0; 8];

const SYNCED: Front = *b"\0\0ab\0\0\0\0";

const LAST: Front = *b"\0\0axy\0z\0";

const OLD: [Front; 7] = [ZEROS, ZEROS, SYNCED, SYNCED, SYNCED, SYNCED, LAST];

const NEW: [Front; 7] = [ZEROS, SYNCED, SYNCED, *b"\0\0axy\0\0\0", LAST, LAST, LAST];

const LOW: [Front; 7] = [
    ZEROS,
    ZEROS,
    SYNCED,
    *b"\0\0a\0\0\0\0\0",
    *b"\0\0a\0\0\0\0\0",
    *b"\0\0a\0\0\0\0\0",
    LAST,
];

const HIGH: [Front; 7] = [
    ZEROS,
    *b"\0\0\xff\xff\0\0\0\0",
    SYNCED,
    *b"\0\0a\xff\xff\0\0\0",
    *b"\0\0a\xff\xff\0\xff\0",
    *b"\0\0a\xff\xff\0\xff\0",
    LAST,
];

const LEFT: [(CrashPick, [Front; 7]); 4] = [
    (CrashPick::Old, OLD),
    (CrashPick::New, NEW),
    (CrashPick::Fill(0), LOW),
    (CrashPick::Fill(255), HIGH),
];

fn is_torn(disk: &mut MemoryDisk) -> bool {
    answers_so(disk, &TORN) && disk.moment() == 6 && each_crash_so(disk, &LEFT)
}

#[test]
fn crash_leaves_old_new_or_filled_bytes(rt: HostRuntime) -> Result<(), Fail> {
    let mut disk = failing(rt.alloc(), &[3])?;
    let torn = is_torn(&mut disk);
    drop(disk);
    assert!(rt; torn);
    Ok(())
}

/// A sync, a write and a read that are listed.
const LISTED: [(Call, bool); 5] = [
    (Call::WriteDurably(Area::Blocks, 2, "ab"), true),
    (Call::WriteDurably(Area::Blocks, 3, "x"), false),
    (Call::WriteDurably(Area::Blocks, 4, "y"), false),
    (Call::Read(Area::Blocks), false),
    (Call::Read(Area::Blocks), true),
];

const LAST_LISTED: [(Area, Front); 1] = [(Area::Blocks, *b"\0\0axy\0\0\0")];

fn is_listed(disk: &mut MemoryDisk) -> bool {
    answers_so(disk, &LISTED)
        && reads_so(disk, &LAST_LISTED)
        && crash_leaves(disk, disk.moment(), CrashPick::Old, &SYNCED)
}

#[test]
fn listed_calls_make_nothing_durable(rt: HostRuntime) -> Result<(), Fail> {
    let mut disk = failing(rt.alloc(), &[3, 4, 5])?;
    let listed = is_listed(&mut disk);
    drop(disk);
    assert!(rt; listed);
    Ok(())
}

fn spoil(disk: &mut MemoryDisk, at: u64) -> bool {
    let within = at < disk.end(Area::Blocks);
    if within {
        disk.spoil(Area::Blocks, at);
    }
    within
}

/// Whether each place is one to spoil, or behind the end.
fn spoils_so(disk: &mut MemoryDisk, places: &[(u64, bool)]) -> bool {
    for (at, within) in places {
        if spoil(disk, *at) != *within {
            return false;
        }
    }
    true
}

const UNWRITTEN: [(u64, bool); 2] = [(0, true), (1, false)];

const SPOILING: [(Call, bool); 1] = [(Call::Write(Area::Blocks, 5, "A"), true)];

const WRITTEN: [(u64, bool); 3] = [(3, true), (5, true), (6, false)];

const SPOILED: [(Area, Front); 2] = [
    (Area::Blocks, *b"\xff\0\0\xff\0\xbe\0\0"),
    (Area::Archive, ZEROS),
];

fn turns_round(disk: &mut MemoryDisk) -> bool {
    spoils_so(disk, &UNWRITTEN)
        && answers_so(disk, &SPOILING)
        && spoils_so(disk, &WRITTEN)
        && reads_so(disk, &SPOILED)
}

#[test]
fn spoiled_bytes_turn_round(rt: HostRuntime) {
    let mut disk = MemoryDisk::new(rt.alloc(), Vec::new(rt.alloc()));
    let turned = turns_round(&mut disk);
    drop(disk);
    assert!(rt; turned);
}

const KEPT: [(Call, bool); 4] = [
    (Call::Read(Area::Archive), true),
    (Call::WriteDurably(Area::Journal0, 0, "one"), true),
    (Call::WriteDurably(Area::Journal1, 1, "two"), true),
    (Call::WriteDurably(Area::Blocks, 6, "three"), true),
];

const READ_AGAIN: [(Area, Front); 4] = [
    (Area::Journal0, *b"one\0\0\0\0\0"),
    (Area::Journal1, *b"\0two\0\0\0\0"),
    (Area::Blocks, *b"\0\0\0\0\0\0tH"),
    (Area::Archive, ZEROS),
];

fn all_exist(rt: &HostRuntime, paths: &[&str]) -> bool {
    for path in paths {
        if fs::metadata(rt, *path).is_err() {
            return false;
        }
    }
    true
}

fn keeps_so(rt: &HostRuntime) -> bool {
    let mut disk = FolderDisk::new(rt);
    let kept = !all_exist(rt, &["ebs-data"]) && answers_so(&mut disk, &KEPT);
    drop(disk);
    kept
}

const LATER: [(Call, bool); 1] = [(Call::Write(Area::Blocks, 7, "H"), true)];

fn keeps_again(rt: &HostRuntime) -> bool {
    let mut disk = FolderDisk::new(rt);
    let kept = answers_so(&mut disk, &LATER) && reads_so(&mut disk, &READ_AGAIN);
    let faults = disk.faults();
    drop(disk);
    kept && faults == 0
}

const FILES: [&str; 4] = [
    "ebs-data/journal0",
    "ebs-data/journal1",
    "ebs-data/blocks",
    "ebs-data/archive",
];

#[test]
fn folder_keeps_what_was_written(rt: HostRuntime) -> Result<(), Fail> {
    let _ = fs::remove_dir_all(&rt, "ebs-data");
    assert!(rt; keeps_so(&rt));
    assert!(rt; keeps_again(&rt));
    assert!(rt; all_exist(&rt, &FILES));
    Ok(fs::remove_dir_all(&rt, "ebs-data")?)
}

const REFUSED: [(Call, bool); 3] = [
    (Call::Read(Area::Blocks), false),
    (Call::Write(Area::Blocks, 0, "a"), false),
    (Call::Sync(Area::Blocks), false),
];

/// Whether the disk refuses each call, and tells that others use it where they do.
fn refuses(disk: &mut FolderDisk<HostRuntime>, used: bool) -> bool {
    answers_so(disk, &REFUSED) && disk.is_used() == used && disk.faults() == 3
}

const FIRST: [(Call, bool); 1] = [(Call::Write(Area::Blocks, 0, "a"), true)];

const SECOND: [(Call, bool); 1] = [(Call::Write(Area::Blocks, 0, "b"), true)];

fn waits_for_the_first(rt: &HostRuntime) -> bool {
    let mut first = FolderDisk::at(rt, "used-folder");
    let written = answers_so(&mut first, &FIRST);
    let mut second = FolderDisk::at(rt, "used-folder");
    let refused = refuses(&mut second, true);
    drop(first);
    let free = answers_so(&mut second, &SECOND);
    drop(second);
    written && refused && free
}

#[test]
fn folder_that_is_used_fails(rt: HostRuntime) -> Result<(), Fail> {
    assert!(rt; waits_for_the_first(&rt));
    Ok(fs::remove_dir_all(&rt, "used-folder")?)
}

fn refuses_at_a_file(rt: &HostRuntime) -> bool {
    let mut disk = FolderDisk::at(rt, "no-folder");
    let refused = refuses(&mut disk, false);
    drop(disk);
    refused
}

#[test]
fn folder_that_is_a_file_fails(rt: HostRuntime) -> Result<(), Fail> {
    fs::write(&rt, "no-folder", b"".as_slice())?;
    assert!(rt; refuses_at_a_file(&rt));
    Ok(fs::remove_file(&rt, "no-folder")?)
}
