// What no clause says of a journal: that its calls succeed, its bytes, and what each crash leaves.
use super::helpers::{PICKS, failing};
use ebs_journal::*;
use ebs_model::Bytes;
use ebs_world::{Area, CrashPick, Disk, MemoryDisk};
use std::alloc::{AllocError, Global};
use std::process::Abort;

const CHECKPOINT: [u8; 96] = [0; 96];

/// A call that was acknowledged, the making by 0, and the disk's moment then.
#[derive(Clone, Copy)]
struct Acknowledged {
    moment: u64,
    label: u8,
}

/// Appends where the journal is clean.
fn append_clean<D: Disk>(journal: &mut Journal, disk: &mut D, payload: &[u8]) -> bool {
    if !journal.is_clean() {
        return false;
    }
    if journal.end() > 1_000_000 {
        return false;
    }
    if payload.is_empty() {
        return false;
    }
    if payload.len() > 1000 {
        return false;
    }
    journal.append(disk, payload).is_ok()
}

fn add<D: Disk>(journal: &mut Journal, disk: &mut D, payload: &[u8]) -> bool {
    if !journal.is_clean() && journal.mend(disk).is_err() {
        return false;
    }
    append_clean(journal, disk, payload)
}

/// Adds a record of seven of these bytes.
fn add_label<D: Disk>(journal: &mut Journal, disk: &mut D, label: u8) -> bool {
    add(journal, disk, &[label; 7])
}

/// Adds the disk's moment to those of calls that were acknowledged.
fn acknowledge(
    all: &mut Vec<Acknowledged>,
    disk: &MemoryDisk,
    label: u8,
) -> Result<(), AllocError> {
    let moment = disk.moment();
    all.push(Acknowledged { moment, label })?;
    Ok(())
}

/// Rotates where the journal is clean.
fn rotate_clean<D: Disk>(journal: &mut Journal, disk: &mut D, checkpoint: &[u8]) -> bool {
    if !journal.is_clean() {
        return false;
    }
    if journal.epoch() > 1_000_000 {
        return false;
    }
    if checkpoint.len() > 1000 {
        return false;
    }
    journal.rotate(disk, checkpoint).is_ok()
}

/// Rotates to a checkpoint of seven of these bytes.
fn turn_label<D: Disk>(journal: &mut Journal, disk: &mut D, label: u8) -> bool {
    if !journal.is_clean() && journal.mend(disk).is_err() {
        return false;
    }
    rotate_clean(journal, disk, &[label; 7])
}

/// An append, or where the label is even a rotation.
fn go_on<D: Disk>(journal: &mut Journal, disk: &mut D, label: u8) -> bool {
    if label % 2 == 0 {
        turn_label(journal, disk, label)
    } else {
        add_label(journal, disk, label)
    }
}

/// Appends and rotations, each after a mend where one is needed.
fn go_through(
    journal: &mut Journal,
    disk: &mut MemoryDisk,
    labels: &[u8],
    all: &mut Vec<Acknowledged>,
) -> Result<(), AllocError> {
    acknowledge(all, disk, 0)?;
    for label in labels {
        let label = *label;
        if go_on(journal, disk, label) {
            acknowledge(all, disk, label)?;
        }
    }
    Ok(())
}

/// A making, and what these labels say. Those that were acknowledged are added to all.
fn play(
    alloc: Global,
    disk: &mut MemoryDisk,
    labels: &[u8],
    all: &mut Vec<Acknowledged>,
) -> Result<(), AllocError> {
    let Ok(mut journal) = Journal::make(alloc, disk, &CHECKPOINT) else {
        return Ok(());
    };
    let done = go_through(&mut journal, disk, labels, all);
    drop(journal);
    done
}

fn is_labelled(record: &Bytes, label: u8) -> bool {
    let want = [label; 7];
    record.as_slice() == want.as_slice()
}

/// Whether the records begin with these, as far as both go.
fn begin_with(records: &[Bytes], appended: &[Acknowledged]) -> bool {
    for (record, one) in records.iter().zip(appended) {
        if !is_labelled(record, one.label) {
            return false;
        }
    }
    true
}

/// Whether the records are these, or these and one more.
fn are_these(records: &[Bytes], appended: &[Acknowledged]) -> bool {
    let (found, least) = (records.len(), appended.len());
    begin_with(records, appended) && (found == least || found == least.saturating_add(1))
}

/// The place of the last call that wrote a checkpoint.
fn last_base(calls: &[Acknowledged]) -> usize {
    let mut last = 0;
    for (at, call) in calls.iter().enumerate() {
        if call.label % 2 == 0 {
            last = at;
        }
    }
    last
}

/// The label of a checkpoint, which is even.
fn base_label(replay: &Replay) -> Option<u8> {
    replay.checkpoint.as_slice().first().copied()
}

/// Whether the journal has this checkpoint and these records, or one record or one rotation more.
fn is_from(replay: &Replay, base: u8, appended: &[Acknowledged]) -> bool {
    match base_label(replay) {
        Some(label) if label == base => are_these(replay.records.as_slice(), appended),
        Some(label) => label > base && replay.records.as_slice().is_empty(),
        None => false,
    }
}

/// Whether the journal is that of the calls, the making first, or of these and one more.
fn is_of(replay: &Replay, calls: &[Acknowledged]) -> bool {
    match calls.get(last_base(calls)..) {
        Some([base, appended @ ..]) => is_from(replay, base.label, appended),
        Some([]) => replay.records.as_slice().is_empty(),
        None => false,
    }
}

/// Whether an opening gives what was acknowledged by that moment, or one more.
fn opens_so(alloc: Global, disk: &mut MemoryDisk, moment: u64, all: &[Acknowledged]) -> bool {
    let count = all.iter().filter(|one| one.moment <= moment).count();
    let Some(by_then) = all.get(..count) else {
        return false;
    };
    match Journal::open(alloc, disk) {
        Ok((journal, replay)) => {
            drop(journal);
            let found = is_of(&replay, by_then);
            drop(replay);
            found
        }
        Err(refusal) => refusal == JournalRefusal::NotMade && by_then.is_empty(),
    }
}

/// Whether it is so of what a crash at the moment, which mustn't be to come, leaves by this pick.
fn pick_so(
    alloc: Global,
    disk: &MemoryDisk,
    moment: u64,
    pick: CrashPick,
    all: &[Acknowledged],
) -> bool {
    if moment > disk.moment() {
        return false;
    }
    match disk.crash(moment, pick) {
        Ok(mut left) => {
            let so = opens_so(alloc, &mut left, moment, all);
            drop(left);
            so
        }
        Err(_) => false,
    }
}

fn moment_so(alloc: Global, disk: &MemoryDisk, moment: u64, all: &[Acknowledged]) -> bool {
    for pick in PICKS {
        if !pick_so(alloc, disk, moment, pick, all) {
            return false;
        }
    }
    true
}

fn each_moment_so(alloc: Global, disk: &MemoryDisk, all: &[Acknowledged]) -> bool {
    for moment in 0..=disk.moment() {
        if !moment_so(alloc, disk, moment, all) {
            return false;
        }
    }
    true
}

/// Whether it is so after a crash of each moment.
fn moments_so(
    alloc: Global,
    disk: &mut MemoryDisk,
    labels: &[u8],
    all: &mut Vec<Acknowledged>,
) -> bool {
    play(alloc, disk, labels, all).is_ok() && each_moment_so(alloc, disk, all.as_slice())
}

/// Whether it is so of these labels where these calls fail.
fn run_so(alloc: Global, labels: &[u8], fail: &[u64]) -> bool {
    match failing(alloc, fail) {
        Ok(mut disk) => {
            let mut all = Vec::new(alloc);
            let so = moments_so(alloc, &mut disk, labels, &mut all);
            drop(all);
            drop(disk);
            so
        }
        Err(_) => false,
    }
}

const APPENDS: [u8; 5] = [1, 3, 5, 7, 9];

const TURNS: [u8; 6] = [1, 2, 3, 4, 6, 7];

/// Each of the first calls failing.
fn assert_runs(rt: &impl Abort, alloc: Global, labels: &[u8], calls: u64) {
    for call in 0..calls {
        assert!(rt; run_so(alloc, labels, &[call]));
    }
}

/// Each of them and the next one failing, from the ninth on.
fn assert_pairs(rt: &impl Abort, alloc: Global, labels: &[u8], calls: u64) {
    for call in 8..calls {
        assert!(rt; run_so(alloc, labels, &[call, call.saturating_add(1)]));
    }
}

#[test]
fn each_moment_has_what_was_acknowledged(rt: HostRuntime) {
    assert!(rt; run_so(rt.alloc(), &APPENDS, &[]));
    assert_runs(&rt, rt.alloc(), &APPENDS, 30);
}

#[test]
fn each_moment_has_it_where_a_mend_fails_too(rt: HostRuntime) {
    assert_pairs(&rt, rt.alloc(), &APPENDS, 30);
}

#[test]
fn each_moment_of_rotations_has_what_was_acknowledged(rt: HostRuntime) {
    assert!(rt; run_so(rt.alloc(), &TURNS, &[]));
    assert_runs(&rt, rt.alloc(), &TURNS, 48);
}

#[test]
fn each_moment_of_rotations_has_it_where_a_mend_fails_too(rt: HostRuntime) {
    assert_pairs(&rt, rt.alloc(), &TURNS, 48);
}

/// Whether an opening finds this epoch, the label's checkpoint, and one record.
fn opens_at(alloc: Global, disk: &mut MemoryDisk, label: u8, epoch: u64) -> bool {
    match Journal::open(alloc, disk) {
        Ok((journal, replay)) => {
            let found = journal.epoch() == epoch && base_label(&replay) == Some(label);
            let one = replay.records.as_slice().len() == 1;
            drop(journal);
            drop(replay);
            found && one
        }
        Err(_) => false,
    }
}

/// Whether a rotation to this label succeeds, lies in that area with that epoch, and is opened with the record behind it.
fn turns_so(
    alloc: Global,
    journal: &mut Journal,
    disk: &mut MemoryDisk,
    (label, area, epoch): (u8, Area, u64),
) -> bool {
    let turned = turn_label(journal, disk, label);
    let there = journal.epoch() == epoch && journal.end() == 37 && journal.since_checkpoint() == 0;
    let added = add_label(journal, disk, 1) && disk.end(area) == 49;
    turned && there && added && opens_at(alloc, disk, label, epoch)
}

fn makes_and_turns(alloc: Global, disk: &mut MemoryDisk) -> Result<bool, JournalRefusal> {
    let mut journal = Journal::make(alloc, disk, &[0; 7])?;
    let added = add_label(&mut journal, disk, 1);
    let there = turns_so(alloc, &mut journal, disk, (2, Area::Journal1, 2));
    let back = turns_so(alloc, &mut journal, disk, (4, Area::Journal0, 3));
    drop(journal);
    Ok(added && there && back)
}

fn turns(alloc: Global) -> Result<bool, JournalRefusal> {
    let mut disk = MemoryDisk::new(alloc, Vec::new(alloc));
    let so = makes_and_turns(alloc, &mut disk);
    drop(disk);
    so
}

#[test]
fn a_rotation_goes_on_in_the_other_area(rt: HostRuntime) {
    assert!(rt; turns(rt.alloc()) == Ok(true));
}

/// Whether the disk fails in an opening.
fn fails(alloc: Global, disk: &mut MemoryDisk) -> bool {
    match Journal::open(alloc, disk) {
        Ok((journal, replay)) => {
            drop(journal);
            drop(replay);
            false
        }
        Err(refusal) => refusal == JournalRefusal::DiskFailed,
    }
}

fn fails_and_opens(
    alloc: Global,
    disk: &mut MemoryDisk,
    all: &mut Vec<Acknowledged>,
) -> Option<bool> {
    if play(alloc, disk, &APPENDS, all).is_err() {
        return None;
    }
    let failed = fails(alloc, disk);
    let last = disk.moment();
    Some(failed && opens_so(alloc, disk, last, all.as_slice()))
}

/// Whether an opening fails at this one of its calls, and the next one gives all records.
fn fails_once(alloc: Global, call: u64) -> Option<bool> {
    match failing(alloc, &[call]) {
        Ok(mut disk) => {
            let mut all = Vec::new(alloc);
            let so = fails_and_opens(alloc, &mut disk, &mut all);
            drop(all);
            drop(disk);
            so
        }
        Err(_) => None,
    }
}

fn assert_openings(rt: &impl Abort, alloc: Global) {
    for call in 28..49u64 {
        assert!(rt; fails_once(alloc, call) == Some(true));
    }
}

#[test]
fn an_opening_fails_at_each_call(rt: HostRuntime) {
    assert_openings(&rt, rt.alloc());
    assert!(rt; fails_once(rt.alloc(), 49) == Some(false));
}

/// Whether the last byte of the journal is a gate that is shut.
fn is_shut(disk: &mut MemoryDisk) -> bool {
    let mut gate = [7];
    disk.read(Area::Journal0, 167, &mut gate).is_ok() && gate == [0]
}

/// An append whose gate isn't written.
fn is_unsure(journal: &mut Journal, disk: &mut MemoryDisk) -> bool {
    let made = journal.end() == 126 && disk.end(Area::Journal0) == 126;
    made && !add(journal, disk, &[5; 37]) && !journal.is_clean() && journal.since_checkpoint() == 0
}

fn is_mended(journal: &mut Journal, disk: &mut MemoryDisk) -> bool {
    journal.mend(disk).is_ok() && journal.is_clean()
}

fn is_added(journal: &mut Journal, disk: &mut MemoryDisk) -> bool {
    add(journal, disk, &[5; 37])
        && journal.end() == 168
        && journal.since_checkpoint() == 1
        && is_shut(disk)
}

/// An append whose gate isn't written, a mend, and an append.
fn mends_so(alloc: Global, journal: &mut Journal, disk: &mut MemoryDisk) -> bool {
    let mended = is_unsure(journal, disk) && is_mended(journal, disk);
    let moment = disk.moment();
    let label = 0;
    let alone = moment_so(alloc, disk, moment, &[Acknowledged { moment, label }]);
    mended && alone && is_added(journal, disk)
}

fn makes_and_mends(alloc: Global, disk: &mut MemoryDisk) -> Result<bool, JournalRefusal> {
    let mut journal = Journal::make(alloc, disk, &CHECKPOINT)?;
    let so = mends_so(alloc, &mut journal, disk);
    drop(journal);
    Ok(so)
}

fn mends(alloc: Global) -> Result<bool, JournalRefusal> {
    let mut disk = failing(alloc, &[10])?;
    let so = makes_and_mends(alloc, &mut disk);
    drop(disk);
    so
}

#[test]
fn a_gate_that_failed_is_mended(rt: HostRuntime) {
    assert!(rt; mends(rt.alloc()) == Ok(true));
}

/// Bytes that are written over a made journal with one record of 37 bytes.
type Over<'a> = &'a [(Area, u16, &'a [u8])];

/// Makes a journal with one record.
fn make_one(alloc: Global, disk: &mut MemoryDisk) -> Result<(), JournalRefusal> {
    let mut journal = Journal::make(alloc, disk, &CHECKPOINT)?;
    let added = add(&mut journal, disk, &[5; 37]);
    drop(journal);
    if added {
        Ok(())
    } else {
        Err(JournalRefusal::Memory)
    }
}

fn write_at(disk: &mut MemoryDisk, area: Area, at: u16, piece: &[u8]) -> bool {
    piece.len() < 100 && disk.write(area, u64::from(at), piece).is_ok()
}

fn write_over(disk: &mut MemoryDisk, over: Over) -> Result<(), JournalRefusal> {
    for (area, at, piece) in over {
        if !write_at(disk, *area, *at, piece) {
            return Err(JournalRefusal::Memory);
        }
    }
    Ok(())
}

fn open_over(
    alloc: Global,
    disk: &mut MemoryDisk,
    over: Over,
) -> Result<(usize, u64), JournalRefusal> {
    make_one(alloc, disk)?;
    write_over(disk, over)?;
    let (journal, replay) = Journal::open(alloc, disk)?;
    let found = (replay.records.as_slice().len(), journal.epoch());
    drop(journal);
    drop(replay);
    Ok(found)
}

/// The number of records and the epoch that an opening then finds.
fn opened(alloc: Global, over: Over) -> Result<(usize, u64), JournalRefusal> {
    let mut disk = MemoryDisk::new(alloc, Vec::new(alloc));
    let found = open_over(alloc, &mut disk, over);
    drop(disk);
    found
}

fn opens_as(alloc: Global, cases: &[(Over, Result<(usize, u64), JournalRefusal>)]) -> bool {
    for (over, want) in cases {
        if opened(alloc, over) != *want {
            return false;
        }
    }
    true
}

const SECOND: [u8; 30] = *b"\x01EBSJRNAL\0\0\0\x01\0\0\0\0\0\0\0\x02\0\0\0\0\0\0\0\0\0";

use Area::{Archive, Journal0, Journal1};

const FOUND: [(Over, Result<(usize, u64), JournalRefusal>); 14] = [
    (&[], Ok((1, 1))),
    (&[(Journal0, 125, &[2])], Ok((0, 1))),
    (&[(Archive, 0, &[0])], Err(JournalRefusal::NotMade)),
    (
        &[(Journal0, 1, b"ebsjrnal")],
        Err(JournalRefusal::NotAJournal(*b"\x01ebsjrnal")),
    ),
    (
        &[(Journal0, 0, &[0])],
        Err(JournalRefusal::NotAJournal(*b"\0EBSJRNAL")),
    ),
    (
        &[(Journal1, 0, b"\x01nothing ")],
        Err(JournalRefusal::NotAJournal(*b"\x01nothing ")),
    ),
    (&[(Journal1, 0, &SECOND)], Ok((0, 2))),
    (&[(Journal1, 0, &SECOND), (Journal1, 20, &[1])], Ok((1, 1))),
    (
        &[(Journal0, 9, &[0, 0, 0, 9])],
        Err(JournalRefusal::BadVersion(9)),
    ),
    (
        &[(Journal0, 126, &[0, 0, 0, 0])],
        Err(JournalRefusal::BadLength(125)),
    ),
    (
        &[(Journal0, 126, &[0, 16, 0, 1])],
        Err(JournalRefusal::BadLength(125)),
    ),
    (&[(Journal0, 126, &[0, 16, 0, 0])], Ok((1, 1))),
    (
        &[(Journal0, 167, &[1])],
        Err(JournalRefusal::BadLength(167)),
    ),
    (
        &[(Journal0, 21, &[0, 0, 1, 0, 0, 0, 0, 1])],
        Err(JournalRefusal::BadLength(21)),
    ),
];

#[test]
fn what_an_opening_finds(rt: HostRuntime) {
    assert!(rt; opens_as(rt.alloc(), &FOUND));
}
