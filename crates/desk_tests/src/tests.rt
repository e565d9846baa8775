ghost use Rattle.std.specs.Prelude.{IfSome};
ghost use Rattle.ebs_turns.specs.Known.{IsAt};

use crate::play::{Outcome, Row, Step, is_played, played, with_pass, work_all};
use ebs_desk::{Desk, Pass};
use ebs_opening::open_or_make;
use ebs_world::MemoryDisk;
use std::alloc::{AllocError, Global};
use std::marker::Brand;
use std::sync::Wait;
use std::test::Fail;
use std::thread::Threads;

/// What a desk leaves: how many slots blocks have, and how many records stand behind the last checkpoint.
#[derive(Clone, Copy, PartialEq, Eq)]
struct Ended {
    standard: u64,
    records: u64,
}

/// A desk for two passes over a new store, of whose disk these calls fail.
fn desk_of(
    alloc: Global,
    failing: Vec<u64>,
) -> Option<(Desk<Brand, MemoryDisk>, Pass<Brand, MemoryDisk>)>
    ensures { IfSome result (λ r. IsAt r.0.turns.board.shared r.0.turns.passes r.1.inner.seat) }
{
    let mut disk = MemoryDisk::new(alloc, failing);
    match open_or_make::<Brand, MemoryDisk>(alloc, &mut disk) {
        Ok(store) => match Desk::new(alloc, store, disk, 2) {
            Ok(made) => Some(made),
            Err(left) => {
                drop(left);
                None
            }
        },
        Err(_) => None,
    }
}

/// What a desk leaves whose passes have met.
fn close(desk: Desk<Brand, MemoryDisk>, pass: Pass<Brand, MemoryDisk>) -> Option<Ended>
    requires { IsAt desk.turns.board.shared desk.turns.passes pass.inner.seat }
{
    match desk.close(pass) {
        Ok((store, disk)) => {
            let ended = Ended {
                standard: store.usage().standard,
                records: store.records(),
            };
            drop((store, disk));
            Some(ended)
        }
        Err(left) => {
            drop(left);
            None
        }
    }
}

/// What comes of a step that is done twice at a new desk, the number of whose disk's call is given that fails. None where that is one of the making.
fn outcomes<R: Wait>(
    rt: &R,
    alloc: Global,
    failing: u64,
    step: Step,
) -> Result<Option<(Outcome, Outcome)>, AllocError> {
    match desk_of(alloc, vec![in alloc; failing; 1]?) {
        Some((desk, mut pass)) => {
            let first = played(rt, alloc, &desk, &mut pass, 1, step);
            let second = played(rt, alloc, &desk, &mut pass, 1, step);
            drop((desk, pass));
            Ok(Some((first?, second?)))
        }
        None => Ok(None),
    }
}

/// What a pass reads that has seen an upload of this account.
const FIRST_READS: [Row; 2] = [
    (Step::Copy, Outcome::Done),
    (Step::Read(0), Outcome::Block(1)),
];

const SECOND_READS: [Row; 2] = [
    (Step::Copy, Outcome::Done),
    (Step::Read(0), Outcome::Block(2)),
];

/// Two passes of a desk, of which the first was there before.
type Passes = (Pass<Brand, MemoryDisk>, Pass<Brand, MemoryDisk>);

/// Two workers upload a block each, and give their passes back, the first first. None where one of them wasn't done.
fn work_both<R: Threads + Wait + Sync>(
    rt: &R,
    alloc: Global,
    desk: &Desk<Brand, MemoryDisk>,
    mut first: Pass<Brand, MemoryDisk>,
) -> Option<Passes>
    requires { IsAt desk.now.turns.board.shared desk.now.turns.passes first.inner.seat }
    ensures { IfSome result (λ r. IsAt desk.now.turns.board.shared desk.now.turns.passes r.0.inner.seat × IsAt desk.now.turns.board.shared desk.now.turns.passes r.1.inner.seat) }
{
    let second = desk.split(&mut first)?;
    if desk.split(&mut first).is_some() {
        return None;
    }
    let mut workers = [with_pass(first, 1), with_pass(second, 2)];
    work_all(rt, alloc, desk, &mut workers);
    let [kept, other] = workers;
    if kept.is_so && other.is_so {
        Some((kept.pass, other.pass))
    } else {
        None
    }
}

/// What a desk leaves that isn't closed while a pass is out, and whose kept pass reads what both put.
fn meet_both<R: Wait>(
    rt: &R,
    alloc: Global,
    desk: Desk<Brand, MemoryDisk>,
    passes: Passes,
) -> Option<Ended>
    requires kept { IsAt desk.turns.board.shared desk.turns.passes passes.0.inner.seat }
    requires other { IsAt desk.turns.board.shared desk.turns.passes passes.1.inner.seat }
{
    let (kept, other) = passes;
    match desk.close(kept) {
        Ok(closed) => {
            drop(closed);
            None
        }
        Err((desk, mut kept)) => {
            desk.meet(&mut kept, other);
            let first = is_played(rt, alloc, &desk, &mut kept, 1, &FIRST_READS);
            let second = is_played(rt, alloc, &desk, &mut kept, 2, &SECOND_READS);
            let left = close(desk, kept);
            if matches!((first, second), (Ok(true), Ok(true))) {
                left
            } else {
                None
            }
        }
    }
}

/// What a desk leaves at which two threads work.
fn left_by_both<R: Threads + Wait + Sync>(rt: &R, alloc: Global) -> Option<Ended> {
    let (desk, first) = desk_of(alloc, Vec::new(alloc))?;
    match work_both(rt, alloc, &desk, first) {
        Some(passes) => meet_both(rt, alloc, desk, passes),
        None => {
            drop(desk);
            None
        }
    }
}

#[test]
fn the_pass_that_is_kept_reads_what_both_put(rt: HostRuntime) {
    let wanted = Some(Ended {
        standard: 2,
        records: 8,
    });
    assert!(rt; left_by_both(&rt, rt.alloc()) == wanted);
}

/// What a desk leaves at which rows are played by one pass, where each comes to what is written beside it.
fn left_by<R: Wait>(rt: &R, alloc: Global, rows: &[Row]) -> Result<Option<Ended>, AllocError> {
    let Some((desk, mut pass)) = desk_of(alloc, Vec::new(alloc)) else {
        return Ok(None);
    };
    let played = is_played(rt, alloc, &desk, &mut pass, 1, rows);
    let left = close(desk, pass);
    Ok(if played? { left } else { None })
}

/// Blocks of a deleted snapshot are looked at one by one.
const DELETED: [Row; 7] = [
    (Step::Start, Outcome::Done),
    (Step::Put(0), Outcome::Done),
    (Step::Put(1), Outcome::Done),
    (Step::Complete(2), Outcome::Done),
    (Step::Delete, Outcome::Done),
    (Step::Slice(1), Outcome::More),
    (Step::Slice(1), Outcome::Finished),
];

/// A checkpoint is passed over, and then written.
const SAVED: [Row; 7] = [
    (Step::Start, Outcome::Done),
    (Step::Put(0), Outcome::Done),
    (Step::Complete(1), Outcome::Done),
    (Step::Save(4), Outcome::Done),
    (Step::Copy, Outcome::Done),
    (Step::Save(4), Outcome::Done),
    (Step::Read(0), Outcome::Block(1)),
];

#[test]
fn slices_and_checkpoints_leave_what_they_tell(rt: HostRuntime) -> Result<(), Fail> {
    let alloc = rt.alloc();
    assert!(rt;
        left_by(&rt, alloc, &DELETED)?
            == Some(Ended {
                standard: 0,
                records: 5,
            })
    );
    assert!(rt;
        left_by(&rt, alloc, &SAVED)?
            == Some(Ended {
                standard: 1,
                records: 0,
            })
    );
    Ok(())
}

/// How many calls of the disk make a step fail that is done when it is asked again. None where one has anything else come of it.
fn faults_of<R: Wait>(rt: &R, alloc: Global, step: Step) -> Result<Option<u32>, AllocError> {
    let mut count = 0u32;
    for failing in 0..40 {
        match outcomes(rt, alloc, failing, step)? {
            None | Some((Outcome::Done, Outcome::Done | Outcome::Failed)) => {}
            Some((Outcome::Failed, Outcome::Done)) => count = count.saturating_add(1),
            Some(_) => return Ok(None),
        }
    }
    Ok(Some(count))
}

#[test]
fn what_the_disk_failed_once_is_done_then(rt: HostRuntime) -> Result<(), Fail> {
    let alloc = rt.alloc();
    assert!(rt; faults_of(&rt, alloc, Step::Start)? == Some(4));
    assert!(rt; faults_of(&rt, alloc, Step::Save(0))? == Some(6));
    Ok(())
}
