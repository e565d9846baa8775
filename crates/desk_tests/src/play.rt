// Steps at a desk over a disk in memory.
ghost use Rattle.std.specs.Prelude.{◌≡◌, All};
ghost use Rattle.ebs_turns.specs.Known.{IsAt};

use ebs_desk::{Desk, Pass, Receipt, TurnRefusal};
use ebs_disk_store::{Progress, Promise};
use ebs_model::{
    Account, Answer, Bytes, KeyNumber, Moment, Refusal, Request, SnapKey, Tags, VolKey,
};
use ebs_slots::Prepared;
use ebs_world::Disk;
use std::alloc::{AllocError, Global};
use std::sync::Wait;
use std::thread;
use std::thread::Threads;

const BLOCK: usize = 524288;

const NOW: Moment = Moment { second: 1000 };

/// What an account does. It has one snapshot, and one volume of that.
#[derive(Clone, Copy)]
pub enum Step {
    Start,
    /// A block at an index of the upload, each byte of which is the account's number.
    Put(u64),
    Complete(u64),
    Copy,
    /// A block of the volume.
    Read(u64),
    Delete,
    Slice(u32),
    /// A checkpoint, where so many records stand.
    Save(u64),
}

/// What comes of it.
#[derive(Clone, Copy, PartialEq, Eq)]
pub enum Outcome {
    Done,
    /// The disk failed.
    Failed,
    Refused,
    More,
    Finished,
    /// A block that begins with the byte.
    Block(u8),
}

/// A step, with what comes of it.
pub type Row = (Step, Outcome);

fn account(number: u8) -> Account {
    Account::new(u64::from(number))
}

fn snapshot(number: u8) -> SnapKey {
    SnapKey {
        account: account(number),
        number: KeyNumber::new(0),
    }
}

fn request_of(alloc: Global, number: u8, step: Step) -> Request {
    match step {
        Step::Complete(count) => Request::CompleteSnapshot {
            key: snapshot(number),
            count,
            checksum: None,
        },
        Step::Copy => Request::CreateVolume {
            origin: Some(snapshot(number)),
            size: None,
            tags: Tags::new(alloc),
            client_token: None,
        },
        Step::Read(index) => Request::ReadVolumeBlock {
            key: VolKey {
                account: account(number),
                number: KeyNumber::new(0),
            },
            index,
        },
        Step::Delete => Request::DeleteSnapshot {
            key: snapshot(number),
        },
        _ => Request::StartSnapshot {
            size: 1,
            parent: None,
            description: None,
            tags: Tags::new(alloc),
            client_token: None,
            timeout: 60,
        },
    }
}

fn put_request(alloc: Global, number: u8, index: u64) -> Result<Option<Request>, AllocError> {
    let Ok(block) = Prepared::new(vec![in alloc; number; BLOCK]?) else {
        return Ok(None);
    };
    let bytes = Bytes::from_slice(alloc, block.bytes())?;
    Ok(Some(Request::PutSnapshotBlock {
        key: snapshot(number),
        index,
        digest: block.digest(),
        bytes,
    }))
}

fn outcome_of(answer: &Answer) -> Outcome {
    match answer {
        Answer::BlockRead { bytes, .. } => match bytes.as_slice().first() {
            Some(byte) => Outcome::Block(*byte),
            None => Outcome::Refused,
        },
        Answer::Refused(Refusal::Unavailable) => Outcome::Failed,
        Answer::Refused(_) | Answer::Memory => Outcome::Refused,
        _ => Outcome::Done,
    }
}

fn ask<R: Wait, S: Promise, D: Disk + Drop>(
    rt: &R,
    desk: &Desk<S, D>,
    pass: &mut Pass<S, D>,
    number: u8,
    request: Request,
) -> Outcome
    requires { IsAt desk.now.turns.board.shared desk.now.turns.passes pass.old.inner.seat }
    ensures { IsAt desk.now.turns.board.shared desk.now.turns.passes pass.new.inner.seat }
{
    let Receipt { answer, .. } = desk.call(rt, pass, account(number), NOW, request);
    let outcome = outcome_of(&answer);
    drop(answer);
    outcome
}

fn put<R: Wait, S: Promise, D: Disk + Drop>(
    rt: &R,
    alloc: Global,
    desk: &Desk<S, D>,
    pass: &mut Pass<S, D>,
    number: u8,
    index: u64,
) -> Result<Outcome, AllocError>
    requires { IsAt desk.now.turns.board.shared desk.now.turns.passes pass.old.inner.seat }
    ensures { IsAt desk.now.turns.board.shared desk.now.turns.passes pass.new.inner.seat }
{
    match put_request(alloc, number, index)? {
        Some(request) => Ok(ask(rt, desk, pass, number, request)),
        None => Ok(Outcome::Refused),
    }
}

fn slice<R: Wait, S: Promise, D: Disk + Drop>(
    rt: &R,
    desk: &Desk<S, D>,
    pass: &mut Pass<S, D>,
    work: u32,
) -> Outcome
    requires { IsAt desk.now.turns.board.shared desk.now.turns.passes pass.old.inner.seat }
    ensures { IsAt desk.now.turns.board.shared desk.now.turns.passes pass.new.inner.seat }
{
    match desk.collect(rt, pass, NOW, work) {
        Ok(Progress::More) => Outcome::More,
        Ok(Progress::Finished) => Outcome::Finished,
        Err(TurnRefusal::Unavailable) => Outcome::Failed,
        Err(_) => Outcome::Refused,
    }
}

fn save<R: Wait, S: Promise, D: Disk + Drop>(
    rt: &R,
    desk: &Desk<S, D>,
    pass: &mut Pass<S, D>,
    least: u64,
) -> Outcome
    requires { IsAt desk.now.turns.board.shared desk.now.turns.passes pass.old.inner.seat }
    ensures { IsAt desk.now.turns.board.shared desk.now.turns.passes pass.new.inner.seat }
{
    match desk.checkpoint(rt, pass, least) {
        Ok(()) => Outcome::Done,
        Err(TurnRefusal::Unavailable) => Outcome::Failed,
        Err(_) => Outcome::Refused,
    }
}

pub fn played<R: Wait, S: Promise, D: Disk + Drop>(
    rt: &R,
    alloc: Global,
    desk: &Desk<S, D>,
    pass: &mut Pass<S, D>,
    number: u8,
    step: Step,
) -> Result<Outcome, AllocError>
    requires { IsAt desk.now.turns.board.shared desk.now.turns.passes pass.old.inner.seat }
    ensures { IsAt desk.now.turns.board.shared desk.now.turns.passes pass.new.inner.seat }
{
    match step {
        Step::Put(index) => put(rt, alloc, desk, pass, number, index),
        Step::Slice(work) => Ok(slice(rt, desk, pass, work)),
        Step::Save(least) => Ok(save(rt, desk, pass, least)),
        other => Ok(ask(rt, desk, pass, number, request_of(alloc, number, other))),
    }
}

/// Whether each step of an account comes to what is written beside it.
pub fn is_played<R: Wait, S: Promise, D: Disk + Drop>(
    rt: &R,
    alloc: Global,
    desk: &Desk<S, D>,
    pass: &mut Pass<S, D>,
    number: u8,
    rows: &[Row],
) -> Result<bool, AllocError>
    requires { IsAt desk.now.turns.board.shared desk.now.turns.passes pass.old.inner.seat }
    ensures { IsAt desk.now.turns.board.shared desk.now.turns.passes pass.new.inner.seat }
{
    'row: for (step, outcome) in rows {
        if played(rt, alloc, desk, pass, number, *step)? != *outcome {
            return Ok(false);
        }
    }
    Ok(true)
}

/// Who plays rows as an account, with a pass.
#[derive(Drop)]
pub struct Worker<P> {
    pub pass: P,
    pub number: u8,
    pub is_so: bool,
}

pub fn with_pass<P>(pass: P, number: u8) -> Worker<P>
    ensures { result.pass ≡ pass }
{
    Worker {
        pass,
        number,
        is_so: false,
    }
}

/// A block is uploaded.
const UPLOAD: [Row; 3] = [
    (Step::Start, Outcome::Done),
    (Step::Put(0), Outcome::Done),
    (Step::Complete(1), Outcome::Done),
];

fn work<R: Wait, S: Promise, D: Disk + Drop>(
    rt: &R,
    alloc: Global,
    desk: &Desk<S, D>,
    worker: &mut Worker<Pass<S, D>>,
)
    requires { IsAt desk.now.turns.board.shared desk.now.turns.passes worker.old.pass.inner.seat }
    ensures { IsAt desk.now.turns.board.shared desk.now.turns.passes worker.new.pass.inner.seat }
{
    let played = is_played(rt, alloc, desk, &mut worker.pass, worker.number, &UPLOAD);
    worker.is_so = matches!(played, Ok(true));
}

/// Each worker uploads a block, in a thread of its own where one can be had.
pub fn work_all<R: Threads + Wait + Sync, S: Promise + Send, D: Disk + Drop + Send>(
    rt: &R,
    alloc: Global,
    desk: &Desk<S, D>,
    workers: &mut [Worker<Pass<S, D>>],
)
    requires { All (λ w. IsAt desk.now.turns.board.shared desk.now.turns.passes w.pass.inner.seat) workers.old }
    ensures { All (λ w. IsAt desk.now.turns.board.shared desk.now.turns.passes w.pass.inner.seat) workers.new }
{
    let count = workers.len().max(1);
    let serve = |_place: usize, worker: &mut Worker<Pass<S, D>>|
        requires { IsAt desk.now.turns.board.shared desk.now.turns.passes worker.old.pass.inner.seat }
        ensures { IsAt desk.entry.now.turns.board.shared desk.entry.now.turns.passes worker.new.pass.inner.seat }
    { work(rt, alloc, desk, worker) };
    thread::for_each_mut(rt, workers, count, &serve);
}
