// What no clause says of a server: that calls succeed, that connections are answered beside each other, and which status tells a case.
ghost use Rattle.std.specs.Prelude.{◌≤◌, vec_len, IfSome};
ghost use Rattle.ebs_turns.specs.Known.{IsAt};

use crash_play::{Call, Upload, command, has_all, input_of};
use ebs_desk::{Desk, Pass};
use ebs_disk_store::Promise;
use ebs_doors::{Gate, MemoryConn, MemoryListener, OpenGate};
use ebs_model::{Bytes, Moment};
use ebs_opening::open_or_make;
use ebs_rest::Routes;
use ebs_server::{Bell, Post, ServeEnd, serve, serve_connection, serve_status};
use ebs_session::End;
use ebs_world::{Disk, ListClock, MemoryDisk, MemorySink, MemorySource};
use std::alloc::{AllocError, Global};
use std::marker::Brand;
use std::sync::Wait;
use std::sync::atomic::{AtomicU64, Ordering};
use std::test::Fail;
use std::thread;
use std::thread::Threads;
use std::time::{Clock, Duration};

const PIECE: u32 = 65536;

/// The calls of a connection.
type Calls = &'static [Call];

/// The connections that come to a post, and the numbers of its listener's calls that fail.
type Plan = (&'static [Calls], &'static [u64]);

type MemoryPost = Post<MemoryListener<MemoryConn>, ListClock>;

const FIRST: Calls = &[
    Call::Start,
    Call::Put(Upload::Parent, 0, 5),
    Call::Put(Upload::Parent, 7, 6),
    Call::Complete(Upload::Parent, 2),
];

const SECOND: Calls = &[
    Call::StartChild,
    Call::Put(Upload::Child, 7, 9),
    Call::Complete(Upload::Child, 1),
    Call::DeleteParent,
];

fn clock(alloc: Global) -> Result<ListClock, AllocError> {
    Ok(ListClock::new(vec![in alloc; Moment { second: 1000 }]?))
}

fn conn_of(alloc: Global, calls: Calls) -> Result<MemoryConn, AllocError> {
    let input = Bytes::from_vec(input_of(alloc, calls, 1)?);
    let source = MemorySource::new(input, PIECE, Vec::new(alloc));
    Ok(MemoryConn::new(source, MemorySink::new(alloc, Vec::new(alloc))))
}

fn post_of(alloc: Global, plan: &Plan) -> Result<MemoryPost, AllocError> {
    let mut conns = Vec::new(alloc);
    for calls in plan.0 {
        conns.push(conn_of(alloc, calls)?)?;
    }
    let listener = MemoryListener::new(conns, Vec::from_slice(alloc, plan.1)?);
    let clock = clock(alloc)?;
    Ok(Post { listener, clock })
}

fn posts_of(alloc: Global, plans: &[Plan]) -> Result<Vec<MemoryPost>, AllocError> {
    let mut posts = Vec::new(alloc);
    for plan in plans {
        posts.push(post_of(alloc, plan)?)?;
    }
    Ok(posts)
}

/// Serves the posts, and gives the status and the disk.
fn play<R: Threads + Wait + Sync, G: Gate + Sync>(
    rt: &R,
    alloc: Global,
    posts: Vec<MemoryPost>,
    disk: MemoryDisk,
    clock: ListClock,
    gate: &G,
) -> (u8, MemoryDisk) {
    if posts.len() > 64 {
        drop(posts);
        return (1, disk);
    }
    let end = serve(rt, alloc, posts, disk, clock, gate);
    let status = serve_status(&end);
    match end {
        ServeEnd::Ended(posts, disk) => {
            drop(posts);
            (status, disk)
        }
        ServeEnd::Refused(_, disk) | ServeEnd::Memory(disk) => (status, disk),
    }
}

/// Serves what is planned over a new disk of which the calls with these numbers fail.
fn play_plans<R: Threads + Wait + Sync, G: Gate + Sync>(
    rt: &R,
    alloc: Global,
    plans: &[Plan],
    fail: &[u64],
    gate: &G,
) -> Result<(u8, MemoryDisk), AllocError> {
    let disk = MemoryDisk::new(alloc, Vec::from_slice(alloc, fail)?);
    let posts = posts_of(alloc, plans)?;
    let clock = clock(alloc)?;
    Ok(play(rt, alloc, posts, disk, clock, gate))
}

#[test]
fn what_connections_did_is_there(rt: HostRuntime) -> Result<(), Fail> {
    let alloc = rt.alloc();
    let plans: [Plan; 2] = [(&[FIRST, SECOND], &[]), (&[], &[])];
    let (status, mut disk) = play_plans(&rt, alloc, &plans, &[], &OpenGate)?;
    assert!(rt; status == 0 && has_all(alloc, &mut disk)?);
    Ok(())
}

/// What is planned, which calls of the disk fail, and the status.
type Case = (&'static [Plan], &'static [u64], u8);

const CASES: [Case; 5] = [
    (&[], &[], 0),
    (&[(&[], &[])], &[], 0),
    (&[(&[], &[])], &[0], 2),
    (&[(&[&[Call::Start]], &[1])], &[], 4),
    (&[(&[], &[]), (&[], &[0])], &[], 4),
];

fn ends_so<R: Threads + Wait + Sync>(
    rt: &R,
    alloc: Global,
    case: &Case,
) -> Result<bool, AllocError> {
    let (status, disk) = play_plans(rt, alloc, case.0, case.1, &OpenGate)?;
    drop(disk);
    Ok(status == case.2)
}

#[test]
fn a_status_tells_how_serving_ended(rt: HostRuntime) -> Result<(), Fail> {
    for case in &CASES {
        assert!(rt; ends_so(&rt, rt.alloc(), case)?);
    }
    Ok(())
}

/// Holds the first turn back until an answer was written, with this many tries.
#[derive(Drop)]
struct HoldingGate<'a, R: Clock> {
    rt: &'a R,
    turns: AtomicU64,
    answers: AtomicU64,
}

const MOST_TRIES: u64 = 10000;

impl<R: Clock> Gate for HoldingGate<'_, R> {
    fn before_turn(&self) {
        if self.turns.fetch_add(1, Ordering::SeqCst) > 0 {
            return;
        }
        for _ in 0..MOST_TRIES {
            if self.answers.load(Ordering::SeqCst) > 0 {
                return;
            }
            thread::sleep(self.rt, Duration::from_millis(1));
        }
    }

    fn after_answer(&self) {
        if self.turns.load(Ordering::SeqCst) > 1 {
            self.answers.fetch_add(1, Ordering::SeqCst);
        }
    }
}

#[test]
fn connections_are_answered_beside_each_other(rt: HostRuntime) -> Result<(), Fail> {
    let alloc = rt.alloc();
    let gate = HoldingGate {
        rt: &rt,
        turns: AtomicU64::new(0),
        answers: AtomicU64::new(0),
    };
    let plans: [Plan; 2] = [(&[&[Call::Start]], &[]), (&[&[Call::StartApart]], &[])];
    let (status, mut disk) = play_plans(&rt, alloc, &plans, &[], &gate)?;
    assert!(rt; status == 0 && gate.answers.load(Ordering::SeqCst) == 2);
    let told = command(alloc, &mut disk, "usage")?;
    assert!(rt; told.status == 0);
    Ok(())
}

/// A connection that brings these calls, of whose input and output the calls with these numbers fail, and how it ends.
type Ending = (Calls, &'static [u64], &'static [u64], End);

const STARTS: Calls = &[Call::Start, Call::StartApart];

const ENDINGS: [Ending; 5] = [
    (STARTS, &[], &[], End::Done),
    (STARTS, &[0], &[], End::InputFailed),
    (STARTS, &[1], &[], End::InputFailed),
    (STARTS, &[], &[0], End::OutputFailed),
    (STARTS, &[], &[1], End::OutputFailed),
];

/// A desk for one pass over a new store.
fn desk_of(alloc: Global) -> Option<(Desk<Brand, MemoryDisk>, Pass<Brand, MemoryDisk>)>
    ensures { IfSome result (λ r. IsAt r.0.turns.board.shared r.0.turns.passes r.1.inner.seat) }
{
    let mut disk = MemoryDisk::new(alloc, Vec::new(alloc));
    match open_or_make::<Brand, MemoryDisk>(alloc, &mut disk) {
        Ok(store) => match Desk::new(alloc, store, disk, 1) {
            Ok(made) => Some(made),
            Err(left) => {
                drop(left);
                None
            }
        },
        Err(_) => None,
    }
}

fn end_of<R: Wait, S: Promise, D: Disk + Drop>(
    rt: &R,
    alloc: Global,
    desk: &Desk<S, D>,
    pass: &mut Pass<S, D>,
    ending: &Ending,
) -> Result<End, AllocError>
    requires { IsAt desk.now.turns.board.shared desk.now.turns.passes pass.old.inner.seat }
{
    let routes = Routes::new(alloc)?;
    let mut clock = clock(alloc)?;
    let input = Bytes::from_vec(input_of(alloc, ending.0, 1)?);
    let source = MemorySource::new(input, PIECE, Vec::from_slice(alloc, ending.1)?);
    let sink = MemorySink::new(alloc, Vec::from_slice(alloc, ending.2)?);
    let mut conn = MemoryConn::new(source, sink);
    let bell = Bell::new(1);
    Ok(serve_connection(
        rt, alloc, &routes, desk, pass, &mut conn, &mut clock, &OpenGate, &bell,
    ))
}

fn is_ended_so<R: Wait>(rt: &R, alloc: Global, ending: &Ending) -> Result<bool, AllocError> {
    let Some((desk, mut pass)) = desk_of(alloc) else {
        return Ok(false);
    };
    let end = end_of(rt, alloc, &desk, &mut pass, ending);
    drop((desk, pass));
    Ok(end? == ending.3)
}

#[test]
fn a_connection_tells_which_of_its_ends_failed(rt: HostRuntime) -> Result<(), Fail> {
    for ending in &ENDINGS {
        assert!(rt; is_ended_so(&rt, rt.alloc(), ending)?);
    }
    Ok(())
}
