ghost use Rattle.std.specs.Prelude.{All};
ghost use Rattle.ebs_turns.specs.Known.{IsAt, IsResting};
ghost use Rattle.turn_tests.specs.Ready.{IsReady};

use ebs_turns::{Deed, Pass, Subject, Turns};
use std::process::Abort;
use std::sync::Wait;
use std::test::Fail;
use std::thread;
use std::thread::Threads;

#[derive(Drop)]
struct Sum {
    value: u64,
}

#[derive(Drop)]
struct Added;

impl Subject<Added> for Sum {
    ghost follows = { λ first line last. Unit {0} };
}

fn add<R: Wait>(rt: &R, turns: &Turns<Sum, Added>, pass: &mut Pass<Sum, Added>, more: u64) -> bool
    requires at { IsAt turns.now.board.shared turns.now.passes pass.old.seat }
    requires rests { IsResting pass.old.seat.me }
    ensures at { IsAt turns.now.board.shared turns.now.passes pass.new.seat }
    ensures rests { IsResting pass.new.seat.me }
{
    if !turns.is_open(pass) {
        return false;
    }
    let mut sum = turns.begin(rt, pass);
    sum.value = sum.value.wrapping_add(more);
    turns.end(pass, sum, Added, Deed::Nothing);
    true
}

#[derive(Drop)]
struct Worker {
    pass: Pass<Sum, Added>,
    more: u64,
}

fn work<R: Wait>(rt: &R, turns: &Turns<Sum, Added>, worker: &mut Worker)
    requires { IsReady turns.now.board.shared turns.now.passes worker.old.pass.seat }
    ensures { IsReady turns.now.board.shared turns.now.passes worker.new.pass.seat }
{
    add(rt, turns, &mut worker.pass, worker.more);
}

// Each worker adds once, in a thread of its own where one can be had.
fn work_all<R: Threads + Wait + Sync>(rt: &R, turns: &Turns<Sum, Added>, workers: &mut [Worker])
    requires { All (λ w. IsReady turns.now.board.shared turns.now.passes w.pass.seat) workers.old }
    ensures { All (λ w. IsReady turns.now.board.shared turns.now.passes w.pass.seat) workers.new }
{
    let count = workers.len().max(1);
    let serve = |_place: usize, worker: &mut Worker|
        requires { IsReady turns.now.board.shared turns.now.passes worker.old.pass.seat }
        ensures { IsReady turns.entry.now.board.shared turns.entry.now.passes worker.new.pass.seat }
    { work(rt, turns, worker) };
    thread::for_each_mut(rt, workers, count, &serve);
}

#[test]
fn passes_take_turns(rt: HostRuntime) -> Result<(), Fail> {
    let Ok((turns, mut first)) = Turns::new(rt.alloc(), Sum { value: 1 }, 2) else {
        panic!(rt; "no memory")
    };
    let Some(mut second) = turns.split(&mut first) else {
        panic!(rt; "no pass")
    };
    assert!(rt; turns.split(&mut first).is_none());
    assert!(rt;
        add(&rt, &turns, &mut first, 2)
            && add(&rt, &turns, &mut second, 4)
            && add(&rt, &turns, &mut first, 8)
    );
    let Err((turns, mut first)) = turns.close(first) else {
        panic!(rt; "a pass is out")
    };
    turns.meet(&mut first, second);
    match turns.close(first) {
        Ok(sum) => assert!(rt; sum.value == 15),
        Err(_) => panic!(rt; "no pass is out"),
    }
    Ok(())
}

#[test]
fn threads_take_turns(rt: HostRuntime) -> Result<(), Fail> {
    let Ok((turns, mut first)) = Turns::new(rt.alloc(), Sum { value: 1 }, 2) else {
        panic!(rt; "no memory")
    };
    let Some(second) = turns.split(&mut first) else {
        panic!(rt; "no pass")
    };
    let mut workers = Vec::new(rt.alloc());
    workers.push(Worker {
        pass: first,
        more: 2,
    })?;
    workers.push(Worker {
        pass: second,
        more: 4,
    })?;
    work_all(&rt, &turns, workers.as_mut_slice());
    let (Some(other), Some(mut kept)) = (workers.pop(), workers.pop()) else {
        panic!(rt; "a worker is lost")
    };
    turns.meet(&mut kept.pass, other.pass);
    match turns.close(kept.pass) {
        Ok(sum) => assert!(rt; sum.value == 7),
        Err(_) => panic!(rt; "no pass is out"),
    }
    Ok(())
}
