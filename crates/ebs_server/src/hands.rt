// All hands of a server: how they are made, do their tasks, and meet again.
ghost use Rattle.std.specs.Prelude.{◌≡◌, ◌≤◌, ◌<◌, ◌+◌, ◌++◌, [], map, reverse, vec_len, vec_capacity, All};
ghost use Rattle.ebs_turns.specs.Known.{IsAt};
ghost use Rattle.ebs_server.specs.declared.hand.Task.TheVariants.{Serve};
ghost use Rattle.ebs_server.specs.Hands.{IsReady, IsDone, AreDone, task_of, ends_in, ends_back};

use crate::bell::Bell;
use crate::hand::{Hand, Task, do_task, hand_for};
use crate::post::{Post, PostEnd};
use ebs_desk::{Desk, Pass};
use ebs_disk_store::Promise;
use ebs_doors::{Gate, Listener};
use ebs_world::{Clock, Disk};
use std::alloc::Global;
use std::sync::Wait;
use std::thread;
use std::thread::Threads;

// A pass more. Where none can be had it is asked for again.
fn next_pass<R: Wait, S: Promise, D: Disk + Drop>(
    rt: &R,
    desk: &Desk<S, D>,
    first: &mut Pass<S, D>,
) -> Pass<S, D>
    requires ready { IsReady desk.now.turns.board.shared desk.now.turns.passes first.old.inner.seat }
    ensures ready { IsReady desk.now.turns.board.shared desk.now.turns.passes first.new.inner.seat }
    ensures next { IsReady desk.now.turns.board.shared desk.now.turns.passes result.inner.seat }
{
    'split: for _ in rt.forever() {
        if let Some(pass) = desk.split(first) {
            return pass;
        }
    }
    unreachable!()
}

/// A hand for each post, from the last post to the first, in a list that has room for them.
pub(crate) fn hands_for<R: Wait, S: Promise, D: Disk + Drop, L: Drop, K: Drop>(
    rt: &R,
    desk: &Desk<S, D>,
    first: &mut Pass<S, D>,
    mut posts: Vec<Post<L, K>>,
    mut hands: Vec<Hand<L, K, Pass<S, D>>>,
) -> Vec<Hand<L, K, Pass<S, D>>>
    requires ready { IsReady desk.now.turns.board.shared desk.now.turns.passes first.old.inner.seat }
    requires none { hands.items ≡ [] }
    requires room { vec_len posts < vec_capacity hands }
    ensures ready { IsReady desk.now.turns.board.shared desk.now.turns.passes first.new.inner.seat }
    ensures all_ready { All (λ hand. IsReady desk.now.turns.board.shared desk.now.turns.passes hand.pass.inner.seat) result.items }
    ensures tasks { map task_of result.items ≡ map Serve (reverse posts.items) }
    ensures len { vec_len result ≡ vec_len hands + vec_len posts }
    ensures room { vec_len result < vec_capacity result }
{
    'post: while let Some(post) = posts.pop() {
        let pass = next_pass(rt, desk, first);
        let Ok(()) = hands.push(hand_for(pass, Task::Serve(post))) else {
            unreachable!()
        };
    }
    hands
}

/// Does all tasks, each in a thread of its own where one can be had.
pub(crate) fn do_all<
    R: Threads + Wait + Sync,
    S: Promise + Send,
    D: Disk + Drop + Send,
    L: Listener + Send,
    K: Clock + Send,
    G: Gate + Sync,
>(
    rt: &R,
    alloc: Global,
    desk: &Desk<S, D>,
    hands: &mut [Hand<L, K, Pass<S, D>>],
    gate: &G,
    bell: &Bell,
)
    requires ready { All (λ hand. IsReady desk.now.turns.board.shared desk.now.turns.passes hand.pass.inner.seat) hands.old }
    ensures ready { All (λ hand. IsReady desk.now.turns.board.shared desk.now.turns.passes hand.pass.inner.seat) hands.new }
    ensures done { AreDone L.door hands.old hands.new }
{
    let count = hands.len().max(1);
    let work = |_place: usize, hand: &mut Hand<L, K, Pass<S, D>>|
        requires { IsReady desk.now.turns.board.shared desk.now.turns.passes hand.old.pass.inner.seat }
        ensures { IsReady desk.entry.now.turns.board.shared desk.entry.now.turns.passes hand.new.pass.inner.seat × IsDone L.door hand.old.task hand.new.task hand.new.end }
    { do_task(rt, alloc, desk, hand, gate, bell) };
    thread::for_each_mut(rt, hands, count, &work);
}

// Adds the post of a task, with its end.
fn add_end<L: Drop, K: Drop>(ends: &mut Vec<(Post<L, K>, PostEnd)>, task: Task<L, K>, end: PostEnd)
    requires room { vec_len ends.old < vec_capacity ends.old }
    ensures items { ends.new.items ≡ ends.old.items ++ ends_in task end }
    ensures few { vec_len ends.new ≤ vec_len ends.old + 1 }
    ensures room { vec_capacity ends.old ≤ vec_capacity ends.new }
{
    match task {
        Task::Serve(post) => {
            let Ok(()) = ends.push((post, end)) else {
                unreachable!()
            };
        }
        Task::Collect(_) => {}
    }
}

/// The pass that stands for the passes of all hands, and their posts with their ends, from the last hand to the first, in a list that has room
/// for them.
pub(crate) fn meet_all<S: Promise, D: Disk + Drop, L: Drop, K: Drop>(
    desk: &Desk<S, D>,
    mut hands: Vec<Hand<L, K, Pass<S, D>>>,
    mut ends: Vec<(Post<L, K>, PostEnd)>,
) -> (Pass<S, D>, Vec<(Post<L, K>, PostEnd)>)
    requires ready { All (λ hand. IsReady desk.now.turns.board.shared desk.now.turns.passes hand.pass.inner.seat) hands.items }
    requires some { 0 < vec_len hands }
    requires none { ends.items ≡ [] }
    requires fresh { vec_len ends ≡ 0 }
    requires room { vec_len hands ≤ vec_capacity ends }
    ensures at { IsAt desk.now.turns.board.shared desk.now.turns.passes result.0.inner.seat }
    ensures tally { result.0.inner.seat.me.0.tally ≡ vec_len hands }
    ensures ends { result.1.items ≡ ends_back hands.items }
{
    let Some(last) = hands.pop() else {
        unreachable!()
    };
    let Hand {
        pass: mut kept,
        task,
        end,
    } = last;
    add_end(&mut ends, task, end);
    'hand: while let Some(hand) = hands.pop() {
        let Hand { pass, task, end } = hand;
        desk.meet(&mut kept, pass);
        add_end(&mut ends, task, end);
    }
    (kept, ends)
}
