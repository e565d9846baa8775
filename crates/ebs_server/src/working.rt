// Serving over a store that was opened.
ghost use Rattle.std.specs.Prelude.{◌≡◌, ◌+◌, ◌≤◌, ◌<◌, [], vec_len, vec_capacity, IfOk};
ghost use Rattle.std.specs.FinMap as fin;
ghost use Rattle.ebs_recovery.specs.inner.Fits.{Fits, Seen};
ghost use Rattle.ebs_turns.specs.Known.{IsAt};
ghost use Rattle.ebs_desk.specs.Calls.{Closed};
ghost use Rattle.ebs_server.specs.Hands.{IsReady};
ghost use Rattle.ebs_server.specs.Left.{IsLeft};
ghost use Rattle.ebs_server.specs.Posts.{AreEnded};

use crate::bell::Bell;
use crate::hand::{Hand, Task, hand_for};
use crate::hands::{do_all, hands_for, meet_all};
use crate::post::{Post, PostEnd};
use ebs_desk::{Desk, Pass};
use ebs_disk_store::{Promise, Store};
use ebs_doors::{Gate, Listener};
use ebs_world::{Clock, Disk};
use std::alloc::Global;
use std::sync::Wait;
use std::thread::Threads;

/// Serves posts over a store with its disk. Err hands the disk back, for want of memory.
pub(crate) fn serve_store<
    S: Promise + Send,
    R: Threads + Wait + Sync,
    L: Listener + Drop + Send,
    D: Disk + Drop + Send,
    K: Clock + Drop + Send,
    G: Gate + Sync,
>(
    rt: &R,
    alloc: Global,
    posts: Vec<Post<L, K>>,
    store: Store<S>,
    disk: D,
    collector_clock: K,
    gate: &G,
) -> Result<(Vec<(Post<L, K>, PostEnd)>, D), D>
    requires few { vec_len posts ≤ 64 }
    requires fits { Fits S.sound (D.view disk) store }
    requires bare { store.slots.leases ≡ fin.empty }
    ensures ended { IfOk result (λ r. AreEnded L.door posts.items r.0.items) }
    ensures left { IfOk result (λ r. IsLeft S.sound D.view store disk r.1) }
{
    let count = posts.len() + 1;
    let (Ok(hands), Ok(ends)) = (
        Vec::with_capacity(alloc, count),
        Vec::with_capacity(alloc, count),
    ) else {
        drop(store);
        return Err(disk);
    };
    match Desk::new(alloc, store, disk, count as u32) {
        Ok((desk, first)) => {
            let bell = Bell::new(count as u32 - 1);
            let (kept, ends) = serve_at(
                rt,
                alloc,
                &desk,
                first,
                posts,
                hands,
                ends,
                collector_clock,
                gate,
                &bell,
            );
            Ok((ends, disk_of(desk, kept)))
        }
        Err((store, disk)) => {
            drop(store);
            Err(disk)
        }
    }
}

// Serves posts at a desk. The pass that is given back stands for all that were made.
fn serve_at<
    S: Promise + Send,
    R: Threads + Wait + Sync,
    L: Listener + Drop + Send,
    D: Disk + Drop + Send,
    K: Clock + Drop + Send,
    G: Gate + Sync,
>(
    rt: &R,
    alloc: Global,
    desk: &Desk<S, D>,
    mut first: Pass<S, D>,
    posts: Vec<Post<L, K>>,
    hands: Vec<Hand<L, K, Pass<S, D>>>,
    ends: Vec<(Post<L, K>, PostEnd)>,
    collector_clock: K,
    gate: &G,
    bell: &Bell,
) -> (Pass<S, D>, Vec<(Post<L, K>, PostEnd)>)
    requires ready { IsReady desk.now.turns.board.shared desk.now.turns.passes first.inner.seat }
    requires none { (hands.items ≡ []) × (ends.items ≡ []) }
    requires fresh { (vec_len hands ≡ 0) × (vec_len ends ≡ 0) }
    requires room { vec_len posts < vec_capacity hands }
    requires end_room { vec_len posts < vec_capacity ends }
    ensures at { IsAt desk.now.turns.board.shared desk.now.turns.passes result.0.inner.seat }
    ensures tally { result.0.inner.seat.me.0.tally ≡ vec_len posts + 1 }
    ensures ended { AreEnded L.door posts.items result.1.items }
{
    let mut hands = hands_for(rt, desk, &mut first, posts, hands);
    let Ok(()) = hands.push(hand_for(first, Task::Collect(collector_clock))) else {
        unreachable!()
    };
    do_all(rt, alloc, desk, hands.as_mut_slice(), gate, bell);
    meet_all(desk, hands, ends)
}

// The disk that the desk's line leaves, by a pass that stands for all that were made.
fn disk_of<S: Promise, D: Disk + Drop>(desk: Desk<S, D>, kept: Pass<S, D>) -> D
    requires at { IsAt desk.turns.board.shared desk.turns.passes kept.inner.seat }
    requires whole { desk.turns.passes ≤ kept.inner.seat.me.0.tally }
    ensures { (last : Seen) × Closed S.sound D.view desk.turns.board.shared.key.first.value kept.inner.seat.me.0.seen last result }
{
    match desk.close(kept) {
        Ok((store, disk)) => {
            drop(store);
            disk
        }
        Err(_) => unreachable!(),
    }
}
