// The hands of a server: each serves a post, or collects, with a pass of its own.
ghost use Rattle.std.specs.Prelude.{◌≡◌};
ghost use Rattle.ebs_server.specs.Hands.{IsDone, IsReady};

use crate::bell::Bell;
use crate::collector::collect_behind;
use crate::post::{Post, PostEnd, serve_post};
use ebs_desk::{Desk, Pass};
use ebs_disk_store::Promise;
use ebs_doors::{Gate, Listener};
use ebs_world::{Clock, Disk};
use std::alloc::Global;
use std::sync::Wait;

/// What a hand does.
#[derive(Drop)]
pub(crate) enum Task<L, K> {
    Serve(Post<L, K>),
    /// By this clock.
    Collect(K),
}

/// A task with the pass for it, and how it ended.
#[derive(Drop)]
pub(crate) struct Hand<L, K, P> {
    pub pass: P,
    pub task: Task<L, K>,
    pub end: PostEnd,
}

/// A hand that has done nothing yet.
pub(crate) fn hand_for<L, K, P>(pass: P, task: Task<L, K>) -> Hand<L, K, P>
    ensures { result ≡ record { pass = pass; task = task; end = PostEnd.Closed } }
{
    Hand {
        pass,
        task,
        end: PostEnd::Closed,
    }
}

/// Does the task of a hand to its end.
pub(crate) fn do_task<R: Wait, S: Promise, D: Disk + Drop, L: Listener, K: Clock, G: Gate>(
    rt: &R,
    alloc: Global,
    desk: &Desk<S, D>,
    hand: &mut Hand<L, K, Pass<S, D>>,
    gate: &G,
    bell: &Bell,
)
    requires ready { IsReady desk.now.turns.board.shared desk.now.turns.passes hand.old.pass.inner.seat }
    ensures ready { IsReady desk.now.turns.board.shared desk.now.turns.passes hand.new.pass.inner.seat }
    ensures done { IsDone L.door hand.old.task hand.new.task hand.new.end }
{
    let pass = &mut hand.pass;
    match &mut hand.task {
        Task::Serve(post) => {
            hand.end = serve_post(rt, alloc, desk, pass, post, gate, bell);
            bell.sign_off(rt);
        }
        Task::Collect(clock) => collect_behind(rt, desk, pass, clock, bell),
    }
}
