// A post, at which connections are accepted and answered one after the other.
ghost use Rattle.std.specs.Prelude.{◌≡◌};
ghost use Rattle.ebs_turns.specs.Known.{IsAt, IsSame};
ghost use Rattle.ebs_server.specs.Posts.{IsPostEnd};

use crate::bell::Bell;
use crate::connection::serve_connection;
use ebs_desk::{Desk, Pass};
use ebs_disk_store::Promise;
use ebs_doors::{Accepted, Gate, Listener};
use ebs_rest::Routes;
use ebs_world::{Clock, Disk};
use std::alloc::Global;
use std::sync::Wait;

/// Where connections come from, with the clock by which their messages are answered.
#[derive(Drop)]
pub struct Post<L, K> {
    pub listener: L,
    pub clock: K,
}

/// Why a post is served no more.
#[derive(Clone, Copy, Debug, PartialEq, Eq)]
pub enum PostEnd {
    /// Its listener has no connection left.
    Closed,
    /// Its listener failed, which that one's count of faults shows.
    ListenFailed,
    /// Want of memory.
    Memory,
}

/// Answers the connections of a post, one after the other, until its listener gives none any more.
pub(crate) fn serve_post<R: Wait, S: Promise, D: Disk + Drop, L: Listener, K: Clock, G: Gate>(
    rt: &R,
    alloc: Global,
    desk: &Desk<S, D>,
    pass: &mut Pass<S, D>,
    post: &mut Post<L, K>,
    gate: &G,
    bell: &Bell,
) -> PostEnd
    requires at { IsAt desk.now.turns.board.shared desk.now.turns.passes pass.old.inner.seat }
    ensures at { IsAt desk.now.turns.board.shared desk.now.turns.passes pass.new.inner.seat }
    ensures same { IsSame pass.old.inner.seat.me.0 pass.new.inner.seat.me.0 }
    ensures end { IsPostEnd (L.door post.old.listener) (L.door post.new.listener) result }
{
    let Ok(routes) = Routes::new(alloc) else {
        return PostEnd::Memory;
    };
    'connection: for _ in rt.forever() {
        match post.listener.accept() {
            Accepted::Connection(mut conn) => {
                let clock = &mut post.clock;
                let _ = serve_connection(
                    rt, alloc, &routes, desk, pass, &mut conn, clock, gate, bell,
                );
            }
            Accepted::Closed => return PostEnd::Closed,
            Accepted::Failed => return PostEnd::ListenFailed,
        }
    }
    unreachable!()
}
