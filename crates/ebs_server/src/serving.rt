// A server, from its store's opening to its posts' end.
ghost use Rattle.std.specs.Prelude.{◌≤◌, vec_len};
ghost use Rattle.ebs_disk_store.specs.Opened.{IsPromising};
ghost use Rattle.ebs_server.specs.Served.{Serves, IsServed, IsServedWhole};

use crate::post::{Post, PostEnd};
use crate::working::serve_store;
use ebs_disk_store::{OpenRefusal, Promise};
use ebs_doors::{Gate, Listener};
use ebs_opening::open_or_make;
use ebs_world::{Clock, Disk};
use std::alloc::Global;
use std::marker::Brand;
use std::sync::Wait;
use std::thread::Threads;

/// How serving ended, with what is handed back.
#[derive(Drop)]
pub enum ServeEnd<L, K, D> {
    /// The disk has no store that can be used.
    Refused(OpenRefusal, D),
    /// Each post ended.
    Ended(Vec<(Post<L, K>, PostEnd)>, D),
    /// There wasn't memory enough to begin.
    Memory(D),
}

/// Serves posts over the store of a disk, which is made where none was, until each of them ends: a thread answers the connections of each post, one
/// after the other, and one more gives room back behind accepted changes. Where a thread can't be had its work is done behind another's. What a crash of the machine leaves at any
/// moment meanwhile has all that was answered by then, and one change more at most.
pub fn serve<
    R: Threads + Wait + Sync,
    L: Listener + Drop + Send,
    D: Disk + Drop + Send,
    K: Clock + Drop + Send,
    G: Gate + Sync,
>(
    rt: &R,
    alloc: Global,
    posts: Vec<Post<L, K>>,
    disk: D,
    collector_clock: K,
    gate: &G,
) -> ServeEnd<L, K, D>
    requires few { vec_len posts ≤ 64 }
    ensures { Serves D.view L.door disk posts.items (IsServedWhole D.view disk) result }
{
    serve_disk::<Brand, _, _, _, _, _>(rt, alloc, posts, disk, collector_clock, gate)
}

fn serve_disk<
    S: Promise + Send,
    R: Threads + Wait + Sync,
    L: Listener + Drop + Send,
    D: Disk + Drop + Send,
    K: Clock + Drop + Send,
    G: Gate + Sync,
>(
    rt: &R,
    alloc: Global,
    posts: Vec<Post<L, K>>,
    mut disk: D,
    collector_clock: K,
    gate: &G,
) -> ServeEnd<L, K, D>
    requires few { vec_len posts ≤ 64 }
    requires sound { S.sound → IsPromising (D.view disk) }
    ensures { Serves D.view L.door disk posts.items (IsServed S.sound D.view disk) result }
{
    let store = match open_or_make::<S, D>(alloc, &mut disk) {
        Ok(store) => store,
        Err(OpenRefusal::Memory) => return ServeEnd::Memory(disk),
        Err(refusal) => return ServeEnd::Refused(refusal, disk),
    };
    match serve_store(rt, alloc, posts, store, disk, collector_clock, gate) {
        Ok((ends, disk)) => ServeEnd::Ended(ends, disk),
        Err(disk) => ServeEnd::Memory(disk),
    }
}
