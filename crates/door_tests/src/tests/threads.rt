// That posts are served beside each other, each by a thread: listeners move there, and a gate is shared.
use super::memory::{conn_with, listener_of};
use super::sockets::{client, listen};
use ebs_doors::{Accepted, Conn, Gate, Listener, OpenGate, TcpDoor};
use ebs_world::{FolderDisk, MemoryDisk, Sink, Source, SystemClock};
use std::io::Read;
use std::sync::atomic::{AtomicU64, Ordering};
use std::test::Fail;
use std::thread;
use std::thread::Threads;

/// A listener, and how many of its connections were answered.
#[derive(Drop)]
struct Post<L> {
    listener: L,
    answered: u64,
}

fn post_at<L>(listener: L) -> Post<L> {
    Post {
        listener,
        answered: 0,
    }
}

/// Counts what passes.
#[derive(Drop)]
struct CountingGate {
    before: AtomicU64,
    after: AtomicU64,
}

impl Gate for CountingGate {
    fn before_turn(&self) {
        self.before.fetch_add(1, Ordering::SeqCst);
    }

    fn after_answer(&self) {
        self.after.fetch_add(1, Ordering::SeqCst);
    }
}

/// Sends a connection's first piece back.
fn answer<I: Source, O: Sink, G: Gate>(conn: &mut Conn<I, O>, gate: &G) -> bool {
    let mut room = [0u8; 8];
    let Ok(count) = conn.input.take(&mut room) else {
        return false;
    };
    gate.before_turn();
    let sent = conn.output.put(&room[..count.min(8)]).is_ok();
    gate.after_answer();
    sent
}

/// Answers at most so many connections.
fn work<L: Listener, G: Gate>(post: &mut Post<L>, most: u64, gate: &G) {
    for _ in 0..most {
        let Accepted::Connection(mut conn) = post.listener.accept() else {
            return;
        };
        if answer(&mut conn, gate) {
            post.answered = post.answered.saturating_add(1);
        }
    }
}

fn work_all<R: Threads + Sync, L: Listener + Send, G: Gate + Sync>(
    rt: &R,
    posts: &mut [Post<L>],
    most: u64,
    gate: &G,
) {
    thread::for_each_mut(rt, posts, 2, &|_, post| work(post, most, gate));
}

#[test]
fn posts_are_served_by_threads(rt: HostRuntime) -> Result<(), Fail> {
    let gate = CountingGate {
        before: AtomicU64::new(0),
        after: AtomicU64::new(0),
    };
    let mut kept = [
        post_at(listener_of(rt.alloc(), b"ab", &[])?),
        post_at(listener_of(rt.alloc(), b"cde", &[2])?),
    ];
    work_all(&rt, &mut kept, 9, &gate);
    assert!(rt; kept[0].answered == 2 && kept[1].answered == 2);
    assert!(rt; gate.before.load(Ordering::SeqCst) == 4 && gate.after.load(Ordering::SeqCst) == 4);

    let listener = listen(&rt)?;
    let mut clients = [
        client(&rt, &listener, b"one")?,
        client(&rt, &listener, b"two")?,
    ];
    let mut real = [
        post_at(TcpDoor::new(&listener)),
        post_at(TcpDoor::new(&listener)),
    ];
    work_all(&rt, &mut real, 1, &OpenGate);
    let mut told = [0u8; 9];
    assert!(rt; clients[0].read(&mut told)? == 3 && &told[..3] == b"one".as_slice());
    assert!(rt; clients[1].read(&mut told)? == 3 && &told[..3] == b"two".as_slice());
    Ok(())
}

/// What a server's threads take over or share.
fn is_sent<T: Send>(_value: &T) {}

#[test]
fn worlds_move_to_threads(rt: HostRuntime) -> Result<(), Fail> {
    is_sent(&conn_with(rt.alloc(), b"", &[])?);
    is_sent(&SystemClock::new(&rt));
    is_sent(&FolderDisk::new(&rt));
    is_sent(&MemoryDisk::new(rt.alloc(), Vec::new(rt.alloc())));
    Ok(())
}
