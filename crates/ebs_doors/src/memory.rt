// The forms in memory. They tell all.
ghost use Rattle.std.specs.Prelude.{◌≡◌, true, []};

use crate::conn::Conn;
use crate::faults::raise;
use crate::listener::{Accepted, Listener};
use ebs_world::{MemorySink, MemorySource, Sink, Source};
use std::collections::VecDeque;

/// A connection whose two sides are a source and a sink in memory.
pub type MemoryConn = Conn<MemorySource, MemorySink>;

impl<I> Conn<I, MemorySink> {
    ghost use Rattle.std.specs.Prelude.{Some};

    /// The bytes that were written so far.
    pub fn bytes(&self) -> &[u8]
        ensures { (⟦<MemorySink as Sink>⟧.outlet self.now.output).written ≡ Some result.now }
    {
        self.output.bytes()
    }
}

/// A listener over a list of connections. It gives them in order, fails the calls whose numbers, from 0, are in
/// `fail`, and no other, and answers `Closed` where none is left.
#[derive(Drop)]
pub struct MemoryListener<C> {
    left: VecDeque<C>,
    closed: bool,
    fail: Vec<u64>,
    calls: u64,
    faults: u64,
    ghost used_up: { closed ≡ true → left.items ≡ [] },
}

impl<C> MemoryListener<C> {
    ghost use Rattle.std.specs.Prelude.{false};
    ghost use Rattle.ebs_doors.specs.inner.Waiting.{waiting, shown};

    pub fn new(list: Vec<C>, fail: Vec<u64>) -> Self
        ensures left { (waiting result).left ≡ list.items }
        ensures plan { (waiting result).plan ≡ record { fail = fail.items; calls = 0 } }
        ensures open { shown result ≡ record { closed = false; faults = 0 } }
    {
        MemoryListener {
            left: VecDeque::from_vec(list),
            closed: false,
            fail,
            calls: 0,
            faults: 0,
        }
    }
}

impl<I: Source + Drop + Send, O: Sink + Drop + Send> Listener for MemoryListener<Conn<I, O>> {
    ghost use Rattle.std.specs.Prelude.{◌↔◌};
    ghost use Rattle.ebs_world.specs.inner.Fails.{Counted, IsListed};
    ghost use Rattle.ebs_doors.specs.Doors.{Answered};
    ghost use Rattle.ebs_doors.specs.inner.Waiting.{waiting, shown, Gave, IsFailed};

    type Input = I;

    type Output = O;

    ghost door = { shown };

    fn accept(&mut self) -> Accepted<Conn<I, O>>
        ensures answered { Answered (shown self.old) (shown self.new) result }
        ensures order { Gave (waiting self.old).left (waiting self.new).left result }
        ensures listed { IsFailed result ↔ IsListed (waiting self.old).plan }
        ensures counted { Counted (waiting self.old).plan (waiting self.new).plan }
    {
        let call = self.calls;
        self.calls = call.saturating_add(1);
        if self.fail.contains(&call) {
            raise(&mut self.faults);
            return Accepted::Failed;
        }
        match self.left.pop_front() {
            Some(conn) => Accepted::Connection(conn),
            None => {
                self.closed = true;
                Accepted::Closed
            }
        }
    }
}
