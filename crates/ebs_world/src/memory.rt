// The forms in memory. They tell all.
ghost use Rattle.std.specs.Prelude.{◌<◌, ◌≤◌, length};

use crate::faults::{FailList, Failed, raise};
use crate::traits::{Clock, Sink, Source};
use ebs_model::{Bytes, Moment};
use std::alloc::Global;

/// A source over bytes. It hands out at most `piece` of them per call, and fails the calls whose numbers, from 0,
/// are in `fail`, and no other.
#[derive(Drop)]
pub struct MemorySource {
    bytes: Bytes,
    at: usize,
    piece: u32,
    fails: FailList,
    faults: u64,
    ghost within: { at ≤ length bytes },
    ghost progress: { 0 < piece },
}

impl MemorySource {
    ghost use Rattle.std.specs.Prelude.{◌≡◌, ◌<◌, Some};
    ghost use Rattle.ebs_world.specs.inner.Memory.{supply};

    /// The bytes are handed out in order. `piece` is at least 1.
    pub fn new(bytes: Bytes, piece: u32, fail: Vec<u64>) -> Self
        requires { 0 < piece }
        ensures left { (⟦<MemorySource as Source>⟧.inlet result).left ≡ Some bytes }
        ensures faults { (⟦<MemorySource as Source>⟧.inlet result).faults ≡ 0 }
        ensures piece { (supply result).piece ≡ piece }
        ensures plan { (supply result).plan ≡ record { fail = fail.items; calls = 0 } }
    {
        MemorySource {
            bytes,
            at: 0,
            piece,
            fails: FailList::new(fail),
            faults: 0,
        }
    }
}

impl Source for MemorySource {
    ghost use Rattle.std.specs.Prelude.{◌≡◌, ◌≤◌, ◌↔◌, Some, IfOk, IsErr, OnOk};
    ghost use Rattle.std.specs.Io.{ReadsAtMost};
    ghost use Rattle.std.specs.Io.KnownBytes.{ReadConsumes};
    ghost use Rattle.ebs_world.specs.Ends.{Inlet, HasCause};
    ghost use Rattle.ebs_world.specs.inner.Fails.{Counted, IsListed};
    ghost use Rattle.ebs_world.specs.inner.Memory.{supply};

    ghost inlet = { λ s. record { left = Some ((supply s).left); faults = (supply s).faults } };

    fn take(&mut self, room: &mut [u8]) -> Result<usize, Failed>
        ensures bound { ReadsAtMost result room.new }
        ensures bytes { ReadConsumes (Some ((supply self.old).left)) (Some ((supply self.new).left)) result room.new }
        ensures cause { HasCause (supply self.old).faults (supply self.new).faults result }
        ensures quiet { OnOk result ((supply self.new).faults ≡ (supply self.old).faults) }
        ensures listed { IsErr result ↔ IsListed (supply self.old).plan }
        ensures counted { Counted (supply self.old).plan (supply self.new).plan }
        ensures piece { IfOk result (λ n. n ≤ (supply self.old).piece) }
        ensures kept { (supply self.new).piece ≡ (supply self.old).piece }
    {
        if self.fails.count_call() {
            return Err(raise(&mut self.faults));
        }
        let rest = &self.bytes.as_slice()[self.at..];
        let count = rest.len().min(room.len()).min(self.piece as usize);
        room[..count].copy_from_slice(&rest[..count]);
        self.at += count;
        Ok(count)
    }
}

/// A sink that keeps what it is given, and fails the calls whose numbers, from 0, are in `fail`. One that finds no
/// memory fails too. It appends nothing when it fails.
#[derive(Drop)]
pub struct MemorySink {
    bytes: Bytes,
    fails: FailList,
    faults: u64,
}

impl MemorySink {
    ghost use Rattle.std.specs.Prelude.{◌≡◌, [], Some};
    ghost use Rattle.ebs_world.specs.inner.Memory.{keeping};

    /// An empty sink, whose bytes will be taken from `alloc`.
    pub fn new(alloc: Global, fail: Vec<u64>) -> Self
        ensures written { (⟦<MemorySink as Sink>⟧.outlet result).written ≡ Some [] }
        ensures faults { (⟦<MemorySink as Sink>⟧.outlet result).faults ≡ 0 }
        ensures plan { (keeping result).plan ≡ record { fail = fail.items; calls = 0 } }
    {
        MemorySink {
            bytes: Bytes::new(alloc),
            fails: FailList::new(fail),
            faults: 0,
        }
    }

    /// The bytes so far.
    pub fn bytes(&self) -> &[u8]
        ensures { (⟦<MemorySink as Sink>⟧.outlet self.now).written ≡ Some result.now }
    {
        self.bytes.as_slice()
    }
}

impl Sink for MemorySink {
    ghost use Rattle.std.specs.Prelude.{◌≡◌, ◌++◌, Some, IsErr, OnErr, OnOk};
    ghost use Rattle.ebs_world.specs.Ends.{Outlet, HasCause};
    ghost use Rattle.ebs_world.specs.inner.Fails.{Counted, IsListed};
    ghost use Rattle.ebs_world.specs.inner.Memory.{keeping};

    ghost outlet = { λ s. record { written = Some ((keeping s).written); faults = (keeping s).faults } };

    fn put(&mut self, piece: &[u8]) -> Result<(), Failed>
        ensures ok { OnOk result ((keeping self.new).written ≡ (keeping self.old).written ++ piece.now) }
        ensures err { OnErr result ((keeping self.new).written ≡ (keeping self.old).written) }
        ensures cause { HasCause (keeping self.old).faults (keeping self.new).faults result }
        ensures quiet { OnOk result ((keeping self.new).faults ≡ (keeping self.old).faults) }
        ensures listed { IsListed (keeping self.old).plan → IsErr result }
        ensures counted { Counted (keeping self.old).plan (keeping self.new).plan }
    {
        if self.fails.count_call() || self.bytes.extend(piece).is_err() {
            return Err(raise(&mut self.faults));
        }
        Ok(())
    }
}

/// A clock that gives these readings, and the last one again and again.
#[derive(Drop)]
pub struct ListClock {
    list: Vec<Moment>,
    at: usize,
    ghost within: { at < length list.items },
}

impl ListClock {
    ghost use Rattle.std.specs.Prelude.{◌≡◌, ◌<◌, length, map, Some};

    /// The list has at least one reading.
    pub fn new(list: Vec<Moment>) -> Self
        requires { 0 < length list.items }
        ensures { (⟦<ListClock as Clock>⟧.ticks result).readings ≡ Some (map (λ m. m.second) list.items) }
    {
        ListClock { list, at: 0 }
    }
}

impl Clock for ListClock {
    ghost use Rattle.std.specs.Prelude.{Some};
    ghost use Rattle.ebs_world.specs.Ends.{Timeline};
    ghost use Rattle.ebs_world.specs.inner.Memory.{list_left};

    ghost ticks = { λ c. record { readings = Some (list_left c) } };

    fn now(&mut self) -> Moment {
        let reading = self.list[self.at];
        if self.at + 1 < self.list.len() {
            self.at += 1;
        }
        reading
    }
}
