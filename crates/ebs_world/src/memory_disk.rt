// A disk in memory, which may crash, fail and be spoiled. It tells all.
ghost use Rattle.std.specs.Prelude.{◌≤◌};

use crate::area::Area;
use crate::crash::CrashPick;
use crate::disk::Disk;
use crate::faults::{FailList, Failed, raise};
use crate::log::Log;
use std::alloc::{AllocError, Global};

/// A disk in memory. It fails the calls whose numbers, from 0, are in `fail`; one of these that is a write has
/// written its piece, and one that is a sync has made nothing durable. A write or a sync that finds no memory fails
/// too. It logs its writes and syncs: each is a moment more.
#[derive(Drop)]
pub struct MemoryDisk {
    log: Log,
    fails: FailList,
    faults: u64,
}

impl MemoryDisk {
    ghost use Rattle.std.specs.Prelude.{◌≡◌, ◌-◌, ◌<◌, ◌≤◌, ℕ, [], true, false, IfOk};
    ghost use Rattle.ebs_world.specs.declared.area.Area.{Area};
    ghost use Rattle.ebs_world.specs.Image.{Image, IsOutside};
    ghost use Rattle.ebs_world.specs.View.{View};
    ghost use Rattle.ebs_world.specs.inner.Crash.{picked};
    ghost use Rattle.ebs_world.specs.inner.MemoryDisk.{disk_view, disk_plan, disk_end, disk_state};

    /// Each area is one zero byte. The bytes and the log will be taken from `alloc`.
    pub fn new(alloc: Global, fail: Vec<u64>) -> Self
        ensures honest { (disk_view result).honest ≡ true }
        ensures reads { (a : Area) (i : ℕ) → (disk_view result).reads a i ≡ 0 }
        ensures durable { (c : Image) → (disk_view result).may_leave c → (a : Area) (i : ℕ) → c a i ≡ 0 }
        ensures end { (a : Area) → disk_end result a ≡ 1 }
        ensures moment { (disk_view result).moment ≡ 0 }
        ensures faults { (disk_view result).faults ≡ 0 }
        ensures plan { disk_plan result ≡ record { fail = fail.items; calls = 0 } }
    {
        MemoryDisk {
            log: Log::new(alloc),
            fails: FailList::new(fail),
            faults: 0,
        }
    }

    /// The number of the present moment.
    pub fn moment(&self) -> u64
        ensures { result ≡ (disk_view self.now).moment }
    {
        self.log.moment()
    }

    /// Where an area ends.
    pub fn end(&self, area: Area) -> u64
        ensures end { result ≡ disk_end self.now area }
        ensures some { 1 ≤ result }
    {
        self.log.end(area)
    }

    /// A disk whose bytes are those that a crash at that moment leaves, with nothing unsynced, and with no call that
    /// fails. It goes by the log, which knows nothing of a spoiled byte.
    pub fn crash(&self, moment: u64, pick: CrashPick) -> Result<MemoryDisk, AllocError>
        requires { moment ≤ (disk_view self.now).moment }
        ensures reads { IfOk result (λ crashed. (a : Area) (i : ℕ) → (disk_view crashed).reads a i ≡ picked pick (disk_state self.now moment) a i) }
        ensures image { IfOk result (λ crashed. (t : ℕ) → t ≤ moment → (disk_view self.now).left_since t (disk_view crashed).reads) }
        ensures durable { IfOk result (λ crashed. (c : Image) → (disk_view crashed).may_leave c → (a : Area) (i : ℕ) → c a i ≡ (disk_view crashed).reads a i) }
        ensures honest { IfOk result (λ crashed. (disk_view crashed).honest ≡ true) }
        ensures moment { IfOk result (λ crashed. (disk_view crashed).moment ≡ 0) }
        ensures faults { IfOk result (λ crashed. (disk_view crashed).faults ≡ 0) }
        ensures plan { IfOk result (λ crashed. disk_plan crashed ≡ record { fail = []; calls = 0 }) }
    {
        Ok(MemoryDisk {
            log: self.log.crash(moment, pick)?,
            fails: FailList::new(Vec::new(self.log.alloc)),
            faults: 0,
        })
    }

    /// Turns one byte round, as a disk that isn't honest does.
    pub fn spoil(&mut self, area: Area, at: u64)
        requires { at < disk_end self.old area }
        ensures honest { (disk_view self.new).honest ≡ false }
        ensures turned { (disk_view self.new).reads area at ≡ 255 - (disk_view self.old).reads area at }
        ensures kept { (a : Area) (i : ℕ) → IsOutside area at 1 a i → (disk_view self.new).reads a i ≡ (disk_view self.old).reads a i }
        ensures end { (a : Area) → disk_end self.new a ≡ disk_end self.old a }
        ensures moment { (disk_view self.new).moment ≡ (disk_view self.old).moment }
        ensures faults { (disk_view self.new).faults ≡ (disk_view self.old).faults }
        ensures plan { disk_plan self.new ≡ disk_plan self.old }
    {
        self.log.spoil(area, at);
    }
}

impl Disk for MemoryDisk {
    ghost use Rattle.std.specs.Prelude.{◌≡◌, ◌+◌, ◌≤◌, ◌^◌, ◌↔◌, ℕ, true, length, max, cond, IsErr, OnOk};
    ghost use Rattle.ebs_world.specs.declared.area.Area.{Area};
    ghost use Rattle.ebs_world.specs.inner.Fails.{Counted, IsListed};
    ghost use Rattle.ebs_world.specs.inner.Held.{same};
    ghost use Rattle.ebs_world.specs.Image.{Spells, IsOutside, Everywhere, Durable};
    ghost use Rattle.ebs_world.specs.inner.Logged.{log_law};
    ghost use Rattle.ebs_world.specs.inner.MemoryDisk.{disk_view, disk_plan, disk_end};
    ghost use Rattle.ebs_world.specs.View.{Ran, IsCaused};

    ghost view = { disk_view };

    ghost true_to_itself = { λ d. log_law d.log d.faults };

    fn read(&mut self, area: Area, at: u64, room: &mut [u8]) -> Result<(), Failed>
        requires { at + length room.old ≤ 2 ^ 62 }
        ensures bytes { OnOk result ((disk_view self.old).tells ≡ true → Spells ((disk_view self.old).reads area) at room.new) }
        ensures ran { Ran Everywhere (disk_view self.old) (disk_view self.new) }
        ensures cause { IsCaused (disk_view self.old) (disk_view self.new) result }
        ensures quiet { OnOk result ((disk_view self.new).faults ≡ (disk_view self.old).faults) }
        ensures listed { IsErr result ↔ IsListed (disk_plan self.old) }
        ensures counted { Counted (disk_plan self.old) (disk_plan self.new) }
        ensures moment { (disk_view self.new).moment ≡ (disk_view self.old).moment }
        ensures end { (a : Area) → disk_end self.new a ≡ disk_end self.old a }
    {
        if self.fails.count_call() {
            return Err(raise(&mut self.faults));
        }
        self.log.read(area, at, room);
        Ok(())
    }

    fn write(&mut self, area: Area, at: u64, piece: &[u8]) -> Result<(), Failed>
        requires { at + length piece.now ≤ 2 ^ 62 }
        ensures written { OnOk result ((disk_view self.old).tells ≡ true → Spells ((disk_view self.new).reads area) at piece.now) }
        ensures ran { Ran (IsOutside area at (length piece.now)) (disk_view self.old) (disk_view self.new) }
        ensures cause { IsCaused (disk_view self.old) (disk_view self.new) result }
        ensures quiet { OnOk result ((disk_view self.new).faults ≡ (disk_view self.old).faults) }
        ensures listed { IsListed (disk_plan self.old) → IsErr result }
        ensures counted { Counted (disk_plan self.old) (disk_plan self.new) }
        ensures moment { OnOk result ((disk_view self.new).moment ≡ (disk_view self.old).moment + 1) }
        ensures end { OnOk result ((a : Area) → disk_end self.new a ≡ cond (same a area) (max (disk_end self.old a) (at + length piece.now)) (disk_end self.old a)) }
    {
        let listed = self.fails.count_call();
        let written = self.log.write(area, at, piece);
        if listed || written.is_err() {
            return Err(raise(&mut self.faults));
        }
        Ok(())
    }

    fn sync(&mut self, area: Area) -> Result<(), Failed>
        ensures durable { OnOk result ((disk_view self.old).tells ≡ true → (disk_view self.old).honest ≡ true
            → Durable area (disk_view self.new).reads (disk_view self.new).may_leave) }
        ensures ran { Ran Everywhere (disk_view self.old) (disk_view self.new) }
        ensures cause { IsCaused (disk_view self.old) (disk_view self.new) result }
        ensures quiet { OnOk result ((disk_view self.new).faults ≡ (disk_view self.old).faults) }
        ensures listed { IsListed (disk_plan self.old) → IsErr result }
        ensures counted { Counted (disk_plan self.old) (disk_plan self.new) }
        ensures moment { OnOk result ((disk_view self.new).moment ≡ (disk_view self.old).moment + 1) }
        ensures end { (a : Area) → disk_end self.new a ≡ disk_end self.old a }
    {
        if self.fails.count_call() {
            return Err(raise(&mut self.faults));
        }
        match self.log.sync(area) {
            Ok(()) => Ok(()),
            Err(_) => Err(raise(&mut self.faults)),
        }
    }
}
