// A disk in memory without its faults: its bytes, and the log of its calls.
ghost use Rattle.std.specs.Prelude.{◌≡◌, ◌⊎◌, ◌+◌, ◌<◌, ◌≤◌, ◌^◌, ◌++◌, [], ◌∷◌, ℕ, false, length, OnOk, OnErr};
ghost use Rattle.ebs_world.specs.declared.area.Area.{Area};
ghost use Rattle.ebs_world.specs.declared.log.Step.TheVariants.{Sync};
ghost use Rattle.ebs_world.specs.inner.Held.{shown};
ghost use Rattle.ebs_world.specs.inner.Log.{present, IsImage, Noted};

use crate::area::Area;
use crate::areas::Areas;
use std::alloc::{AllocError, Global};

/// A call that was noted.
#[derive(Drop)]
pub enum Step {
    Write(Area, u64, Vec<u8>),
    Sync(Area),
}

/// The bytes when the log began, each call since, and the bytes now.
#[derive(Drop)]
pub struct Log {
    pub(crate) alloc: Global,
    pub(crate) first: Areas,
    pub(crate) steps: Vec<Step>,
    pub(crate) bytes: Areas,
    pub(crate) spoiled: bool,
    ghost agrees: { spoiled ≡ false → (a : Area) (i : ℕ) → shown bytes a i ≡ (present (shown first) steps.items).now a i },
    ghost settled: { IsImage (present (shown first) steps.items) (present (shown first) steps.items).now },
}

// Adds a write to the calls.
fn note_write(
    alloc: Global,
    steps: &mut Vec<Step>,
    area: Area,
    at: u64,
    piece: &[u8],
) -> Result<(), AllocError>
    ensures ok { OnOk result (Noted area at piece.now steps.old.items steps.new.items) }
    ensures err { OnErr result (steps.new.items ≡ steps.old.items) }
{
    steps.push(Step::Write(area, at, piece.to_vec(alloc)?))?;
    Ok(())
}

// Adds a sync to the calls.
fn note_sync(steps: &mut Vec<Step>, area: Area) -> Result<(), AllocError>
    ensures ok { OnOk result (steps.new.items ≡ steps.old.items ++ Sync area ∷ []) }
    ensures either { (steps.new.items ≡ steps.old.items) ⊎ (steps.new.items ≡ steps.old.items ++ Sync area ∷ []) }
{
    steps.push(Step::Sync(area))?;
    Ok(())
}

impl Log {
    ghost use Rattle.std.specs.Prelude.{◌≡◌, ◌⊎◌, ◌+◌, ◌-◌, ◌<◌, ◌≤◌, ◌^◌, ℕ, true, false, length, IfOk, OnOk, max, cond};
    ghost use Rattle.ebs_world.specs.inner.Held.{same, end_in};
    ghost use Rattle.ebs_world.specs.Image.{Image, Spells, IsOutside, Everywhere, Durable};
    ghost use Rattle.ebs_world.specs.View.{View, Ran};
    ghost use Rattle.ebs_world.specs.inner.Logged.{log_view, log_end};

    /// One zero byte in each area. It takes no memory.
    pub(crate) fn new(alloc: Global) -> Self
        ensures honest { (log_view result 0).honest ≡ true }
        ensures reads { (a : Area) (i : ℕ) → (log_view result 0).reads a i ≡ 0 }
        ensures images { (c : Image) → (log_view result 0).may_leave c → (a : Area) (i : ℕ) → c a i ≡ 0 }
        ensures moment { (log_view result 0).moment ≡ 0 }
        ensures end { (a : Area) → log_end result a ≡ 1 }
    {
        Log {
            alloc,
            first: Areas::new(alloc),
            steps: Vec::new(alloc),
            bytes: Areas::new(alloc),
            spoiled: false,
        }
    }

    pub(crate) fn moment(&self) -> u64
        ensures { result ≡ (log_view self.now 0).moment }
    {
        self.steps.len() as u64
    }

    pub(crate) fn end(&self, area: Area) -> u64
        ensures { result ≡ log_end self.now area }
    {
        self.bytes.end(area)
    }

    pub(crate) fn read(&self, area: Area, at: u64, room: &mut [u8])
        requires { at + length room.old ≤ 2 ^ 62 }
        ensures { Spells ((log_view self.now 0).reads area) at room.new }
    {
        self.bytes.show(area, at, room);
    }

    /// Without memory for it nothing is noted.
    pub(crate) fn write(&mut self, area: Area, at: u64, piece: &[u8]) -> Result<(), AllocError>
        requires { at + length piece.now ≤ 2 ^ 62 }
        ensures written { OnOk result (Spells ((log_view self.new 0).reads area) at piece.now) }
        ensures ran { (m n : ℕ) → m ≤ n → Ran (IsOutside area at (length piece.now)) (log_view self.old m) (log_view self.new n) }
        ensures moment { OnOk result ((log_view self.new 0).moment ≡ (log_view self.old 0).moment + 1) }
        ensures end { OnOk result ((a : Area) → log_end self.new a ≡ cond (same a area) (max (log_end self.old a) (at + length piece.now)) (log_end self.old a)) }
    {
        self.bytes.grow(area, at + piece.len() as u64)?;
        note_write(self.alloc, &mut self.steps, area, at, piece)?;
        self.bytes.put(area, at, piece);
        Ok(())
    }

    pub(crate) fn sync(&mut self, area: Area) -> Result<(), AllocError>
        ensures durable { OnOk result ((log_view self.old 0).honest ≡ true → Durable area (log_view self.new 0).reads (log_view self.new 0).may_leave) }
        ensures ran { (m n : ℕ) → m ≤ n → Ran Everywhere (log_view self.old m) (log_view self.new n) }
        ensures moment { OnOk result ((log_view self.new 0).moment ≡ (log_view self.old 0).moment + 1) }
        ensures end { (a : Area) → log_end self.new a ≡ log_end self.old a }
    {
        note_sync(&mut self.steps, area)?;
        Ok(())
    }

    /// Turns one byte round, behind the log's back.
    pub(crate) fn spoil(&mut self, area: Area, at: u64)
        requires { at < log_end self.old area }
        ensures honest { (log_view self.new 0).honest ≡ false }
        ensures turned { (log_view self.new 0).reads area at ≡ 255 - (log_view self.old 0).reads area at }
        ensures kept { (a : Area) (i : ℕ) → IsOutside area at 1 a i → (log_view self.new 0).reads a i ≡ (log_view self.old 0).reads a i }
        ensures moment { (log_view self.new 0).moment ≡ (log_view self.old 0).moment }
        ensures end { (a : Area) → log_end self.new a ≡ log_end self.old a }
    {
        let turned = 255 - self.bytes.byte(area, at);
        self.bytes.put(area, at, &[turned]);
        self.spoiled = true;
    }
}
