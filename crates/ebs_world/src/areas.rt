// The bytes of the areas of a disk in memory.
ghost use Rattle.std.specs.Prelude.{◌≡◌, ◌+◌, ◌<◌, ◌≤◌, ◌^◌, ℕ, cond, eqb, get_or, length, max, IfOk, OnOk, OnErr};
ghost use Rattle.ebs_world.specs.declared.area.Area.{Area};
ghost use Rattle.ebs_world.specs.inner.Held.{same, byte_at, end_of, shown, end_in, over};

use crate::area::Area;
use std::alloc::{AllocError, Global};

/// The bytes of one area, of which there is at least one.
#[derive(Drop)]
pub struct AreaBytes {
    first: u8,
    later: Vec<u8>,
}

impl AreaBytes {
    /// One zero byte. It takes no memory.
    fn new(alloc: Global) -> Self
        ensures bytes { (i : ℕ) → byte_at result i ≡ 0 }
        ensures end { end_of result ≡ 1 }
    {
        AreaBytes {
            first: 0,
            later: Vec::new(alloc),
        }
    }

    fn copy(&self, alloc: Global) -> Result<Self, AllocError>
        ensures bytes { IfOk result (λ copy. (i : ℕ) → byte_at copy i ≡ byte_at self.now i) }
    {
        Ok(AreaBytes {
            first: self.first,
            later: self.later.to_vec(alloc)?,
        })
    }

    fn byte(&self, place: u64) -> u8
        ensures { result ≡ byte_at self.now place }
    {
        if place == 0 {
            return self.first;
        }
        let index = (place - 1) as usize;
        if index < self.later.len() {
            self.later[index]
        } else {
            0
        }
    }

    fn set(&mut self, place: u64, byte: u8)
        requires { place < end_of self.old }
        ensures bytes { (i : ℕ) → byte_at self.new i ≡ cond (eqb i place) byte (byte_at self.old i) }
        ensures end { end_of self.new ≡ end_of self.old }
    {
        if place == 0 {
            self.first = byte;
        } else {
            self.later[(place - 1) as usize] = byte;
        }
    }

    /// Zeros up to this end.
    fn grow(&mut self, to: u64) -> Result<(), AllocError>
        ensures bytes { (i : ℕ) → byte_at self.new i ≡ byte_at self.old i }
        ensures ok { OnOk result (end_of self.new ≡ max (end_of self.old) to) }
        ensures err { OnErr result (end_of self.new ≡ end_of self.old) }
    {
        let more = (to as usize).saturating_sub(1);
        if more > self.later.len() {
            self.later.resize(more, 0)?;
        }
        Ok(())
    }

    fn put(&mut self, at: u64, piece: &[u8])
        requires { at + length piece.now ≤ end_of self.old }
        ensures bytes { (i : ℕ) → byte_at self.new i ≡ over at piece.now (byte_at self.old) i }
        ensures end { end_of self.new ≡ end_of self.old }
    {
        for j in 0..piece.len() {
            self.set(at + j as u64, piece[j]);
        }
    }
}

/// The bytes of four areas.
#[derive(Drop)]
pub struct Areas {
    journal0: AreaBytes,
    journal1: AreaBytes,
    blocks: AreaBytes,
    archive: AreaBytes,
}

impl Areas {
    /// One zero byte each. It takes no memory.
    pub(crate) fn new(alloc: Global) -> Self
        ensures bytes { (a : Area) (i : ℕ) → shown result a i ≡ 0 }
        ensures end { (a : Area) → end_in result a ≡ 1 }
    {
        Areas {
            journal0: AreaBytes::new(alloc),
            journal1: AreaBytes::new(alloc),
            blocks: AreaBytes::new(alloc),
            archive: AreaBytes::new(alloc),
        }
    }

    pub(crate) fn copy(&self, alloc: Global) -> Result<Self, AllocError>
        ensures bytes { IfOk result (λ copy. (a : Area) (i : ℕ) → shown copy a i ≡ shown self.now a i) }
    {
        Ok(Areas {
            journal0: self.journal0.copy(alloc)?,
            journal1: self.journal1.copy(alloc)?,
            blocks: self.blocks.copy(alloc)?,
            archive: self.archive.copy(alloc)?,
        })
    }

    fn area(&self, area: Area) -> &AreaBytes
        ensures bytes { (i : ℕ) → byte_at result.now i ≡ shown self.now area i }
        ensures end { end_of result.now ≡ end_in self.now area }
    {
        match area {
            Area::Journal0 => &self.journal0,
            Area::Journal1 => &self.journal1,
            Area::Blocks => &self.blocks,
            Area::Archive => &self.archive,
        }
    }

    pub(crate) fn end(&self, area: Area) -> u64
        ensures { result ≡ end_in self.now area }
    {
        self.area(area).later.len() as u64 + 1
    }

    pub(crate) fn byte(&self, area: Area, place: u64) -> u8
        ensures { result ≡ shown self.now area place }
    {
        self.area(area).byte(place)
    }

    /// Fills the room with the bytes from a place on.
    pub(crate) fn show(&self, area: Area, at: u64, room: &mut [u8])
        requires { at + length room.old ≤ 2 ^ 62 }
        ensures { (k : ℕ) → k < length room.new → get_or room.new k 0 ≡ shown self.now area (at + k) }
    {
        for j in 0..room.len() {
            room[j] = self.byte(area, at + j as u64);
        }
    }

    /// Zeros up to this end of an area.
    pub(crate) fn grow(&mut self, area: Area, to: u64) -> Result<(), AllocError>
        ensures bytes { (a : Area) (i : ℕ) → shown self.new a i ≡ shown self.old a i }
        ensures ok { OnOk result ((a : Area) → end_in self.new a ≡ cond (same a area) (max (end_in self.old a) to) (end_in self.old a)) }
        ensures err { OnErr result ((a : Area) → end_in self.new a ≡ end_in self.old a) }
    {
        match area {
            Area::Journal0 => self.journal0.grow(to),
            Area::Journal1 => self.journal1.grow(to),
            Area::Blocks => self.blocks.grow(to),
            Area::Archive => self.archive.grow(to),
        }
    }

    /// Puts a piece over what is there.
    pub(crate) fn put(&mut self, area: Area, at: u64, piece: &[u8])
        requires { at + length piece.now ≤ end_in self.old area }
        ensures bytes { (a : Area) (i : ℕ) → shown self.new a i ≡ cond (same a area) (over at piece.now (shown self.old a) i) (shown self.old a i) }
        ensures end { (a : Area) → end_in self.new a ≡ end_in self.old a }
    {
        match area {
            Area::Journal0 => self.journal0.put(at, piece),
            Area::Journal1 => self.journal1.put(at, piece),
            Area::Blocks => self.blocks.put(at, piece),
            Area::Archive => self.archive.put(at, piece),
        }
    }

    /// Puts a piece over what is there, and zeros between.
    pub(crate) fn write(&mut self, area: Area, at: u64, piece: &[u8]) -> Result<(), AllocError>
        ensures { OnOk result ((a : Area) (i : ℕ) → shown self.new a i ≡ cond (same a area) (over at piece.now (shown self.old a) i) (shown self.old a i)) }
    {
        self.grow(area, at.saturating_add(piece.len() as u64))?;
        self.put(area, at, piece);
        Ok(())
    }

    /// Takes an area's bytes from another.
    pub(crate) fn take_over(
        &mut self,
        alloc: Global,
        from: &Areas,
        area: Area,
    ) -> Result<(), AllocError>
        ensures { OnOk result ((a : Area) (i : ℕ) → shown self.new a i ≡ cond (same a area) (shown from.now a i) (shown self.old a i)) }
    {
        match area {
            Area::Journal0 => self.journal0 = from.journal0.copy(alloc)?,
            Area::Journal1 => self.journal1 = from.journal1.copy(alloc)?,
            Area::Blocks => self.blocks = from.blocks.copy(alloc)?,
            Area::Archive => self.archive = from.archive.copy(alloc)?,
        }
        Ok(())
    }
}
