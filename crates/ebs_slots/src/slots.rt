// Slots, their keys and their leases.
ghost use Rattle.std.specs.Prelude.{◌≡◌, ◌<◌, ◌≤◌, ◌+◌, ◌^◌, None, Some, IsTrue, ◌↔◌, ◌≢◌, ℕ, IfSome, IfNone, IsSome, OnOk, OnErr};
ghost use Rattle.std.specs.FinMap as map;
ghost use Rattle.ebs_slots.specs.inner.Slots.{IsApart, IsFree, IsSlot, abandoned, adopted, count_of, forgotten, no_slots, placed, released, retained};
ghost use Rattle.ebs_slots.specs.Slots.{start_of};

use crate::choosing::{give_back, is_unused};
use crate::lease::Lease;
use crate::spare_map::SpareMap;
use ebs_world::Area;
use std::alloc::{AllocError, Global};
use std::marker::Model;

/// The slots of an area. Slot n is 524288 bytes, from byte 524288 * n of the area on. Byte 0 of the archive is the mark that
/// says that a store was made, so slot n there begins at byte 524288 * (n + 1). A slot ends at or below byte 2^62. A key has
/// one slot, and so has a lease, and no two of them have the same. Whoever keeps the block of a key in several places counts
/// them here as entries, so that the key goes with the last one. A slot that was given up may be handed out again.
#[derive(Drop)]
pub struct Slots {
    pub(crate) alloc: Global,
    pub(crate) area: Area,
    // The slots of keys and the keys of slots. Each has room for every lease.
    pub(crate) keys: SpareMap<u64>,
    pub(crate) owners: SpareMap<u64>,
    // How many entries have the block of each key, with as much room.
    pub(crate) counts: SpareMap<u64>,
    pub(crate) leases: SpareMap<[u8; 32]>,
    pub(crate) top: u64,
    // Slots that were given back, the latest at the end, and a number below which each unused slot is one of them.
    pub(crate) freed: Vec<u64>,
    pub(crate) low: u64,
}

impl Model for Slots {
    ghost use Rattle.std.specs.Prelude.{◌≤◌, ◌^◌};
    ghost use Rattle.std.specs.FinMap as map;
    ghost use Rattle.ebs_slots.specs.inner.Slots.{SlotTable, table_code, IsApart, AreCounted, Owns};
    ghost use Rattle.ebs_slots.specs.inner.Freed.{AreListed};
    ghost use Rattle.ebs_slots.specs.Slots.{start_of};

    ghost Value = { SlotTable };

    ghost coded = { table_code };

    ghost view = { λ s. record { area = s.area; keys = s.keys.entries; counts = s.counts.entries; leases = s.leases.entries; top = s.top } };

    ghost invariant = { λ s. IsApart (record { area = s.area; keys = s.keys.entries; counts = s.counts.entries; leases = s.leases.entries; top = s.top })
        × Owns s.keys.entries s.owners.entries × (map.len s.leases.entries ≤ s.keys.spare) × (map.len s.leases.entries ≤ s.owners.spare) × (start_of s.area s.top ≤ 2 ^ 62)
        × AreCounted (record { area = s.area; keys = s.keys.entries; counts = s.counts.entries; leases = s.leases.entries; top = s.top }) × (map.len s.leases.entries ≤ s.counts.spare)
        × AreListed s.owners.entries s.leases.entries s.freed.items s.low × (s.low ≤ s.top) };
}

impl Slots {
    /// No key has a slot, and none is under lease.
    pub fn new(alloc: Global, area: Area) -> Slots
        ensures { result ≡ no_slots area }
    {
        Slots {
            alloc,
            area,
            keys: SpareMap::new(alloc),
            owners: SpareMap::new(alloc),
            counts: SpareMap::new(alloc),
            leases: SpareMap::new(alloc),
            top: 0,
            freed: Vec::new(alloc),
            low: 0,
        }
    }

    pub fn slot_of(&self, key: u64) -> Option<u64>
        ensures { result ≡ map.get self.now.keys key }
    {
        self.keys.get(key).copied()
    }

    /// Whether no key and no lease has the slot.
    pub fn is_free(&self, slot: u64) -> bool
        ensures { IsTrue result ↔ IsFree self.now slot }
    {
        is_unused(&self.owners, &self.leases, slot)
    }

    /// The key that has the slot.
    pub fn key_of(&self, slot: u64) -> Option<u64>
        ensures some { IfSome result (λ key. map.get self.now.keys key ≡ Some slot) }
        ensures none { IfNone result ((key : ℕ) → map.get self.now.keys key ≢ Some slot) }
    {
        self.owners.get(slot).copied()
    }

    /// The number of slots that a key or a lease has.
    pub fn used(&self) -> u64
        ensures { result ≡ map.len self.now.keys + map.len self.now.leases }
    {
        (self.keys.len() + self.leases.len()) as u64
    }

    /// The number of slots under lease.
    pub fn leased(&self) -> u64
        ensures { result ≡ map.len self.now.leases }
    {
        self.leases.len() as u64
    }

    /// A number above all slots that a key or a lease has.
    pub fn top(&self) -> u64
        ensures top { result ≡ self.now.top }
        ensures apart { IsApart self.now }
        ensures small { result ≤ 2 ^ 43 }
        ensures within { start_of self.now.area result ≤ 2 ^ 62 }
    {
        self.top
    }

    /// How many entries have the key's block.
    pub fn count(&self, key: u64) -> u64
        ensures { result ≡ count_of self.now key }
    {
        self.counts.get(key).copied().unwrap_or(0)
    }

    /// Gives a key the slot of a lease, for one entry. That takes no memory.
    pub fn adopt(&mut self, lease: Lease, key: u64)
        requires new { map.get self.old.keys key ≡ None }
        requires leased { map.get self.old.leases lease.slot ≡ Some lease.digest }
        ensures { self.new ≡ adopted self.old lease.slot key }
    {
        let slot = lease.into_slot();
        self.keys.insert(key, slot);
        self.owners.insert(slot, key);
        self.counts.insert(key, 1);
        self.leases.remove(slot);
    }

    /// Gives up a lease.
    pub fn abandon(&mut self, lease: Lease)
        requires { map.get self.old.leases lease.slot ≡ Some lease.digest }
        ensures { self.new ≡ abandoned self.old lease.slot }
    {
        let spent = lease.into_slot();
        self.leases.remove(spent);
        self.low = give_back(&mut self.freed, self.low, spent);
    }

    /// Gives a key a slot whose block stands already, for one entry.
    pub fn place(&mut self, key: u64, slot: u64) -> Result<(), AllocError>
        requires new { map.get self.old.keys key ≡ None }
        requires free { IsFree self.old slot }
        requires fits { IsSlot self.old.area slot }
        ensures ok { OnOk result (self.new ≡ placed self.old key slot) }
        ensures err { OnErr result (self.new ≡ self.old) }
    {
        self.keys.reserve(self.leases.len() + 1)?;
        self.owners.reserve(self.leases.len() + 1)?;
        self.counts.reserve(self.leases.len() + 1)?;
        self.freed.reserve(self.keys.len() + self.leases.len() + 1)?;
        self.keys.insert(key, slot);
        self.owners.insert(slot, key);
        self.counts.insert(key, 1);
        self.top = self.top.max(slot + 1);
        Ok(())
    }

    /// One entry more has the key's block.
    pub fn retain(&mut self, key: u64)
        requires there { IsSome (map.get self.old.keys key) }
        requires few { count_of self.old key < 2 ^ 62 }
        ensures { self.new ≡ retained self.old key }
    {
        let count = self.count(key);
        self.counts.set(key, count + 1);
    }

    /// One entry less has the key's block. With the last one the key has no slot any more.
    pub fn release(&mut self, key: u64)
        requires { IsSome (map.get self.old.keys key) }
        ensures { self.new ≡ released self.old key }
    {
        let count = self.count(key);
        if count <= 1 {
            self.drop_key(key);
        } else {
            self.counts.set(key, count - 1);
        }
    }

    fn drop_key(&mut self, key: u64)
        requires { IsSome (map.get self.old.keys key) }
        ensures { self.new ≡ forgotten self.old key }
    {
        if let Some(slot) = self.slot_of(key) {
            self.forget(key, slot);
        }
    }

    /// Takes its slot away from a key, however many entries have its block.
    pub fn forget(&mut self, key: u64, slot: u64)
        requires { map.get self.old.keys key ≡ Some slot }
        ensures { self.new ≡ forgotten self.old key }
    {
        self.keys.remove(key);
        self.owners.remove(slot);
        self.counts.remove(key);
        self.low = give_back(&mut self.freed, self.low, slot);
    }
}
