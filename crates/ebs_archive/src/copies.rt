// Copies by snapshot and index.
ghost use Rattle.std.specs.Prelude.{◌≡◌, ◌<◌, ◌^◌, length, true, false, OnOk, OnErr};
ghost use Rattle.std.specs.Option.{option_copied, option_map};
ghost use Rattle.std.specs.List.{count_by};
ghost use Rattle.std.specs.FinMap as map;
ghost use Rattle.ebs_tables.specs.Full.{full, released};
ghost use Rattle.ebs_archive.specs.Keys.{copy_key, in_row, row, without_row, IsLeastFrom, IsFrom};

use crate::copy_key::CopyKey;
use ebs_model::{Block, SnapKey};
use ebs_tables::{Filled, Slots};
use std::alloc::{AllocError, Global};
use std::marker::Model;

/// A copy in the archive: its number, and the stamp and the SHA-256 of the block that it is of.
#[derive(Clone, Copy, Debug, PartialEq, Eq)]
pub struct ArchiveCopy {
    pub copy: u64,
    pub block: Block,
}

/// The copies of all snapshots, and keys that are ready for one.
#[derive(Debug, Drop)]
pub struct Copies {
    slots: Slots<CopyKey, ArchiveCopy>,
    filled: usize,
}

impl Model for Copies {
    ghost use Rattle.std.specs.Prelude.{◌≡◌};
    ghost use Rattle.std.specs.FinMap as map;
    ghost use Rattle.ebs_tables.specs.Full.{slots_of, held};
    ghost use Rattle.ebs_archive.specs.Keys.{copy_key_cmp};
    ghost use Rattle.ebs_archive.specs.Copies.{CopySlots, copies_code};

    ghost Value = { CopySlots };

    ghost coded = { copies_code };

    ghost view = { λ c. slots_of copy_key_cmp c.slots };

    ghost invariant = { λ c. c.filled ≡ map.len (held copy_key_cmp c.slots) };
}

impl Copies {
    ghost use Rattle.ebs_archive.specs.declared.copy_key.CopyKey.{CopyKey};
    ghost use Rattle.ebs_archive.specs.declared.copies.ArchiveCopy.{ArchiveCopy};

    pub fn new(alloc: Global) -> Self
        ensures slots { result ≡ map.empty }
        ensures copies { full result ≡ map.empty }
    {
        Copies {
            slots: Slots::new(alloc),
            filled: 0,
        }
    }

    /// How many copies there are.
    pub fn len(&self) -> u64
        ensures { result ≡ map.len (full self.now) }
    {
        self.filled as u64
    }

    pub fn get(&self, key: &SnapKey, index: u32) -> Option<&ArchiveCopy>
        ensures { option_copied result ≡ row (full self.now) key.now index }
    {
        self.slots.get(&CopyKey { key: *key, index })
    }

    /// The snapshot's copy with the least index at or above the given one: one search.
    pub fn next_of(&self, key: &SnapKey, from: u32) -> Option<(u32, &ArchiveCopy)>
        ensures { IsLeastFrom (row (full self.now) key.now) from (option_map (λ e. (e.0, e.1.now)) result) }
    {
        let start = CopyKey {
            key: *key,
            index: from,
        };
        let (copy_key, copy) = self.slots.from(&start).next()?;
        if copy_key.key != *key {
            return None;
        }
        Some((copy_key.index, copy))
    }

    /// How many copies the snapshot has: a walk over them alone.
    pub fn count_of(&self, key: &SnapKey) -> u64
        ensures { result ≡ count_by (λ (e : CopyKey × ArchiveCopy). in_row key.now e.0) (map.entries (full self.now)) }
    {
        let start = CopyKey {
            key: *key,
            index: 0,
        };
        count_of(self.slots.from(&start), key)
    }

    /// Makes room for a copy. The copies stay.
    pub fn prepare(&mut self, key: &SnapKey, index: u32) -> Result<(), AllocError>
        ensures copies { full self.new ≡ full self.old }
        ensures room { OnOk result (map.contains_key self.new (copy_key key.now index) ≡ true) }
        ensures others { (q : CopyKey) → map.contains_key self.old q ≡ true → map.contains_key self.new q ≡ true }
        ensures err { OnErr result (self.new ≡ self.old) }
    {
        self.slots.prepare(CopyKey { key: *key, index })
    }

    /// Takes back room that was made for nothing. The copies stay.
    pub fn release(&mut self, key: &SnapKey, index: u32)
        ensures copies { full self.new ≡ full self.old }
        ensures room { self.new ≡ released self.old (copy_key key.now index) }
    {
        self.slots.release(&CopyKey { key: *key, index });
    }

    /// Writes a copy at its key, for which there is room.
    pub fn insert(&mut self, key: &SnapKey, index: u32, copy: ArchiveCopy)
        requires { map.contains_key self.old (copy_key key.now index) ≡ true }
        ensures copies { full self.new ≡ map.insert (full self.old) (copy_key key.now index) copy }
        ensures room { (q : CopyKey) → map.contains_key self.new q ≡ map.contains_key self.old q }
    {
        let at = CopyKey { key: *key, index };
        let known = self.slots.contains(&at);
        self.slots.fill(at, copy);
        let _most = self.slots.ready_len();
        if !known {
            self.filled += 1;
        }
    }

    /// Takes a copy out, and its room with it.
    pub fn remove(&mut self, key: &SnapKey, index: u32) -> Option<ArchiveCopy>
        ensures copy { result ≡ row (full self.old) key.now index }
        ensures copies { full self.new ≡ map.remove (full self.old) (copy_key key.now index) }
        ensures room { self.new ≡ map.remove self.old (copy_key key.now index) }
    {
        let taken = self.slots.remove(&CopyKey { key: *key, index });
        if taken.is_some() {
            self.filled -= 1;
        }
        taken
    }

    /// Takes all copies of the snapshot out, and their room with them.
    pub fn remove_row(&mut self, key: &SnapKey)
        ensures copies { full self.new ≡ without_row (full self.old) key.now }
        ensures others { (q : CopyKey) → in_row key.now q ≡ false → map.get self.new q ≡ map.get self.old q }
    {
        while let Some((index, _)) = self.next_of(key, 0) {
            self.remove(key, index);
        }
    }
}

// How many of the snapshot's there are before the first of another one.
fn count_of(copies: Filled<'_, CopyKey, ArchiveCopy>, key: &SnapKey) -> u64
    requires fits { length copies < 2 ^ 63 }
    requires ordered { IsFrom key.now copies }
    ensures { result ≡ count_by (λ e. in_row key.now e.0) copies.entry }
{
    let mut count = 0;
    for (copy_key, _) in copies {
        if copy_key.key != *key {
            return count;
        }
        count += 1;
    }
    count
}
