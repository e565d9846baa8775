// Values by number, seen as a finite map, so that a declared record can have them as a field.
ghost use Rattle.std.specs.Prelude.{◌<◌, nat_le, ◌^◌, length, ◌≡◌, IfOk, OnOk, OnErr};
ghost use Rattle.std.specs.Option.{option_copied};
ghost use Rattle.std.specs.List.{filter};
ghost use Rattle.std.specs.FinMap as map;

use crate::key::ExactClone;
use crate::table::Table;
use std::alloc::{AllocError, Global};
use std::collections::btree_map::{Iter, Range};
use std::marker::Model;

/// Values by a number of 32 bits, such as a block's index.
#[derive(Debug, Drop)]
pub struct Numbered<V> {
    table: Table<u32, V>,
}

impl<V> Model for Numbered<V> {
    ghost use Rattle.std.specs.Ordering.{nat_cmp};
    ghost use Rattle.std.specs.Coded.{coded_ℕ};
    ghost use Rattle.std.specs.FinMap as map;
    ghost use Rattle.ebs_tables.specs.Seen.{seen};

    ghost Value = { map.FinMap nat_cmp V };

    ghost coded = { map.code coded_ℕ V.code };

    ghost view = { λ n. seen nat_cmp n.table };
}

impl<V: Drop> Numbered<V> {
    pub fn new(alloc: Global) -> Self
        ensures { result ≡ map.empty }
    {
        Numbered {
            table: Table::new(alloc),
        }
    }

    pub fn len(&self) -> usize
        ensures len { result ≡ map.len self.now }
        ensures small { result < 2 ^ 63 }
    {
        self.table.len()
    }

    pub fn get(&self, number: u32) -> Option<&V>
        ensures { option_copied result ≡ map.get self.now number }
    {
        self.table.get(&number)
    }

    pub fn contains(&self, number: u32) -> bool
        ensures { result ≡ map.contains_key self.now number }
    {
        self.table.contains(&number)
    }

    /// Gives what the number had.
    pub fn insert(&mut self, number: u32, value: V) -> Result<Option<V>, AllocError>
        ensures old { IfOk result (λ old. old ≡ map.get self.old number) }
        ensures ok { OnOk result (self.new ≡ map.insert self.old number value) }
        ensures err { OnErr result (self.new ≡ self.old) }
    {
        self.table.insert(number, value)
    }

    pub fn remove(&mut self, number: u32) -> Option<V>
        ensures value { result ≡ map.get self.old number }
        ensures rest { self.new ≡ map.remove self.old number }
    {
        self.table.remove(&number)
    }

    pub fn clear(&mut self)
        ensures { self.new ≡ map.empty }
    {
        self.table.clear();
    }

    /// All values, in ascending number.
    pub fn iter(&self) -> Iter<'_, u32, V>
        ensures fits { length result < 2 ^ 63 }
        ensures values { result ≡ map.entries self.now }
    {
        self.table.iter()
    }

    /// The values at the number or above it, in ascending number: one search, then a step for each value that is read.
    pub fn from(&self, number: u32) -> Range<'_, u32, V>
        ensures fits { length result < 2 ^ 63 }
        ensures values { result ≡ filter (λ e. nat_le number e.0) (map.entries self.now) }
    {
        self.table.from(&number)
    }
}

impl<V: ExactClone> Numbered<V> {
    /// The same values once more.
    pub fn copy(&self) -> Result<Self, AllocError>
        ensures { IfOk result (λ copy. copy ≡ self.now) }
    {
        let table = self.table.copy()?;
        Ok(Numbered { table })
    }
}
