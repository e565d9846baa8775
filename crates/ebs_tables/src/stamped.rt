// Values by a number of 64 bits, seen as a finite map.
ghost use Rattle.std.specs.Prelude.{◌<◌, nat_le, ◌^◌, length, ◌≡◌, IfOk, OnOk, OnErr};
ghost use Rattle.std.specs.Option.{option_copied};
ghost use Rattle.std.specs.List.{filter};
ghost use Rattle.std.specs.FinMap as map;

use crate::table::Table;
use std::alloc::{AllocError, Global};
use std::collections::btree_map::Range;
use std::marker::Model;

/// Values by a number of 64 bits, such as the stamp of a write.
#[derive(Debug, Drop)]
pub struct Stamped<V> {
    table: Table<u64, V>,
}

impl<V> Model for Stamped<V> {
    ghost use Rattle.std.specs.Ordering.{nat_cmp};
    ghost use Rattle.std.specs.Coded.{coded_ℕ};
    ghost use Rattle.std.specs.FinMap as map;
    ghost use Rattle.ebs_tables.specs.Seen.{seen};

    ghost Value = { map.FinMap nat_cmp V };

    ghost coded = { map.code coded_ℕ V.code };

    ghost view = { λ s. seen nat_cmp s.table };
}

impl<V: Drop> Stamped<V> {
    pub fn new(alloc: Global) -> Self
        ensures { result ≡ map.empty }
    {
        Stamped {
            table: Table::new(alloc),
        }
    }

    pub fn len(&self) -> usize
        ensures len { result ≡ map.len self.now }
        ensures small { result < 2 ^ 63 }
    {
        self.table.len()
    }

    pub fn get(&self, stamp: u64) -> Option<&V>
        ensures { option_copied result ≡ map.get self.now stamp }
    {
        self.table.get(&stamp)
    }

    pub fn contains(&self, stamp: u64) -> bool
        ensures { result ≡ map.contains_key self.now stamp }
    {
        self.table.contains(&stamp)
    }

    /// Gives what the stamp had.
    pub fn insert(&mut self, stamp: u64, value: V) -> Result<Option<V>, AllocError>
        ensures old { IfOk result (λ old. old ≡ map.get self.old stamp) }
        ensures ok { OnOk result (self.new ≡ map.insert self.old stamp value) }
        ensures err { OnErr result (self.new ≡ self.old) }
    {
        self.table.insert(stamp, value)
    }

    pub fn remove(&mut self, stamp: u64) -> Option<V>
        ensures value { result ≡ map.get self.old stamp }
        ensures rest { self.new ≡ map.remove self.old stamp }
    {
        self.table.remove(&stamp)
    }

    /// The values at the stamp or above it, in ascending stamp.
    pub fn from(&self, stamp: u64) -> Range<'_, u64, V>
        ensures fits { length result < 2 ^ 63 }
        ensures values { result ≡ filter (λ e. nat_le stamp e.0) (map.entries self.now) }
    {
        self.table.from(&stamp)
    }
}
