// Values by number, with room for more.
ghost use Rattle.std.specs.Prelude.{◌≡◌, ◌<◌, ◌≤◌, ◌+◌, ◌^◌, IsSome, OnOk};
ghost use Rattle.std.specs.Option.{option_copied};
ghost use Rattle.std.specs.FinMap as map;

use std::alloc::{AllocError, Global};
use std::collections::HashMap;
use std::marker::Model;

/// Values by number, seen as a finite map beside how many more go in without taking memory.
#[derive(Drop)]
pub(crate) struct SpareMap<V> {
    values: HashMap<u64, V>,
}

impl<V> Model for SpareMap<V> {
    ghost use Rattle.std.specs.FinMap as map;
    ghost use Rattle.std.specs.HashMap.{spare};
    ghost use Rattle.ebs_slots.specs.inner.SpareMap.{Spared, spared_code};

    ghost Value = { Spared V };

    ghost coded = { spared_code V.code };

    ghost view = { λ m. record { entries = map.from_entries m.values.entries; spare = spare m.values } };
}

impl<V: Drop> SpareMap<V> {
    pub(crate) fn new(alloc: Global) -> Self
        ensures { result.entries ≡ map.empty }
    {
        SpareMap {
            values: HashMap::new(alloc),
        }
    }

    pub(crate) fn len(&self) -> usize
        ensures len { result ≡ map.len self.now.entries }
        ensures small { result < 2 ^ 63 }
    {
        self.values.len()
    }

    pub(crate) fn get(&self, number: u64) -> Option<&V>
        ensures { option_copied result ≡ map.get self.now.entries number }
    {
        self.values.get(&number)
    }

    pub(crate) fn contains(&self, number: u64) -> bool
        ensures { result ≡ map.contains_key self.now.entries number }
    {
        self.get(number).is_some()
    }

    /// Makes room for that many more.
    pub(crate) fn reserve(&mut self, count: usize) -> Result<(), AllocError>
        ensures entries { self.new.entries ≡ self.old.entries }
        ensures room { OnOk result (count ≤ self.new.spare) }
        ensures spare { self.old.spare ≤ self.new.spare }
    {
        self.values.reserve(count)
    }

    /// Puts a value in, for which there is room.
    pub(crate) fn insert(&mut self, number: u64, value: V)
        requires { 0 < self.old.spare }
        ensures entries { self.new.entries ≡ map.insert self.old.entries number value }
        ensures spare { self.old.spare ≤ self.new.spare + 1 }
    {
        let _ = self.values.insert(number, value);
    }

    /// Gives a number that has a value another one.
    pub(crate) fn set(&mut self, number: u64, value: V)
        requires { IsSome (map.get self.old.entries number) }
        ensures entries { self.new.entries ≡ map.insert self.old.entries number value }
        ensures spare { self.old.spare ≤ self.new.spare }
    {
        if let Some(place) = self.values.get_mut(&number) {
            *place = value;
        }
    }

    pub(crate) fn remove(&mut self, number: u64)
        ensures entries { self.new.entries ≡ map.remove self.old.entries number }
        ensures spare { self.old.spare ≤ self.new.spare }
    {
        self.values.remove(&number);
    }
}
