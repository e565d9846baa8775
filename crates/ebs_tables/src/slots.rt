// Values by key, with keys made ready so that writing a value takes no memory.
use crate::filled::Filled;
use crate::key::{ExactClone, Key};
use crate::table::Table;
use std::alloc::{AllocError, Global};

/// Values by key, and keys that are ready for one.
#[derive(Debug, Drop)]
pub struct Slots<K: Ord, V> {
    pub(crate) slots: Table<K, Option<V>>,
}

impl<K: Key, V: Drop> Slots<K, V> {
    ghost use Rattle.std.specs.Prelude.{◌<◌, ◌≤◌, ◌^◌, length, ◌≡◌, true, false, OnOk, OnErr};
    ghost use Rattle.std.specs.Option.{option_copied};
    ghost use Rattle.std.specs.Ordering.{is_gt, is_le};
    ghost use Rattle.std.specs.FinMap as map;
    ghost use Rattle.std.specs.List.{filter};
    ghost use Rattle.ebs_tables.specs.Seen.{is_within};
    ghost use Rattle.ebs_tables.specs.Full.{slots_of, held, is_ready, released};

    pub fn new(alloc: Global) -> Self
        ensures slots { slots_of K.cmp result ≡ map.empty }
        ensures held { held K.cmp result ≡ map.empty }
    {
        Slots {
            slots: Table::new(alloc),
        }
    }

    pub fn get(&self, key: &K) -> Option<&V>
        ensures { option_copied result ≡ map.get (held K.cmp self.now) key.now }
    {
        match self.slots.get(key) {
            Some(slot) => slot.as_ref(),
            None => None,
        }
    }

    /// Whether the key has a value.
    pub fn contains(&self, key: &K) -> bool
        ensures { result ≡ map.contains_key (held K.cmp self.now) key.now }
    {
        self.get(key).is_some()
    }

    /// Whether the key is ready, with a value or without.
    pub fn is_ready(&self, key: &K) -> bool
        ensures { result ≡ is_ready K.cmp self.now key.now }
    {
        self.slots.contains(key)
    }

    /// How many keys are ready, with a value or without.
    pub fn ready_len(&self) -> usize
        ensures len { result ≡ map.len (slots_of K.cmp self.now) }
        ensures values { map.len (held K.cmp self.now) ≤ result }
        ensures small { result < 2 ^ 63 }
    {
        self.slots.len()
    }

    /// Makes the key ready. The values stay.
    pub fn prepare(&mut self, key: K) -> Result<(), AllocError>
        ensures held { held K.cmp self.new ≡ held K.cmp self.old }
        ensures ready { OnOk result (is_ready K.cmp self.new key ≡ true) }
        ensures others { (q : _) → is_ready K.cmp self.old q ≡ true → is_ready K.cmp self.new q ≡ true }
        ensures err { OnErr result (slots_of K.cmp self.new ≡ slots_of K.cmp self.old) }
    {
        if !self.slots.contains(&key) {
            self.slots.insert(key, None)?;
        }
        Ok(())
    }

    /// Writes a value, which takes no memory.
    pub fn fill(&mut self, key: K, value: V)
        requires { is_ready K.cmp self.old key ≡ true }
        ensures held { held K.cmp self.new ≡ map.insert (held K.cmp self.old) key value }
        ensures ready { (q : _) → is_ready K.cmp self.new q ≡ is_ready K.cmp self.old q }
    {
        let _ = self.slots.insert(key, Some(value));
    }

    /// Takes a value out, after which its key is still ready.
    pub fn take(&mut self, key: K) -> Option<V>
        ensures value { result ≡ map.get (held K.cmp self.old) key }
        ensures held { held K.cmp self.new ≡ map.remove (held K.cmp self.old) key }
        ensures ready { (q : _) → is_ready K.cmp self.new q ≡ is_ready K.cmp self.old q }
    {
        if !self.slots.contains(&key) {
            return None;
        }
        match self.slots.insert(key, None) {
            Ok(Some(old)) => old,
            _ => None,
        }
    }

    /// Takes back a key that was made ready for nothing. One that has a value stays.
    pub fn release(&mut self, key: &K)
        ensures slots { slots_of K.cmp self.new ≡ released (slots_of K.cmp self.old) key.now }
        ensures held { held K.cmp self.new ≡ held K.cmp self.old }
    {
        if !self.contains(key) {
            self.slots.remove(key);
        }
    }

    /// Takes a value out, and its key with it.
    pub fn remove(&mut self, key: &K) -> Option<V>
        ensures value { result ≡ map.get (held K.cmp self.old) key.now }
        ensures held { held K.cmp self.new ≡ map.remove (held K.cmp self.old) key.now }
        ensures slots { slots_of K.cmp self.new ≡ map.remove (slots_of K.cmp self.old) key.now }
    {
        self.slots.remove(key)?
    }

    /// The values of the key and of those above it, in ascending key.
    pub fn from<'a>(&'a self, key: &K) -> Filled<'a, K, V>
        ensures fits { length result < 2 ^ 63 }
        ensures values { result ≡ filter (λ e. is_le (K.cmp key.now e.0)) (map.entries (held K.cmp self.now)) }
    {
        Filled {
            slots: self.slots.from(key),
        }
    }

    /// The values of the keys from the start on, below the end, in ascending key.
    pub fn until<'a>(&'a self, start: &K, end: &K) -> Filled<'a, K, V>
        requires { is_gt (K.cmp start.now end.now) ≡ false }
        ensures fits { length result < 2 ^ 63 }
        ensures values { result ≡ filter (λ e. is_within K.cmp start.now end.now e.0) (map.entries (held K.cmp self.now)) }
    {
        Filled {
            slots: self.slots.until(start, end),
        }
    }
}

impl<K: Key + ExactClone, V: ExactClone> Slots<K, V> {
    ghost use Rattle.std.specs.Prelude.{◌≡◌, IfOk};
    ghost use Rattle.ebs_tables.specs.Full.{slots_of};

    /// The same slots once more.
    pub fn copy(&self) -> Result<Self, AllocError>
        ensures { IfOk result (λ copy. slots_of K.cmp copy ≡ slots_of K.cmp self.now) }
    {
        let slots = self.slots.copy()?;
        Ok(Slots { slots })
    }
}
