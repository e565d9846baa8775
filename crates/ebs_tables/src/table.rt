// Values by key.
use crate::key::{ExactClone, Key};
use std::alloc::{AllocError, Global};
use std::collections::BTreeMap;
use std::collections::btree_map::{Iter, Range};
use std::ops::Bound;

/// Values by key.
#[derive(Debug, Drop)]
pub struct Table<K: Ord, V> {
    pub(crate) rows: BTreeMap<K, V>,
}

impl<K: Key, V: Drop> Table<K, V> {
    ghost use Rattle.std.specs.Prelude.{◌<◌, ◌^◌, length, ◌≡◌, None, false, IfOk, OnOk, OnErr};
    ghost use Rattle.std.specs.Option.{option_copied};
    ghost use Rattle.std.specs.List.{filter};
    ghost use Rattle.std.specs.Ordering.{is_le, is_gt};
    ghost use Rattle.std.specs.FinMap as map;
    ghost use Rattle.ebs_tables.specs.Seen.{seen, is_within};

    pub fn new(alloc: Global) -> Self
        ensures { seen K.cmp result ≡ map.empty }
    {
        Table {
            rows: BTreeMap::new(alloc),
        }
    }

    pub fn len(&self) -> usize
        ensures len { result ≡ map.len (seen K.cmp self.now) }
        ensures small { result < 2 ^ 63 }
    {
        self.rows.len()
    }

    pub fn get(&self, key: &K) -> Option<&V>
        ensures { option_copied result ≡ map.get (seen K.cmp self.now) key.now }
    {
        self.rows.get(key)
    }

    pub fn contains(&self, key: &K) -> bool
        ensures { result ≡ map.contains_key (seen K.cmp self.now) key.now }
    {
        self.rows.contains_key(key)
    }

    /// Gives what the key had.
    pub fn insert(&mut self, key: K, value: V) -> Result<Option<V>, AllocError>
        ensures old { IfOk result (λ old. old ≡ map.get (seen K.cmp self.old) key) }
        ensures ok { OnOk result (seen K.cmp self.new ≡ map.insert (seen K.cmp self.old) key value) }
        ensures absent { OnErr result (map.get (seen K.cmp self.old) key ≡ None) }
        ensures err { OnErr result (seen K.cmp self.new ≡ seen K.cmp self.old) }
    {
        let old = self.rows.insert(key, value)?;
        Ok(old)
    }

    pub fn remove(&mut self, key: &K) -> Option<V>
        ensures value { result ≡ map.get (seen K.cmp self.old) key.now }
        ensures rest { seen K.cmp self.new ≡ map.remove (seen K.cmp self.old) key.now }
    {
        self.rows.remove(key)
    }

    pub fn clear(&mut self)
        ensures { seen K.cmp self.new ≡ map.empty }
    {
        self.rows.clear();
    }

    /// All values, in ascending key.
    pub fn iter(&self) -> Iter<'_, K, V>
        ensures fits { length result < 2 ^ 63 }
        ensures values { result ≡ map.entries (seen K.cmp self.now) }
    {
        self.rows.iter()
    }

    /// The values of the key and of those above it, in ascending key.
    pub fn from(&self, key: &K) -> Range<'_, K, V>
        ensures fits { length result < 2 ^ 63 }
        ensures values { result ≡ filter (λ e. is_le (K.cmp key.now e.0)) (map.entries (seen K.cmp self.now)) }
    {
        self.rows.range((Bound::Included(key), Bound::Unbounded))
    }

    /// The values of the keys from the start on, below the end, in ascending key.
    pub fn until<'a>(&'a self, start: &K, end: &K) -> Range<'a, K, V>
        requires { is_gt (K.cmp start.now end.now) ≡ false }
        ensures fits { length result < 2 ^ 63 }
        ensures values { result ≡ filter (λ e. is_within K.cmp start.now end.now e.0) (map.entries (seen K.cmp self.now)) }
    {
        self.rows
            .range((Bound::Included(start), Bound::Excluded(end)))
    }
}

impl<K: Key + ExactClone, V: ExactClone> Table<K, V> {
    ghost use Rattle.std.specs.Prelude.{◌≡◌, IfOk};
    ghost use Rattle.ebs_tables.specs.Seen.{seen};

    /// The same table once more.
    pub fn copy(&self) -> Result<Self, AllocError>
        ensures { IfOk result (λ copy. seen K.cmp copy ≡ seen K.cmp self.now) }
    {
        let rows = self.rows.clone()?;
        Ok(Table { rows })
    }
}
