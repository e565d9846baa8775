// Values by number, with numbers made ready so that writing a value takes no memory.
ghost use Rattle.std.specs.Prelude.{◌<◌, nat_le, ◌^◌, length, ◌≡◌, true, IfOk, OnOk, OnErr};
ghost use Rattle.std.specs.Option.{option_copied};
ghost use Rattle.std.specs.List.{filter};
ghost use Rattle.std.specs.FinMap as map;
ghost use Rattle.ebs_tables.specs.Full.{full, released};

use crate::filled::Filled;
use crate::key::ExactClone;
use crate::slots::Slots;
use std::alloc::{AllocError, Global};
use std::marker::Model;

/// Values by a number of 32 bits, and numbers that are ready for one.
#[derive(Debug, Drop)]
pub struct NumberedSlots<V> {
    slots: Slots<u32, V>,
    filled: usize,
}

impl<V> Model for NumberedSlots<V> {
    ghost use Rattle.std.specs.Prelude.{◌≡◌, Option};
    ghost use Rattle.std.specs.Ordering.{nat_cmp};
    ghost use Rattle.std.specs.Coded.{coded_ℕ, coded_option};
    ghost use Rattle.std.specs.FinMap as map;
    ghost use Rattle.ebs_tables.specs.Full.{slots_of, held};

    ghost Value = { map.FinMap nat_cmp (Option V) };

    ghost coded = { map.code coded_ℕ (coded_option V.code) };

    ghost view = { λ n. slots_of nat_cmp n.slots };

    ghost invariant = { λ n. n.filled ≡ map.len (held nat_cmp n.slots) };
}

impl<V: Drop> NumberedSlots<V> {
    pub fn new(alloc: Global) -> Self
        ensures { result ≡ map.empty }
    {
        NumberedSlots {
            slots: Slots::new(alloc),
            filled: 0,
        }
    }

    /// How many numbers have a value.
    pub fn len(&self) -> usize
        ensures { result ≡ map.len (full self.now) }
    {
        self.filled
    }

    pub fn get(&self, number: u32) -> Option<&V>
        ensures { option_copied result ≡ map.get (full self.now) number }
    {
        self.slots.get(&number)
    }

    /// Whether the number has a value.
    pub fn contains(&self, number: u32) -> bool
        ensures { result ≡ map.contains_key (full self.now) number }
    {
        self.slots.contains(&number)
    }

    /// Whether the number is ready, with a value or without.
    pub fn is_ready(&self, number: u32) -> bool
        ensures { result ≡ map.contains_key self.now number }
    {
        self.slots.is_ready(&number)
    }

    /// Makes the number ready. The values stay.
    pub fn prepare(&mut self, number: u32) -> Result<(), AllocError>
        ensures values { full self.new ≡ full self.old }
        ensures ready { OnOk result (map.contains_key self.new number ≡ true) }
        ensures others { (q : _) → map.contains_key self.old q ≡ true → map.contains_key self.new q ≡ true }
        ensures err { OnErr result (self.new ≡ self.old) }
    {
        self.slots.prepare(number)
    }

    /// Writes a value, which takes no memory.
    pub fn fill(&mut self, number: u32, value: V)
        requires { map.contains_key self.old number ≡ true }
        ensures values { full self.new ≡ map.insert (full self.old) number value }
        ensures ready { (q : _) → map.contains_key self.new q ≡ map.contains_key self.old q }
    {
        let known = self.slots.contains(&number);
        self.slots.fill(number, value);
        let _most = self.slots.ready_len();
        if !known {
            self.filled += 1;
        }
    }

    /// Takes a value out, after which its number is still ready.
    pub fn take(&mut self, number: u32) -> Option<V>
        ensures value { result ≡ map.get (full self.old) number }
        ensures values { full self.new ≡ map.remove (full self.old) number }
        ensures ready { (q : _) → map.contains_key self.new q ≡ map.contains_key self.old q }
    {
        let taken = self.slots.take(number);
        if taken.is_some() {
            self.filled -= 1;
        }
        taken
    }

    /// Takes back a number that was made ready for nothing. One that has a value stays.
    pub fn release(&mut self, number: u32)
        ensures slots { self.new ≡ released self.old number }
        ensures values { full self.new ≡ full self.old }
    {
        self.slots.release(&number);
    }

    /// The values at the number or above it, in ascending number: one search, then a step for each number that is read.
    pub fn from(&self, number: u32) -> Filled<'_, u32, V>
        ensures fits { length result < 2 ^ 63 }
        ensures values { result ≡ filter (λ e. nat_le number e.0) (map.entries (full self.now)) }
    {
        self.slots.from(&number)
    }
}

impl<V: ExactClone> NumberedSlots<V> {
    /// The same once more, with the same numbers ready.
    pub fn copy(&self) -> Result<Self, AllocError>
        ensures { IfOk result (λ copy. copy ≡ self.now) }
    {
        let slots = self.slots.copy()?;
        Ok(NumberedSlots {
            slots,
            filled: self.filled,
        })
    }
}
