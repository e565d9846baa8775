// A walk over the values of slots.
ghost use Rattle.std.specs.Prelude.{length};
ghost use Rattle.std.specs.Iterator.{at_most};
ghost use Rattle.std.specs.Map.Iter.{TakesFirst, deref_pair};
ghost use Rattle.ebs_tables.specs.Full.{filled};

use std::collections::btree_map::Range;
use std::marker::Model;

/// Values by key in ascending key. Keys that are only ready are passed over.
#[derive(Drop)]
pub struct Filled<'a, K, V> {
    pub(crate) slots: Range<'a, K, Option<V>>,
}

impl<'a, K, V> Model for Filled<'a, K, V> {
    ghost use Rattle.std.specs.Prelude.{List};
    ghost use Rattle.ebs_tables.specs.Full.{filled};

    ghost Value = { List (K × V) };

    ghost view = { λ f. filled f.slots };
}

impl<'a, K, V> Iterator for Filled<'a, K, V> {
    type Item = (&'a K, &'a V);

    ghost next_gives = { TakesFirst deref_pair };

    ghost remaining = { λ s. at_most (length s) };

    fn next(&mut self) -> Option<(&'a K, &'a V)> {
        first_filled(&mut self.slots)
    }
}

fn first_filled<'a, K, V>(slots: &mut Range<'a, K, Option<V>>) -> Option<(&'a K, &'a V)>
    ensures { TakesFirst deref_pair (filled slots.old) result (filled slots.new) }
{
    while let Some((key, slot)) = slots.next() {
        if let Some(value) = slot {
            return Some((key, value));
        }
    }
    None
}
