//! Small tables, slots and sequences.
use super::helpers::same;
use ebs_tables::{Numbered, NumberedSlots, Sequence, Slots, Stamped, Table};
use std::alloc::{AllocError, Global};
use std::process::Abort;
use std::test::Fail;

/// A row by its key.
type Row = (u32, u64);

const ROWS: [Row; 4] = [(0, 0), (3, 30), (7, 70), (u32::MAX, 10 * u32::MAX as u64)];

const LAST_ROWS: [Row; 2] = [(7, 70), (u32::MAX, 10 * u32::MAX as u64)];

/// Ten times the key at each key.
fn table_of(alloc: Global, keys: &[u32]) -> Result<Table<u32, u64>, AllocError> {
    let mut table = Table::new(alloc);
    for key in keys {
        table.insert(*key, u64::from(*key) * 10)?;
    }
    Ok(table)
}

fn assert_rows(rt: &impl Abort, table: &Table<u32, u64>, start: u32, rows: &[Row]) {
    let mut found = table.from(&start);
    for (key, value) in rows {
        same(rt, found.next(), Some((key, value)));
    }
    same(rt, found.next(), None);
}

/// Three keys are left of four, and a copy has all.
fn assert_taken_out(rt: &impl Abort, table: &mut Table<u32, u64>) -> Result<(), AllocError> {
    let copy = table.copy()?;
    same(rt, table.remove(&3), Some(31));
    same(rt, table.len(), 3);
    same(rt, copy.get(&3).copied(), Some(31));
    drop(copy);
    Ok(())
}

fn assert_table(rt: &impl Abort, table: &mut Table<u32, u64>) -> Result<(), AllocError> {
    assert_rows(rt, table, 0, &ROWS);
    assert_rows(rt, table, 4, &LAST_ROWS);
    same(rt, table.until(&3, &7).count(), 1);
    same(rt, table.iter().count(), 4);
    same(rt, table.insert(3, 31)?, Some(30));
    assert_taken_out(rt, table)?;
    table.clear();
    same(rt, table.contains(&7), false);
    Ok(())
}

#[test]
fn table_by_key(rt: HostRuntime) -> Result<(), Fail> {
    let mut table = table_of(rt.alloc(), &[7, 3, u32::MAX, 0])?;
    let done = assert_table(&rt, &mut table);
    drop(table);
    Ok(done?)
}

/// Ten times the key at each key, and one more key that is only ready.
fn slots_of(alloc: Global, keys: &[u64], ready: u64) -> Result<Slots<u64, u64>, AllocError> {
    let mut slots = Slots::new(alloc);
    for key in keys {
        slots.prepare(*key)?;
        slots.fill(*key, key.saturating_mul(10));
    }
    slots.prepare(ready)?;
    Ok(slots)
}

fn assert_slots(rt: &impl Abort, slots: &mut Slots<u64, u64>) -> Result<(), AllocError> {
    same(rt, slots.from(&0).count(), 2);
    same(rt, slots.until(&0, &9).count(), 1);
    let copy = slots.copy()?;
    same(rt, slots.take(9), Some(90));
    same(rt, slots.is_ready(&9), true);
    same(rt, slots.contains(&9), false);
    slots.release(&1);
    slots.release(&5);
    slots.release(&9);
    same(rt, slots.is_ready(&1), false);
    same(rt, slots.is_ready(&9), false);
    same(rt, slots.remove(&5), Some(50));
    same(rt, copy.get(&9).copied(), Some(90));
    drop(copy);
    Ok(())
}

#[test]
fn slots_made_ready(rt: HostRuntime) -> Result<(), Fail> {
    let mut slots = slots_of(rt.alloc(), &[5, 9], 1)?;
    let done = assert_slots(&rt, &mut slots);
    drop(slots);
    Ok(done?)
}

fn insert_all(
    numbered: &mut Numbered<()>,
    stamped: &mut Stamped<char>,
    numbers: &[u32],
) -> Result<(), AllocError> {
    for number in numbers {
        numbered.insert(*number, ())?;
        stamped.insert(u64::from(*number) + 1, 'x')?;
    }
    Ok(())
}

fn assert_numbered(
    rt: &impl Abort,
    numbered: &mut Numbered<()>,
    stamped: &mut Stamped<char>,
) -> Result<(), AllocError> {
    insert_all(numbered, stamped, &[u32::MAX, 0, 8])?;
    same(rt, stamped.from(9).count(), 2);
    same(rt, stamped.get(1 << 32).copied(), Some('x'));
    same(rt, numbered.len(), 3);
    let copy = numbered.copy()?;
    same(rt, copy.from(8).count(), 2);
    drop(copy);
    Ok(())
}

#[test]
fn values_by_number(rt: HostRuntime) -> Result<(), Fail> {
    let mut numbered = Numbered::new(rt.alloc());
    let mut stamped = Stamped::new(rt.alloc());
    let done = assert_numbered(&rt, &mut numbered, &mut stamped);
    drop(numbered);
    drop(stamped);
    Ok(done?)
}

fn slots_by_number(alloc: Global, numbers: &[u32]) -> Result<NumberedSlots<()>, AllocError> {
    let mut slots = NumberedSlots::new(alloc);
    for number in numbers {
        slots.prepare(*number)?;
        slots.fill(*number, ());
    }
    Ok(slots)
}

fn assert_filled(rt: &impl Abort, slots: &NumberedSlots<()>, start: u32, rows: &[(u32, ())]) {
    let mut found = slots.from(start);
    for (number, value) in rows {
        same(rt, found.next(), Some((number, value)));
    }
    same(rt, found.next(), None);
}

fn assert_slots_by_number(
    rt: &impl Abort,
    slots: &mut NumberedSlots<()>,
) -> Result<(), AllocError> {
    slots.prepare(8)?;
    same(rt, slots.len(), 2);
    assert_filled(rt, slots, 1, &[(u32::MAX, ())]);
    let copy = slots.copy()?;
    assert_filled(rt, &copy, 0, &[(0, ()), (u32::MAX, ())]);
    drop(copy);
    Ok(())
}

#[test]
fn slots_made_ready_by_number(rt: HostRuntime) -> Result<(), Fail> {
    let mut slots = slots_by_number(rt.alloc(), &[u32::MAX, 0])?;
    let done = assert_slots_by_number(&rt, &mut slots);
    drop(slots);
    Ok(done?)
}

fn assert_sequence(rt: &impl Abort, sequence: &mut Sequence<u32>) -> Result<(), AllocError> {
    sequence.push(4)?;
    sequence.push(2)?;
    let copy = sequence.copy()?;
    same(rt, copy.contains(&2), true);
    same(rt, copy.contains(&3), false);
    same(rt, copy.as_slice(), [4, 2].as_slice());
    drop(copy);
    Ok(())
}

#[test]
fn one_after_another(rt: HostRuntime) -> Result<(), Fail> {
    let mut sequence = Sequence::new(rt.alloc());
    let done = assert_sequence(&rt, &mut sequence);
    let again = Sequence::from_vec(sequence.into_vec());
    let length = again.len();
    drop(again);
    done?;
    same(&rt, length, 2);
    Ok(())
}
