// Steps that change arrays.
use crate::played::Played;
use crate::step::{Change, snapshot};
use ebs_holds::Holder;
use std::alloc::AllocError;

pub fn change(played: &mut Played, step: Change) -> Result<(), AllocError> {
    match step {
        Change::Begin(holder, source) => played.begin(&holder, &source),
        Change::Put(holder, index, number) => played.put(&holder, index, number),
        Change::Fill(holder, count) => fill(played, &holder, count),
        Change::Days(volume, count, first) => pass_days(played, &volume, count, first),
        Change::Over(volume, count, first) => write_over(played, &volume, count, first),
        Change::Nights(volume, count, first) => pass_nights(played, &volume, count, first),
        Change::Seal(holder) => {
            played.seal(&holder);
            Ok(())
        }
        Change::Drop(holder) => {
            played.drop_array(&holder);
            Ok(())
        }
        Change::Drops(first, last) => {
            drop_each(played, first, last);
            Ok(())
        }
    }
}

fn fill(played: &mut Played, holder: &Holder, count: u32) -> Result<(), AllocError> {
    for index in 0..count {
        played.put(holder, index, index)?;
    }
    Ok(())
}

fn pass_days(
    played: &mut Played,
    volume: &Holder,
    count: u32,
    first: u32,
) -> Result<(), AllocError> {
    for day in 0..count {
        let number = first.saturating_add(day);
        played.put(volume, number, number)?;
        if let Some(made) = snapshot(number) {
            played.begin(&made, &Some(*volume))?;
        }
    }
    Ok(())
}

fn write_over(
    played: &mut Played,
    volume: &Holder,
    count: u32,
    first: u32,
) -> Result<(), AllocError> {
    for day in 0..count {
        let number = first.saturating_add(day);
        played.put(volume, 0, number)?;
        if let Some(made) = snapshot(number) {
            played.begin(&made, &Some(*volume))?;
        }
    }
    Ok(())
}

fn pass_nights(
    played: &mut Played,
    volume: &Holder,
    count: u32,
    first: u32,
) -> Result<(), AllocError> {
    for night in 0..count {
        if let Some(made) = snapshot(first.saturating_add(night)) {
            played.begin(&made, &Some(*volume))?;
        }
    }
    Ok(())
}

// Up or down.
fn drop_each(played: &mut Played, first: u32, last: u32) {
    for place in 0..=first.abs_diff(last) {
        let number = if first <= last {
            first.saturating_add(place)
        } else {
            first.saturating_sub(place)
        };
        if let Some(holder) = snapshot(number) {
            played.drop_array(&holder);
        }
    }
}
