//! Worked cases of tiers and moves.
use super::helpers::{at, same, snap_key};
use ebs_model::{Moment, Tier, TierPhase, tier_at};
use ebs_tier::{Moves, Wanted, archive, restore};
use std::alloc::AllocError;
use std::process::Abort;
use std::test::Fail;

/// Restored for a day at 2000.
const RESTORED: Tier = Tier::Temporary {
    until: Moment { second: 88400 },
};

const PHASES: [(Tier, u64, TierPhase); 4] = [
    (Tier::Standard, 0, TierPhase::Standard),
    (Tier::Archived, 1000, TierPhase::Archived),
    (RESTORED, 88399, TierPhase::Temporary),
    (RESTORED, 88400, TierPhase::Archived),
];

fn assert_phases(rt: &impl Abort, rows: &[(Tier, u64, TierPhase)]) {
    for (tier, second, wanted) in rows {
        same(rt, tier_at(*tier, at(*second)), *wanted);
    }
}

#[test]
fn phases_follow_the_clock(rt: HostRuntime) {
    assert_phases(&rt, &PHASES);
}

const ARCHIVED: [(Tier, u64, Result<Tier, TierPhase>); 4] = [
    (Tier::Standard, 1000, Ok(Tier::Archived)),
    (Tier::Archived, 1000, Err(TierPhase::Archived)),
    (RESTORED, 88399, Err(TierPhase::Temporary)),
    (RESTORED, 88400, Err(TierPhase::Archived)),
];

fn assert_archived(rt: &impl Abort, rows: &[(Tier, u64, Result<Tier, TierPhase>)]) {
    for (tier, second, wanted) in rows {
        same(rt, archive(*tier, at(*second)), *wanted);
    }
}

#[test]
fn only_the_standard_tier_is_archived(rt: HostRuntime) {
    assert_archived(&rt, &ARCHIVED);
}

/// A tier, for how many days it is restored, when, and what it then is.
type Restored = (Tier, Option<u32>, u64, Result<Tier, TierPhase>);

/// What the tier is after a restore, where the moment is one.
fn restored(tier: Tier, days: Option<u32>, second: u64) -> Option<Result<Tier, TierPhase>> {
    if second > 1 << 36 {
        return None;
    }
    Some(restore(tier, days, at(second)))
}

fn assert_restored(rt: &impl Abort, rows: &[Restored]) {
    for (tier, days, second, wanted) in rows {
        same(rt, restored(*tier, *days, *second), Some(*wanted));
    }
}

fn until(second: u64) -> Result<Tier, TierPhase> {
    Ok(Tier::Temporary { until: at(second) })
}

#[test]
fn a_restore_has_an_end_or_is_for_good(rt: HostRuntime) {
    let standard = Err(TierPhase::Standard);
    let rows = [
        (Tier::Archived, Some(1), 2000, until(88400)),
        (RESTORED, Some(2), 3000, until(175800)),
        (RESTORED, Some(180), 3000, until(3000 + 180 * 86400)),
        (RESTORED, None, 3000, Ok(Tier::Standard)),
        (RESTORED, None, 88400, Ok(Tier::Standard)),
        (Tier::Standard, Some(1), 1, standard),
        (Tier::Standard, None, 1, standard),
    ];
    assert_restored(&rt, &rows);
}

fn first() -> Wanted {
    Wanted {
        key: snap_key(0),
        index: 7,
        to_archive: true,
    }
}

fn second() -> Wanted {
    Wanted {
        key: snap_key(1),
        index: 3,
        to_archive: false,
    }
}

fn assert_waiting(rt: &impl Abort, moves: &mut Moves) -> Result<(), AllocError> {
    same(rt, moves.next_move(), None);
    moves.add(second())?;
    moves.add(first())?;
    moves.add(first())?;
    same(rt, moves.waiting(), 2);
    same(rt, moves.next_move(), Some(first()));
    same(rt, moves.next_of(snap_key(1)), Some(second()));
    same(rt, moves.next_of(snap_key(2)), None);
    Ok(())
}

fn assert_done(rt: &impl Abort, moves: &mut Moves) {
    moves.done(first());
    same(rt, moves.next_move(), Some(second()));
    same(rt, moves.next_of(snap_key(0)), None);
    moves.done(first());
    same(rt, moves.waiting(), 1);
    moves.done(second());
    same(rt, moves.next_move(), None);
}

#[test]
fn moves_wait_until_they_are_done(rt: HostRuntime) -> Result<(), Fail> {
    let mut moves = Moves::new(rt.alloc());
    let done = assert_waiting(&rt, &mut moves);
    if done.is_ok() {
        assert_done(&rt, &mut moves);
    }
    drop(moves);
    Ok(done?)
}
