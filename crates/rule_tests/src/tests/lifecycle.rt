//! Worked cases of due moments and of retention.
ghost use Rattle.std.specs.Prelude.{◌≡◌};

use super::helpers::{at, same, snap_key};
use ebs_lifecycle::{Picked, due, to_delete};
use ebs_model::{
    Account, AnyKey, KeyNumber, Made, Policy, PolicyKey, Retain, SnapKey, Tags, is_retain,
};
use std::alloc::{AllocError, Global};
use std::process::Abort;
use std::test::Fail;

fn policy(alloc: Global, hours: u32, time: u32, retain: Retain) -> Policy
    ensures hours { result.hours ≡ hours }
    ensures retain { result.retain ≡ retain }
{
    Policy {
        key: PolicyKey {
            account: Account::new(1),
            number: KeyNumber::new(0),
        },
        targets: Tags::new(alloc),
        hours,
        at: time,
        retain,
        add: Tags::new(alloc),
        last: at(0),
    }
}

/// Hours, time of day, since, now, and when it is due.
const DUE: [(u32, u32, u64, u64, Option<u64>); 7] = [
    (24, 10800, 10800, 97199, None),
    (24, 10800, 10800, 97200, Some(97200)),
    (12, 10800, 10800, 60000, Some(54000)),
    (24, 10800, 0, 10799, None),
    (24, 10800, 0, 10800, Some(10800)),
    (1, 0, 7199, 7200, Some(7200)),
    (1, 0, 7200, 7200, None),
];

fn due_at(alloc: Global, hours: u32, time: u32, since: u64, now: u64) -> Option<u64> {
    if hours == 0 {
        return None;
    }
    let policy = policy(alloc, hours, time, Retain::Count(1));
    let found = due(&policy, at(since), at(now));
    drop(policy);
    match found {
        Some(moment) => Some(moment.second),
        None => None,
    }
}

fn assert_due(rt: &impl Abort, alloc: Global, rows: &[(u32, u32, u64, u64, Option<u64>)]) {
    for (hours, time, since, now, wanted) in rows {
        let found = due_at(alloc, *hours, *time, *since, *now);
        same(rt, (*now, found), (*now, *wanted));
    }
}

#[test]
fn policies_are_due(rt: HostRuntime) {
    assert_due(&rt, rt.alloc(), &DUE);
}

#[derive(Clone, Copy)]
enum State {
    Free,
    Locked,
    Archived,
}

fn one(key: SnapKey, start: u64, state: State) -> Made
    ensures { result.start.second ≡ start }
{
    Made {
        key,
        start: at(start),
        locked: matches!(state, State::Locked),
        archived: matches!(state, State::Archived),
    }
}

/// How many are deleted, and how many are released.
fn counts(picked: Picked) -> (usize, usize) {
    let counts = (picked.ended.len(), picked.released.len());
    drop(picked);
    counts
}

const KEPT: (usize, usize) = (0, 0);

const DELETED: (usize, usize) = (1, 0);

const RELEASED: (usize, usize) = (0, 1);

/// What becomes of one snapshot, where its rule and its start are within their limits.
fn becomes(
    alloc: Global,
    retain: Retain,
    state: State,
    start: u64,
    now: u64,
) -> Result<Option<(usize, usize)>, AllocError> {
    if !is_retain(retain) || start > 1 << 36 {
        return Ok(None);
    }
    let made = [one(snap_key(0), start, state)];
    let policy = policy(alloc, 24, 0, retain);
    let picked = to_delete(alloc, &policy, made.as_slice(), at(now));
    drop(policy);
    Ok(Some(counts(picked?)))
}

/// A rule, a snapshot's state and start, now, and what becomes of it.
type Aged = (Retain, State, u64, u64, (usize, usize));

const AGES: [Aged; 22] = [
    // 31 January 1970 and 28 February
    (Retain::Months(1), State::Free, 2592000, 5011200, DELETED),
    (Retain::Months(1), State::Free, 2592000, 5011199, KEPT),
    // 31 January 1972 and 29 February, at noon
    (Retain::Months(1), State::Free, 65707200, 68212800, DELETED),
    (Retain::Months(1), State::Free, 65707200, 68212799, KEPT),
    // 29 February 1972 and 28 February 1973, 29 February 1976
    (Retain::Years(1), State::Free, 68169600, 99705600, DELETED),
    (Retain::Years(1), State::Free, 68169600, 99705599, KEPT),
    (Retain::Years(4), State::Free, 68169600, 194400000, DELETED),
    (Retain::Years(4), State::Free, 68169600, 194399999, KEPT),
    // 15 December 1970 and 15 January 1971
    (Retain::Months(1), State::Free, 30067200, 32745600, DELETED),
    (Retain::Months(1), State::Free, 30067200, 32745599, KEPT),
    // 31 August 1970 and 30 September
    (Retain::Months(1), State::Free, 20908800, 23500800, DELETED),
    (Retain::Months(1), State::Free, 20908800, 23500799, KEPT),
    (Retain::Weeks(1), State::Free, 1000, 605800, DELETED),
    (Retain::Weeks(1), State::Free, 1000, 605799, KEPT),
    (Retain::Weeks(1), State::Locked, 1000, 605800, RELEASED),
    (Retain::Weeks(1), State::Archived, 1000, 605800, KEPT),
    (Retain::Days(2), State::Free, 1000, 173800, DELETED),
    (Retain::Days(2), State::Free, 1000, 173799, KEPT),
    (Retain::Count(1), State::Free, 1000, 605800, KEPT),
    // a century from the last moment
    (
        Retain::Years(100),
        State::Free,
        68719476736,
        68719476736,
        KEPT,
    ),
    (
        Retain::Years(100),
        State::Free,
        68719476736,
        71875150336,
        DELETED,
    ),
    (
        Retain::Months(1200),
        State::Free,
        68719476736,
        71875150335,
        KEPT,
    ),
];

fn assert_ages(rt: &impl Abort, alloc: Global, rows: &[Aged]) -> Result<(), Fail> {
    for (retain, state, start, now, wanted) in rows {
        let found = becomes(alloc, *retain, *state, *start, *now)?;
        same(rt, (*now, found), (*now, Some(*wanted)));
    }
    Ok(())
}

#[test]
fn ages_are_of_the_calendar_and_locked_ones_are_released(rt: HostRuntime) -> Result<(), Fail> {
    assert_ages(&rt, rt.alloc(), &AGES)
}

/// What is picked of five snapshots where so many stay.
fn newest(alloc: Global, count: u32) -> Result<Option<Picked>, AllocError> {
    let retain = Retain::Count(count);
    if !is_retain(retain) {
        return Ok(None);
    }
    let made = [
        one(snap_key(0), 3000, State::Free),
        one(snap_key(1), 1000, State::Archived),
        one(snap_key(2), 2000, State::Locked),
        one(snap_key(3), 1000, State::Free),
        one(snap_key(4), 500, State::Free),
    ];
    let policy = policy(alloc, 24, 0, retain);
    let picked = to_delete(alloc, &policy, made.as_slice(), at(4000));
    drop(policy);
    Ok(Some(picked?))
}

fn assert_picked(rt: &impl Abort, picked: Option<Picked>, ended: &[AnyKey], released: &[AnyKey]) {
    match &picked {
        Some(picked) => same(
            rt,
            (picked.ended.as_slice(), picked.released.as_slice()),
            (ended, released),
        ),
        None => same(rt, true, false),
    }
    drop(picked);
}

#[test]
fn the_newest_are_left(rt: HostRuntime) -> Result<(), Fail> {
    let ended = [AnyKey::Snap(snap_key(3)), AnyKey::Snap(snap_key(4))];
    assert_picked(&rt, newest(rt.alloc(), 2)?, &ended, &[]);
    let released = [AnyKey::Snap(snap_key(2))];
    assert_picked(&rt, newest(rt.alloc(), 1)?, &ended, &released);
    Ok(())
}
