//! Worked cases of locks.
use super::helpers::{at, same};
use ebs_lock::{LockCommand, LockMode, LockRefusal, Term, lock_change};
use ebs_model::{LockPhase, LockState, Moment, lock_state};
use std::process::Abort;

const fn governance(term: Term) -> LockCommand {
    LockCommand::Lock {
        mode: LockMode::Governance,
        term,
        cool_hours: None,
    }
}

const fn compliance(term: Term, cool_hours: Option<u32>) -> LockCommand {
    LockCommand::Lock {
        mode: LockMode::Compliance,
        term,
        cool_hours,
    }
}

/// What the command makes of the lock, where the moment is one.
fn changed(
    state: LockState,
    command: LockCommand,
    second: u64,
) -> Option<Result<LockState, LockRefusal>> {
    if second <= 1 << 36 {
        Some(lock_change(state, command, at(second)))
    } else {
        None
    }
}

const NONE: LockState = LockState::None;

/// One day of compliance with a cool-off of an hour, given at 1000.
const GIVEN: LockState = LockState::Compliance {
    until: Moment { second: 87400 },
    cool_end: Moment { second: 4600 },
};

const GOVERNED: LockState = LockState::Governance {
    until: Moment { second: 87400 },
};

// The cool-off is longer than the term.
const SHORT: LockState = LockState::Compliance {
    until: Moment { second: 87400 },
    cool_end: Moment { second: 260200 },
};

const PHASES: [(LockState, u64, LockPhase); 9] = [
    (NONE, 0, LockPhase::Unlocked),
    (GOVERNED, 87399, LockPhase::Governance),
    (GOVERNED, 87400, LockPhase::Expired),
    (GIVEN, 4599, LockPhase::CoolOff),
    (GIVEN, 4600, LockPhase::Compliance),
    (GIVEN, 87399, LockPhase::Compliance),
    (GIVEN, 87400, LockPhase::Expired),
    (SHORT, 87399, LockPhase::CoolOff),
    (SHORT, 87400, LockPhase::Expired),
];

fn assert_phases(rt: &impl Abort, rows: &[(LockState, u64, LockPhase)]) {
    for (state, second, wanted) in rows {
        let found = lock_state(*state, at(*second));
        same(rt, (*second, found), (*second, *wanted));
    }
}

#[test]
fn phases_follow_the_clock(rt: HostRuntime) {
    assert_phases(&rt, &PHASES);
}

/// A command, when it is given, and what it makes of the lock.
type Given = (LockCommand, u64, Result<LockState, LockRefusal>);

fn assert_changes(rt: &impl Abort, state: LockState, rows: &[Given]) {
    for (command, second, wanted) in rows {
        let found = changed(state, *command, *second);
        same(rt, (*second, found), (*second, Some(*wanted)));
    }
}

fn longer_and_shorter() -> [Given; 12] {
    let locked = Err(LockRefusal::Locked(at(87400)));
    let longer = LockState::Compliance {
        until: at(177401),
        cool_end: at(4600),
    };
    let again = LockState::Compliance {
        until: at(90999),
        cool_end: at(11799),
    };
    let governed = LockState::Governance { until: at(90999) };
    let later = LockState::Compliance {
        until: at(91001),
        cool_end: at(4600),
    };
    [
        (LockCommand::Unlock, 4599, Ok(NONE)),
        (LockCommand::Unlock, 4600, locked),
        (LockCommand::Unlock, 87399, locked),
        (LockCommand::Unlock, 87400, Err(LockRefusal::Unlocked)),
        (governance(Term::Days(5)), 4601, locked),
        (governance(Term::Days(1)), 4599, Ok(governed)),
        (compliance(Term::Days(2), None), 4601, Ok(longer)),
        (compliance(Term::Days(2), Some(1)), 4601, locked),
        (compliance(Term::Days(1), Some(2)), 4599, Ok(again)),
        (compliance(Term::Date(at(87400)), None), 4601, locked),
        // later than before, and less than a day from now
        (
            compliance(Term::Date(at(87401)), None),
            4601,
            Err(LockRefusal::BadDate),
        ),
        (compliance(Term::Date(at(91001)), None), 4601, Ok(later)),
    ]
}

#[test]
fn compliance_is_only_made_longer(rt: HostRuntime) {
    assert_changes(&rt, GIVEN, &longer_and_shorter());
}

const DATES: [(u64, bool); 4] = [
    (87399, false),
    (87400, true),
    (1000 + 36500 * 86400, true),
    (1001 + 36500 * 86400, false),
];

/// What a lock until the date comes to.
fn until(date: u64, good: bool) -> Given {
    let wanted = if good {
        Ok(LockState::Governance { until: at(date) })
    } else {
        Err(LockRefusal::BadDate)
    };
    (governance(Term::Date(at(date))), 1000, wanted)
}

fn assert_dates(rt: &impl Abort, state: LockState, dates: &[(u64, bool)]) {
    for (date, good) in dates {
        assert_changes(rt, state, &[until(*date, *good)]);
    }
}

#[test]
fn dates_have_bounds(rt: HostRuntime) {
    assert_dates(&rt, NONE, &DATES);
    assert_dates(&rt, GOVERNED, &DATES);
    let unlocked = Err(LockRefusal::Unlocked);
    assert_changes(&rt, GOVERNED, &[(LockCommand::Unlock, 1000, Ok(NONE))]);
    assert_changes(&rt, NONE, &[(LockCommand::Unlock, 1000, unlocked)]);
}
