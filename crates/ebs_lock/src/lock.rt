// A lock by its owner's commands.
ghost use Rattle.std.specs.Prelude.{◌≡◌, ◌≤◌, ◌^◌};
ghost use Rattle.ebs_model.specs.Locks as locks;

use ebs_model::{
    LockCommand, LockMode, LockPhase, LockRefusal, LockState, Moment, Term, lock_state,
};

const DAY: u64 = 86400;

const HOUR: u64 = 3600;

const MOST_DAYS: u64 = 36500;

/// What the command makes of the lock at the moment.
pub fn lock_change(
    state: LockState,
    command: LockCommand,
    now: Moment,
) -> Result<LockState, LockRefusal>
    requires now { now.second ≤ 2 ^ 36 }
    ensures { result ≡ locks.lock_change state command now.second }
{
    match command {
        LockCommand::Lock {
            mode,
            term,
            cool_hours,
        } => lock(state, mode, term, cool_hours, now),
        LockCommand::Unlock => unlock(state, now),
    }
}

fn lock(
    state: LockState,
    mode: LockMode,
    term: Term,
    cool_hours: Option<u32>,
    now: Moment,
) -> Result<LockState, LockRefusal>
    requires now { now.second ≤ 2 ^ 36 }
    ensures { result ≡ locks.lock state mode term cool_hours now.second }
{
    let until = end_of(term, now);
    match state {
        LockState::Compliance {
            until: before,
            cool_end,
        } if lock_state(state, now) == LockPhase::Compliance => {
            if mode == LockMode::Governance
                || cool_hours.is_some()
                || until.second <= before.second
            {
                return Err(LockRefusal::Locked(before));
            }
            if is_bad(term, now) {
                return Err(LockRefusal::BadDate);
            }
            Ok(LockState::Compliance { until, cool_end })
        }
        _ => {
            if is_bad(term, now) {
                return Err(LockRefusal::BadDate);
            }
            Ok(new_lock(mode, until, cool_hours, now))
        }
    }
}

fn unlock(state: LockState, now: Moment) -> Result<LockState, LockRefusal>
    ensures { result ≡ locks.unlock state now.second }
{
    match (lock_state(state, now), state) {
        (LockPhase::Governance | LockPhase::CoolOff, _) => Ok(LockState::None),
        (LockPhase::Compliance, LockState::Compliance { until, .. }) => Err(LockRefusal::Locked(
            until,
        )),
        _ => Err(LockRefusal::Unlocked),
    }
}

fn new_lock(mode: LockMode, until: Moment, cool_hours: Option<u32>, now: Moment) -> LockState
    requires now { now.second ≤ 2 ^ 36 }
    ensures { result ≡ locks.new_lock mode until cool_hours now.second }
{
    match mode {
        LockMode::Governance => LockState::Governance { until },
        LockMode::Compliance => LockState::Compliance {
            until,
            cool_end: Moment {
                second: now.second + HOUR * u64::from(cool_hours.unwrap_or(0)),
            },
        },
    }
}

fn end_of(term: Term, now: Moment) -> Moment
    requires now { now.second ≤ 2 ^ 36 }
    ensures { result ≡ locks.end_of term now.second }
{
    match term {
        Term::Days(days) => Moment {
            second: now.second + DAY * u64::from(days),
        },
        Term::Date(date) => date,
    }
}

fn is_bad(term: Term, now: Moment) -> bool
    requires now { now.second ≤ 2 ^ 36 }
    ensures { result ≡ locks.is_bad term now.second }
{
    match term {
        Term::Days(_) => false,
        Term::Date(date) => {
            date.second < now.second + DAY || now.second + MOST_DAYS * DAY < date.second
        }
    }
}
