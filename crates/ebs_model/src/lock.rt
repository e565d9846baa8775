// What an owner commands of a snapshot's lock.
use crate::keys::Moment;

/// Who may take a lock off.
#[derive(Clone, Copy, Debug, PartialEq, Eq)]
pub enum LockMode {
    /// Its owner, at any moment.
    Governance,
    /// Its owner while the cool-off lasts, and nobody afterwards.
    Compliance,
}

/// How long a lock lasts: 1 to 36500 days from now, or until a date.
#[derive(Clone, Copy, Debug, PartialEq, Eq)]
pub enum Term {
    Days(u32),
    Date(Moment),
}

/// A cool-off has 1 to 72 hours and is for compliance alone.
#[derive(Clone, Copy, Debug, PartialEq, Eq)]
pub enum LockCommand {
    Lock {
        mode: LockMode,
        term: Term,
        cool_hours: Option<u32>,
    },
    Unlock,
}

#[derive(Clone, Copy, Debug, PartialEq, Eq)]
pub enum LockRefusal {
    /// There is no lock to take off.
    Unlocked,
    /// A lock in compliance, which lasts until then.
    Locked(Moment),
    /// A date less than a day or more than 36500 days from now.
    BadDate,
}
