// Lifecycle policies.
use crate::keys::{Moment, PolicyKey, SnapKey};
use crate::tags::Tags;

/// How long a policy keeps the snapshots that it made: so many of each volume, or until they have an age.
#[derive(Clone, Copy, Debug, PartialEq, Eq)]
pub enum Retain {
    /// 1 to 1000 snapshots.
    Count(u32),
    /// 1 to 36500 days.
    Days(u32),
    /// 1 to 5200 weeks.
    Weeks(u32),
    /// 1 to 1200 months of the calendar in UTC.
    Months(u32),
    /// 1 to 100 years of the calendar in UTC.
    Years(u32),
}

/// A lifecycle policy: whose volumes it makes snapshots of, when, and how long these are kept. It runs every 1, 2, 3, 4,
/// 6, 8, 12 or 24 `hours` from `at`, a time of day in UTC in seconds, for volumes with one of the tags `targets`; what it
/// makes has the tags `add`. `last` is its last run, or its creation before the first.
#[derive(Debug, Drop)]
pub struct Policy {
    pub key: PolicyKey,
    pub targets: Tags,
    pub hours: u32,
    pub at: u32,
    pub retain: Retain,
    pub add: Tags,
    pub last: Moment,
}

/// A snapshot that a policy made of a volume: when it was started, whether it is under a lock that hasn't expired, and
/// whether it stands in another tier than the standard one.
#[derive(Clone, Copy, Debug, PartialEq, Eq)]
pub struct Made {
    pub key: SnapKey,
    pub start: Moment,
    pub locked: bool,
    pub archived: bool,
}
