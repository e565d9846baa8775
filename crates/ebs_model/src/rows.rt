// Rows of the machine.
use crate::array::Indexes;
use crate::keys::{Account, KeyNumber, Moment, PolicyKey, SnapKey, VolKey};
use crate::request::Request;
use crate::tags::{Accounts, Tags};
use crate::text::Text;

/// The line of an image: the first resource that its blocks were written for. Images of one line can be compared.
#[derive(Clone, Copy, Debug, PartialEq, Eq)]
pub struct Line {
    pub of_volume: bool,
    pub account: Account,
    pub number: KeyNumber,
}

/// The lock of a snapshot (EBS User Guide, snapshot lock).
#[derive(Clone, Copy, Debug, PartialEq, Eq)]
pub enum LockState {
    None,
    Governance { until: Moment },
    Compliance { until: Moment, cool_end: Moment },
}

/// Where a snapshot's blocks stand (EBS User Guide, archive tier).
#[derive(Clone, Copy, Debug, PartialEq, Eq)]
pub enum Tier {
    Standard,
    Archived,
    Temporary { until: Moment },
}

/// What a snapshot's upload has come to. An upload fails that stood still for its timeout.
#[derive(Clone, Copy, Debug, PartialEq, Eq)]
pub enum RowStatus {
    Pending,
    Completed,
    Failed,
}

/// A snapshot's row, without its array. The size is in GiB and the timeout in minutes. `put` has the indexes that
/// were put in this upload, and `last` is the moment of its last accepted put, or of its start.
#[derive(Debug, Drop)]
pub struct SnapRow {
    pub key: SnapKey,
    pub size: u32,
    pub line: Line,
    pub parent: Option<SnapKey>,
    pub volume: Option<VolKey>,
    pub policy: Option<PolicyKey>,
    pub start: Moment,
    pub timeout: u32,
    pub last: Moment,
    pub completed: bool,
    pub put: Indexes,
    pub description: Option<Text>,
    pub tags: Tags,
    pub shared: Accounts,
    pub public: bool,
    pub lock: LockState,
    pub tier: Tier,
    pub bin_end: Option<Moment>,
}

/// A volume's row, without its array. The size is in GiB, and `origin` is the snapshot that it was created from.
#[derive(Debug, Drop)]
pub struct VolRow {
    pub key: VolKey,
    pub size: u32,
    pub line: Line,
    pub origin: Option<SnapKey>,
    pub tags: Tags,
}

/// What a client token was used for: the call that an account first gave with it, the moment of that call, and the number
/// that it made. It is kept for good.
#[derive(Debug, Drop)]
pub struct TokenRow {
    pub at: Moment,
    pub first: Request,
    pub number: KeyNumber,
}

/// What an account has besides rows: the number of its next snapshot, volume and policy.
#[derive(Clone, Copy, Debug, PartialEq, Eq)]
pub struct Own {
    pub next_snap: u32,
    pub next_vol: u32,
    pub next_policy: u32,
}
