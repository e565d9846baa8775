// What a caller may ask.
use crate::bytes::Bytes;
use crate::keys::{Account, PolicyKey, RuleKey, SnapKey, VolKey};
use crate::lock::{LockMode, Term};
use crate::policy::Retain;
use crate::rules::RuleTags;
use crate::tags::{Accounts, Tags};
use crate::text::Text;

/// A request of the EBS direct APIs, or of the calls on snapshots, volumes, the Recycle Bin and lifecycle policies. A size is in GiB, a timeout in
/// minutes, a retention or a delay in days, and a checksum or digest is a SHA-256. A list of rows begins at the number `from` and has at most `max` of them.
#[derive(Debug, Drop)]
pub enum Request {
    StartSnapshot {
        size: u64,
        parent: Option<SnapKey>,
        description: Option<Text>,
        tags: Tags,
        client_token: Option<Text>,
        timeout: u32,
    },
    PutSnapshotBlock {
        key: SnapKey,
        index: u64,
        digest: [u8; 32],
        bytes: Bytes,
    },
    CompleteSnapshot {
        key: SnapKey,
        count: u64,
        checksum: Option<[u8; 32]>,
    },
    ListSnapshotBlocks {
        key: SnapKey,
        page: Option<Text>,
        max: u32,
        start: u64,
    },
    ListChangedBlocks {
        first: SnapKey,
        second: SnapKey,
        page: Option<Text>,
        max: u32,
        start: u64,
    },
    GetSnapshotBlock {
        key: SnapKey,
        index: u64,
        token: Text,
    },
    DescribeSnapshot {
        key: SnapKey,
    },
    DescribeSnapshots {
        from: u32,
        max: u32,
    },
    DeleteSnapshot {
        key: SnapKey,
    },
    ModifyPermission {
        key: SnapKey,
        add: Accounts,
        add_all: bool,
        remove: Accounts,
        remove_all: bool,
    },
    LockSnapshot {
        key: SnapKey,
        mode: LockMode,
        term: Term,
        cool_hours: Option<u32>,
    },
    UnlockSnapshot {
        key: SnapKey,
    },
    ArchiveSnapshot {
        key: SnapKey,
    },
    /// For so many days, or for good.
    RestoreTier {
        key: SnapKey,
        days: Option<u32>,
    },
    /// Of a snapshot's size where none is given.
    CreateVolume {
        origin: Option<SnapKey>,
        size: Option<u64>,
        tags: Tags,
        client_token: Option<Text>,
    },
    /// Of a volume's blocks as they are then.
    CreateSnapshot {
        key: VolKey,
        description: Option<Text>,
        tags: Tags,
    },
    WriteVolumeBlock {
        key: VolKey,
        index: u64,
        digest: [u8; 32],
        bytes: Bytes,
    },
    ReadVolumeBlock {
        key: VolKey,
        index: u64,
    },
    DescribeVolume {
        key: VolKey,
    },
    DeleteVolume {
        key: VolKey,
    },
    /// Locked where a delay is given.
    CreateRule {
        days: u32,
        tags: RuleTags,
        description: Option<Text>,
        delay: Option<u32>,
    },
    GetRule {
        key: RuleKey,
    },
    /// What isn't given stays.
    UpdateRule {
        key: RuleKey,
        days: Option<u32>,
        tags: Option<RuleTags>,
        description: Option<Text>,
    },
    DeleteRule {
        key: RuleKey,
    },
    ListRules,
    LockRule {
        key: RuleKey,
        delay: u32,
    },
    UnlockRule {
        key: RuleKey,
    },
    ListBin {
        from: u32,
        max: u32,
    },
    RestoreFromBin {
        key: SnapKey,
    },
    /// Every so many hours from a time of day in seconds, for volumes with one of the targets; what it makes has the tags
    /// `add`.
    CreatePolicy {
        targets: Tags,
        hours: u32,
        at: u32,
        retain: Retain,
        add: Tags,
    },
    GetPolicy {
        key: PolicyKey,
    },
    DeletePolicy {
        key: PolicyKey,
    },
    RunPolicy {
        key: PolicyKey,
    },
}

/// A request with its caller.
#[derive(Debug, Drop)]
pub struct Call {
    pub account: Account,
    pub request: Request,
}
