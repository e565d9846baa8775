// The calls, with their methods and paths.
use Operation::*;

/// A call.
#[derive(Clone, Copy)]
pub enum Operation {
    StartSnapshot,
    PutSnapshotBlock,
    CompleteSnapshot,
    ListSnapshotBlocks,
    ListChangedBlocks,
    GetSnapshotBlock,
    DescribeSnapshot,
    DescribeSnapshots,
    DeleteSnapshot,
    ModifyPermission,
    LockSnapshot,
    UnlockSnapshot,
    ArchiveSnapshot,
    RestoreTier,
    CreateVolume,
    CreateSnapshot,
    WriteVolumeBlock,
    ReadVolumeBlock,
    DescribeVolume,
    DeleteVolume,
    CreateRule,
    GetRule,
    UpdateRule,
    DeleteRule,
    ListRules,
    LockRule,
    UnlockRule,
    ListBin,
    RestoreFromBin,
    CreatePolicy,
    GetPolicy,
    DeletePolicy,
    RunPolicy,
}

const BLOCK: &str = "/snapshots/{snapshotId}/blocks/{blockIndex}";

const COMPLETION: &str = "/snapshots/completion/{snapshotId}";

const CHANGES: &str = "/snapshots/{secondSnapshotId}/changedblocks";

const PERMISSION: &str = "/snapshots/{snapshotId}/permission";

const RESTORE: &str = "/snapshots/{snapshotId}/restore-tier";

const VOLUME_BLOCK: &str = "/volumes/{volumeId}/blocks/{blockIndex}";

/// Each call's method and path.
pub const TABLE: [(&str, &str, Operation); 33] = [
    ("POST", "/snapshots", StartSnapshot),
    ("PUT", BLOCK, PutSnapshotBlock),
    ("POST", COMPLETION, CompleteSnapshot),
    ("GET", "/snapshots/{snapshotId}/blocks", ListSnapshotBlocks),
    ("GET", CHANGES, ListChangedBlocks),
    ("GET", BLOCK, GetSnapshotBlock),
    ("GET", "/snapshots/{snapshotId}", DescribeSnapshot),
    ("GET", "/snapshots", DescribeSnapshots),
    ("DELETE", "/snapshots/{snapshotId}", DeleteSnapshot),
    ("PATCH", PERMISSION, ModifyPermission),
    ("PUT", "/snapshots/{snapshotId}/lock", LockSnapshot),
    ("DELETE", "/snapshots/{snapshotId}/lock", UnlockSnapshot),
    ("PUT", "/snapshots/{snapshotId}/tier", ArchiveSnapshot),
    ("POST", RESTORE, RestoreTier),
    ("POST", "/volumes", CreateVolume),
    ("POST", "/volumes/{volumeId}/snapshots", CreateSnapshot),
    ("PUT", VOLUME_BLOCK, WriteVolumeBlock),
    ("GET", VOLUME_BLOCK, ReadVolumeBlock),
    ("GET", "/volumes/{volumeId}", DescribeVolume),
    ("DELETE", "/volumes/{volumeId}", DeleteVolume),
    ("POST", "/rules", CreateRule),
    ("GET", "/rules/{identifier}", GetRule),
    ("PATCH", "/rules/{identifier}", UpdateRule),
    ("DELETE", "/rules/{identifier}", DeleteRule),
    ("POST", "/list-rules", ListRules),
    ("PATCH", "/rules/{identifier}/lock", LockRule),
    ("PATCH", "/rules/{identifier}/unlock", UnlockRule),
    ("GET", "/recycle-bin", ListBin),
    ("POST", "/recycle-bin/{snapshotId}", RestoreFromBin),
    ("POST", "/policies", CreatePolicy),
    ("GET", "/policies/{policyId}", GetPolicy),
    ("DELETE", "/policies/{policyId}", DeletePolicy),
    ("POST", "/policies/{policyId}/run", RunPolicy),
];
