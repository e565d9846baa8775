// What is answered.
use crate::bytes::Bytes;
use crate::entries::{BlockEntries, ChangedTokens};
use crate::keys::{Account, Ids, Moment, PolicyKey, SnapKey, VolKey};
use crate::rules::{RuleView, RuleViews};
use crate::tags::Tags;
use crate::text::Text;
use crate::views::{LockName, SnapView, SnapViews, TierName};
use std::alloc::AllocError;

/// An answer. A size is in GiB.
#[derive(Debug, Drop)]
pub enum Answer {
    Started {
        description: Option<Text>,
        owner: Account,
        parent: Option<SnapKey>,
        key: SnapKey,
        start: Moment,
        tags: Tags,
        size: u64,
    },
    BlockWritten {
        digest: [u8; 32],
    },
    Completed,
    BlockList {
        entries: BlockEntries,
        expiry: Moment,
        next: Option<Text>,
        size: u64,
    },
    ChangedList {
        entries: ChangedTokens,
        expiry: Moment,
        next: Option<Text>,
        size: u64,
    },
    BlockRead {
        digest: [u8; 32],
        bytes: Bytes,
    },
    /// A block of a volume that was never written: as many zero bytes as a block has.
    ZeroBlockRead,
    /// A snapshot's row, of one that was created by this call or of one that was there.
    SnapshotShown {
        created: bool,
        row: SnapView,
    },
    /// Rows in ascending number, and the number of the next one where more are left.
    SnapshotList {
        next: Option<u32>,
        rows: SnapViews,
    },
    Done,
    /// A lock as it is then, and its end.
    LockShown {
        lock: LockName,
        until: Option<Moment>,
    },
    /// A tier as it is then, and the end of a restore for some days.
    TierShown {
        restore_until: Option<Moment>,
        tier: TierName,
    },
    /// A volume's row, of one that was created by this call or of one that was there.
    VolumeShown {
        created: bool,
        size: u64,
        origin: Option<SnapKey>,
        tags: Tags,
        key: VolKey,
    },
    /// A rule, of one that was created by this call or of one that was there.
    RuleShown {
        created: bool,
        row: RuleView,
    },
    /// Rules in ascending number.
    RuleList {
        rows: RuleViews,
    },
    /// A policy's last run, of one that was created by this call or of one that was there.
    PolicyShown {
        created: bool,
        key: PolicyKey,
        last: Moment,
    },
    /// The snapshots that a run deleted, and those that it made. Both ascend.
    PolicyRan {
        deleted: Ids,
        made: Ids,
    },
    Refused(Refusal),
    /// Memory ran out. The machine is as before the call.
    Memory,
}

/// Why a call is refused, with the number that the product prints.
#[derive(Debug, Drop)]
pub enum Refusal {
    /// E1: the member of this name is missing or outside its limits.
    BadParameter(Text),
    /// E2: a size outside 1 to 16384 GiB, or below that of the parent or the origin.
    BadSize,
    /// E3: an index outside the snapshot, or one that has no block.
    BadIndex,
    /// E4: the text isn't the block's token, or its time is up.
    BadBlockToken,
    /// E5: the text isn't the token of a page of this list, or its time is up.
    BadPageToken,
    /// E6: the state of the snapshot forbids the call.
    WrongState(StateName),
    /// E7: the snapshots aren't of one line.
    Unrelated,
    /// E8: the SHA-256 that was found isn't the stated one.
    Checksum { stated: [u8; 32], found: [u8; 32] },
    /// E9: there is no such resource that the caller may know of.
    NotFound(Kind),
    /// E10: the caller may read the snapshot and doesn't own it.
    NotOwner,
    /// E11: the client token was given with another call, which made this.
    TokenConflict(FirstKey),
    /// E12: 100 uploads of the account are open.
    OpenUploads,
    /// E13: the account would have more than `number` of these.
    Quota { what: QuotaName, number: u64 },
    /// E14: the snapshot is locked until then.
    Locked(Moment),
    /// E15: the rule is locked, or its unlock waits for its delay.
    RuleLocked,
    /// E16: the numbers of the store are spent.
    Exhausted(Spent),
    /// E17: the disk failed.
    Unavailable,
    /// E18: the block's bytes as they are read have another SHA-256 than the one that is kept.
    Damaged { stored: [u8; 32], found: [u8; 32] },
    /// E19: no call has this method and path.
    NoSuchCall,
}

/// The state that forbids a call.
#[derive(Clone, Copy, Debug, PartialEq, Eq)]
pub enum StateName {
    Pending,
    Completed,
    Error,
    Archived,
    Standard,
    Temporary,
    Unlocked,
    TagLevel,
}

/// The kind of a resource.
#[derive(Clone, Copy, Debug, PartialEq, Eq)]
pub enum Kind {
    Snapshot,
    Volume,
    Rule,
    Policy,
}

/// What the first call with a client token made.
#[derive(Clone, Copy, Debug, PartialEq, Eq)]
pub enum FirstKey {
    Snap(SnapKey),
    Vol(VolKey),
}

/// What an account may have only so many of.
#[derive(Clone, Copy, Debug, PartialEq, Eq)]
pub enum QuotaName {
    Snapshots,
    Volumes,
    Rules,
    Policies,
    ClientTokens,
    SharedAccounts,
    Ids,
}

/// What can be spent for good.
#[derive(Clone, Copy, Debug, PartialEq, Eq)]
pub enum Spent {
    Changes,
    Turns,
}

/// Why a call did nothing.
#[derive(Debug, Drop)]
pub enum Failure {
    Refused(Refusal),
    Memory,
}

impl From<AllocError> for Failure {
    ghost use Rattle.std.specs.Prelude.{◌≡◌};
    ghost use Rattle.ebs_model.specs.declared.answer.Failure.TheVariants.{Memory};

    ghost from_gives = { λ e failure. failure ≡ Memory };

    fn from(_: AllocError) -> Failure {
        Failure::Memory
    }
}
