// Snapshots, with the node of their blocks and their copies in the archive.
use crate::nodes::CopyRows;
use ebs_model::{Accounts, Line, LockState, Moment, PolicyKey, SnapKey, Tags, Text, Tier, VolKey};
use ebs_records::{Codec, Input, Unread};
use ebs_tables::Sequence;
use std::alloc::{AllocError, Global};

/// Indexes, ascending.
pub type IndexList = Sequence<u32>;

/// A snapshot's row, the node of its blocks, and its copies in the archive. `put` has the indexes that were put in an upload.
#[derive(Debug, Drop)]
pub struct SnapPoint {
    pub key: SnapKey,
    pub size: u32,
    pub line: Line,
    pub parent: Option<SnapKey>,
    pub volume: Option<VolKey>,
    pub policy: Option<PolicyKey>,
    pub start: Moment,
    pub timeout: u32,
    pub last: Moment,
    pub completed: bool,
    pub put: IndexList,
    pub description: Option<Text>,
    pub tags: Tags,
    pub shared: Accounts,
    pub public: bool,
    pub lock: LockState,
    pub tier: Tier,
    pub bin_end: Option<Moment>,
    pub node: Option<u64>,
    pub copies: CopyRows,
}

/// Snapshots in ascending key.
pub type SnapPoints = Sequence<SnapPoint>;

type Named = (SnapKey, (u32, Line));

type Origins = (Option<SnapKey>, (Option<VolKey>, Option<PolicyKey>));

type Times = (Moment, (u32, Moment));

type Upload = (bool, IndexList);

type Told = (Option<Text>, (Tags, (Accounts, bool)));

type States = (LockState, (Tier, Option<Moment>));

type Held = (Option<u64>, CopyRows);

type SnapFields = (Named, (Origins, (Times, (Upload, (Told, (States, Held))))));

impl SnapPoint {
    ghost use Rattle.std.specs.Prelude.{◌≡◌, ◌++◌, OnOk};
    ghost use Rattle.ebs_checkpoints.specs.Snapshots.{IsSnapPoint, named, origins, times, upload, told, states, held};

    fn write_named(&self, out: &mut Vec<u8>) -> Result<(), AllocError>
        requires { IsSnapPoint self.now }
        ensures { OnOk result (out.new.items ≡ out.old.items ++ named (self.now.key, (self.now.size, self.now.line))) }
    {
        self.key.write(out)?;
        self.size.write(out)?;
        self.line.write(out)
    }

    fn write_origins(&self, out: &mut Vec<u8>) -> Result<(), AllocError>
        requires { IsSnapPoint self.now }
        ensures { OnOk result (out.new.items ≡ out.old.items ++ origins (self.now.parent, (self.now.volume, self.now.policy))) }
    {
        self.parent.write(out)?;
        self.volume.write(out)?;
        self.policy.write(out)
    }

    fn write_times(&self, out: &mut Vec<u8>) -> Result<(), AllocError>
        requires { IsSnapPoint self.now }
        ensures { OnOk result (out.new.items ≡ out.old.items ++ times (self.now.start, (self.now.timeout, self.now.last))) }
    {
        self.start.write(out)?;
        self.timeout.write(out)?;
        self.last.write(out)
    }

    fn write_upload(&self, out: &mut Vec<u8>) -> Result<(), AllocError>
        requires { IsSnapPoint self.now }
        ensures { OnOk result (out.new.items ≡ out.old.items ++ upload (self.now.completed, self.now.put)) }
    {
        self.completed.write(out)?;
        self.put.write(out)
    }

    fn write_told(&self, out: &mut Vec<u8>) -> Result<(), AllocError>
        requires { IsSnapPoint self.now }
        ensures { OnOk result (out.new.items ≡ out.old.items ++ told (self.now.description, (self.now.tags, (self.now.shared, self.now.public)))) }
    {
        self.description.write(out)?;
        self.tags.write(out)?;
        self.shared.write(out)?;
        self.public.write(out)
    }

    fn write_states(&self, out: &mut Vec<u8>) -> Result<(), AllocError>
        requires { IsSnapPoint self.now }
        ensures { OnOk result (out.new.items ≡ out.old.items ++ states (self.now.lock, (self.now.tier, self.now.bin_end))) }
    {
        self.lock.write(out)?;
        self.tier.write(out)?;
        self.bin_end.write(out)
    }

    fn write_held(&self, out: &mut Vec<u8>) -> Result<(), AllocError>
        requires { IsSnapPoint self.now }
        ensures { OnOk result (out.new.items ≡ out.old.items ++ held (self.now.node, self.now.copies)) }
    {
        self.node.write(out)?;
        self.copies.write(out)
    }
}

impl Codec for SnapPoint {
    ghost use Rattle.ebs_checkpoints.specs.Snapshots.{IsSnapPoint, snap_point};
    ghost use Rattle.ebs_checkpoints.specs.inner.Snapshots.{apart_snap_point};

    ghost fits = { IsSnapPoint };

    ghost spelled = { snap_point };

    ghost apart = { apart_snap_point };

    fn write(&self, out: &mut Vec<u8>) -> Result<(), AllocError> {
        self.write_named(out)?;
        self.write_origins(out)?;
        self.write_times(out)?;
        self.write_upload(out)?;
        self.write_told(out)?;
        self.write_states(out)?;
        self.write_held(out)?;
        Ok(())
    }

    fn read(alloc: Global, input: &mut Input) -> Result<SnapPoint, Unread> {
        let (
            (key, (size, line)),
            (
                (parent, (volume, policy)),
                (
                    (start, (timeout, last)),
                    (
                        (completed, put),
                        (
                            (description, (tags, (shared, public))),
                            ((lock, (tier, bin_end)), (node, copies)),
                        ),
                    ),
                ),
            ),
        ) = SnapFields::read(alloc, input)?;
        Ok(SnapPoint {
            key,
            size,
            line,
            parent,
            volume,
            policy,
            start,
            timeout,
            last,
            completed,
            put,
            description,
            tags,
            shared,
            public,
            lock,
            tier,
            bin_end,
            node,
            copies,
        })
    }
}
