// Checkpoints: all that a store is, without the bytes of its blocks.
use crate::nodes::{NodeRows, SlotRows};
use crate::owned::{AccountRows, VolPoints};
use crate::snapshots::SnapPoints;
use ebs_model::{Moment, Policy, Rule};
use ebs_records::{Codec, Input, Unread};
use ebs_tables::Sequence;
use std::alloc::{AllocError, Global};

/// Rules in ascending key.
pub type RuleRows = Sequence<Rule>;

/// Policies in ascending key.
pub type PolicyRows = Sequence<Policy>;

/// All that a store is, without the bytes of its blocks.
#[derive(Debug, Drop)]
pub struct Checkpoint {
    pub clock: Moment,
    pub accepted: u64,
    pub next_stamp: u64,
    pub next_copy: u64,
    pub secret: [u8; 32],
    pub accounts: AccountRows,
    pub snapshots: SnapPoints,
    pub volumes: VolPoints,
    pub rules: RuleRows,
    pub policies: PolicyRows,
    pub nodes: NodeRows,
    pub standard: SlotRows,
    pub archive: SlotRows,
}

type Head = (Moment, (u64, (u64, (u64, [u8; 32]))));

type Rows = (
    AccountRows,
    (SnapPoints, (VolPoints, (RuleRows, PolicyRows))),
);

type Blocks = (NodeRows, (SlotRows, SlotRows));

type Fields = (Head, (Rows, Blocks));

impl Checkpoint {
    ghost use Rattle.std.specs.Prelude.{◌≡◌, ◌++◌, OnOk};
    ghost use Rattle.ebs_checkpoints.specs.Checkpoints.{HasSpelling, head, rows, blocks};

    fn write_head(&self, out: &mut Vec<u8>) -> Result<(), AllocError>
        requires { HasSpelling self.now }
        ensures { OnOk result (out.new.items ≡ out.old.items ++ head (self.now.clock, (self.now.accepted, (self.now.next_stamp, (self.now.next_copy, self.now.secret))))) }
    {
        self.clock.write(out)?;
        self.accepted.write(out)?;
        self.next_stamp.write(out)?;
        self.next_copy.write(out)?;
        self.secret.write(out)
    }

    fn write_rows(&self, out: &mut Vec<u8>) -> Result<(), AllocError>
        requires { HasSpelling self.now }
        ensures { OnOk result (out.new.items ≡ out.old.items ++ rows (self.now.accounts, (self.now.snapshots, (self.now.volumes, (self.now.rules, self.now.policies))))) }
    {
        self.accounts.write(out)?;
        self.snapshots.write(out)?;
        self.volumes.write(out)?;
        self.rules.write(out)?;
        self.policies.write(out)
    }

    fn write_blocks(&self, out: &mut Vec<u8>) -> Result<(), AllocError>
        requires { HasSpelling self.now }
        ensures { OnOk result (out.new.items ≡ out.old.items ++ blocks (self.now.nodes, (self.now.standard, self.now.archive))) }
    {
        self.nodes.write(out)?;
        self.standard.write(out)?;
        self.archive.write(out)
    }
}

impl Codec for Checkpoint {
    ghost use Rattle.ebs_checkpoints.specs.Checkpoints.{HasSpelling, spelled};
    ghost use Rattle.ebs_checkpoints.specs.inner.Checkpoints.{apart_checkpoint};

    ghost fits = { HasSpelling };

    ghost spelled = { spelled };

    ghost apart = { apart_checkpoint };

    fn write(&self, out: &mut Vec<u8>) -> Result<(), AllocError> {
        self.write_head(out)?;
        self.write_rows(out)?;
        self.write_blocks(out)
    }

    fn read(alloc: Global, input: &mut Input) -> Result<Checkpoint, Unread> {
        let (
            (clock, (accepted, (next_stamp, (next_copy, secret)))),
            ((accounts, (snapshots, (volumes, (rules, policies)))), (nodes, (standard, archive))),
        ) = Fields::read(alloc, input)?;
        Ok(Checkpoint {
            clock,
            accepted,
            next_stamp,
            next_copy,
            secret,
            accounts,
            snapshots,
            volumes,
            rules,
            policies,
            nodes,
            standard,
            archive,
        })
    }
}
