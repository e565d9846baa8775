// One checkpoint that has the rules, all of the bytes.
ghost use Rattle.std.specs.Prelude.{◌≡◌, IfOk};
ghost use Rattle.ebs_records.specs.inner.Whole.{Spells};
ghost use Rattle.ebs_checkpoints.specs.Checkpoints.{spelled};
ghost use Rattle.ebs_node_rules.specs.inner.Nodes.{EachBearsName};
ghost use Rattle.ebs_checkpoint_rules.specs.Rules.{IsCheckpoint};
ghost use Rattle.ebs_checkpoint_rules.specs.inner.Rules.{IsJudged, IfValue};

use crate::rules::has_rules;
use ebs_checkpoints::Checkpoint;
use ebs_model::Bytes;
use ebs_records::Read;
use std::alloc::{AllocError, Global};

/// The checkpoint that is spelled so and has the rules.
pub fn read_checkpoint(alloc: Global, bytes: &[u8]) -> Read<Checkpoint>
    ensures value { Spells IsCheckpoint spelled bytes.now result }
    ensures named { IfValue result EachBearsName }
{
    match ebs_checkpoints::read_checkpoint(alloc, bytes) {
        Read::Value(point) => judged(alloc, point),
        Read::NoValue => Read::NoValue,
        Read::Memory => Read::Memory,
    }
}

/// The checkpoint, where it has the rules.
fn judged(alloc: Global, point: Checkpoint) -> Read<Checkpoint>
    ensures { IsJudged point result }
{
    match has_rules(alloc, &point) {
        Ok(true) => Read::Value(point),
        Ok(false) => {
            drop(point);
            Read::NoValue
        }
        Err(_) => {
            drop(point);
            Read::Memory
        }
    }
}

/// The one spelling of a checkpoint.
pub fn write_checkpoint(alloc: Global, point: &Checkpoint) -> Result<Bytes, AllocError>
    requires { IsCheckpoint point.now }
    ensures { IfOk result (λ bytes. bytes ≡ spelled point.now) }
{
    ebs_checkpoints::write_checkpoint(alloc, point)
}
