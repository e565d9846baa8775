// One checkpoint, all of the bytes.
ghost use Rattle.std.specs.Prelude.{◌≡◌, IfOk};
ghost use Rattle.ebs_records.specs.inner.Whole.{Spells};
ghost use Rattle.ebs_checkpoints.specs.Checkpoints.{HasSpelling, spelled};
ghost use Rattle.ebs_checkpoints.specs.inner.Whole.{judged};

use crate::checkpoint::Checkpoint;
use ebs_model::Bytes;
use ebs_records::{Codec, Input, Read, Unread};
use std::alloc::{AllocError, Global};

/// The checkpoint that is spelled so.
pub fn read_checkpoint(alloc: Global, bytes: &[u8]) -> Read<Checkpoint>
    ensures { Spells HasSpelling spelled bytes.now result }
{
    let mut input = Input::new(bytes);
    match Checkpoint::read(alloc, &mut input) {
        Ok(value) => judged(value, input.is_empty()),
        Err(Unread::Malformed) => Read::NoValue,
        Err(Unread::Memory) => Read::Memory,
    }
}

/// What was read, where it is all of the bytes.
fn judged(value: Checkpoint, ended: bool) -> Read<Checkpoint>
    ensures { result ≡ judged value ended }
{
    if ended {
        Read::Value(value)
    } else {
        Read::NoValue
    }
}

/// The one spelling of a checkpoint.
pub fn write_checkpoint(alloc: Global, point: &Checkpoint) -> Result<Bytes, AllocError>
    requires { HasSpelling point.now }
    ensures { IfOk result (λ bytes. bytes ≡ spelled point.now) }
{
    let mut out = Vec::new(alloc);
    point.write(&mut out)?;
    Ok(Bytes::from_vec(out))
}
