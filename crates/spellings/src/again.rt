// What was read, written again.
ghost use Rattle.std.specs.Prelude.{◌≡◌, IfOk, IfSome};

use ebs_checkpoint_rules::{read_checkpoint, write_checkpoint};
use ebs_model::Bytes;
use ebs_records::{Read, read_record, write_record};
use std::alloc::{AllocError, Global};

/// The bytes of what is spelled so.
pub fn written_again(alloc: Global, kind: &str, bytes: &[u8]) -> Result<Option<Bytes>, AllocError>
    ensures { IfOk result (λ again. IfSome again (λ written. written ≡ bytes.now)) }
{
    match kind {
        "record" => record_again(alloc, bytes),
        "checkpoint" => checkpoint_again(alloc, bytes),
        _ => Ok(None),
    }
}

fn record_again(alloc: Global, bytes: &[u8]) -> Result<Option<Bytes>, AllocError>
    ensures { IfOk result (λ again. IfSome again (λ written. written ≡ bytes.now)) }
{
    match read_record(alloc, bytes) {
        Read::Value(record) => Ok(Some(write_record(alloc, &record)?)),
        Read::NoValue => Ok(None),
        Read::Memory => Err(AllocError),
    }
}

fn checkpoint_again(alloc: Global, bytes: &[u8]) -> Result<Option<Bytes>, AllocError>
    ensures { IfOk result (λ again. IfSome again (λ written. written ≡ bytes.now)) }
{
    match read_checkpoint(alloc, bytes) {
        Read::Value(point) => Ok(Some(write_checkpoint(alloc, &point)?)),
        Read::NoValue => Ok(None),
        Read::Memory => Err(AllocError),
    }
}
