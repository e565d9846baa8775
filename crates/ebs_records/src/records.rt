// One record, all of the bytes.
ghost use Rattle.std.specs.Prelude.{◌≡◌, IfOk};
ghost use Rattle.ebs_records.specs.Records.{IsRecord, record_bytes};
ghost use Rattle.ebs_records.specs.inner.Whole.{Spells, judged};
ghost use Rattle.ebs_records.specs.declared.record.Record.TheVariants.{Advance};

use crate::codec::{Codec, Unread};
use crate::input::Input;
use crate::limits::has_limits;
use crate::record::Record;
use ebs_model::{Bytes, Moment};
use std::alloc::{AllocError, Global};

/// What bytes are read as.
#[derive(Debug, Drop)]
pub enum Read<T> {
    Value(T),
    /// No value is spelled so.
    NoValue,
    Memory,
}

/// The record that is spelled so.
pub fn read_record(alloc: Global, bytes: &[u8]) -> Read<Record>
    ensures { Spells IsRecord record_bytes bytes.now result }
{
    let mut input = Input::new(bytes);
    match Record::read(alloc, &mut input) {
        Ok(value) => judged(value, input.is_empty()),
        Err(Unread::Malformed) => Read::NoValue,
        Err(Unread::Memory) => Read::Memory,
    }
}

/// What was read, where it is all of the bytes and within its limits.
fn judged(value: Record, ended: bool) -> Read<Record>
    ensures { result ≡ judged value ended }
{
    if ended && has_limits(&value) {
        Read::Value(value)
    } else {
        Read::NoValue
    }
}

/// The one spelling of a record.
pub fn write_record(alloc: Global, value: &Record) -> Result<Bytes, AllocError>
    requires { IsRecord value.now }
    ensures { IfOk result (λ bytes. bytes ≡ record_bytes value.now) }
{
    let mut out = Vec::new(alloc);
    value.write(&mut out)?;
    Ok(Bytes::from_vec(out))
}

/// The one spelling of the record of a moment's advance, which takes no memory.
#[tactic(auto, unfolding(crate::specs::Fields::long))]
pub fn write_advance(at: Moment) -> [u8; 9]
    ensures { result ≡ record_bytes (Advance at) }
{
    let mut bytes = [2; 9];
    bytes[1..].copy_from_slice(&at.second.to_be_bytes());
    bytes
}
