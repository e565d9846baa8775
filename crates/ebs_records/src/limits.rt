// The limits of what a record says.
ghost use Rattle.std.specs.Prelude.{◌≡◌};
ghost use Rattle.ebs_records.specs.Records as records;

use crate::record::Record;
use ebs_model::{
    LAST_SECOND, MOST_GIB, Moment, Request, bad_member, blocks_of, is_size, is_size_given,
};

/// Slots of the area of blocks end at or below byte 2^62, and those of the archive begin one block later.
const SLOTS: u64 = 1 << 43;

/// How many copies the archive ever has.
const COPIES: u64 = 1 << 42;

pub(crate) fn has_limits(value: &Record) -> bool
    ensures { result ≡ records.has_limits value.now }
{
    match value {
        Record::Accepted(accepted) => {
            is_moment(accepted.at) && is_within(&accepted.request, accepted.slot)
        }
        Record::Advance(at) => is_moment(*at),
        Record::Moved(transfer) => {
            is_index(transfer.index as u64)
                && transfer.copy < COPIES
                && is_moved_slot(transfer.to_archive, transfer.slot)
        }
    }
}

fn is_within(request: &Request, slot: Option<u64>) -> bool
    ensures { result ≡ records.is_within request.now slot }
{
    match request {
        Request::StartSnapshot {
            size,
            parent: _,
            description: _,
            tags: _,
            client_token: _,
            timeout: _,
        } => is_size(*size) && bad_member(request).is_none(),
        Request::PutSnapshotBlock {
            key: _,
            index,
            digest: _,
            bytes: _,
        } => is_block(*index, slot),
        Request::CompleteSnapshot {
            key: _,
            count,
            checksum: _,
        } => *count <= most_blocks(),
        Request::CreateVolume {
            origin: _,
            size,
            tags: _,
            client_token: _,
        } => is_size_given(*size) && bad_member(request).is_none(),
        Request::WriteVolumeBlock {
            key: _,
            index,
            digest: _,
            bytes: _,
        } => is_block(*index, slot),
        _ => bad_member(request).is_none(),
    }
}

/// A block that is written has an index, and a slot for its bytes.
fn is_block(index: u64, slot: Option<u64>) -> bool
    ensures { result ≡ records.is_block index slot }
{
    match slot {
        Some(slot) => is_index(index) && slot < SLOTS,
        None => false,
    }
}

/// A slot that a block is moved to, in the archive or back in the area of blocks.
fn is_moved_slot(to_archive: bool, slot: u64) -> bool
    ensures { result ≡ records.is_moved_slot to_archive slot }
{
    if to_archive {
        slot < SLOTS - 1
    } else {
        slot < SLOTS
    }
}

fn is_moment(at: Moment) -> bool
    ensures { result ≡ records.is_moment at }
{
    at.second <= LAST_SECOND
}

fn is_index(index: u64) -> bool
    ensures { result ≡ records.is_index index }
{
    index < most_blocks()
}

/// The blocks of an image of the greatest size.
fn most_blocks() -> u64
    ensures { result ≡ 33554432 }
{
    blocks_of(MOST_GIB as u32)
}
