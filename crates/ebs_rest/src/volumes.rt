// The members of the calls on volumes, in the order in which they are tried.
ghost use Rattle.std.specs.Prelude.{◌≡◌, None, codes, IfOk, IfErr};
ghost use Rattle.ebs_model.specs.Limits.{bad_member, is_sized};
ghost use Rattle.ebs_members.specs.inner.Outcome.{Reads, IsExact, RanOut};
ghost use Rattle.ebs_members.specs.Sources.{refuse_unless};
ghost use Rattle.ebs_members.specs.inner.Memory.{IsGiven};
ghost use Rattle.ebs_rest.specs.inner.Memory.{HasVolume};
ghost use Rattle.ebs_members.specs.inner.Sources.{found};
ghost use Rattle.ebs_rest.specs.Calls as calls;

use crate::calls::block_digest;
use ebs_members::{Index, Number, Read, Snapshot, Source, TagList, Volume, Words, Wrong, object};
use ebs_model::{Bytes, Request, SnapKey, Tags, VolKey, bad_member};
use std::alloc::Global;

/// The volume that a path names.
pub fn volume<'n>(path: &Source) -> Read<'n, VolKey>
    ensures value { Reads (calls.volume (found path.now)) result }
    ensures exact { IsExact result }
{
    path.required("volumeId", Volume)
}

pub fn create<'n>(alloc: Global, bytes: &[u8]) -> Read<'n, Request>
    ensures value { Reads (calls.create bytes.now) result }
    ensures memory { IfErr result (λ e. RanOut e → IsGiven bytes.now) }
    ensures limits { IfOk result (λ request. bad_member request ≡ None) }
{
    let body = object(alloc, bytes)?;
    create_of(alloc, &Source::Body(&body))
}

fn create_of<'n>(alloc: Global, body: &Source) -> Read<'n, Request>
    ensures value { Reads (calls.create_of (found body.now)) result }
    ensures limits { IfOk result (λ request. bad_member request ≡ None) }
{
    let origin = body.optional("SnapshotId", Snapshot)?;
    let size = body.optional("Size", Number)?;
    sized(&origin, &size)?;
    let tags = body.optional_owned(alloc, "Tags", TagList)?;
    let client_token = body.optional_owned(alloc, "ClientToken", Words::Token)?;
    Ok(Request::CreateVolume {
        origin,
        size,
        tags: tags.unwrap_or(Tags::new(alloc)),
        client_token,
    })
}

fn sized<'n>(origin: &Option<SnapKey>, size: &Option<u64>) -> Read<'n, ()>
    ensures value { Reads (refuse_unless (is_sized origin.now size.now) (codes "Size")) result }
    ensures exact { IsExact result }
{
    match (origin, size) {
        (None, None) => Err(Wrong::Member("Size")),
        (None, Some(_)) => Ok(()),
        (Some(_), _) => Ok(()),
    }
}

pub fn create_snapshot<'n>(alloc: Global, path: &Source, bytes: &[u8]) -> Read<'n, Request>
    ensures value { Reads (calls.create_snapshot (found path.now) bytes.now) result }
    ensures memory { IfErr result (λ e. RanOut e → HasVolume (found path.now) × IsGiven bytes.now) }
    ensures limits { IfOk result (λ request. bad_member request ≡ None) }
{
    let key = volume(path)?;
    let body = object(alloc, bytes)?;
    snapshot_of(alloc, key, &Source::Body(&body))
}

fn snapshot_of<'n>(alloc: Global, key: VolKey, body: &Source) -> Read<'n, Request>
    ensures value { Reads (calls.snapshot_of key (found body.now)) result }
    ensures limits { IfOk result (λ request. bad_member request ≡ None) }
{
    let description = body.optional_owned(alloc, "Description", Words::Description)?;
    let tags = body.optional_owned(alloc, "Tags", TagList)?;
    Ok(Request::CreateSnapshot {
        key,
        description,
        tags: tags.unwrap_or(Tags::new(alloc)),
    })
}

/// The request, which takes the body as it is.
pub fn write_block<'n>(path: &Source, fields: &Source, bytes: Bytes) -> Read<'n, Request>
    ensures value { Reads (calls.write_block (found path.now) (found fields.now) bytes) result }
    ensures exact { IsExact result }
    ensures limits { IfOk result (λ request. bad_member request ≡ None) }
{
    let key = volume(path)?;
    let index = path.required("blockIndex", Index)?;
    let digest = block_digest(fields, &bytes)?;
    Ok(Request::WriteVolumeBlock {
        key,
        index,
        digest,
        bytes,
    })
}

pub fn read_block<'n>(path: &Source) -> Read<'n, Request>
    ensures value { Reads (calls.read_block (found path.now)) result }
    ensures exact { IsExact result }
    ensures limits { IfOk result (λ request. bad_member request ≡ None) }
{
    let key = volume(path)?;
    let index = path.required("blockIndex", Index)?;
    Ok(Request::ReadVolumeBlock { key, index })
}
