//! The messages of the script.
use base64::engine::general_purpose::STANDARD;
use sha2::{Digest, Sha256};
use std::alloc::{AllocError, Global};

/// A block's size in bytes.
pub const BLOCK: usize = 524288;

/// A call that is made.
#[derive(Clone, Copy)]
pub enum Call {
    Start,
    StartChild,
    /// One more upload without a parent.
    StartApart,
    /// A block of these bytes is put at an index.
    Put(Upload, u32, u8),
    /// The upload ends, in which so many blocks were put.
    Complete(Upload, u32),
    LockParent,
    DeleteParent,
    /// The parent's row is asked for.
    DescribeParent,
    /// A volume is made of the child.
    CreateVolume,
    /// An empty volume is made.
    CreateEmpty,
    /// A second volume is made of the first snapshot.
    CreateSecond,
    /// A block of these bytes is written at an index of the first volume.
    Write(u32, u8),
    /// A block of the first volume is read.
    Read(u32),
    /// A block of the second volume is read.
    ReadSecond(u32),
    /// A policy is made that takes a snapshot of the empty volume at three each day.
    CreatePolicy,
    RunPolicy,
}

#[derive(Clone, Copy)]
pub enum Upload {
    Parent,
    /// The second that was started, whether it has a parent or not.
    Child,
    Third,
}

/// What is done, each call once.
pub const SCRIPT: [Call; 8] = [
    Call::Start,
    Call::Put(Upload::Parent, 0, 5),
    Call::Put(Upload::Parent, 7, 6),
    Call::Complete(Upload::Parent, 2),
    Call::StartChild,
    Call::Put(Upload::Child, 7, 9),
    Call::Complete(Upload::Child, 1),
    Call::DeleteParent,
];

/// What is done behind a collection, each call once.
pub const MORE: [Call; 3] = [
    Call::StartApart,
    Call::Put(Upload::Third, 0, 3),
    Call::Put(Upload::Third, 1, 4),
];

/// What shows whether all of it was done.
pub const LOOK: [Call; 4] = [
    Call::DescribeParent,
    Call::CreateVolume,
    Call::Read(0),
    Call::Read(7),
];

/// The message of a call by account 1.
pub fn message(alloc: Global, call: Call) -> Result<Vec<u8>, AllocError> {
    match call {
        Call::Put(upload, index, byte) => {
            let holder = format!(in alloc; "/snapshots/{}", id_of(upload))?;
            put(alloc, holder.as_str(), index, byte)
        }
        Call::Write(index, byte) => put(alloc, "/volumes/vol-00000000010000000", index, byte),
        Call::Complete(upload, count) => complete(alloc, id_of(upload), count),
        Call::Read(index) => read(alloc, "vol-00000000010000000", index),
        Call::ReadSecond(index) => read(alloc, "vol-00000000010000001", index),
        other => plain(alloc, line_of(other), body_of(other)),
    }
}

fn id_of(upload: Upload) -> &'static str {
    match upload {
        Upload::Parent => "snap-00000000010000000",
        Upload::Child => "snap-00000000010000001",
        Upload::Third => "snap-00000000010000002",
    }
}

// The method and the target of a call that carries no block.
fn line_of(call: Call) -> &'static str {
    match call {
        Call::Start | Call::StartChild | Call::StartApart => "POST /snapshots",
        Call::LockParent => "PUT /snapshots/snap-00000000010000000/lock",
        Call::DeleteParent => "DELETE /snapshots/snap-00000000010000000",
        Call::DescribeParent => "GET /snapshots/snap-00000000010000000",
        Call::CreatePolicy => "POST /policies",
        Call::RunPolicy => "POST /policies/policy-00000000010000000/run",
        _ => "POST /volumes",
    }
}

fn body_of(call: Call) -> &'static str {
    match call {
        Call::Start => "{\"VolumeSize\":1,\"ClientToken\":\"first\"}",
        Call::StartChild => {
            "{\"VolumeSize\":1,\"ParentSnapshotId\":\"snap-00000000010000000\",\"ClientToken\":\"second\"}"
        }
        Call::StartApart => "{\"VolumeSize\":1,\"ClientToken\":\"apart\"}",
        Call::LockParent => "{\"LockMode\":\"governance\",\"LockDuration\":30}",
        Call::CreateVolume => {
            "{\"SnapshotId\":\"snap-00000000010000001\",\"ClientToken\":\"third\"}"
        }
        Call::CreateEmpty => "{\"Size\":1,\"Tags\":[{\"Key\":\"daily\",\"Value\":\"yes\"}]}",
        Call::CreateSecond => "{\"SnapshotId\":\"snap-00000000010000000\"}",
        Call::CreatePolicy => {
            "{\"TargetTags\":[{\"Key\":\"daily\",\"Value\":\"yes\"}],\"Schedule\":{\"Interval\":24,\"IntervalUnit\":\"HOURS\",\"Times\":[\"03:00\"]},\"RetainRule\":{\"Count\":1}}"
        }
        _ => "",
    }
}

fn plain(alloc: Global, line: &str, body: &str) -> Result<Vec<u8>, AllocError> {
    let length = body.len();
    let text = format!(in alloc;
        "{line} HTTP/1.1\r\nx-ebs-account: 000000000001\r\nContent-Length: {length}\r\n\r\n{body}"
    )?;
    Ok(text.into_bytes())
}

fn read(alloc: Global, volume: &str, index: u32) -> Result<Vec<u8>, AllocError> {
    let line = format!(in alloc; "GET /volumes/{volume}/blocks/{index}")?;
    plain(alloc, line.as_str(), "")
}

fn complete(alloc: Global, id: &str, count: u32) -> Result<Vec<u8>, AllocError> {
    let head = format!(in alloc;
        "POST /snapshots/completion/{id} HTTP/1.1\r\nx-ebs-account: 000000000001\r\nx-amz-ChangedBlocksCount: {count}\r\nContent-Length: 0\r\n\r\n"
    )?;
    Ok(head.into_bytes())
}

fn put(alloc: Global, holder: &str, index: u32, byte: u8) -> Result<Vec<u8>, AllocError> {
    let block = vec![in alloc; byte; BLOCK]?;
    let digest: [u8; 32] = Sha256::digest(block.as_slice()).into();
    let checksum = STANDARD.encode(alloc, &digest)?;
    let head = format!(in alloc;
        "PUT {holder}/blocks/{index} HTTP/1.1\r\nx-ebs-account: 000000000001\r\nx-amz-Data-Length: 524288\r\nx-amz-Checksum: {checksum}\r\nx-amz-Checksum-Algorithm: SHA256\r\nContent-Length: 524288\r\n\r\n"
    )?;
    let mut text = head.into_bytes();
    text.extend_from_slice(block.as_slice())?;
    Ok(text)
}
