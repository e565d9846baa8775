// The requests of the calls on volumes.
use crate::requests::{block, digest_of};
use crate::words::{Words, given_digest, given_long, given_snap, given_text, long, tags, volume};
use ebs_model::Request;
use std::alloc::Global;

pub fn volume_request(alloc: Global, verb: &str, words: Words<'_>) -> Option<Request> {
    match verb {
        "create" => create(alloc, words),
        "volume" => Some(Request::DescribeVolume {
            key: volume(words, 0)?,
        }),
        "drop" => Some(Request::DeleteVolume {
            key: volume(words, 0)?,
        }),
        "snap" => Some(Request::CreateSnapshot {
            key: volume(words, 0)?,
            description: None,
            tags: tags(alloc, words, "tags")?,
        }),
        "write" => write(alloc, words),
        "read" => Some(Request::ReadVolumeBlock {
            key: volume(words, 0)?,
            index: long(words, 1)?,
        }),
        _ => None,
    }
}

// create [from=] [size=] [token=] [tags=]
fn create(alloc: Global, words: Words<'_>) -> Option<Request> {
    let origin = given_snap(words, "from")?;
    let size = given_long(words, "size")?;
    let client_token = given_text(alloc, words, "token")?;
    Some(Request::CreateVolume {
        origin,
        size,
        tags: tags(alloc, words, "tags")?,
        client_token,
    })
}

// write VOLUME INDEX BYTE [length=] [sum=]
fn write(alloc: Global, words: Words<'_>) -> Option<Request> {
    let key = volume(words, 0)?;
    let index = long(words, 1)?;
    let stated = given_digest(words, "sum")?;
    let bytes = block(alloc, words)?;
    let digest = digest_of(stated, bytes.as_slice());
    Some(Request::WriteVolumeBlock {
        key,
        index,
        digest,
        bytes,
    })
}
