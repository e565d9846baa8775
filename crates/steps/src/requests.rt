// The requests of the direct calls, and of the others by what they name.
use crate::bin_requests::bin_request;
use crate::policy_requests::policy_request;
use crate::row_requests::row_request;
use crate::step::Call;
use crate::volume_requests::volume_request;
use crate::words::{
    Words, given_digest, given_long, given_snap, given_text, long, short, snap, tags,
};
use ebs_model::{Bytes, Moment, Request, SnapKey, Text};
use ebs_tokens::block_token;
use sha2::{Digest, Sha256};
use std::alloc::Global;

const SECRET: [u8; 32] = [0; 32];

const BLOCK_SIZE: u64 = 524288;

/// The second at which a token expires where none is said.
const EXPIRY: u64 = 605_800;

/// What a call asks, where its words say it and there is memory for it.
pub fn request_of(alloc: Global, call: Call<'_>) -> Option<Request> {
    let verb = call.verb;
    let words = call.words;
    upload_request(alloc, verb, words)
        .or(row_request(alloc, verb, words))
        .or(bin_request(alloc, verb, words))
        .or(volume_request(alloc, verb, words))
        .or(policy_request(alloc, verb, words))
}

fn upload_request(alloc: Global, verb: &str, words: Words<'_>) -> Option<Request> {
    match verb {
        "start" => start(alloc, words),
        "put" => put(alloc, words),
        "complete" => complete(words),
        "blocks" => blocks(words),
        "changes" => changes(words),
        "get" => get(alloc, words),
        _ => None,
    }
}

// start SIZE TIMEOUT [parent=] [token=] [tags=]
fn start(alloc: Global, words: Words<'_>) -> Option<Request> {
    let size = long(words, 0)?;
    let timeout = short(words, 1)?;
    let parent = given_snap(words, "parent")?;
    let client_token = given_text(alloc, words, "token")?;
    Some(Request::StartSnapshot {
        size,
        parent,
        description: None,
        tags: tags(alloc, words, "tags")?,
        client_token,
        timeout,
    })
}

// put SNAPSHOT INDEX BYTE [length=] [sum=]
fn put(alloc: Global, words: Words<'_>) -> Option<Request> {
    let key = snap(words, 0)?;
    let index = long(words, 1)?;
    let stated = given_digest(words, "sum")?;
    let bytes = block(alloc, words)?;
    let digest = digest_of(stated, bytes.as_slice());
    Some(Request::PutSnapshotBlock {
        key,
        index,
        digest,
        bytes,
    })
}

/// A block that is full of a byte.
pub fn block(alloc: Global, words: Words<'_>) -> Option<Bytes> {
    let byte = u8::try_from(short(words, 2)?).ok()?;
    let length = given_long(words, "length")?.unwrap_or(BLOCK_SIZE);
    let size = usize::try_from(length).ok()?;
    Some(Bytes::from_vec(Vec::from_elem(alloc, byte, size).ok()?))
}

/// The digest that is said of a block, or its own.
pub fn digest_of(stated: Option<[u8; 32]>, bytes: &[u8]) -> [u8; 32] {
    match stated {
        Some(digest) => digest,
        None => Sha256::digest(bytes),
    }
}

// complete SNAPSHOT COUNT [sum=]
fn complete(words: Words<'_>) -> Option<Request> {
    Some(Request::CompleteSnapshot {
        key: snap(words, 0)?,
        count: long(words, 1)?,
        checksum: given_digest(words, "sum")?,
    })
}

// blocks SNAPSHOT FROM
fn blocks(words: Words<'_>) -> Option<Request> {
    Some(Request::ListSnapshotBlocks {
        key: snap(words, 0)?,
        page: None,
        max: 100,
        start: long(words, 1)?,
    })
}

// changes SNAPSHOT SNAPSHOT FROM
fn changes(words: Words<'_>) -> Option<Request> {
    Some(Request::ListChangedBlocks {
        first: snap(words, 0)?,
        second: snap(words, 1)?,
        page: None,
        max: 100,
        start: long(words, 2)?,
    })
}

// get SNAPSHOT INDEX [named=] [expiry=]
fn get(alloc: Global, words: Words<'_>) -> Option<Request> {
    let key = snap(words, 0)?;
    let index = long(words, 1)?;
    let token = token(alloc, words, &key, index)?;
    Some(Request::GetSnapshotBlock { key, index, token })
}

fn token(alloc: Global, words: Words<'_>, key: &SnapKey, index: u64) -> Option<Text> {
    let named = given_long(words, "named")?.unwrap_or(index);
    let named = u32::try_from(named).ok()?;
    let second = given_long(words, "expiry")?.unwrap_or(EXPIRY);
    block_token(alloc, &SECRET, key, named, Moment { second }).ok()
}
