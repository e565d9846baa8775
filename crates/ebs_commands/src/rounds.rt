// The calls of a sample.
ghost use Rattle.std.specs.Prelude.{◌≡◌, ◌++◌, IfOk, OnOk};
ghost use Rattle.sha2.specs.Sha256.{sha256};
ghost use Rattle.ebs_commands.specs.Samples as spec;

use ebs_model::{Account, BLOCK_BYTES, Bytes, KeyNumber, Moment, Request, SnapKey, Tags, VolKey};
use sha2::{Digest, Sha256};
use std::alloc::{AllocError, Global};

/// A call of a sample: of its one volume, or of the snapshot of a round.
#[derive(Clone, Copy, Debug)]
pub enum SampleCall {
    CreateVolume,
    Start { round: u16 },
    Put { round: u16, index: u16, byte: u8 },
    Complete { round: u16 },
    Write { round: u16, byte: u8 },
    /// Of the snapshot of the round before.
    Delete { round: u16 },
    CreateSnapshot { round: u16 },
}

/// The calls of a round.
pub fn push_round(calls: &mut Vec<SampleCall>, round: u16) -> Result<(), AllocError>
    ensures { OnOk result (calls.new.items ≡ calls.old.items ++ spec.round_calls round) }
{
    let byte = (round % 256) as u8;
    calls.push(SampleCall::Start { round })?;
    calls.push(SampleCall::Put {
        round,
        index: round % 16,
        byte,
    })?;
    calls.push(SampleCall::Put {
        round,
        index: 100,
        byte: (round % 7) as u8,
    })?;
    calls.push(SampleCall::Complete { round })?;
    calls.push(SampleCall::Write {
        round,
        byte: 255 - byte,
    })?;
    if round % 3 == 2 {
        calls.push(SampleCall::Delete { round })?;
    }
    Ok(())
}

/// The calls of so many rounds.
pub fn sample_calls(alloc: Global, rounds: u16) -> Result<Vec<SampleCall>, AllocError>
    ensures { IfOk result (λ calls. calls.items ≡ spec.sample_calls rounds) }
{
    let mut calls = Vec::new(alloc);
    calls.push(SampleCall::CreateVolume)?;
    for round in 0..rounds {
        push_round(&mut calls, round)?;
    }
    calls.push(SampleCall::CreateSnapshot { round: rounds })?;
    calls.push(SampleCall::Write {
        round: rounds,
        byte: 9,
    })?;
    Ok(calls)
}

/// The round at whose moment a call is made.
fn round_of(call: SampleCall) -> u16
    ensures { result ≡ spec.round_of call }
{
    match call {
        SampleCall::CreateVolume => 0,
        SampleCall::Start { round } => round,
        SampleCall::Put { round, .. } => round,
        SampleCall::Complete { round } => round,
        SampleCall::Write { round, .. } => round,
        SampleCall::Delete { round } => round,
        SampleCall::CreateSnapshot { round } => round,
    }
}

/// When a round is.
pub fn moment_in(round: u16) -> Moment
    ensures { result ≡ spec.moment_in round }
{
    Moment {
        second: 1000 + u64::from(round),
    }
}

/// When a call is made.
pub fn moment_of(call: SampleCall) -> Moment
    ensures { result ≡ (spec.asked_of call).reading }
{
    moment_in(round_of(call))
}

/// The account of a sample.
pub fn owner() -> Account
    ensures { result ≡ 1 }
{
    Account::new(1)
}

fn snapshot(round: u16) -> SnapKey
    ensures { result ≡ spec.snapshot round }
{
    SnapKey {
        account: owner(),
        number: KeyNumber::new(u32::from(round)),
    }
}

fn before(round: u16) -> Option<SnapKey>
    ensures { result ≡ spec.before round }
{
    if round == 0 {
        None
    } else {
        Some(snapshot(round - 1))
    }
}

fn volume() -> VolKey
    ensures { result ≡ spec.volume }
{
    VolKey {
        account: owner(),
        number: KeyNumber::new(0),
    }
}

fn filled(alloc: Global, byte: u8, count: usize) -> Result<Bytes, AllocError>
    ensures { IfOk result (λ bytes. bytes ≡ spec.filled count byte) }
{
    Ok(Bytes::from_vec(Vec::from_elem(alloc, byte, count)?))
}

fn block_of(alloc: Global, byte: u8) -> Result<Bytes, AllocError>
    ensures { IfOk result (λ bytes. bytes ≡ spec.block_of byte) }
{
    filled(alloc, byte, BLOCK_BYTES)
}

fn put(alloc: Global, key: SnapKey, index: u16, byte: u8) -> Result<Request, AllocError>
    ensures { IfOk result (λ request. request ≡ Request.PutSnapshotBlock key index (sha256 (spec.block_of byte)) (spec.block_of byte)) }
{
    let bytes = block_of(alloc, byte)?;
    Ok(Request::PutSnapshotBlock {
        key,
        index: u64::from(index),
        digest: Sha256::digest(bytes.as_slice()),
        bytes,
    })
}

fn write(alloc: Global, byte: u8) -> Result<Request, AllocError>
    ensures { IfOk result (λ request. request ≡ Request.WriteVolumeBlock spec.volume 0 (sha256 (spec.block_of byte)) (spec.block_of byte)) }
{
    let bytes = block_of(alloc, byte)?;
    Ok(Request::WriteVolumeBlock {
        key: volume(),
        index: 0,
        digest: Sha256::digest(bytes.as_slice()),
        bytes,
    })
}

fn start(alloc: Global, round: u16) -> Request
    ensures { result ≡ spec.request_of (SampleCall.Start round) }
{
    Request::StartSnapshot {
        size: 1,
        parent: before(round),
        description: None,
        tags: Tags::new(alloc),
        client_token: None,
        timeout: 60,
    }
}

/// What a call asks for.
pub fn request_of(alloc: Global, call: SampleCall) -> Result<Request, AllocError>
    ensures { IfOk result (λ request. request ≡ spec.request_of call) }
{
    match call {
        SampleCall::CreateVolume => Ok(Request::CreateVolume {
            origin: None,
            size: Some(1),
            tags: Tags::new(alloc),
            client_token: None,
        }),
        SampleCall::Start { round } => Ok(start(alloc, round)),
        SampleCall::Put { round, index, byte } => put(alloc, snapshot(round), index, byte),
        SampleCall::Complete { round } => Ok(Request::CompleteSnapshot {
            key: snapshot(round),
            count: 2,
            checksum: None,
        }),
        SampleCall::Write { byte, .. } => write(alloc, byte),
        SampleCall::Delete { round } => Ok(Request::DeleteSnapshot {
            key: snapshot(round.saturating_sub(1)),
        }),
        SampleCall::CreateSnapshot { .. } => Ok(Request::CreateSnapshot {
            key: volume(),
            description: None,
            tags: Tags::new(alloc),
        }),
    }
}
