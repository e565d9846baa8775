// What a token states in the clear: the bytes that its seal covers.
ghost use Rattle.std.specs.Prelude.{◌≡◌};
ghost use Rattle.ebs_model.specs.Tokens.{key_bytes, index_bytes, block_frame, page_frame};

use ebs_model::{Moment, SnapKey};

fn key_bytes(key: &SnapKey) -> [u8; 12]
    ensures { result ≡ key_bytes key.now }
{
    let mut bytes = [0u8; 12];
    bytes[..8].copy_from_slice(&key.account.number().to_be_bytes());
    bytes[8..].copy_from_slice(&key.number.number().to_be_bytes());
    bytes
}

fn index_bytes(index: u32) -> [u8; 4]
    ensures { result ≡ index_bytes index }
{
    index.to_be_bytes()
}

#[tactic(auto, unfolding(ebs_model::specs::Tokens::block_frame))]
pub fn block_frame(key: &SnapKey, index: u32, expiry: Moment) -> [u8; 25]
    ensures { result ≡ block_frame key.now index expiry.second }
{
    let mut frame = [0u8; 25];
    frame[0] = 1;
    frame[1..13].copy_from_slice(&key_bytes(key));
    frame[13..17].copy_from_slice(&index_bytes(index));
    frame[17..].copy_from_slice(&expiry.second.to_be_bytes());
    frame
}

#[tactic(auto, unfolding(ebs_model::specs::Tokens::page_frame))]
pub fn page_frame(
    changed: bool,
    first: &SnapKey,
    second: &SnapKey,
    index: u32,
    expiry: Moment,
) -> [u8; 37]
    ensures { result ≡ page_frame changed first.now second.now index expiry.second }
{
    let mut frame = [0u8; 37];
    frame[0] = if changed { 3 } else { 2 };
    frame[1..13].copy_from_slice(&key_bytes(first));
    frame[13..25].copy_from_slice(&key_bytes(second));
    frame[25..29].copy_from_slice(&index_bytes(index));
    frame[29..].copy_from_slice(&expiry.second.to_be_bytes());
    frame
}
