// The token of a block of a snapshot.
ghost use Rattle.std.specs.Prelude.{◌≡◌, ◌≢◌, IfOk, IfSome, IfNone};
ghost use Rattle.ebs_model.specs.Tokens.{block_text, is_block_token};
ghost use Rattle.ebs_tokens.specs.Fields.{IsBlockField, text_of_block};
ghost use Rattle.ebs_tokens.specs.declared.block.BlockField.{BlockField};

use crate::frame::block_frame;
use crate::seal::{is_sealed, sealed};
use crate::stated::{bytes_of, key_at, u32_at, u64_at};
use ebs_model::{Moment, SnapKey, Text};
use std::alloc::{AllocError, Global};

/// What a block token names.
#[derive(Clone, Copy, Debug, PartialEq, Eq)]
pub struct BlockField {
    pub key: SnapKey,
    pub index: u32,
    pub expiry: Moment,
}

/// The token of a block of a snapshot: 114 lower-case hexadecimal digits.
pub fn block_token(
    alloc: Global,
    secret: &[u8; 32],
    key: &SnapKey,
    index: u32,
    expiry: Moment,
) -> Result<Text, AllocError>
    ensures { IfOk result (λ text. text ≡ block_text secret.now key.now index expiry.second) }
{
    sealed(alloc, secret, &block_frame(key, index, expiry))
}

/// Whether the text is the token of this block for an expiry that isn't reached. The index is a request's, which can be
/// greater than any that a token states.
pub fn is_block_token(
    secret: &[u8; 32],
    key: &SnapKey,
    index: u64,
    now: Moment,
    text: &[u8],
) -> bool
    ensures { result ≡ is_block_token secret.now key.now index now.second text.now }
{
    let Some(bytes) = bytes_of::<57>(text) else {
        return false;
    };
    let Ok(index) = u32::try_from(index) else {
        return false;
    };
    let expiry = Moment {
        second: u64_at(&bytes, 17),
    };
    now.second < expiry.second && is_sealed(secret, &block_frame(key, index, expiry), text)
}

/// The block that the text is a token of, whether its expiry is reached or not.
pub fn read_block_token(secret: &[u8; 32], text: &[u8]) -> Option<BlockField>
    ensures some { IfSome result (λ field. IsBlockField field × (text.now ≡ text_of_block secret.now field)) }
    ensures none { IfNone result ((field : BlockField) → IsBlockField field → text.now ≢ text_of_block secret.now field) }
{
    let bytes = bytes_of::<57>(text)?;
    let key = key_at(&bytes, 1)?;
    let index = u32_at(&bytes, 13);
    let expiry = Moment {
        second: u64_at(&bytes, 17),
    };
    if is_sealed(secret, &block_frame(&key, index, expiry), text) {
        Some(BlockField { key, index, expiry })
    } else {
        None
    }
}
