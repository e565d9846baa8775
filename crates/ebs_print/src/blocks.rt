// The answers of PutSnapshotBlock and GetSnapshotBlock, and of a volume's blocks.
ghost use Rattle.std.specs.Prelude.{◌≡◌, ◌++◌, [], codes, string_bytes, IfOk};
ghost use Rattle.serde_json.specs.Data.{no_members};
ghost use Rattle.ebs_print.specs.Printed as frame;

use crate::frame::{head, json_message};
use ebs_model::{BLOCK_BYTES, Bytes};
use ebs_shown::{Object, base64_text};
use http::StatusCode;
use std::alloc::{AllocError, Global};

static ZEROS: [u8; BLOCK_BYTES] = [0; BLOCK_BYTES];

/// The SHA-256 of a block of zeros.
const ZERO_DIGEST: [u8; 32] =
    *b"\x07\x85\x4d\x2f\xef\x29\x7a\x06\xba\x81\x68\x5e\x66\x0c\x33\x2d\xe3\x6d\x5d\x18\xd5\x46\x92\x7d\x30\xda\xad\x6d\x7f\xda\x15\x41";

pub fn block_written(alloc: Global, digest: &[u8; 32]) -> Result<Bytes, AllocError>
    ensures { IfOk result (λ text. text ≡ frame.json_message 201 (frame.checksum_lines digest.now) no_members) }
{
    let lines = checksum_lines(alloc, digest)?;
    json_message(StatusCode::CREATED, lines.as_str(), Object::new(alloc))
}

/// What stands before a block of `size` bytes.
pub fn block_head(alloc: Global, digest: &[u8; 32], size: usize) -> Result<Bytes, AllocError>
    ensures { IfOk result (λ text. text ≡ frame.head 200 (codes "application/octet-stream") size (frame.block_lines size digest.now)) }
{
    let lines = block_lines(alloc, size, digest)?;
    let kind = "application/octet-stream";
    let head = head(alloc, StatusCode::OK, kind, size, lines.as_str())?;
    Ok(Bytes::from_vec(head.into_bytes()))
}

/// What stands before a block of zeros.
pub fn zero_head(alloc: Global) -> Result<Bytes, AllocError>
    ensures { IfOk result (λ text. text ++ frame.zeros ≡ frame.block_text frame.zero_digest frame.zeros) }
{
    block_head(alloc, zero_digest(), zeros().len())
}

#[tactic(auto, unfolding(crate::specs::Printed::zero_digest))]
pub fn zero_digest() -> &'static [u8; 32]
    ensures { result.now ≡ frame.zero_digest }
{
    &ZERO_DIGEST
}

/// A block of zeros, which takes no memory.
#[tactic(auto, unfolding(crate::specs::Printed::zeros))]
pub fn zeros() -> &'static [u8]
    ensures { result.now ≡ frame.zeros }
{
    &ZEROS
}

#[tactic(auto, unfolding(crate::specs::Printed::checksum_lines))]
fn checksum_lines(alloc: Global, digest: &[u8; 32]) -> Result<String, AllocError>
    ensures { IfOk result (λ lines. string_bytes lines ≡ frame.checksum_lines digest.now) }
{
    let checksum = base64_text(alloc, digest)?;
    format!(in alloc; "x-amz-Checksum: {checksum}\r\nx-amz-Checksum-Algorithm: SHA256\r\n")
}

#[tactic(auto, unfolding(crate::specs::Printed::block_lines))]
fn block_lines(alloc: Global, size: usize, digest: &[u8; 32]) -> Result<String, AllocError>
    ensures { IfOk result (λ lines. string_bytes lines ≡ frame.block_lines size digest.now) }
{
    let checksum = checksum_lines(alloc, digest)?;
    format!(in alloc; "x-amz-Data-Length: {size}\r\n{checksum}")
}
