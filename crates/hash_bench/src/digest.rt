// The digest of an input.
ghost use Rattle.std.specs.Prelude.{◌≡◌, ◌<◌, ◌≤◌, ◌^◌, ℕ, List, length, Some, Err, IfOk};
ghost use Rattle.sha2.specs.Sha256.{sha256};
ghost use Rattle.ebs_model.specs.Quotas.{Rose};

use ebs_world::{Failed, Source};
use sha2::{Digest, Sha256};

/// Why an input has no digest.
#[derive(Clone, Copy, Debug, PartialEq, Eq)]
pub enum Unread {
    Failed,
    /// The reads ran out before the bytes.
    TooLong,
}

/// The most reads of an input.
const READS: u64 = 1 << 24;

/// The SHA-256 of what is left of the input (FIPS 180-4).
pub fn digest_of<I: Source>(input: &mut I, room: &mut [u8]) -> Result<[u8; 32], Unread>
    requires { 0 < length room.old }
    ensures digest { IfOk result (λ digest. (text : List ℕ) → (I.inlet input.old).left ≡ Some text → digest ≡ sha256 text) }
    ensures failed { result ≡ Err Unread.Failed → Rose (I.inlet input.old).faults (I.inlet input.new).faults }
    ensures long { result ≡ Err Unread.TooLong → (text : List ℕ) → (I.inlet input.old).left ≡ Some text → 2 ^ 24 ≤ length text }
{
    let mut hasher = Sha256::new();
    let mut reads = READS;
    while reads > 0 {
        match input.take(room) {
            Ok(0) => return Ok(hasher.finalize()),
            Ok(count) => hasher.update(&room[..count]),
            Err(Failed) => return Err(Unread::Failed),
        }
        reads -= 1;
    }
    Err(Unread::TooLong)
}
