// The seal: the SHA-256 (FIPS 180-4) of the secret and what a token states.
ghost use Rattle.std.specs.Prelude.{◌≡◌, ◌≤◌, ◌*◌, ◌++◌, length, IfOk, nat_eq};
ghost use Rattle.std.specs.Cmp.Lexicographic.{pointwise};
ghost use Rattle.hex.specs.Hex.{encode_lower};
ghost use Rattle.sha2.specs.Sha256.{sha256};
ghost use Rattle.ebs_model.specs.Tokens.{sealed};

use ebs_model::Text;
use sha2::{Digest, Sha256};
use std::alloc::{AllocError, Global};

/// The most bytes that a token states.
const MOST_BYTES: usize = 37;

fn seal_of(secret: &[u8; 32], frame: &[u8]) -> [u8; 32]
    ensures { result ≡ sha256 (secret.now ++ frame.now) }
{
    let mut hasher = Sha256::new();
    hasher.update(secret);
    hasher.update(frame);
    hasher.finalize()
}

#[tactic(auto, unfolding(ebs_model::specs::Tokens::sealed))]
pub fn sealed(alloc: Global, secret: &[u8; 32], frame: &[u8]) -> Result<Text, AllocError>
    ensures { IfOk result (λ text. text ≡ sealed secret.now frame.now) }
{
    let mut bytes = Vec::from_slice(alloc, frame)?;
    bytes.extend_from_slice(&seal_of(secret, frame))?;
    Ok(Text::from_string(hex::encode(alloc, bytes.as_slice())?))
}

/// Whether the text is the lower-case digits of the bytes, which are made again for this.
fn are_digits(text: &[u8], bytes: &[u8]) -> bool
    requires { length bytes.now ≤ MOST_BYTES }
    ensures { result ≡ pointwise nat_eq text.now (encode_lower bytes.now) }
{
    let mut digits = [0u8; 2 * MOST_BYTES];
    let room = &mut digits[..2 * bytes.len()];
    match hex::encode_to_slice(bytes, room) {
        Ok(()) => text == room,
        Err(_) => unreachable!(),
    }
}

/// Whether the text is the token of the frame. It takes no memory.
pub fn is_sealed(secret: &[u8; 32], frame: &[u8], text: &[u8]) -> bool
    requires { length frame.now ≤ MOST_BYTES }
    ensures { result ≡ pointwise nat_eq text.now (sealed secret.now frame.now) }
{
    let middle = 2 * frame.len();
    if text.len() < middle {
        return false;
    }
    let (front, back) = text.split_at(middle);
    are_digits(front, frame) && are_digits(back, &seal_of(secret, frame))
}
