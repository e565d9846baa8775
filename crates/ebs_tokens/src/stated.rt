// What the bytes of a token state, whoever wrote them.
ghost use Rattle.std.specs.Prelude.{◌≡◌, ◌≢◌, ◌+◌, ◌≤◌, ◌<◌, ◌^◌, ℕ, List, length, IfSome, IfNone, ◌⊎◌, Ok};
ghost use Rattle.std.specs.Int.{w32, w64};
ghost use Rattle.hex.specs.Hex.{decode_of, encode_lower, IsBytes};
ghost use Rattle.ebs_model.specs.Tokens.{number_at};
ghost use Rattle.ebs_tokens.specs.Fields.{IsKey};

use ebs_model::{Account, KeyNumber, SnapKey};
use hex::FromHex;

/// The bytes whose digits the text has, in either case.
pub fn bytes_of<const N: usize>(text: &[u8]) -> Option<[u8; N]>
    ensures some { IfSome result (λ bytes. decode_of text.now ≡ Ok bytes) }
    ensures none { IfNone result ((bytes : List ℕ) → IsBytes bytes → length bytes ≡ N → text.now ≢ encode_lower bytes) }
{
    <[u8; N] as FromHex>::from_hex(text).ok()
}

#[tactic(auto, unfolding(ebs_model::specs::Tokens::number_at))]
pub fn u32_at(bytes: &[u8], place: usize) -> u32
    requires { place + 4 ≤ length bytes.now }
    ensures { result ≡ number_at w32 place 4 bytes.now }
{
    let mut room = [0u8; 4];
    room.copy_from_slice(&bytes[place..place + 4]);
    u32::from_be_bytes(room)
}

#[tactic(auto, unfolding(ebs_model::specs::Tokens::number_at))]
pub fn u64_at(bytes: &[u8], place: usize) -> u64
    requires { place + 8 ≤ length bytes.now }
    ensures { result ≡ number_at w64 place 8 bytes.now }
{
    let mut room = [0u8; 8];
    room.copy_from_slice(&bytes[place..place + 8]);
    u64::from_be_bytes(room)
}

/// The key at a place, where its numbers are a key's.
pub fn key_at(bytes: &[u8], place: usize) -> Option<SnapKey>
    requires { place + 12 ≤ length bytes.now }
    ensures some { IfSome result (λ key. IsKey key
        × (key.account ≡ number_at w64 place 8 bytes.now)
        × (key.number ≡ number_at w32 (place + 8) 4 bytes.now)) }
    ensures none { IfNone result (
        (10 ^ 12 ≤ number_at w64 place 8 bytes.now)
        ⊎ (2 ^ 28 ≤ number_at w32 (place + 8) 4 bytes.now)) }
{
    let number = u64_at(bytes, place);
    let own = u32_at(bytes, place + 8);
    if number >= 1_000_000_000_000 || own >= 1 << 28 {
        return None;
    }
    Some(SnapKey {
        account: Account::new(number),
        number: KeyNumber::new(own),
    })
}
