// The values that words give.
ghost use Rattle.std.specs.Prelude.{◌≡◌, ◌↔◌, ◌<◌, ℕ, List, Some, true, get_or};
ghost use Rattle.std.specs.List.{list_all};
ghost use Rattle.ebs_words.specs.Spellings.{IsNumber, IsSecret, is_lower_digit};

use hex::FromHex;

/// The secret that a text spells.
pub fn read_secret(text: &str) -> Option<[u8; 32]>
    ensures { (secret : List ℕ) → (result ≡ Some secret) ↔ IsSecret text.now secret }
{
    if !are_lower_digits(text.as_bytes()) {
        return None;
    }
    <[u8; 32] as FromHex>::from_hex(text).ok()
}

fn are_lower_digits(text: &[u8]) -> bool
    ensures { result ≡ list_all is_lower_digit text.now }
{
    text.iter()
        .all(|byte| matches!(*byte, b'0'..=b'9' | b'a'..=b'f'))
}

/// The number from 1 to `most` that a text spells.
pub fn read_number(text: &str, most: u16) -> Option<u16>
    ensures { (n : ℕ) → (result ≡ Some n) ↔ IsNumber most text.now n }
{
    if !begins_above_zero(text.as_bytes()) {
        return None;
    }
    match text.parse::<u16>() {
        Ok(number) if number <= most => Some(number),
        _ => None,
    }
}

// Neither a sign nor a zero stands first.
fn begins_above_zero(text: &[u8]) -> bool
    ensures { (result ≡ true) ↔ (48 < get_or text.now 0 0) }
{
    match text.first() {
        Some(byte) => *byte > b'0',
        None => false,
    }
}
