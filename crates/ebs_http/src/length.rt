// How long the body of a message is (RFC 9112, section 6).
ghost use Rattle.std.specs.Prelude.{◌≡◌, ◌≤◌, length, IsTrue};
ghost use Rattle.std.specs.Char.{is_ascii_digit};
ghost use Rattle.std.specs.List.{list_all};
ghost use Rattle.std.specs.Str.Parse.{digits_value};
ghost use Rattle.ebs_http.specs.Messages.{decimal_value, all_agree, body_length};

use crate::headers::{Header, Headers};

/// The number that at most 10 decimal digits write.
fn digits_value(text: &[u8]) -> u64
    requires short { length text.now ≤ 10 }
    requires digits { IsTrue (list_all is_ascii_digit text.now) }
    ensures { result ≡ digits_value 10 text.now }
{
    let mut value: u64 = 0;
    for byte in text {
        value = value * 10 + u64::from(*byte - b'0');
    }
    value
}

fn is_digits(text: &[u8]) -> bool
    ensures { result ≡ list_all is_ascii_digit text.now }
{
    text.iter().all(|byte| byte.is_ascii_digit())
}

/// The number that 1 to 10 decimal digits write.
fn decimal(text: &[u8]) -> Option<u64>
    ensures { result ≡ decimal_value text.now }
{
    if !text.is_empty() && text.len() <= 10 && is_digits(text) {
        Some(digits_value(text))
    } else {
        None
    }
}

/// Whether every field of this name has this value.
fn all_agree(name: &str, value: &[u8], fields: &[Header]) -> bool
    ensures { result ≡ all_agree name.now value.now fields.now }
{
    fields.iter().all(|field| !field.is_named(name) || field.value.as_slice() == value)
}

/// The length of the body, or None where the fields give no single length.
pub fn body_length(headers: &Headers) -> Option<u64>
    ensures { result ≡ body_length headers.now }
{
    if headers.contains("transfer-encoding") {
        return None;
    }
    match headers.find("content-length") {
        None => Some(0),
        Some(field) => {
            let value = field.value.as_slice();
            if all_agree("content-length", value, headers.as_slice()) {
                decimal(value)
            } else {
                None
            }
        }
    }
}
