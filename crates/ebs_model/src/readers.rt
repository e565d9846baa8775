// Reading ids and accounts.
ghost use Rattle.std.specs.Prelude.{◌≡◌, ℕ, ◌<◌, ◌≤◌, ◌^◌, length, take, IfSome, IsTrue};
ghost use Rattle.std.specs.Char.{is_ascii_digit, digit_value};
ghost use Rattle.std.specs.List.{list_all};
ghost use Rattle.std.specs.Str.Parse.{digits_value};
ghost use Rattle.ebs_model.specs.Ids.{decimal_of_width, snap_id, vol_id, rule_id, policy_id};
ghost use Rattle.ebs_model.specs.Readers.{is_hex_digit, key_within, key_of, snap_of, vol_of, rule_of, policy_of, account_of, number_of};
ghost use Rattle.ebs_model.specs.declared.keys.SnapKey.{SnapKey};
ghost use Rattle.ebs_model.specs.declared.keys.VolKey.{VolKey};
ghost use Rattle.ebs_model.specs.declared.keys.RuleKey.{RuleKey};
ghost use Rattle.ebs_model.specs.declared.keys.PolicyKey.{PolicyKey};

use crate::keys::{Account, KeyNumber, PolicyKey, RuleKey, SnapKey, VolKey};

const ACCOUNTS: u64 = 1_000_000_000_000;

/// The key of the snapshot whose id this is, or None where no key has this id.
pub fn read_snap(text: &[u8]) -> Option<SnapKey>
    ensures value { result ≡ snap_of text.now }
    ensures spelled { IfSome result (λ key. snap_id key ≡ text.now) }
    ensures below { IfSome result (λ key. key.number < 2 ^ 28) }
    ensures whole { (key : SnapKey) → key.account < 10 ^ 12 → key.number < 2 ^ 28 → snap_id key ≡ text.now → result ≡ Some key }
{
    snap_of(text)
}

/// The key of the volume whose id this is, or None where no key has this id.
pub fn read_vol(text: &[u8]) -> Option<VolKey>
    ensures value { result ≡ vol_of text.now }
    ensures spelled { IfSome result (λ key. vol_id key ≡ text.now) }
    ensures below { IfSome result (λ key. key.number < 2 ^ 28) }
    ensures whole { (key : VolKey) → key.account < 10 ^ 12 → key.number < 2 ^ 28 → vol_id key ≡ text.now → result ≡ Some key }
{
    vol_of(text)
}

/// The key of the rule whose id this is, or None where no key has this id.
pub fn read_rule(text: &[u8]) -> Option<RuleKey>
    ensures value { result ≡ rule_of text.now }
    ensures spelled { IfSome result (λ key. rule_id key ≡ text.now) }
    ensures below { IfSome result (λ key. key.number < 2 ^ 28) }
    ensures whole { (key : RuleKey) → key.account < 10 ^ 12 → key.number < 2 ^ 28 → rule_id key ≡ text.now → result ≡ Some key }
{
    rule_of(text)
}

/// The key of the policy whose id this is, or None where no key has this id.
pub fn read_policy(text: &[u8]) -> Option<PolicyKey>
    ensures value { result ≡ policy_of text.now }
    ensures spelled { IfSome result (λ key. policy_id key ≡ text.now) }
    ensures below { IfSome result (λ key. key.number < 2 ^ 28) }
    ensures whole { (key : PolicyKey) → key.account < 10 ^ 12 → key.number < 2 ^ 28 → policy_id key ≡ text.now → result ≡ Some key }
{
    policy_of(text)
}

/// The account whose twelve decimal digits these are, or None where the text isn't twelve digits.
pub fn read_account(text: &[u8]) -> Option<Account>
    ensures value { result ≡ account_of text.now }
    ensures spelled { IfSome result (λ account. decimal_of_width 12 account ≡ text.now) }
    ensures whole { (account : ℕ) → account < 10 ^ 12 → decimal_of_width 12 account ≡ text.now → result ≡ Some account }
{
    account_of(text)
}

/// The number that 1 to 10 decimal digits write.
pub fn read_number(text: &[u8]) -> Option<u64>
    ensures value { result ≡ number_of text.now }
    ensures below { IfSome result (λ number. number < 10 ^ 10) }
{
    number_of(text)
}

fn snap_of(text: &[u8]) -> Option<SnapKey>
    ensures { result ≡ snap_of text.now }
{
    match text.strip_prefix(b"snap-") {
        Some(digits) => key_of(digits),
        None => None,
    }
}

fn vol_of(text: &[u8]) -> Option<VolKey>
    ensures { result ≡ vol_of text.now }
{
    let key = key_of(text.strip_prefix(b"vol-")?)?;
    Some(VolKey {
        account: key.account,
        number: key.number,
    })
}

fn rule_of(text: &[u8]) -> Option<RuleKey>
    ensures { result ≡ rule_of text.now }
{
    let key = key_of(text.strip_prefix(b"rule-")?)?;
    Some(RuleKey {
        account: key.account,
        number: key.number,
    })
}

fn policy_of(text: &[u8]) -> Option<PolicyKey>
    ensures { result ≡ policy_of text.now }
{
    let key = key_of(text.strip_prefix(b"policy-")?)?;
    Some(PolicyKey {
        account: key.account,
        number: key.number,
    })
}

fn account_of(text: &[u8]) -> Option<Account>
    ensures { result ≡ account_of text.now }
{
    if text.len() == 12 && are_decimal(text) {
        Some(Account::new(decimal_value(text)))
    } else {
        None
    }
}

fn number_of(text: &[u8]) -> Option<u64>
    ensures { result ≡ number_of text.now }
{
    if !text.is_empty() && text.len() <= 10 && are_decimal(text) {
        Some(decimal_value(text))
    } else {
        None
    }
}

fn are_decimal(digits: &[u8]) -> bool
    ensures { result ≡ list_all is_ascii_digit digits.now }
{
    digits.iter().all(|byte| byte.is_ascii_digit())
}

fn key_of(digits: &[u8]) -> Option<SnapKey>
    ensures { result ≡ key_of digits.now }
{
    if digits.len() == 17 && are_hex(digits) {
        let (account, number) = digits.split_at(10);
        key_within(hex_value(account), hex_value(number) as u32)
    } else {
        None
    }
}

fn key_within(account: u64, number: u32) -> Option<SnapKey>
    requires { number < 2 ^ 28 }
    ensures { result ≡ key_within account number }
{
    if account < ACCOUNTS {
        Some(SnapKey {
            account: Account::new(account),
            number: KeyNumber::new(number),
        })
    } else {
        None
    }
}

fn are_hex(digits: &[u8]) -> bool
    ensures { result ≡ list_all is_hex_digit digits.now }
{
    digits.iter().all(|byte| is_hex_digit(*byte))
}

fn is_hex_digit(byte: u8) -> bool
    ensures { result ≡ is_hex_digit byte }
{
    byte.is_ascii_digit() || (b'a'..=b'f').contains(&byte)
}

/// The number that at most ten hexadecimal digits write.
fn hex_value(digits: &[u8]) -> u64
    requires short { length digits.now ≤ 10 }
    requires hex { IsTrue (list_all is_hex_digit digits.now) }
    ensures value { result ≡ digits_value 16 digits.now }
    ensures below { result < 16 ^ length digits.now }
{
    let mut value: u64 = 0;
    for byte in digits {
        value = value * 16 + u64::from(hex_digit(*byte));
    }
    value
}

fn hex_digit(byte: u8) -> u8
    requires { IsTrue (is_hex_digit byte) }
    ensures value { result ≡ digit_value byte }
    ensures below { result < 16 }
{
    if byte <= b'9' {
        byte - b'0'
    } else {
        byte - b'a' + 10
    }
}

/// The number that at most twelve decimal digits write.
fn decimal_value(digits: &[u8]) -> u64
    requires short { length digits.now ≤ 12 }
    requires decimal { IsTrue (list_all is_ascii_digit digits.now) }
    ensures value { result ≡ digits_value 10 digits.now }
    ensures below { result < 10 ^ length digits.now }
{
    let mut value: u64 = 0;
    for byte in digits {
        value = value * 10 + u64::from(*byte - b'0');
    }
    value
}
