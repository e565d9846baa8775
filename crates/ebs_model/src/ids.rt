// The texts of ids.
ghost use Rattle.std.specs.Prelude.{◌≡◌, IfOk};
ghost use Rattle.ebs_model.specs.Ids.{decimal_of_width, snap_id, vol_id, rule_id, policy_id};

use crate::keys::{Account, PolicyKey, RuleKey, SnapKey, VolKey};
use crate::text::Text;
use std::alloc::{AllocError, Global};

/// The id of a snapshot: `snap-`, ten hexadecimal digits of the account and seven of the number.
pub fn snap_text(alloc: Global, key: SnapKey) -> Result<Text, AllocError>
    ensures { IfOk result (λ text. text ≡ snap_id key) }
{
    let account = key.account.number();
    let serial = key.number.number();
    Ok(Text::from_string(format!(in alloc; "snap-{account:010x}{serial:07x}")?))
}

/// The id of a volume: `vol-`, ten hexadecimal digits of the account and seven of the number.
pub fn vol_text(alloc: Global, key: VolKey) -> Result<Text, AllocError>
    ensures { IfOk result (λ text. text ≡ vol_id key) }
{
    let account = key.account.number();
    let serial = key.number.number();
    Ok(Text::from_string(format!(in alloc; "vol-{account:010x}{serial:07x}")?))
}

/// The id of a rule: `rule-`, ten hexadecimal digits of the account and seven of the number.
pub fn rule_text(alloc: Global, key: RuleKey) -> Result<Text, AllocError>
    ensures { IfOk result (λ text. text ≡ rule_id key) }
{
    let account = key.account.number();
    let serial = key.number.number();
    Ok(Text::from_string(format!(in alloc; "rule-{account:010x}{serial:07x}")?))
}

/// The id of a policy: `policy-`, ten hexadecimal digits of the account and seven of the number.
pub fn policy_text(alloc: Global, key: PolicyKey) -> Result<Text, AllocError>
    ensures { IfOk result (λ text. text ≡ policy_id key) }
{
    let account = key.account.number();
    let serial = key.number.number();
    Ok(Text::from_string(format!(in alloc; "policy-{account:010x}{serial:07x}")?))
}

/// The account's twelve decimal digits.
pub fn account_text(alloc: Global, account: Account) -> Result<Text, AllocError>
    ensures { IfOk result (λ text. text ≡ decimal_of_width 12 account) }
{
    let number = account.number();
    Ok(Text::from_string(format!(in alloc; "{number:012}")?))
}
