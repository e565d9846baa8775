// What a row has, once more.
ghost use Rattle.std.specs.Prelude.{◌≡◌, IfOk};

use ebs_bin::copy_rule_tags;
use ebs_model::{Account, Accounts, Policy, Rule, Text, VolRow, copy_tags};
use ebs_tables::Sequence;
use std::alloc::{AllocError, Global};

/// The same text once more, where there is one.
pub(crate) fn copy_text(text: &Option<Text>) -> Result<Option<Text>, AllocError>
    ensures { IfOk result (λ copy. copy ≡ text.now) }
{
    match text {
        None => Ok(None),
        Some(text) => {
            let copy = text.copy()?;
            Ok(Some(copy))
        }
    }
}

/// The same accounts once more.
pub(crate) fn copy_accounts(alloc: Global, accounts: &Accounts) -> Result<Accounts, AllocError>
    ensures { IfOk result (λ copy. copy ≡ accounts.now) }
{
    let mut copies = Vec::new(alloc);
    for account in accounts.as_slice() {
        copies.push(*account)?;
    }
    Ok(Sequence::from_vec(copies))
}

/// The same volume's row once more.
pub(crate) fn copy_volume(alloc: Global, row: &VolRow) -> Result<VolRow, AllocError>
    ensures { IfOk result (λ copy. copy ≡ row.now) }
{
    let tags = copy_tags(alloc, &row.tags)?;
    Ok(VolRow {
        key: row.key,
        size: row.size,
        line: row.line,
        origin: row.origin,
        tags,
    })
}

/// The same policy once more.
pub(crate) fn copy_policy(alloc: Global, policy: &Policy) -> Result<Policy, AllocError>
    ensures { IfOk result (λ copy. copy ≡ policy.now) }
{
    let targets = copy_tags(alloc, &policy.targets)?;
    let add = copy_tags(alloc, &policy.add)?;
    Ok(Policy {
        key: policy.key,
        targets,
        hours: policy.hours,
        at: policy.at,
        retain: policy.retain,
        add,
        last: policy.last,
    })
}

/// The same rule once more.
pub(crate) fn copy_rule(alloc: Global, rule: &Rule) -> Result<Rule, AllocError>
    ensures { IfOk result (λ copy. copy ≡ rule.now) }
{
    let tags = copy_rule_tags(alloc, &rule.tags)?;
    let description = copy_text(&rule.description)?;
    Ok(Rule {
        key: rule.key,
        days: rule.days,
        tags,
        description,
        lock: rule.lock,
    })
}
