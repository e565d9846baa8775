// Starts and creations whose client token was used before.
ghost use Rattle.std.specs.Prelude.{◌≡◌};
ghost use Rattle.std.specs.Option.{option_copied};
ghost use Rattle.std.specs.Map.{lookup};
ghost use Rattle.ebs_catalog.specs.Tokens.{is_token};
ghost use Rattle.ebs_model.specs.Calls.Start as starts;
ghost use Rattle.std.specs.Cmp.Lexicographic.{pointwise};
ghost use Rattle.ebs_model.specs.inner.Follows.{Agrees};
ghost use Rattle.ebs_catalog.specs.Wants.{OnMemory, IsSettled};

use crate::catalog::Catalog;
use crate::copies::token_key;
use crate::decides::started;
use ebs_model::{
    Account, Decision, Failure, FirstKey, Moment, Refusal, Request, SnapKey, Tag, Tags, Text,
    TokenKey, TokenRow, VolKey,
};
use ebs_tables::Filled;
use std::alloc::Global;

impl Catalog {
    ghost use Rattle.std.specs.Prelude.{◌≡◌, ◌≤◌};
    ghost use Rattle.std.specs.Option.{option_copied};
    ghost use Rattle.ebs_model.specs.inner.Rows.{aged};
    ghost use Rattle.ebs_model.specs.Rows.{first_use};
    ghost use Rattle.ebs_model.specs.Calls.Start.{decide_start};
    ghost use Rattle.ebs_catalog.specs.Held.{rows_in};
    ghost use Rattle.ebs_catalog.specs.Wants.{OnMemory, IsSettled};

    /// Whether the start is accepted. Where its client token was used before, that decides.
    pub(crate) fn decide_start(
        &self,
        account: Account,
        at: Moment,
        size: u64,
        parent: &Option<SnapKey>,
        description: &Option<Text>,
        tags: &Tags,
        token: &Option<Text>,
        timeout: u32,
    ) -> Result<Decision, Failure>
        requires { self.now.latest ≤ at.second }
        ensures decided { Agrees result (decide_start (aged at.second (rows_in self.now)) at account size parent.now description.now tags.now token.now timeout) }
        ensures memory { OnMemory result (IsSettled (decide_start (aged at.second (rows_in self.now)) at account size parent.now description.now tags.now token.now timeout)) }
    {
        match self.first_use(account, token) {
            Some(row) => repeat_start(
                self.alloc(),
                account,
                size,
                parent,
                description,
                tags,
                timeout,
                row,
            ),
            None => self.fresh_start(account, at, size, parent, description, tags, token, timeout),
        }
    }

    /// What an earlier call used the account's client token for. Without memory for a key of its own the token is
    /// compared with each of the account's.
    pub fn first_use(&self, account: Account, token: &Option<Text>) -> Option<&TokenRow>
        ensures { option_copied result ≡ first_use (rows_in self.now) account token.now }
    {
        let Some(text) = token else {
            return None;
        };
        match token_key(account, text) {
            Ok(key) => self.use_of(&key),
            Err(_) => row_of(self.tokens_from(account), account, text),
        }
    }
}

/// The row of the account's client token with this text.
fn row_of<'a>(
    rows: Filled<'a, TokenKey, TokenRow>,
    account: Account,
    text: &Text,
) -> Option<&'a TokenRow>
    ensures { option_copied result ≡ lookup (is_token account text.now) rows.entry }
{
    for (key, row) in rows {
        if account == key.account && *text == key.text {
            return Some(row);
        }
    }
    None
}

/// The answer of the first call to the same call, and a conflict to another one.
fn repeat_start(
    alloc: Global,
    account: Account,
    size: u64,
    parent: &Option<SnapKey>,
    description: &Option<Text>,
    tags: &Tags,
    timeout: u32,
    row: &TokenRow,
) -> Result<Decision, Failure>
    ensures decided { Agrees result (starts.repeat_start account size parent.now description.now tags.now timeout row.now) }
    ensures memory { OnMemory result (IsSettled (starts.repeat_start account size parent.now description.now tags.now timeout row.now)) }
{
    if !is_same_start(&row.first, size, parent, description, tags, timeout) {
        let key = first_key(account, row);
        return Err(Failure::Refused(Refusal::TokenConflict(key)));
    }
    let key = SnapKey {
        account,
        number: row.number,
    };
    let answer = started(
        alloc,
        account,
        row.at,
        &key,
        size,
        parent,
        description,
        tags,
    )?;
    Ok(Decision::Kept(answer))
}

/// What the first call with the account's client token made.
pub(crate) fn first_key(account: Account, row: &TokenRow) -> FirstKey
    ensures { result ≡ starts.first_key account row.now }
{
    let number = row.number;
    match row.first {
        Request::CreateVolume { .. } => FirstKey::Vol(VolKey { account, number }),
        _ => FirstKey::Snap(SnapKey { account, number }),
    }
}

fn is_same_start(
    first: &Request,
    size: u64,
    parent: &Option<SnapKey>,
    description: &Option<Text>,
    tags: &Tags,
    timeout: u32,
) -> bool
    ensures { result ≡ starts.is_same_start first.now size parent.now description.now tags.now timeout }
{
    match first {
        Request::StartSnapshot {
            size: first_size,
            parent: first_parent,
            description: first_description,
            tags: first_tags,
            client_token: _client_token,
            timeout: first_timeout,
        } => {
            *first_size == size
                && is_same_parent(first_parent, parent)
                && is_same_text(first_description, description)
                && are_same_tags(first_tags.as_slice(), tags.as_slice())
                && *first_timeout == timeout
        }
        _ => false,
    }
}

pub(crate) fn is_same_parent(first: &Option<SnapKey>, second: &Option<SnapKey>) -> bool
    ensures { result ≡ starts.is_same_parent first.now second.now }
{
    match (first, second) {
        (None, None) => true,
        (Some(first), Some(second)) => first == second,
        _ => false,
    }
}

fn is_same_text(first: &Option<Text>, second: &Option<Text>) -> bool
    ensures { result ≡ starts.is_same_text first.now second.now }
{
    match (first, second) {
        (None, None) => true,
        (Some(first), Some(second)) => first == second,
        _ => false,
    }
}

pub(crate) fn are_same_tags(first: &[Tag], second: &[Tag]) -> bool
    ensures { result ≡ pointwise starts.is_same_tag first.now second.now }
{
    first == second
}
