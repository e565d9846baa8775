// Whose rows are.
ghost use Rattle.std.specs.Prelude.{ℕ, ◌≡◌, true};
ghost use Rattle.std.specs.List.{list_all};
ghost use Rattle.std.specs.Option.{option_copied};
ghost use Rattle.ebs_row_rules.specs.Order as order;
ghost use Rattle.ebs_row_rules.specs.Owners as owners;

use ebs_checkpoints::{AccountRow, Checkpoint, SnapPoint, TokenPoint, VolPoint};
use ebs_model::{Account, KeyNumber, Policy, PolicyKey, Request, Rule, Text, VolKey};
use ebs_records::Record;

/// The account's row, where it is listed.
fn listed(accounts: &[AccountRow], account: Account) -> Option<&AccountRow>
    requires { order.has_ordered_accounts accounts.now ≡ true }
    ensures { option_copied result ≡ owners.listed accounts.now account }
{
    match accounts.binary_search_by(|row| row.account.cmp(&account)) {
        Ok(place) => Some(&accounts[place]),
        Err(_) => None,
    }
}

fn is_owned_snapshot(accounts: &[AccountRow], row: &SnapPoint) -> bool
    requires { order.has_ordered_accounts accounts.now ≡ true }
    ensures { result ≡ owners.is_owned_snapshot accounts.now row.now }
{
    let account = row.key.account;
    let made = match listed(accounts, account) {
        Some(owner) => row.key.number.number() < owner.next_snap,
        None => false,
    };
    made && is_volume_of(account, &row.volume) && is_policy_of(account, &row.policy)
}

fn is_volume_of(account: Account, volume: &Option<VolKey>) -> bool
    ensures { result ≡ owners.is_volume_of account volume.now }
{
    match volume {
        Some(key) => key.account == account,
        None => true,
    }
}

fn is_policy_of(account: Account, policy: &Option<PolicyKey>) -> bool
    ensures { result ≡ owners.is_policy_of account policy.now }
{
    match policy {
        Some(key) => key.account == account,
        None => true,
    }
}

fn is_owned_volume(accounts: &[AccountRow], point: &VolPoint) -> bool
    requires { order.has_ordered_accounts accounts.now ≡ true }
    ensures { result ≡ owners.is_owned_volume accounts.now point.now }
{
    match listed(accounts, point.row.key.account) {
        Some(owner) => point.row.key.number.number() < owner.next_vol,
        None => false,
    }
}

fn is_owned_rule(accounts: &[AccountRow], rule: &Rule) -> bool
    requires { order.has_ordered_accounts accounts.now ≡ true }
    ensures { result ≡ owners.is_owned_rule accounts.now rule.now }
{
    match listed(accounts, rule.key.account) {
        Some(owner) => rule.key.number.number() < owner.next_rule,
        None => false,
    }
}

fn is_owned_policy(accounts: &[AccountRow], policy: &Policy) -> bool
    requires { order.has_ordered_accounts accounts.now ≡ true }
    ensures { result ≡ owners.is_owned_policy accounts.now policy.now }
{
    match listed(accounts, policy.key.account) {
        Some(owner) => policy.key.number.number() < owner.next_policy,
        None => false,
    }
}

fn has_text(client_token: &Option<Text>, text: &Text) -> bool
    ensures { result ≡ owners.has_text client_token.now text.now }
{
    match client_token {
        Some(token) => *token == *text,
        None => false,
    }
}

/// Whether the call gave the token and made a number of the account.
fn is_use(account: &AccountRow, token: &TokenPoint, request: &Request) -> bool
    ensures { result ≡ owners.is_use account.now token.now request.now }
{
    match request {
        Request::StartSnapshot {
            size: _,
            parent: _,
            description: _,
            tags: _,
            client_token,
            timeout: _,
        } => has_text(client_token, &token.text) && token.number.number() < account.next_snap,
        Request::CreateVolume {
            origin: _,
            size,
            tags: _,
            client_token,
        } => {
            size.is_some()
                && has_text(client_token, &token.text)
                && token.number.number() < account.next_vol
        }
        _ => false,
    }
}

fn is_first_use(account: &AccountRow, token: &TokenPoint, first: &Record) -> bool
    ensures { result ≡ owners.is_first_use account.now token.now first.now }
{
    match first {
        Record::Accepted(call) => {
            call.at.second == token.at.second
                && call.account == account.account
                && is_use(account, token, &call.request)
        }
        Record::Advance(_) => false,
        Record::Moved(_) => false,
    }
}

fn has_used_tokens(account: &AccountRow) -> bool
    ensures { result ≡ owners.has_used_tokens account.now }
{
    let tokens = account.tokens.as_slice();
    tokens
        .iter()
        .all(|token| is_first_use(account, token, &token.first))
}

fn are_owned_snapshots(accounts: &[AccountRow], rows: &[SnapPoint]) -> bool
    requires { order.has_ordered_accounts accounts.now ≡ true }
    ensures { result ≡ list_all (owners.is_owned_snapshot accounts.now) rows.now }
{
    rows.iter().all(|row| is_owned_snapshot(accounts, row))
}

fn are_owned_volumes(accounts: &[AccountRow], points: &[VolPoint]) -> bool
    requires { order.has_ordered_accounts accounts.now ≡ true }
    ensures { result ≡ list_all (owners.is_owned_volume accounts.now) points.now }
{
    points.iter().all(|point| is_owned_volume(accounts, point))
}

fn are_owned_rules(accounts: &[AccountRow], rules: &[Rule]) -> bool
    requires { order.has_ordered_accounts accounts.now ≡ true }
    ensures { result ≡ list_all (owners.is_owned_rule accounts.now) rules.now }
{
    rules.iter().all(|rule| is_owned_rule(accounts, rule))
}

fn are_owned_policies(accounts: &[AccountRow], policies: &[Policy]) -> bool
    requires { order.has_ordered_accounts accounts.now ≡ true }
    ensures { result ≡ list_all (owners.is_owned_policy accounts.now) policies.now }
{
    policies
        .iter()
        .all(|policy| is_owned_policy(accounts, policy))
}

fn have_used_tokens(accounts: &[AccountRow]) -> bool
    ensures { result ≡ list_all owners.has_used_tokens accounts.now }
{
    accounts.iter().all(|account| has_used_tokens(account))
}

/// Whether every row and every client token is one that its account has made.
pub fn is_owned(point: &Checkpoint) -> bool
    requires { order.is_ordered point.now ≡ true }
    ensures { result ≡ owners.is_owned point.now }
{
    let accounts = point.accounts.as_slice();
    are_owned_snapshots(accounts, point.snapshots.as_slice())
        && are_owned_volumes(accounts, point.volumes.as_slice())
        && are_owned_rules(accounts, point.rules.as_slice())
        && are_owned_policies(accounts, point.policies.as_slice())
        && have_used_tokens(accounts)
}
