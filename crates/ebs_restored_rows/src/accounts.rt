// Accounts with their client tokens.
ghost use Rattle.std.specs.Prelude.{◌≡◌, OnOk};
ghost use Rattle.std.specs.List.{All};
ghost use Rattle.ebs_recovery.specs.Bases as bases;
ghost use Rattle.ebs_catalog.specs.Held.{rows_in};
ghost use Rattle.ebs_restored_rows.specs.Placed as placed;
ghost use Rattle.ebs_restored_rows.specs.Placed.{put_all, with_account, with_own, with_token};
ghost use Rattle.ebs_restored_rows.specs.Restores.{MayRestoreAccount, MayRestoreTokens};

use ebs_catalog::Catalog;
use ebs_checkpoints::{AccountRow, AccountRows, TokenPoint, TokenPoints};
use ebs_model::{Account, Own, Request, TokenKey, TokenRow};
use ebs_records::Record;
use std::alloc::AllocError;

/// Puts all accounts back, with their client tokens.
pub(crate) fn restore_accounts(
    catalog: &mut Catalog,
    accounts: AccountRows,
) -> Result<(), AllocError>
    requires { All MayRestoreAccount accounts }
    ensures rows { OnOk result (rows_in catalog.new ≡ put_all with_account (rows_in catalog.old) accounts) }
    ensures latest { catalog.new.latest ≡ catalog.old.latest }
{
    let mut rows = accounts.into_vec();
    'account: while let Some(account) = rows.pop() {
        restore_account(catalog, account)?;
    }
    Ok(())
}

fn restore_account(catalog: &mut Catalog, row: AccountRow) -> Result<(), AllocError>
    requires { MayRestoreAccount row }
    ensures rows { OnOk result (rows_in catalog.new ≡ with_account (rows_in catalog.old) row) }
    ensures latest { catalog.new.latest ≡ catalog.old.latest }
{
    let AccountRow {
        account,
        next_snap,
        next_vol,
        next_rule: _,
        next_policy,
        tokens,
    } = row;
    let own = Own {
        next_snap,
        next_vol,
        next_policy,
    };
    restore_own(catalog, account, own)?;
    restore_tokens(catalog, account, tokens)?;
    Ok(())
}

fn restore_own(catalog: &mut Catalog, account: Account, own: Own) -> Result<(), AllocError>
    ensures rows { OnOk result (rows_in catalog.new ≡ with_own (rows_in catalog.old) account own) }
    ensures latest { catalog.new.latest ≡ catalog.old.latest }
{
    if is_begun(&own) {
        catalog.restore_account(account, own)?;
    }
    Ok(())
}

fn is_begun(own: &Own) -> bool
    ensures { result ≡ placed.is_begun own.now }
{
    own.next_snap > 0 || own.next_vol > 0 || own.next_policy > 0
}

fn restore_tokens(
    catalog: &mut Catalog,
    account: Account,
    tokens: TokenPoints,
) -> Result<(), AllocError>
    requires { MayRestoreTokens (rows_in catalog.old).own account tokens }
    ensures rows { OnOk result (rows_in catalog.new ≡ put_all (with_token account) (rows_in catalog.old) tokens) }
    ensures latest { catalog.new.latest ≡ catalog.old.latest }
{
    let mut rows = tokens.into_vec();
    'token: while let Some(token) = rows.pop() {
        let (key, row) = token_entry(account, token);
        catalog.restore_token(key, row)?;
    }
    Ok(())
}

// The token with what it was used for.
fn token_entry(account: Account, token: TokenPoint) -> (TokenKey, TokenRow)
    ensures { result ≡ bases.token_entry account token }
{
    let TokenPoint {
        text,
        at,
        first,
        number,
    } = token;
    let key = TokenKey { account, text };
    let first = first_of(first);
    (key, TokenRow { at, first, number })
}

// The call that was accepted.
fn first_of(first: Record) -> Request
    ensures { result ≡ bases.first_of first }
{
    match first {
        Record::Accepted(call) => call.request,
        Record::Advance(_) => Request::ListRules,
        Record::Moved(_) => Request::ListRules,
    }
}
