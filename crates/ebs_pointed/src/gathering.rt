// What is had of each account, gathered by its number.
ghost use Rattle.std.specs.Prelude.{◌≡◌, ℕ, map as list_map, OnOk, Some, IsSome};
ghost use Rattle.std.specs.FinMap as map;
ghost use Rattle.ebs_model.specs.declared.keys.TokenKey.{TokenKey};
ghost use Rattle.ebs_model.specs.declared.rows.TokenRow.{TokenRow};
ghost use Rattle.ebs_catalog.specs.Held.{rows_in};
ghost use Rattle.ebs_point_rules.specs.Values.{HasAccountValues};
ghost use Rattle.ebs_pointed.specs.Accounts.{HaveValues, IsFirst, changed, no_row, of_number, of_token, row_at, with_next, with_own, with_token};

use crate::tokens::token_of;
use ebs_catalog::Catalog;
use ebs_checkpoints::{AccountRow, TokenPoints};
use ebs_model::Account;
use ebs_tables::Stamped;
use std::alloc::{AllocError, Global};

/// What accounts have made.
pub(crate) fn add_owns(
    alloc: Global,
    found: &mut Stamped<AccountRow>,
    catalog: &Catalog,
) -> Result<(), AllocError>
    ensures rows { OnOk result (found.new ≡ changed of_number with_own found.old (map.entries (rows_in catalog.now).own)) }
    ensures values { OnOk result (HaveValues found.old → HaveValues found.new) }
{
    for (account, made) in catalog.accounts() {
        let mut row = take(alloc, found, *account);
        row.next_snap = made.own.next_snap;
        row.next_vol = made.own.next_vol;
        row.next_policy = made.own.next_policy;
        found.insert(account.number(), row)?;
    }
    Ok(())
}

/// The numbers of their next rules.
pub(crate) fn add_books(
    alloc: Global,
    found: &mut Stamped<AccountRow>,
    catalog: &Catalog,
) -> Result<(), AllocError>
    ensures rows { OnOk result (found.new ≡ changed of_number with_next found.old (map.entries (rows_in catalog.now).books)) }
    ensures values { OnOk result (HaveValues found.old → HaveValues found.new) }
{
    for (account, rules) in catalog.rules() {
        let mut row = take(alloc, found, *account);
        row.next_rule = rules.next_number();
        found.insert(account.number(), row)?;
    }
    Ok(())
}

/// Their client tokens.
pub(crate) fn add_tokens(
    alloc: Global,
    found: &mut Stamped<AccountRow>,
    catalog: &Catalog,
) -> Result<(), AllocError>
    requires { (key : TokenKey) (row : TokenRow) → map.get (rows_in catalog.now).tokens key ≡ Some row → IsFirst row.first }
    ensures rows { OnOk result (found.new ≡ changed of_token with_token found.old (map.entries (rows_in catalog.now).tokens)) }
    ensures values { OnOk result (HaveValues found.old → HaveValues found.new) }
{
    for (key, used) in catalog.tokens() {
        let mut row = take(alloc, found, key.account);
        let token = token_of(alloc, key, used)?;
        row.tokens.push(token)?;
        found.insert(key.account.number(), row)?;
    }
    Ok(())
}

// The account's row, which is taken out.
fn take(alloc: Global, found: &mut Stamped<AccountRow>, account: Account) -> AccountRow
    ensures row { result ≡ row_at found.old account }
    ensures rest { found.new ≡ map.remove found.old account }
    ensures values { HaveValues found.old → HasAccountValues result }
{
    match found.remove(account.number()) {
        Some(row) => row,
        None => no_row(alloc, account),
    }
}

fn no_row(alloc: Global, account: Account) -> AccountRow
    ensures row { result ≡ no_row account }
    ensures values { HasAccountValues result }
{
    let _number = account.number();
    AccountRow {
        account,
        next_snap: 0,
        next_vol: 0,
        next_rule: 0,
        next_policy: 0,
        tokens: TokenPoints::new(alloc),
    }
}
