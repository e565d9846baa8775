// Accounts with their client tokens.
ghost use Rattle.std.specs.Prelude.{◌≡◌, ℕ, true, List, map as list_map, flat_map, Some, IfOk, IsSome};
ghost use Rattle.std.specs.List.{AllByRecursion, list_all};
ghost use Rattle.std.specs.FinMap as map;
ghost use Rattle.ebs_model.specs.declared.rules.Rule.{Rule};
ghost use Rattle.ebs_checkpoints.specs.declared.owned.AccountRow.{AccountRow};
ghost use Rattle.ebs_row_rules.specs.Order.{has_ordered_accounts};
ghost use Rattle.ebs_row_rules.specs.Owners.{listed};
ghost use Rattle.ebs_catalog.specs.Held.{rows_in};
ghost use Rattle.ebs_recovery.specs.Bases.{token_entry};
ghost use Rattle.ebs_lawful_points.specs.PointLaws.{has_own_calls};
ghost use Rattle.ebs_point_rules.specs.Listed.{book_in, own_in};
ghost use Rattle.ebs_point_rules.specs.Values.{HasAccountValues};
ghost use Rattle.ebs_pointed.specs.Accounts.{AreBegun, first_key};
ghost use Rattle.ebs_pointed.specs.Rules.{AreRulesOf};

use crate::gathering::{add_books, add_owns, add_tokens};
use ebs_catalog::Catalog;
use ebs_checkpoints::{AccountRow, AccountRows};
use ebs_tables::Stamped;
use std::alloc::{AllocError, Global};

/// Each account that has made something or used a client token, in ascending number, with its tokens.
pub fn accounts_of(alloc: Global, catalog: &Catalog) -> Result<AccountRows, AllocError>
    requires { AreBegun (rows_in catalog.now) }
    ensures order { IfOk result (λ rows. has_ordered_accounts rows ≡ true) }
    ensures own { IfOk result (λ rows. (account : ℕ) → own_in (listed rows account) ≡ map.get (rows_in catalog.now).own account) }
    ensures books { IfOk result (λ rows. (rules : List Rule) → AreRulesOf (rows_in catalog.now).books rules → (account : ℕ) → book_in rules (listed rows account) ≡ map.get (rows_in catalog.now).books account) }
    ensures tokens { IfOk result (λ rows. map.entries (rows_in catalog.now).tokens ≡ flat_map (λ (a : AccountRow). list_map (token_entry a.account) a.tokens) rows) }
    ensures calls { IfOk result (λ rows. list_all has_own_calls rows ≡ true) }
    ensures values { IfOk result (λ rows. AllByRecursion HasAccountValues rows) }
{
    let mut found = Stamped::new(alloc);
    add_owns(alloc, &mut found, catalog)?;
    add_books(alloc, &mut found, catalog)?;
    add_tokens(alloc, &mut found, catalog)?;
    let rows = in_order(alloc, found)?;
    Ok(rows)
}

fn in_order(alloc: Global, found: Stamped<AccountRow>) -> Result<AccountRows, AllocError>
    ensures { IfOk result (λ rows. rows ≡ map.values found) }
{
    let mut left = found;
    let mut rows = AccountRows::new(alloc);
    while let Some(number) = first_of(&left) {
        let row = take(&mut left, number);
        rows.push(row)?;
    }
    Ok(rows)
}

fn first_of(found: &Stamped<AccountRow>) -> Option<u64>
    ensures { result ≡ first_key (map.entries found.now) }
{
    match found.from(0).next() {
        Some((number, _)) => Some(*number),
        None => None,
    }
}

fn take(found: &mut Stamped<AccountRow>, number: u64) -> AccountRow
    requires { IsSome (map.get found.old number) }
    ensures row { map.get found.old number ≡ Some result }
    ensures rest { found.new ≡ map.remove found.old number }
{
    match found.remove(number) {
        Some(row) => row,
        None => unreachable!(),
    }
}
