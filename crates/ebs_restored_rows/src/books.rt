// The rules of each account. They are put on a shelf for each account first, and a shelf goes into the catalog as a whole.
ghost use Rattle.std.specs.Prelude.{◌≡◌, ◌≤◌, ◌^◌, true, IfOk, OnOk};
ghost use Rattle.std.specs.List.{All, list_all};
ghost use Rattle.std.specs.Ordering.{nat_cmp};
ghost use Rattle.std.specs.FinMap as map;
ghost use Rattle.ebs_tables.specs.Seen.{seen};
ghost use Rattle.ebs_model.specs.declared.rules.RuleChange.TheVariants.{Put};
ghost use Rattle.ebs_model.specs.RuleCommands.{committed};
ghost use Rattle.ebs_bin.specs.Books.{book};
ghost use Rattle.ebs_row_rules.specs.Limits.{is_account_within, is_rule_within};
ghost use Rattle.ebs_row_rules.specs.Owners.{is_owned_rule};
ghost use Rattle.ebs_catalog.specs.Held.{rows_in};
ghost use Rattle.ebs_catalog.specs.Sound.{AreBooks};
ghost use Rattle.ebs_restored_rows.specs.Placed.{put_all, with_book, with_rule};
ghost use Rattle.ebs_restored_rows.specs.Restores.{HasRuleNumbers};
ghost use Rattle.ebs_restored_rows.specs.Said.{books_said};
ghost use Rattle.ebs_restored_rows.specs.Shelves.{AreListed, MayShelve, books_in, with_found};

use ebs_bin::Rules;
use ebs_catalog::Catalog;
use ebs_checkpoints::{AccountRow, RuleRows};
use ebs_model::{Account, Rule, RuleChange};
use ebs_tables::Table;
use std::alloc::{AllocError, Global};

/// Puts the rules of all accounts into a catalog that has none.
pub(crate) fn restore_books(
    alloc: Global,
    catalog: &mut Catalog,
    accounts: &[AccountRow],
    rules: RuleRows,
) -> Result<(), AllocError>
    requires none { (rows_in catalog.old).books ≡ map.empty }
    requires numbers { list_all is_account_within accounts.now ≡ true }
    requires days { list_all is_rule_within rules ≡ true }
    requires owned { list_all (is_owned_rule accounts.now) rules ≡ true }
    ensures rows { OnOk result (rows_in catalog.new ≡ record (rows_in catalog.old) { books = books_said accounts.now rules }) }
    ensures latest { catalog.new.latest ≡ catalog.old.latest }
{
    let mut shelves = empty_shelves(alloc, accounts)?;
    fill_shelves(&mut shelves, rules)?;
    restore_shelves(catalog, accounts, shelves)?;
    Ok(())
}

// A shelf for each account that has made a rule.
fn empty_shelves(
    alloc: Global,
    accounts: &[AccountRow],
) -> Result<Table<Account, Rules>, AllocError>
    requires { All HasRuleNumbers accounts.now }
    ensures books { IfOk result (λ shelves. books_in (seen nat_cmp shelves) ≡ put_all with_book map.empty accounts.now) }
    ensures sound { IfOk result (λ shelves. AreBooks (seen nat_cmp shelves)) }
{
    let mut shelves = Table::new(alloc);
    let mut at = accounts.len();
    while at > 0 {
        at -= 1;
        add_shelf(alloc, &mut shelves, &accounts[at])?;
    }
    Ok(shelves)
}

fn add_shelf(
    alloc: Global,
    shelves: &mut Table<Account, Rules>,
    row: &AccountRow,
) -> Result<(), AllocError>
    requires numbers { HasRuleNumbers row.now }
    requires sound { AreBooks (seen nat_cmp shelves.old) }
    ensures books { OnOk result (books_in (seen nat_cmp shelves.new) ≡ with_book (books_in (seen nat_cmp shelves.old)) row.now) }
    ensures sound { OnOk result (AreBooks (seen nat_cmp shelves.new)) }
{
    if row.next_rule > 0 {
        let shelf = Rules::new(alloc, row.account, row.next_rule);
        shelves.insert(row.account, shelf)?;
    }
    Ok(())
}

// Puts each rule on its account's shelf.
fn fill_shelves(shelves: &mut Table<Account, Rules>, rules: RuleRows) -> Result<(), AllocError>
    requires there { All (MayShelve (books_in (seen nat_cmp shelves.old))) rules }
    requires sound { AreBooks (seen nat_cmp shelves.old) }
    ensures books { OnOk result (books_in (seen nat_cmp shelves.new) ≡ put_all with_rule (books_in (seen nat_cmp shelves.old)) rules) }
    ensures sound { OnOk result (AreBooks (seen nat_cmp shelves.new)) }
{
    let mut rest = rules.into_vec();
    'rule: while let Some(rule) = rest.pop() {
        shelve(shelves, rule)?;
    }
    Ok(())
}

fn shelve(shelves: &mut Table<Account, Rules>, rule: Rule) -> Result<(), AllocError>
    requires there { MayShelve (books_in (seen nat_cmp shelves.old)) rule }
    requires sound { AreBooks (seen nat_cmp shelves.old) }
    ensures books { OnOk result (books_in (seen nat_cmp shelves.new) ≡ with_rule (books_in (seen nat_cmp shelves.old)) rule) }
    ensures sound { OnOk result (AreBooks (seen nat_cmp shelves.new)) }
{
    let key = rule.key;
    let kept = rule;
    let Some(mut shelf) = shelves.remove(&key.account) else {
        unreachable!()
    };
    put_rule(&mut shelf, kept)?;
    shelves.insert(key.account, shelf)?;
    Ok(())
}

fn put_rule(shelf: &mut Rules, rule: Rule) -> Result<(), AllocError>
    ensures rules { OnOk result (book shelf.new ≡ committed (book shelf.old) (Put rule)) }
    ensures account { shelf.new.account ≡ shelf.old.account }
{
    let change = RuleChange::Put(rule);
    shelf.prepare(&change)?;
    shelf.commit(change);
    Ok(())
}

// Puts all shelves into a catalog that has no rules.
fn restore_shelves(
    catalog: &mut Catalog,
    accounts: &[AccountRow],
    shelves: Table<Account, Rules>,
) -> Result<(), AllocError>
    requires none { (rows_in catalog.old).books ≡ map.empty }
    requires sound { AreBooks (seen nat_cmp shelves) }
    requires listed { AreListed accounts.now (books_in (seen nat_cmp shelves)) }
    ensures rows { OnOk result (rows_in catalog.new ≡ record (rows_in catalog.old) { books = books_in (seen nat_cmp shelves) }) }
    ensures latest { catalog.new.latest ≡ catalog.old.latest }
{
    let mut left = shelves;
    let mut at = accounts.len();
    while at > 0 {
        at -= 1;
        restore_shelf(catalog, &mut left, accounts[at].account)?;
    }
    Ok(())
}

// Puts the account's shelf into the catalog, where it has one.
fn restore_shelf(
    catalog: &mut Catalog,
    shelves: &mut Table<Account, Rules>,
    account: Account,
) -> Result<(), AllocError>
    requires sound { AreBooks (seen nat_cmp shelves.old) }
    ensures rows { OnOk result (rows_in catalog.new ≡ record (rows_in catalog.old) { books = with_found (rows_in catalog.old).books account (map.get (books_in (seen nat_cmp shelves.old)) account) }) }
    ensures latest { catalog.new.latest ≡ catalog.old.latest }
    ensures left { OnOk result (books_in (seen nat_cmp shelves.new) ≡ map.remove (books_in (seen nat_cmp shelves.old)) account) }
    ensures sound { OnOk result (AreBooks (seen nat_cmp shelves.new)) }
{
    let Some(shelf) = shelves.remove(&account) else {
        return Ok(());
    };
    catalog.restore_rules(shelf)?;
    Ok(())
}
