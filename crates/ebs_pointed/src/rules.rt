// Rules of the Recycle Bin.
ghost use Rattle.std.specs.Prelude.{◌≡◌, true, ◌++◌, ℕ, map as list_map, IfOk, OnOk};
ghost use Rattle.std.specs.List.{AllByRecursion};
ghost use Rattle.ebs_model.specs.declared.rules.Rule.{Rule};
ghost use Rattle.ebs_bin.specs.Books.{Shelf, book};
ghost use Rattle.ebs_row_rules.specs.Order.{ascends, rule_cmp};
ghost use Rattle.ebs_catalog.specs.Held.{rows_in};
ghost use Rattle.ebs_point_rules.specs.Values.{HasRuleValues};
ghost use Rattle.ebs_pointed.specs.Rules.{AreNumbered, AreRulesOf, all_in_order, in_order};

use crate::copies::copy_rule;
use crate::fields::check_rule;
use ebs_bin::Rules;
use ebs_catalog::Catalog;
use ebs_checkpoints::RuleRows;
use ebs_model::Account;
use ebs_tables::Filled;
use std::alloc::{AllocError, Global};

/// The rules of all accounts in ascending key.
pub fn rules_of(alloc: Global, catalog: &Catalog) -> Result<RuleRows, AllocError>
    requires { AreNumbered (rows_in catalog.now).books }
    ensures listed { IfOk result (λ rows. AreRulesOf (rows_in catalog.now).books rows) }
    ensures ascend { IfOk result (λ rows. ascends rule_cmp (λ (r : Rule). r.key) rows ≡ true) }
    ensures values { IfOk result (λ rows. AllByRecursion HasRuleValues rows) }
{
    let rows = all_of(alloc, catalog.rules())?;
    Ok(rows)
}

fn all_of(alloc: Global, shelves: Filled<'_, Account, Rules>) -> Result<RuleRows, AllocError>
    ensures all { IfOk result (λ rows. rows ≡ all_in_order (list_map (λ (e : ℕ × Shelf). (e.0, book e.1)) shelves.entry)) }
    ensures values { IfOk result (λ rows. AllByRecursion HasRuleValues rows) }
{
    let mut rows = RuleRows::new(alloc);
    for (_, rules) in shelves {
        add_rules(alloc, &mut rows, rules)?;
    }
    Ok(rows)
}

// One account's rules come behind the others.
fn add_rules(alloc: Global, rows: &mut RuleRows, rules: &Rules) -> Result<(), AllocError>
    ensures rows { OnOk result (rows.new ≡ rows.old ++ in_order (book rules.now).rules) }
    ensures values { OnOk result (AllByRecursion HasRuleValues rows.old → AllByRecursion HasRuleValues rows.new) }
{
    for (_, rule) in rules.all() {
        let copy = copy_rule(alloc, rule)?;
        check_rule(&copy);
        rows.push(copy)?;
    }
    Ok(())
}
