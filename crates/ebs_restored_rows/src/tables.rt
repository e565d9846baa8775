// All rows of a checkpoint.
ghost use Rattle.std.specs.Prelude.{◌≡◌, IfOk, OnOk};
ghost use Rattle.ebs_model.specs.inner.Rows.{no_rows};
ghost use Rattle.ebs_catalog.specs.Held.{rows_in};
ghost use Rattle.ebs_restored_rows.specs.Restores.{MayRestore};
ghost use Rattle.ebs_restored_rows.specs.Said.{rows_said};

use crate::accounts::restore_accounts;
use crate::books::restore_books;
use crate::owned::{restore_policies, restore_volumes};
use crate::snapshots::restore_snapshots;
use ebs_catalog::Catalog;
use ebs_checkpoints::{AccountRows, PolicyRows, RuleRows, SnapPoints, VolPoints};
use std::alloc::{AllocError, Global};

/// The rows that a checkpoint's lists say. No row is copied, and it fails only for want of memory.
pub fn catalog_of(
    alloc: Global,
    accounts: AccountRows,
    snapshots: SnapPoints,
    volumes: VolPoints,
    rules: RuleRows,
    policies: PolicyRows,
) -> Result<Catalog, AllocError>
    requires { MayRestore accounts snapshots volumes rules policies }
    ensures rows { IfOk result (λ catalog. rows_in catalog ≡ rows_said accounts snapshots volumes rules policies) }
    ensures latest { IfOk result (λ catalog. catalog.latest ≡ 0) }
{
    let mut catalog = Catalog::new(alloc);
    restore_all(
        alloc,
        &mut catalog,
        accounts,
        snapshots,
        volumes,
        rules,
        policies,
    )?;
    Ok(catalog)
}

fn restore_all(
    alloc: Global,
    catalog: &mut Catalog,
    accounts: AccountRows,
    snapshots: SnapPoints,
    volumes: VolPoints,
    rules: RuleRows,
    policies: PolicyRows,
) -> Result<(), AllocError>
    requires none { rows_in catalog.old ≡ no_rows }
    requires lists { MayRestore accounts snapshots volumes rules policies }
    ensures rows { OnOk result (rows_in catalog.new ≡ rows_said accounts snapshots volumes rules policies) }
    ensures latest { catalog.new.latest ≡ catalog.old.latest }
{
    restore_books(alloc, catalog, accounts.as_slice(), rules)?;
    restore_accounts(catalog, accounts)?;
    restore_snapshots(alloc, catalog, snapshots)?;
    restore_volumes(catalog, volumes)?;
    restore_policies(catalog, policies)?;
    Ok(())
}
