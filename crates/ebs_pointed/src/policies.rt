// Lifecycle policies.
ghost use Rattle.std.specs.Prelude.{◌≡◌, IfOk, map as list_map};
ghost use Rattle.std.specs.List.{AllByRecursion};
ghost use Rattle.std.specs.FinMap as map;
ghost use Rattle.ebs_model.specs.declared.policy.Policy.{Policy};
ghost use Rattle.ebs_catalog.specs.Held.{rows_in};
ghost use Rattle.ebs_point_rules.specs.Values.{HasPolicyValues};
ghost use Rattle.ebs_pointed.specs.Placed.{ArePlaced, HaveKeys};

use crate::copies::copy_policy;
use crate::fields::check_policy;
use ebs_catalog::Catalog;
use ebs_checkpoints::PolicyRows;
use ebs_model::{Policy, PolicyKey};
use ebs_tables::Filled;
use std::alloc::{AllocError, Global};

/// All policies in ascending key.
pub fn policies_of(alloc: Global, catalog: &Catalog) -> Result<PolicyRows, AllocError>
    requires { ArePlaced (λ (policy : Policy). policy.key) (rows_in catalog.now).policies }
    ensures listed { IfOk result (λ rows. map.entries (rows_in catalog.now).policies ≡ list_map (λ (p : Policy). (p.key, p)) rows) }
    ensures values { IfOk result (λ rows. AllByRecursion HasPolicyValues rows) }
{
    let rows = rows_of(alloc, catalog.whole_policies())?;
    Ok(rows)
}

fn rows_of(alloc: Global, policies: Filled<'_, PolicyKey, Policy>) -> Result<PolicyRows, AllocError>
    requires { HaveKeys (λ (policy : Policy). policy.key) policies }
    ensures listed { IfOk result (λ rows. policies.entry ≡ list_map (λ (p : Policy). (p.key, p)) rows) }
    ensures values { IfOk result (λ rows. AllByRecursion HasPolicyValues rows) }
{
    let mut rows = PolicyRows::new(alloc);
    for (_, policy) in policies {
        let copy = copy_policy(alloc, policy)?;
        check_policy(&copy);
        rows.push(copy)?;
    }
    Ok(rows)
}
