// Whether a checkpoint has every rule.
ghost use Rattle.std.specs.Prelude.{◌≡◌, ◌&&◌, true, IfOk};
ghost use Rattle.ebs_row_rules.specs.Order.{is_ordered};
ghost use Rattle.ebs_row_rules.specs.Limits as limits;
ghost use Rattle.ebs_row_rules.specs.Counts as counts;
ghost use Rattle.ebs_row_rules.specs.Owners as owners;
ghost use Rattle.ebs_row_rules.specs.Slots as slots;
ghost use Rattle.ebs_node_rules.specs.Nodes.{is_forest};
ghost use Rattle.ebs_node_rules.specs.inner.Nodes.{EachBearsName};
ghost use Rattle.ebs_node_rules.specs.States.{fit_states};
ghost use Rattle.ebs_node_rules.specs.Arrays.{fit_arrays};
ghost use Rattle.ebs_checkpoint_rules.specs.Rules.{HasRules};

use ebs_checkpoints::Checkpoint;
use ebs_node_rules::{are_forest, arrays_fit, states_fit};
use ebs_row_rules::{are_in_quotas, is_ordered, is_owned, is_stored, is_within};
use std::alloc::{AllocError, Global};

/// Whether the checkpoint has every rule.
pub fn has_rules(alloc: Global, point: &Checkpoint) -> Result<bool, AllocError>
    ensures rules { IfOk result (λ has. (has ≡ true → HasRules point.now) × (HasRules point.now → has ≡ true)) }
    ensures named { IfOk result (λ has. has ≡ true → EachBearsName point.now) }
{
    if !is_ordered(point) {
        return Ok(false);
    }
    Ok(rows_have_rules(alloc, point)? && nodes_have_rules(alloc, point)?)
}

/// Whether rows, stamps and slots have theirs.
fn rows_have_rules(alloc: Global, point: &Checkpoint) -> Result<bool, AllocError>
    requires { is_ordered point.now ≡ true }
    ensures { IfOk result (λ have. have ≡ (limits.is_within point.now && (counts.are_in_quotas point.now && (owners.is_owned point.now && slots.is_stored point.now)))) }
{
    let within = is_within(point) && are_in_quotas(point) && is_owned(point);
    Ok(within && is_stored(alloc, point)?)
}

/// Whether nodes have theirs, and what stands at their indexes.
fn nodes_have_rules(alloc: Global, point: &Checkpoint) -> Result<bool, AllocError>
    requires { is_ordered point.now ≡ true }
    ensures rules { IfOk result (λ have. have ≡ (is_forest point.now && (fit_states point.now && fit_arrays point.now))) }
    ensures named { IfOk result (λ have. have ≡ true → EachBearsName point.now) }
{
    Ok(are_forest(alloc, point)? && states_fit(point) && arrays_fit(alloc, point)?)
}
