// The ids of policies and of resources of any kind.
ghost use Rattle.std.specs.Prelude.{◌≡◌, IfOk};
ghost use Rattle.ebs_shown.specs.Values as spec;

use crate::shown::Shown;
use ebs_model::{AnyKey, PolicyKey, Text, policy_text, rule_text, snap_text, vol_text};
use serde_json::Value;
use std::alloc::{AllocError, Global};

fn any_text(alloc: Global, key: AnyKey) -> Result<Text, AllocError>
    ensures { IfOk result (λ text. text ≡ spec.any_id key) }
{
    match key {
        AnyKey::Snap(key) => snap_text(alloc, key),
        AnyKey::Vol(key) => vol_text(alloc, key),
        AnyKey::Rule(key) => rule_text(alloc, key),
        AnyKey::Policy(key) => policy_text(alloc, key),
    }
}

impl Shown for PolicyKey {
    ghost shown = { spec.policy_id_shown };

    fn to_value(&self, alloc: Global) -> Result<Value, AllocError> {
        Value::try_from_str(alloc, policy_text(alloc, *self)?.as_str())
    }
}

impl Shown for AnyKey {
    ghost shown = { spec.any_id_shown };

    fn to_value(&self, alloc: Global) -> Result<Value, AllocError> {
        Value::try_from_str(alloc, any_text(alloc, *self)?.as_str())
    }
}
