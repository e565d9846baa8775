// JSON arrays.
ghost use Rattle.std.specs.Prelude.{◌≡◌, false, map, IfOk};
ghost use Rattle.serde_json.specs.Data.{array};
ghost use Rattle.serde_json.specs.View.{view, items_of};
ghost use Rattle.serde_json.specs.Written.{has_float, items_have_float};

use crate::shown::Shown;
use serde_json::Value;
use std::alloc::{AllocError, Global};

/// A JSON array under construction, without floats.
#[derive(Drop)]
struct Array {
    items: Vec<Value>,
    ghost floatless: { items_have_float (items_of (map view items.items)) ≡ false },
}

impl Array {
    ghost use Rattle.std.specs.Prelude.{◌≡◌, [], ◌∷◌, ◌++◌, false, OnOk};
    ghost use Rattle.serde_json.specs.Data.{array};
    ghost use Rattle.serde_json.specs.View.{view, items_of};
    ghost use Rattle.serde_json.specs.Written.{has_float};
    ghost use Rattle.ebs_shown.specs.inner.Members.{items_of_array};

    #[tactic(auto, using(crate::proofs::Floats::floatless_push))]
    fn push(&mut self, value: Value) -> Result<(), AllocError>
        requires { has_float (view value) ≡ false }
        ensures { OnOk result (items_of_array self.new ≡ items_of_array self.old ++ view value ∷ []) }
    {
        serde_json::push(&mut self.items, value)
    }

    fn into_value(self) -> Value
        ensures value { view result ≡ array (items_of (items_of_array self)) }
        ensures floatless { has_float (view result) ≡ false }
    {
        Value::Array(self.items)
    }
}

/// The array of these.
pub fn array_of<T: Shown>(alloc: Global, items: &[T]) -> Result<Value, AllocError>
    ensures value { IfOk result (λ value. view value ≡ array (items_of (map T.shown items.now))) }
    ensures floatless { IfOk result (λ value. has_float (view value) ≡ false) }
{
    let none = Vec::new(alloc);
    let mut array = Array { items: none };
    for item in items {
        array.push(item.to_value(alloc)?)?;
    }
    Ok(array.into_value())
}
