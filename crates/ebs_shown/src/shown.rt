// What has a value in JSON.
ghost use Rattle.std.specs.Prelude.{◌≡◌, false, IfOk};
ghost use Rattle.serde_json.specs.Data.{Data};
ghost use Rattle.serde_json.specs.View.{view};
ghost use Rattle.serde_json.specs.Written.{has_float};

use serde_json::Value;
use std::alloc::{AllocError, Global};

/// What is shown as a value in JSON, without floats.
pub trait Shown {
    ghost shown: { Self → Data };

    fn to_value(&self, alloc: Global) -> Result<Value, AllocError>
        ensures value { IfOk result (λ value. view value ≡ shown self.now) }
        ensures floatless { IfOk result (λ value. has_float (view value) ≡ false) };
}
