// JSON objects of texts, whole numbers and arrays.
ghost use Rattle.std.specs.Prelude.{◌≡◌, false};
ghost use Rattle.serde_json.specs.View.{members_view};
ghost use Rattle.serde_json.specs.Written.{members_have_float};

use crate::array::array_of;
use crate::shown::Shown;
use serde_json::{Map, Value};
use std::alloc::{AllocError, Global};

/// A JSON object under construction, without floats.
#[derive(Drop)]
pub struct Object {
    alloc: Global,
    members: Map<String, Value>,
    ghost floatless: { members_have_float (members_view members.entries) ≡ false },
}

impl Object {
    ghost use Rattle.std.specs.Prelude.{◌≡◌, false, string_bytes, map, option_map, IfOk, OnOk};
    ghost use Rattle.serde_json.specs.Data.{no_members, put, string, array, object};
    ghost use Rattle.serde_json.specs.View.{view, items_of};
    ghost use Rattle.serde_json.specs.Written.{has_float};
    ghost use Rattle.ebs_shown.specs.inner.Members.{members_of};
    ghost use Rattle.ebs_shown.specs.Values.{object_text, put_some, whole};

    pub fn new(alloc: Global) -> Self
        ensures { members_of result ≡ no_members }
    {
        Object {
            alloc,
            members: Map::new(alloc),
        }
    }

    pub fn alloc(&self) -> Global {
        self.alloc
    }

    #[tactic(auto, using(crate::proofs::Floats::floatless_put))]
    pub fn put(&mut self, key: &str, value: Value) -> Result<(), AllocError>
        requires { has_float (view value) ≡ false }
        ensures { OnOk result (members_of self.new ≡ put key.now (view value) (members_of self.old)) }
    {
        serde_json::put(&mut self.members, self.alloc, key, value)
    }

    pub fn put_text(&mut self, key: &str, text: &str) -> Result<(), AllocError>
        ensures { OnOk result (members_of self.new ≡ put key.now (string text.now) (members_of self.old)) }
    {
        self.put(key, Value::try_from_str(self.alloc, text)?)
    }

    /// The member with what is shown of a value.
    pub fn put_shown<T: Shown>(&mut self, key: &str, value: &T) -> Result<(), AllocError>
        ensures { OnOk result (members_of self.new ≡ put key.now (T.shown value.now) (members_of self.old)) }
    {
        self.put(key, value.to_value(self.alloc)?)
    }

    /// The same, where there is a value.
    pub fn put_some<T: Shown>(&mut self, key: &str, value: &Option<T>) -> Result<(), AllocError>
        ensures { OnOk result (members_of self.new
            ≡ put_some key.now (option_map T.shown value.now) (members_of self.old)) }
    {
        match value {
            Some(value) => self.put_shown(key, value),
            None => Ok(()),
        }
    }

    /// The member with an array of these.
    pub fn put_all<T: Shown>(&mut self, key: &str, items: &[T]) -> Result<(), AllocError>
        ensures { OnOk result (members_of self.new
            ≡ put key.now (array (items_of (map T.shown items.now))) (members_of self.old)) }
    {
        self.put(key, array_of(self.alloc, items)?)
    }

    pub fn put_number(&mut self, key: &str, number: u64) -> Result<(), AllocError>
        ensures { OnOk result (members_of self.new ≡ put key.now (whole number) (members_of self.old)) }
    {
        self.put(key, Value::from(number))
    }

    pub fn into_value(self) -> Value
        ensures value { view result ≡ object (members_of self) }
        ensures floatless { has_float (view result) ≡ false }
    {
        Value::Object(self.members)
    }

    /// The object's text, without spaces.
    #[tactic(auto, unfolding(crate::specs::Values::object_text))]
    pub fn text(self) -> Result<String, AllocError>
        ensures { IfOk result (λ text. string_bytes text ≡ object_text (members_of self)) }
    {
        let alloc = self.alloc;
        self.into_value().to_string(alloc)
    }
}
