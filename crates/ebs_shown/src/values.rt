// How moments, ids, accounts, tags and bytes are shown.
ghost use Rattle.std.specs.Prelude.{◌≡◌, codes, string_bytes, IfOk, OnOk};
ghost use Rattle.serde_json.specs.Data.{string};
ghost use Rattle.ebs_shown.specs.inner.Members.{members_of};
ghost use Rattle.ebs_shown.specs.Values.{put_some, whole};
ghost use Rattle.ebs_shown.specs.Values as spec;

use crate::object::Object;
use crate::shown::Shown;
use base64::engine::general_purpose::STANDARD;
use ebs_model::{
    Account, Moment, Permission, SnapKey, Tag, Text, VolKey, account_text, snap_text, vol_text,
};
use serde_json::Value;
use std::alloc::{AllocError, Global};

#[tactic(auto, unfolding(crate::specs::Values::base64_text))]
pub fn base64_text(alloc: Global, bytes: &[u8]) -> Result<String, AllocError>
    ensures { IfOk result (λ text. string_bytes text ≡ spec.base64_text bytes.now) }
{
    STANDARD.encode(alloc, bytes)
}

/// The member with an object for each tag, where there are any.
pub fn put_tags(object: &mut Object, tags: &[Tag]) -> Result<(), AllocError>
    ensures { OnOk result (members_of object.new
        ≡ put_some (codes "Tags") (spec.tags_shown tags.now) (members_of object.old)) }
{
    if tags.is_empty() {
        return Ok(());
    }
    object.put_all("Tags", tags)
}

impl Shown for u32 {
    ghost shown = { whole };

    fn to_value(&self, _: Global) -> Result<Value, AllocError> {
        Ok(Value::from(u64::from(*self)))
    }
}

impl Shown for Text {
    ghost shown = { string };

    fn to_value(&self, alloc: Global) -> Result<Value, AllocError> {
        Value::try_from_str(alloc, self.as_str())
    }
}

impl Shown for Moment {
    ghost shown = { spec.moment_shown };

    fn to_value(&self, _: Global) -> Result<Value, AllocError> {
        Ok(Value::from(self.second))
    }
}

impl Shown for SnapKey {
    ghost shown = { spec.id_shown };

    fn to_value(&self, alloc: Global) -> Result<Value, AllocError> {
        Value::try_from_str(alloc, snap_text(alloc, *self)?.as_str())
    }
}

impl Shown for VolKey {
    ghost shown = { spec.volume_shown };

    fn to_value(&self, alloc: Global) -> Result<Value, AllocError> {
        Value::try_from_str(alloc, vol_text(alloc, *self)?.as_str())
    }
}

impl Shown for Account {
    ghost shown = { spec.account_shown };

    fn to_value(&self, alloc: Global) -> Result<Value, AllocError> {
        Value::try_from_str(alloc, account_text(alloc, *self)?.as_str())
    }
}

impl Shown for Tag {
    ghost shown = { spec.tag_shown };

    fn to_value(&self, alloc: Global) -> Result<Value, AllocError> {
        let mut object = Object::new(alloc);
        object.put_text("Value", self.value.as_str())?;
        object.put_text("Key", self.key.as_str())?;
        Ok(object.into_value())
    }
}

impl Shown for Permission {
    ghost shown = { spec.permission_shown };

    fn to_value(&self, alloc: Global) -> Result<Value, AllocError> {
        let mut object = Object::new(alloc);
        object.put("Public", Value::Bool(self.public))?;
        object.put_all("Accounts", self.accounts.as_slice())?;
        Ok(object.into_value())
    }
}
