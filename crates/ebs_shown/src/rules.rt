// The row of a Recycle Bin rule.
ghost use Rattle.std.specs.Prelude.{◌≡◌, codes, IfOk, OnOk};
ghost use Rattle.ebs_shown.specs.inner.Members.{members_of};
ghost use Rattle.ebs_shown.specs.Values.{put_some};
ghost use Rattle.ebs_shown.specs.Values as spec;

use crate::names::rule_lock_text;
use crate::object::Object;
use crate::shown::Shown;
use ebs_model::{RuleKey, RuleTag, RuleView, rule_text};
use serde_json::Value;
use std::alloc::{AllocError, Global};

#[tactic(auto, unfolding(crate::specs::Values::rule_members))]
pub fn rule_object(alloc: Global, row: &RuleView) -> Result<Object, AllocError>
    ensures { IfOk result (λ object. members_of object ≡ spec.rule_members row.now) }
{
    let mut object = Object::new(alloc);
    object.put_shown("RetentionDays", &row.days)?;
    put_rule_tags(&mut object, row.tags.as_slice())?;
    object.put_text("LockState", rule_lock_text(row.lock))?;
    object.put_some("LockEnd", &row.lock_end)?;
    object.put_shown("Identifier", &row.key)?;
    object.put_some("Description", &row.description)?;
    Ok(object)
}

/// The member with an object for each resource tag, where there are any.
fn put_rule_tags(object: &mut Object, tags: &[RuleTag]) -> Result<(), AllocError>
    ensures { OnOk result (members_of object.new
        ≡ put_some (codes "ResourceTags") (spec.rule_tags_shown tags.now) (members_of object.old)) }
{
    if tags.is_empty() {
        return Ok(());
    }
    object.put_all("ResourceTags", tags)
}

impl Shown for RuleKey {
    ghost shown = { spec.rule_id_shown };

    fn to_value(&self, alloc: Global) -> Result<Value, AllocError> {
        Value::try_from_str(alloc, rule_text(alloc, *self)?.as_str())
    }
}

impl Shown for RuleTag {
    ghost shown = { spec.rule_tag_shown };

    fn to_value(&self, alloc: Global) -> Result<Value, AllocError> {
        let mut object = Object::new(alloc);
        object.put_some("ResourceTagValue", &self.value)?;
        object.put_text("ResourceTagKey", self.key.as_str())?;
        Ok(object.into_value())
    }
}

impl Shown for RuleView {
    ghost shown = { spec.rule_shown };

    fn to_value(&self, alloc: Global) -> Result<Value, AllocError> {
        Ok(rule_object(alloc, self)?.into_value())
    }
}
