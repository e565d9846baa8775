// The entries of lists of blocks.
ghost use Rattle.ebs_shown.specs.Values as spec;

use crate::object::Object;
use crate::shown::Shown;
use ebs_model::{BlockEntry, ChangedToken};
use serde_json::Value;
use std::alloc::{AllocError, Global};

impl Shown for BlockEntry {
    ghost shown = { spec.block_shown };

    fn to_value(&self, alloc: Global) -> Result<Value, AllocError> {
        let mut object = Object::new(alloc);
        object.put_text("BlockToken", self.token.as_str())?;
        object.put_number("BlockIndex", u64::from(self.index))?;
        Ok(object.into_value())
    }
}

impl Shown for ChangedToken {
    ghost shown = { spec.changed_shown };

    fn to_value(&self, alloc: Global) -> Result<Value, AllocError> {
        let mut object = Object::new(alloc);
        object.put_some("SecondBlockToken", &self.second)?;
        object.put_some("FirstBlockToken", &self.first)?;
        object.put_number("BlockIndex", u64::from(self.index))?;
        Ok(object.into_value())
    }
}
