// Tags and other small lists.
ghost use Rattle.std.specs.Prelude.{◌≡◌, IfOk};

use crate::keys::Account;
use crate::text::Text;
use ebs_tables::Sequence;
use std::alloc::{AllocError, Global};

/// A tag of a resource: its key of 1 to 128 bytes, and its value of at most 256 bytes.
#[derive(Debug, Drop, PartialEq, Eq)]
pub struct Tag {
    pub key: Text,
    pub value: Text,
}

/// Tags in the order in which they were given.
pub type Tags = Sequence<Tag>;

/// Accounts, each once and ascending.
pub type Accounts = Sequence<Account>;

/// The same tags once more.
pub fn copy_tags(alloc: Global, tags: &Tags) -> Result<Tags, AllocError>
    ensures { IfOk result (λ copy. copy ≡ tags.now) }
{
    let mut copies = Vec::new(alloc);
    for tag in tags.as_slice() {
        let copy = Tag {
            key: tag.key.copy()?,
            value: tag.value.copy()?,
        };
        copies.push(copy)?;
    }
    Ok(Sequence::from_vec(copies))
}
