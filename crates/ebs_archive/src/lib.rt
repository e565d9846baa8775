//! Copies of blocks in the archive, by snapshot and index.
#![tactic(auto)]

mod copies;
mod copy_key;

pub use copies::{ArchiveCopy, Copies};
pub use copy_key::CopyKey;
