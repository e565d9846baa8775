//! Pages of the lists of blocks (EBS direct APIs reference, ListSnapshotBlocks and ListChangedBlocks).
#![tactic(auto)]

mod cursor;
mod laws;
mod lineages;
mod lists;
mod pages;
mod pairs;
mod window;

pub use laws::{nothing_changed, pages_of_blocks, pages_of_changes, sides_exchanged};
pub use lineages::{list_blocks, list_changed};
pub use lists::{list_blocks_of, list_changed_of};
pub use pages::{ChangedEntries, ChangedEntry, ChangedPage, Entries, Page, PageEntry};
