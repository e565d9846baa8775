//! Slots for blocks in an area of a disk: each key has one, and a block that has no key yet has one under lease.
#![tactic(auto)]

mod choosing;
mod laws;
mod lease;
mod place;
mod prepared;
mod reading;
mod refusal;
mod slots;
mod spare_map;
mod staging;

pub use laws::{blocks_stay, one_block, slots_apart};
pub use lease::Lease;
pub use prepared::{Prepared, WrongLength};
pub use refusal::{ReadRefusal, StageRefusal};
pub use slots::Slots;
