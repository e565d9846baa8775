//! The archive tier: where a snapshot's blocks stand at a moment, and what an archive or a restore makes of that
//! (EBS User Guide, archive tier).
#![tactic(auto)]

mod laws;
mod moves;
mod tier;

pub use laws::{archive_is_undone, restore_ends};
pub use moves::{Moves, Wanted};
pub use tier::{archive, restore};
