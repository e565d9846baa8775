//! The lineage and the slots that a checkpoint says.
#![tactic(auto)]

mod counted;
mod laws;
mod regrown;

pub use counted::count_slots;
pub use laws::regrown_is_counted;
pub use regrown::{Regrown, regrow};
