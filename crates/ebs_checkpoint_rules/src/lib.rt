//! Checkpoints that can be those of a store: the bytes of one, exactly where its parts have all rules.
#![tactic(auto)]

mod laws;
mod points;
mod rules;

pub use laws::written_is_read;
pub use points::{read_checkpoint, write_checkpoint};
pub use rules::has_rules;
