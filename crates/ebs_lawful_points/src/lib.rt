//! What a checkpoint with all rules says is a lawful machine, and the rules that a lawful machine gives; and the stamps of a machine's blocks. Each law is a
//! function with an empty body.
#![tactic(auto)]

mod blocks;
mod points;

pub use blocks::{points_have_stamps, stamps_are_kept};
pub use points::{laws_give_rules, points_are_lawful, rows_have_rules};
