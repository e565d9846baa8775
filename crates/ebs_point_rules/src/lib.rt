//! What a lawful machine at rest gives the checkpoint that says it: all rules, once its nodes, slots and copies are laid out. Each law is a function
//! with an empty body.
#![tactic(auto)]

mod groups;
mod lists;
mod wholes;

pub use groups::{arrays_fit, nothing_is_moved, shown_are_given, stamps_are_stored, states_fit};
pub use lists::lists_say_machines;
pub use wholes::{machines_are_settled, point_has_all_rules, rules_give_spelling};
