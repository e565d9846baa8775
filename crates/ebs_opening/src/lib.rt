//! The store of a disk: opened, or made where there is none.
#![tactic(auto)]

mod opening;

pub use opening::{open_or_make, refusal_of};
