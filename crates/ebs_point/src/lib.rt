//! The checkpoint of what a store keeps.
#![tactic(auto)]

mod fields;
mod live;
mod nodes;
mod pointing;
mod short;
mod slots;

pub use pointing::point;
pub use short::has_short_lists;
