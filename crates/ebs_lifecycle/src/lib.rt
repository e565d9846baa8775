//! Lifecycle policies: when one is due, and which of the snapshots that it made are given up (Amazon Data Lifecycle
//! Manager).
#![tactic(auto)]

mod calendar;
mod laws;
mod ranks;
mod retention;
mod schedule;

pub use laws::{
    at_most_stay, due_apart, due_each_day, due_latest, due_next, locked_stay, newest_stays,
    picked_stay_picked,
};
pub use retention::{Picked, to_delete};
pub use schedule::due;
