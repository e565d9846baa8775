//! The exchanges of sessions: messages with their answers, and what follows of any that a machine went through.
#![tactic(auto)]

mod falls;
mod lives;

pub use falls::answers_fall;
pub use lives::{life_goes_on, read_back, run_is_of_calls, stop_forgets_time_alone};
