//! Messages that a store on a disk answers, and what follows of many of them, or of a command's own calls: what the machine does, and what a crash at any moment leaves.
#![tactic(auto)]

mod laws;
mod service;

pub use laws::{answers_stay, failures_are_counted, own_calls_stand, sessions_stand};
pub use service::Service;
