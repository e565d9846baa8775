//! Lifecycle policies by key, each within the limits of its creation.
#![tactic(auto)]

mod policies;

pub use policies::Policies;
