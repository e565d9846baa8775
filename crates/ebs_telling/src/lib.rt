//! What the programs tell on standard error of how they ended.
#![tactic(auto)]

mod cause;
mod telling;

pub use cause::Cause;
pub use telling::{tell, tell_made};
