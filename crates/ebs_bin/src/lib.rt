//! The retention rules of an account's Recycle Bin: what they keep of a snapshot, and what a command makes of them
//! (Recycle Bin documentation).
#![tactic(auto)]

mod decides;
mod failure;
mod laws;
mod retention;
mod rules;

pub use decides::copy_rule_tags;
pub use failure::RuleFailure;
pub use laws::{locked_rule_stays, longest_rule_wins, number_is_new};
pub use retention::matches;
pub use rules::Rules;
