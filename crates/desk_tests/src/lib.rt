//! Tests of a desk, over its public calls alone.
#![tactic(auto)]

mod play;
#[cfg(test)]
mod tests;

pub use play::{Outcome, Row, Step, Worker, is_played, played, with_pass, work_all};
