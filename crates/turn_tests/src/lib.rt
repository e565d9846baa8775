//! Tests of turns, over the public calls alone.
#![tactic(auto)]

#[cfg(test)]
mod tests;
